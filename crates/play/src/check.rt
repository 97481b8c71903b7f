// The checks of the laws of whole runs, by the book.
use crate::counts::up;
use crate::law::Law;
use crate::run::Run;
use kind::Kind;

impl<K: Kind + Drop, J: Kind + Drop> Run<K, J> {
    // Is the site's reception vector of the article as the book has it?
    fn has_vector(&self, site: u8, article: u8) -> bool {
        (0..self.sites).all(|coordinator| self.known(site, article, site, coordinator)
            == Some(self.book.reach(site, article, coordinator)))
    }

    // Does the site's table say of `knower` no more than that site has?
    fn is_modest_about(&self, site: u8, article: u8, knower: u8) -> bool {
        (0..self.sites).all(|coordinator| {
            self.known(site, article, knower, coordinator).is_some_and(|known| known
                <= self.book.reach(knower, article, coordinator))
        })
    }

    // Checks the clock of a site, and law a and the belief for each article.
    pub(crate) fn check_site(&mut self, site: u8) {
        let is_on_time = self.clock(site) == Some(self.book.greatest(site));
        self.counts.hold(Law::Clock, site, is_on_time);
        for article in 0..self.articles {
            self.check_article(site, article);
        }
    }

    // Checks law a and the belief at one site for one article.
    fn check_article(&mut self, site: u8, article: u8) {
        let is_figure = self.figure(site, article) == Some(self.book.figure::<K>(site, article));
        self.counts.hold(Law::Figure, site, is_figure);
        let is_vector = self.has_vector(site, article);
        self.counts.hold(Law::Vector, site, is_vector);
        let is_modest = (0..self.sites).all(|knower| self.is_modest_about(site, article, knower));
        self.counts.hold(Law::Belief, site, is_modest);
        up(&mut self.counts.figures, 1);
    }

    // Has the site no open item for the article?
    fn is_closed_at(&self, site: u8, article: u8) -> bool {
        (0..self.sites).all(|peer| self.open_item(site, article, peer) == Some(false))
    }

    // Do two sites show the same figure and the same reception vector of the article?
    fn is_alike(&self, one: u8, other: u8, article: u8) -> bool {
        self.figure(one, article) == self.figure(other, article)
            && (0..self.sites).all(|coordinator| self.known(one, article, one, coordinator)
                == self.known(other, article, other, coordinator))
    }

    // Checks law b for one article: where nothing is open all sites are level, and each has every committed action.
    fn check_levels(&mut self, article: u8) {
        if !(0..self.sites).all(|site| self.is_closed_at(site, article)) {
            return;
        }
        up(&mut self.counts.levels, 1);
        if self.book.has_moved(article) {
            up(&mut self.counts.moved_levels, 1);
        }
        for site in 0..self.sites {
            let is_level = self.is_alike(0, site, article) && self.book.has_all(site, article);
            self.counts.hold(Law::Level, site, is_level);
        }
    }

    // Checks every site, and law b for every article.
    pub(crate) fn check_all(&mut self) {
        for site in 0..self.sites {
            self.check_site(site);
        }
        for article in 0..self.articles {
            self.check_levels(article);
        }
    }
}
