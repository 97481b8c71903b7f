use crate::counts::{up, up_by};
use crate::group::Group;
use crate::posted::Posted;
use crate::site::{ARTICLES, SITES};
use action::{ACTION_BYTES, MOST_SITES};
use history::{History, MOST_PLACES};
use message::{HEADER_BYTES, INTERVAL_BYTES, SECTION_BYTES};
use std::alloc::AllocError;

// As many bytes as the longest message has, an offer of all actions of a full history: one section, with an interval
// for each site.
const LONGEST: usize = HEADER_BYTES
    + SECTION_BYTES
    + MOST_SITES * INTERVAL_BYTES
    + MOST_PLACES * ACTION_BYTES;

// The largest share of a site is an eighth of a history. Each turn has a write at least, so no site has more turns.
const MOST_TURNS: usize = MOST_PLACES / MOST_SITES;

// The most passes of a levelling.
const MOST_PASSES: u8 = 100;

impl<K: Posted + Drop, H: History + Drop> Group<K, H> {
    // The sites post until their histories are full. They are brought level and looked at, and then they archive.
    pub(crate) fn season(&mut self) -> Result<(), AllocError> {
        let mut buffer = [0; LONGEST];
        self.share_out();
        self.post_all(&mut buffer)?;
        self.level(&mut buffer)?;
        self.look();
        self.count_full(&mut buffer);
        self.archive();
        Ok(())
    }

    // Shares the free places of a history out among the sites.
    fn share_out(&mut self) {
        let kept = self.sites.first().map_or(MOST_PLACES, |site| site.kept);
        let free = MOST_PLACES.saturating_sub(kept);
        let each = usize::from(SITES);
        for (number, site) in self.sites.iter_mut().enumerate() {
            site.share = free / each + usize::from(number < free % each);
        }
    }

    fn post_all(&mut self, buffer: &mut [u8]) -> Result<(), AllocError> {
        for _ in 0..MOST_TURNS {
            self.post_round(buffer)?;
        }
        Ok(())
    }

    // Each site with something left of its share has a turn.
    fn post_round(&mut self, buffer: &mut [u8]) -> Result<(), AllocError> {
        (0..SITES).try_for_each(|site| self.turn(site, buffer))
    }

    // A site posts, and sends its message to all others.
    fn turn(&mut self, number: u8, buffer: &mut [u8]) -> Result<(), AllocError> {
        let Some(site) = self.sites.get_mut(usize::from(number)) else {
            return Ok(());
        };
        if site.share == 0 {
            return Ok(());
        }
        let Some((actions, length)) = site.turn(&mut self.dice, buffer) else {
            return Ok(());
        };
        up(&mut self.counts.commits);
        up_by(&mut self.counts.actions, actions);
        let Some(message) = buffer.get(..length) else {
            return Ok(());
        };
        self.send_around(number, message)
    }

    fn send_around(&mut self, sender: u8, message: &[u8]) -> Result<(), AllocError> {
        for peer in 0..SITES {
            if peer != sender {
                self.send(message, peer)?;
            }
        }
        Ok(())
    }

    // Offers go round, pass after pass, until no site lacks anything or the passes are used up.
    fn level(&mut self, buffer: &mut [u8]) -> Result<(), AllocError> {
        for _ in 0..MOST_PASSES {
            let before = self.counts.offers;
            self.offer_all(buffer)?;
            self.deliver_all();
            if self.counts.offers == before {
                break;
            }
            up(&mut self.counts.passes);
        }
        Ok(())
    }

    fn offer_all(&mut self, buffer: &mut [u8]) -> Result<(), AllocError> {
        (0..ARTICLES).try_for_each(|article| self.offer_article(article, buffer))
    }

    fn offer_article(&mut self, article: u8, buffer: &mut [u8]) -> Result<(), AllocError> {
        (0..SITES).try_for_each(|site| self.offer_from(site, article, buffer))
    }

    fn offer_from(&mut self, site: u8, article: u8, buffer: &mut [u8]) -> Result<(), AllocError> {
        (0..SITES).try_for_each(|peer| self.offer(site, peer, article, buffer))
    }

    // Does the peer lack what the site could tell it of itself?
    fn is_due(&self, number: u8, peer: u8, article: u8) -> bool {
        let site = self.sites.get(usize::from(number));
        let peer = self.sites.get(usize::from(peer));
        match (site, peer) {
            (Some(site), Some(peer)) => peer.knows_less_of(site, number, article),
            _ => false,
        }
    }

    // Where an offer is due, the site makes it and sends it. None is ever due to the site itself.
    fn offer(
        &mut self,
        number: u8,
        peer: u8,
        article: u8,
        buffer: &mut [u8],
    ) -> Result<(), AllocError> {
        if !self.is_due(number, peer, article) {
            return Ok(());
        }
        let Some(site) = self.sites.get(usize::from(number)) else {
            return Ok(());
        };
        let length = site.table.offer(peer, article, buffer).unwrap_or(0);
        up(&mut self.counts.offers);
        match buffer.get(..length) {
            Some(message) => self.send(message, peer),
            None => Ok(()),
        }
    }

    // Counts the articles that are level, and takes all figures into the sum.
    fn look(&mut self) {
        for article in 0..ARTICLES {
            if self.is_level(article) {
                up(&mut self.counts.level);
            }
            self.add_figures(article);
        }
    }

    // Do all sites show the same of an article?
    fn is_level(&self, article: u8) -> bool {
        match self.sites.first() {
            Some(first) => self.sites.iter().all(|site| site.agrees(first, article)),
            None => true,
        }
    }

    fn add_figures(&mut self, article: u8) {
        for site in &self.sites {
            self.counts.add(site.figure(article));
        }
    }

    // Counts the histories that are full.
    fn count_full(&mut self, buffer: &mut [u8]) {
        for site in &mut self.sites {
            if site.is_full(buffer) {
                up(&mut self.counts.full);
            }
        }
    }

    fn archive(&mut self) {
        for article in 0..ARTICLES {
            self.archive_article(article);
        }
    }

    fn archive_article(&mut self, article: u8) {
        for site in &mut self.sites {
            up_by(&mut self.counts.archived, site.archive(article));
        }
    }
}
