// Lines that belong together: those that post movements of an article at all sites, and those that bring it level.
use crate::offer::Offer;
use crate::run::{Run, SLOTS};
use crate::slot::Space;
use crate::stop::Stop;
use crate::turn::Turn;
use kind::Kind;
use trials::Movement;

impl<K: Kind + Drop, J: Kind + Drop> Run<K, J> {
    // Commits the site's own transaction, into a slot by chance.
    fn commit_own(&mut self, site: u8) -> Result<(), Stop> {
        let slot = self.dice.byte(SLOTS);
        self.commit_line(Turn::own(site), Space::whole(slot))
    }

    // Commits the open transaction, or abandons it where there is no room for it.
    fn settle_at(&mut self, site: u8) -> Result<(), Stop> {
        if self.holds(site) {
            self.commit_own(site)?;
        }
        if self.holds(site) {
            self.abandon_line(Turn::own(site))?;
        }
        Ok(())
    }

    // Ends the open transactions of all sites.
    pub(crate) fn settle(&mut self) -> Result<(), Stop> {
        (0..self.sites).try_for_each(|site| self.settle_at(site))
    }

    // A transaction of some writes on the article; now and then of more than there may be.
    fn move_at(&mut self, site: u8, article: u8) -> Result<(), Stop> {
        self.open_line(site)?;
        let most = if self.dice.chance(5) { 20 } else { 3 };
        for _ in 0..self.dice.byte(most) + 1 {
            let movement = self.pick_movement();
            self.write_line(
                Turn::own(site),
                Movement {
                    article,
                    ..movement
                },
            )?;
        }
        self.commit_own(site)
    }

    // Every site moves the article.
    pub(crate) fn stir(&mut self, article: u8) -> Result<(), Stop> {
        (0..self.sites).try_for_each(|site| self.move_at(site, article))
    }

    // One site offers the article to another, and that one takes it.
    fn pass(&mut self, offer: Offer) -> Result<(), Stop> {
        if offer.site == offer.peer {
            return Ok(());
        }
        let slot = self.dice.byte(SLOTS);
        self.offer_line(offer, Space::whole(slot))?;
        self.take_line(offer.peer, slot)
    }

    // Passes the article on once for each site: `way` says from whom to whom.
    fn pass_all<F: Fn(u8) -> Offer>(&mut self, way: F) -> Result<(), Stop>
        requires { F.IsAlwaysCallable way }
    {
        for site in 0..self.sites {
            self.pass(way(site))?;
        }
        Ok(())
    }

    // All sites take the message in the slot.
    fn take_all(&mut self, slot: u8) -> Result<(), Stop> {
        (0..self.sites).try_for_each(|site| self.take_line(site, slot))
    }

    // One site makes an offer, and all sites take it.
    fn tell(&mut self, offer: Offer) -> Result<(), Stop> {
        let slot = self.dice.byte(SLOTS);
        self.offer_line(offer, Space::whole(slot))?;
        self.take_all(slot)
    }

    // Each site makes an offer to the hub, and all sites take it.
    fn tell_all(&mut self, hub: u8, article: u8) -> Result<(), Stop> {
        (0..self.sites).try_for_each(|site| self.tell(Offer {
            site,
            peer: hub,
            article,
        }))
    }

    fn archive_all(&mut self, article: u8) -> Result<(), Stop> {
        (0..self.sites).try_for_each(|site| self.archive_line(site, article))
    }

    // Brings an article level, as far as open transactions and the room in the histories allow: one site, the hub,
    // gathers all actions and hands them out. Then each site tells all others what it has.
    pub(crate) fn bring_level(&mut self, article: u8) -> Result<(), Stop> {
        let hub = self.dice.byte(self.sites);
        self.pass_all(|site| Offer {
            site,
            peer: hub,
            article,
        })?;
        self.pass_all(|site| Offer {
            site: hub,
            peer: site,
            article,
        })?;
        self.tell_all(hub, article)?;
        self.check_all();
        if self.dice.chance(70) {
            self.archive_all(article)?;
        }
        Ok(())
    }
}
