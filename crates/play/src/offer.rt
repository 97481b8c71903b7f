use crate::due_refusal::DueRefusal;
use crate::law::Law;
use crate::run::Run;
use crate::slot::{SLOT_BYTES, Space};
use crate::stop::Stop;
use action::{ACTION_BYTES, Action};
use kind::Kind;
use message::{HEADER_BYTES, INTERVAL_BYTES, SECTION_BYTES};
use std::alloc::AllocError;
use table::TableFault;

// An offer of an article, from a site to a peer.
#[derive(Clone, Copy)]
pub(crate) struct Offer {
    pub(crate) site: u8,
    pub(crate) peer: u8,
    pub(crate) article: u8,
}

impl<K: Kind + Drop, J: Kind + Drop> Run<K, J> {
    // Does the offer have to carry the action? The site has it, and does not know that the peer has it.
    fn is_offered(&self, offer: Offer, action: &Action) -> bool {
        let Offer {
            site,
            peer,
            article,
        } = offer;
        action.article == article
            && self.book.reaches(site, action)
            && self
                .known(site, article, peer, action.coordinator)
                .is_some_and(|known| known < action.time)
    }

    // How many bytes the offer has to have: one section, with an interval for each site.
    fn offer_length(&self, offer: Offer) -> usize {
        let carried = self
            .book
            .committed
            .values()
            .filter(|action| self.is_offered(offer, action))
            .count();
        let intervals = INTERVAL_BYTES * usize::from(self.sites);
        carried
            .wrapping_mul(ACTION_BYTES)
            .wrapping_add(HEADER_BYTES + SECTION_BYTES + intervals)
    }

    // Makes the offer, and puts its message into the slot where it is granted. `None` where there is no such site.
    fn offer_into(
        &mut self,
        offer: Offer,
        space: Space,
    ) -> Result<Option<Result<usize, TableFault>>, AllocError> {
        let Some(table) = self.table(offer.site) else {
            return Ok(None);
        };
        let mut buffer = [0; SLOT_BYTES];
        let most = space.most;
        let answer = table.offer(offer.peer, offer.article, &mut buffer[..most]);
        if let Ok(length) = answer {
            self.put(space.slot, &buffer[..length.min(most)])?;
        }
        Ok(Some(answer))
    }

    pub(crate) fn offer_line(&mut self, offer: Offer, space: Space) -> Result<(), Stop> {
        let site = offer.site;
        let length = self.offer_length(offer);
        let due = if offer.article >= self.articles {
            Some(DueRefusal::NoArticle)
        } else if offer.peer >= self.sites {
            Some(DueRefusal::NoSite)
        } else if length > space.most {
            Some(DueRefusal::Short)
        } else {
            None
        };
        let line = self.begin(site, due)?;
        let Some(answer) = self.offer_into(offer, space)? else {
            return Ok(());
        };
        if let Ok(answer) = answer {
            self.counts.hold(Law::Answer, site, answer == length);
        }
        self.end(line, answer.err(), false)?;
        Ok(())
    }
}
