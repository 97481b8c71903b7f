use crate::book::Book;
use crate::counts::Counts;
use crate::outsider::Outsider;
use crate::seat::Seat;
use crate::slot::Slot;
use history::RackOrStrip;
use kind::Kind;
use std::alloc::{AllocError, Global};
use table::Table;
use trials::Dice;

// How many messages can wait at a time. A message is lost when another goes into its slot.
pub(crate) const SLOTS: u8 = 12;

// One run: the tables of a group, the messages that wait, and the book. `K` is the kind of the group's tables, and `J`
// that of the outsider.
#[derive(Drop)]
pub(crate) struct Run<K: Kind + Drop, J: Kind + Drop> {
    pub(crate) heap: Global,
    pub(crate) sites: u8,
    pub(crate) articles: u8,
    // By site.
    pub(crate) seats: Vec<Seat<K, RackOrStrip>>,
    pub(crate) outsider: Outsider<J>,
    pub(crate) slots: Vec<Slot>,
    pub(crate) book: Book,
    pub(crate) dice: Dice,
    pub(crate) counts: Counts,
}

impl<K: Kind + Drop, J: Kind + Drop> Run<K, J> {
    fn seat(&self, site: u8) -> Option<&Seat<K, RackOrStrip>> {
        self.seats.get(usize::from(site))
    }

    pub(crate) fn seat_mut(&mut self, site: u8) -> Option<&mut Seat<K, RackOrStrip>> {
        self.seats.get_mut(usize::from(site))
    }

    pub(crate) fn table(&self, site: u8) -> Option<&Table<K, RackOrStrip>> {
        self.seat(site).map(|seat| seat.table())
    }

    // Does the site hold a ticket?
    pub(crate) fn holds(&self, site: u8) -> bool {
        self.seat(site).is_some_and(|seat| seat.holds())
    }

    // Puts a message into a slot.
    pub(crate) fn put(&mut self, slot: u8, message: &[u8]) -> Result<(), AllocError> {
        match self.slots.get_mut(usize::from(slot)) {
            Some(slot) => slot.hold(message),
            None => Ok(()),
        }
    }

    // How many places the site's history has free.
    pub(crate) fn free(&self, site: u8) -> usize {
        let places = self.seat(site).map_or(0, |seat| seat.places);
        places.saturating_sub(self.book.kept(site))
    }

    // What a site's table shows, here and below: `None` where there is no such table, article or site.
    pub(crate) fn clock(&self, site: u8) -> Option<u32> {
        Some(self.table(site)?.clock())
    }

    pub(crate) fn figure(&self, site: u8, article: u8) -> Option<i64> {
        self.table(site)?.figure(article).ok()
    }

    pub(crate) fn known(&self, site: u8, article: u8, knower: u8, coordinator: u8) -> Option<u32> {
        self.table(site)?.known(article, knower, coordinator).ok()
    }

    pub(crate) fn open_item(&self, site: u8, article: u8, peer: u8) -> Option<bool> {
        self.table(site)?.open_item(article, peer).ok()
    }

    // All that a site's table shows: its clock, and for each article the figure and the known entries.
    pub(crate) fn shown(&self, site: u8) -> Result<Vec<Option<i64>>, AllocError> {
        let mut shown = vec![in self.heap; self.clock(site).map(i64::from)]?;
        for article in 0..self.articles {
            shown.push(self.figure(site, article))?;
            self.show_known(site, article, &mut shown)?;
        }
        Ok(shown)
    }

    fn show_known(
        &self,
        site: u8,
        article: u8,
        shown: &mut Vec<Option<i64>>,
    ) -> Result<(), AllocError> {
        for knower in 0..self.sites {
            shown.extend((0..self.sites).map(|coordinator| {
                self.known(site, article, knower, coordinator)
                    .map(i64::from)
            }))?;
        }
        Ok(())
    }
}
