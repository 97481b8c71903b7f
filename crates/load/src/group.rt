use crate::counts::{Counts, up, up_by};
use crate::posted::Posted;
use crate::site::{SITES, Site};
use crate::slot::Slot;
use history::History;
use std::alloc::{AllocError, Global};
use table::TableFault;
use trials::{Dice, Made};

// How many messages can wait at a time.
pub(crate) const SLOTS: u8 = 64;

// Eight sites, and the network between them, which loses, repeats and misdirects messages.
#[derive(Drop)]
pub(crate) struct Group<K: Posted + Drop, H: History + Drop> {
    // By site.
    pub(crate) sites: Vec<Site<K, H>>,
    slots: Vec<Slot>,
    pub(crate) dice: Dice,
    pub(crate) counts: Counts,
}

impl<K: Posted + Drop, H: History + Made + Drop> Group<K, H> {
    pub(crate) fn new(heap: Global, seed: u64) -> Result<Group<K, H>, AllocError> {
        let mut sites = Vec::new(heap);
        for site in 0..SITES {
            sites.push(Site::new(heap, site)?)?;
        }
        Ok(Group {
            sites,
            slots: (0..SLOTS).map(|_| Slot::empty(heap)).collect(heap)?,
            dice: Dice::new(seed),
            counts: Counts::default(),
        })
    }
}

impl<K: Posted + Drop, H: History + Drop> Group<K, H> {
    pub(crate) fn counts(&self) -> Counts {
        self.counts
    }

    // Sends a message to a site: it is lost, or put into a slot, now and then into two.
    pub(crate) fn send(&mut self, message: &[u8], site: u8) -> Result<(), AllocError> {
        if self.dice.chance(25) {
            up(&mut self.counts.lost);
            return Ok(());
        }
        if self.dice.chance(10) {
            up(&mut self.counts.repeated);
            self.wait(message, site)?;
        }
        self.wait(message, site)
    }

    // Where a message for a site goes: to that site, or now and then to any.
    fn way(&mut self, site: u8) -> u8 {
        if self.dice.chance(5) {
            up(&mut self.counts.astray);
            return self.dice.byte(SITES);
        }
        site
    }

    // Puts a message into a slot by chance. The message that waits there is delivered before.
    fn wait(&mut self, message: &[u8], site: u8) -> Result<(), AllocError> {
        let slot = self.dice.byte(SLOTS);
        let site = self.way(site);
        self.deliver(slot);
        match self.slots.get_mut(usize::from(slot)) {
            Some(slot) => slot.keep(message, site),
            None => Ok(()),
        }
    }

    // Delivers what waits in a slot: the site that it goes to takes it.
    fn deliver(&mut self, slot: u8) {
        let Some(slot) = self.slots.get_mut(usize::from(slot)) else {
            return;
        };
        let Some((site, message)) = slot.release() else {
            return;
        };
        let Some(site) = self.sites.get_mut(usize::from(site)) else {
            return;
        };
        let taken = site.table.take(message);
        site.kept = site.kept.wrapping_add(taken.unwrap_or(0));
        self.count_take(taken);
    }

    fn count_take(&mut self, taken: Result<usize, TableFault>) {
        let counts = &mut self.counts;
        match taken {
            Ok(0) => up(&mut counts.known),
            Ok(new) => {
                up(&mut counts.new);
                up_by(&mut counts.taken, new);
            }
            Err(TableFault::Behind(_)) => up(&mut counts.behind),
            Err(_) => up(&mut counts.other),
        }
    }

    // Delivers all that waits.
    pub(crate) fn deliver_all(&mut self) {
        for slot in 0..SLOTS {
            self.deliver(slot);
        }
    }
}
