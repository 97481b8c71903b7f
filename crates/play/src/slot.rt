ghost use Rattle.std.specs.Prelude.{◌≤◌};
ghost use Rattle.play.specs.declared.slot.TheConstants.{SLOT_BYTES};

use action::{ACTION_BYTES, MOST_SITES};
use message::{HEADER_BYTES, INTERVAL_BYTES, SECTION_BYTES};
use std::alloc::{AllocError, Global};
use std::collections::BTreeSet;

// The most places that a history has in a run.
pub(crate) const ROOMY: u8 = 120;

// The longest message is an offer of all actions of such a history: one section, with an interval for each site.
pub(crate) const SLOT_BYTES: usize = HEADER_BYTES
    + SECTION_BYTES
    + MOST_SITES * INTERVAL_BYTES
    + ROOMY as usize * ACTION_BYTES;

// Where one message waits. It may be taken any number of times. At first there is none.
#[derive(Drop)]
pub(crate) struct Slot {
    message: Vec<u8>,
    // The sites that have taken this message.
    taken: BTreeSet<u8>,
}

impl Slot {
    pub(crate) fn empty(heap: Global) -> Slot {
        Slot {
            message: Vec::new(heap),
            taken: BTreeSet::new(heap),
        }
    }

    pub(crate) fn message(&self) -> &[u8] {
        &self.message
    }

    // From now on this message waits, in place of the one before.
    pub(crate) fn hold(&mut self, message: &[u8]) -> Result<(), AllocError> {
        self.taken.clear();
        self.message.clear();
        self.message.extend_from_slice(message)
    }

    pub(crate) fn was_taken(&self, site: u8) -> bool {
        self.taken.contains(&site)
    }

    pub(crate) fn note_take(&mut self, site: u8) -> Result<(), AllocError> {
        self.taken.insert(site)?;
        Ok(())
    }
}

// Where a call may put a message: the slot, and how many bytes at the most.
#[derive(Clone, Copy)]
pub(crate) struct Space {
    pub(crate) slot: u8,
    pub(crate) most: usize,
    ghost within: { most ≤ SLOT_BYTES },
}

impl Space {
    // All of a slot.
    pub(crate) fn whole(slot: u8) -> Space {
        Space {
            slot,
            most: SLOT_BYTES,
        }
    }
}
