ghost use Rattle.std.specs.Prelude.{◌≡◌, ℕ, ◌≤◌, List, length};

use arrayvec::ArrayVec;
use std::marker::Model;

// How many slots a desk has: one for each digit.
pub(crate) const SLOTS: usize = 10;

// How many bytes a slot has room for.
pub(crate) const SLOT_BYTES: usize = 1200;

/// Room for one message (docs/TALLY.md, section 6). A new slot is empty.
#[derive(Clone, Default, Drop)]
pub struct Slot {
    message: ArrayVec<u8, SLOT_BYTES>,
}

// Contracts see the message.
impl Model for Slot {
    ghost Value = { List ℕ };

    ghost view = { λ s. s.message.items };
}

impl Slot {
    // The message, or no bytes where the slot is empty.
    pub(crate) fn message(&self) -> &[u8]
        ensures { result.now ≡ self.now }
    {
        self.message.as_slice()
    }

    // Keeps the message in place of what the slot held.
    pub(crate) fn keep(&mut self, message: &[u8])
        requires { length message.now ≤ 1200 }
        ensures { self.new ≡ message.now }
    {
        self.message.clear();
        self.message.try_extend_from_slice(message).unwrap();
    }
}
