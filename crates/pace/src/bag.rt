ghost use Rattle.std.specs.Prelude.{◌<◌};
ghost use Rattle.std.specs.Slice.Iter.{chunks_exact_size};

use action::ACTION_BYTES;
use history::MOST_PLACES;
use message::{HEADER_BYTES, INTERVAL_BYTES, SECTION_BYTES};
use std::alloc::{AllocError, Global};
use std::slice::ChunksExact;

// How long the message of a transaction of one write is: one section, of one interval and one action.
const MESSAGE: usize = HEADER_BYTES + SECTION_BYTES + INTERVAL_BYTES + ACTION_BYTES;

// Room for such a message for each place that a history may have.
const ROOM: usize = MOST_PLACES * MESSAGE;

/// Messages of one length, one behind the other. They share one buffer, so that a message that is added asks for no
/// memory while there is room.
#[derive(Drop)]
pub struct Bag {
    bytes: Vec<u8>,
    // How long each message is.
    each: usize,
}

impl Bag {
    pub(crate) fn new(heap: Global) -> Result<Bag, AllocError> {
        let bytes = Vec::with_capacity(heap, ROOM)?;
        Ok(Bag { bytes, each: 0 })
    }

    pub(crate) fn clear(&mut self) {
        self.bytes.clear();
    }

    pub(crate) fn add(&mut self, message: &[u8]) -> Result<(), AllocError> {
        self.each = message.len();
        self.bytes.extend_from_slice(message)
    }

    pub(crate) fn messages(&self) -> ChunksExact<'_, u8>
        ensures { 0 < chunks_exact_size result }
    {
        self.bytes.chunks_exact(self.each.max(1))
    }

    // How many bytes all messages have.
    pub(crate) fn size(&self) -> usize {
        self.bytes.len()
    }

    // A sum in which every byte and the order of the bytes count.
    pub(crate) fn sum(&self) -> u32 {
        self.bytes.iter().fold(0, |sum, byte| {
            (sum ^ u32::from(*byte)).wrapping_mul(16_777_619)
        })
    }
}
