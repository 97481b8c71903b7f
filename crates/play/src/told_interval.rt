ghost use Rattle.std.specs.Prelude.{length};
ghost use Rattle.std.specs.Iterator.{at_most};

use action::ACTION_BYTES;
use message::{HEADER_BYTES, INTERVAL_BYTES, SECTION_BYTES};
use std::alloc::{AllocError, Global};

// An interval of a message, with its section's article. It is read by code of the program's own, so that the book does
// not depend on the library's reader.
#[derive(Clone, Copy)]
pub(crate) struct ToldInterval {
    // The offset at which it begins.
    pub(crate) at: usize,
    pub(crate) article: u8,
    pub(crate) site: u8,
    pub(crate) from: u32,
    pub(crate) to: u32,
}

// The records of a message that are left to go over, each with the offset at which it begins.
#[derive(Drop)]
struct Records<'a> {
    // The offset of the first of them.
    at: usize,
    left: &'a [u8],
}

impl<'a> Iterator for Records<'a> {
    type Item = (usize, &'a [u8]);

    ghost remaining = { λ records. at_most (length records.left.now) };

    fn next(&mut self) -> Option<(usize, &'a [u8])> {
        let length = match self.left.first()? {
            b'H' => HEADER_BYTES,
            b'S' => SECTION_BYTES,
            b'I' => INTERVAL_BYTES,
            b'A' => ACTION_BYTES,
            _ => return None,
        };
        let (record, left) = self.left.split_at_checked(length)?;
        let at = self.at;
        self.at = at.wrapping_add(length);
        self.left = left;
        Some((at, record))
    }
}

// All intervals of a message, in its order.
pub(crate) fn intervals(heap: Global, bytes: &[u8]) -> Result<Vec<ToldInterval>, AllocError> {
    let mut found = Vec::new(heap);
    let mut article = 0;
    for (at, record) in (Records { at: 0, left: bytes }) {
        match *record {
            [b'S', about, ..] => article = about,
            [b'I', site, f3, f2, f1, f0, t3, t2, t1, t0] => found.push(ToldInterval {
                at,
                article,
                site,
                from: u32::from_be_bytes([f3, f2, f1, f0]),
                to: u32::from_be_bytes([t3, t2, t1, t0]),
            })?,
            _ => {}
        }
    }
    Ok(found)
}
