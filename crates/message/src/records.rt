ghost use Rattle.std.specs.Prelude.{◌≡◌, ◌+◌, ◌≤◌, length, drop, List};
ghost use Rattle.std.specs.Iterator.{YieldsFirst, item_count};
ghost use Rattle.std.specs.Iterator.Runs.{YieldsInOrder};
ghost use Rattle.message.specs.Decoding.{size_of};
ghost use Rattle.message.specs.Format.{Message, records};
ghost use Rattle.message.specs.ReadBack.{IsMessage};
ghost use Rattle.message.specs.Walks.{its_sender, record_in};
ghost use Rattle.message.specs.Found.{found_from, found_in, placed};
ghost use Rattle.message.specs.declared.records.FoundRecord.{FoundRecord};

use crate::due::{Due, decode};
use crate::record::Record;
use std::marker::Model;

/// A record that was read, and the offset in the message at which it begins.
#[derive(Clone, Copy)]
pub struct FoundRecord {
    pub offset: usize,
    pub record: Record,
}

// The record that begins at an offset of the bytes, whatever kind it has; `None` where none begins.
#[inline(always)]
fn record_at(bytes: &[u8], at: usize) -> Option<Record>
    ensures value { result ≡ record_in (drop at bytes.now) }
    ensures fits { at ≤ length bytes.now → at + size_of result ≤ length bytes.now }
{
    first_record(bytes.get(at..)?)
}

// The record that the bytes begin with, whatever kind it has; `None` where they begin with none.
#[inline(always)]
fn first_record(bytes: &[u8]) -> Option<Record>
    ensures value { result ≡ record_in bytes.now }
    ensures fits { size_of result ≤ length bytes.now }
{
    let due = match bytes {
        [b'H', ..] => Due::Header,
        [b'S', ..] => Due::Section,
        [b'I', ..] => Due::Interval,
        [b'A', ..] => Due::Action,
        _ => return None,
    };
    decode(due, bytes).ok().flatten()
}

// The records of a message that are left to go over. Of bytes that are no message, those before the first place at
// which no record begins. `Intervals` and `Actions` look among them.
//
// The `next` of all three is inlined, as `decode` is, so that a record is not written to memory and read back.
//
// The clause `runs` of their `new` is a law of iterators that are seen as the list of what they have left.
#[derive(Drop)]
pub(crate) struct Records<'a> {
    bytes: &'a [u8],
    at: usize,
}

impl<'a> Model for Records<'a> {
    ghost Value = { List FoundRecord };

    ghost view = { λ r. found_from r.bytes.now r.at };

    ghost invariant = { λ r. r.at ≤ length r.bytes.now };
}

impl<'a> Records<'a> {
    // From the first record of the message on.
    pub(crate) fn new(bytes: &'a [u8]) -> Records<'a>
        ensures left { result ≡ found_in bytes.now }
        ensures reads_back { (m : Message) → IsMessage bytes.now m → result ≡ placed 0 (records m) }
        ensures few { length result ≤ length bytes.now }
        ensures runs { YieldsInOrder (YieldsFirst {A = FoundRecord} (λ left. left)) (λ left. left) }
    {
        Records { bytes, at: 0 }
    }
}

impl<'a> Iterator for Records<'a> {
    type Item = FoundRecord;

    ghost next_gives = { YieldsFirst (λ left. left) };

    ghost remaining = { item_count (λ left. left) };

    #[inline(always)]
    fn next(&mut self) -> Option<FoundRecord> {
        let offset = self.at;
        let record = record_at(self.bytes, offset)?;
        self.at = offset + record.size();
        Some(FoundRecord { offset, record })
    }
}

/// The site that wrote the message; 0 where the bytes begin with no header.
pub fn sender_of(bytes: &[u8]) -> u8
    ensures value { result ≡ its_sender (record_in bytes.now) }
    ensures reads_back { (m : Message) → IsMessage bytes.now m → result ≡ m.sender }
{
    match record_at(bytes, 0) {
        Some(Record::Header(header)) => header.sender,
        _ => 0,
    }
}
