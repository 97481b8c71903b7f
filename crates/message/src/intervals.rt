ghost use Rattle.std.specs.Prelude.{◌≡◌, ◌≤◌, List, length, map};
ghost use Rattle.std.specs.Iterator.{YieldsFirst, item_count};
ghost use Rattle.std.specs.Iterator.Runs.{YieldsInOrder};
ghost use Rattle.message.specs.Format.{Message, records, told_intervals};
ghost use Rattle.message.specs.Found.{placed, found_intervals_among, found_intervals_in, told};
ghost use Rattle.message.specs.ReadBack.{IsMessage};
ghost use Rattle.message.specs.Walks.{intervals_of, records_in};
ghost use Rattle.message.specs.declared.intervals.FoundInterval.{FoundInterval};

use crate::record::Interval;
use crate::records::Records;
use std::marker::Model;

/// An interval of a message, the offset at which it begins, and its section's article.
#[derive(Clone, Copy)]
pub struct FoundInterval {
    pub offset: usize,
    pub article: u8,
    pub interval: Interval,
}

/// The intervals of a message that are left to go over. Of bytes that are no message, those before the first
/// place at which no record begins.
#[derive(Drop)]
pub struct Intervals<'a> {
    records: Records<'a>,
    article: u8,
}

impl<'a> Model for Intervals<'a> {
    ghost Value = { List FoundInterval };

    ghost view = { λ i. found_intervals_among i.article i.records };
}

impl<'a> Intervals<'a> {
    /// From the first interval of the message on.
    pub fn new(bytes: &'a [u8]) -> Intervals<'a>
        ensures left { result ≡ found_intervals_in bytes.now }
        ensures told { map told result ≡ intervals_of 0 (records_in bytes.now) }
        ensures reads_back { (m : Message) → IsMessage bytes.now m
            → map told result ≡ told_intervals m }
        ensures places { (m : Message) → IsMessage bytes.now m
            → result ≡ found_intervals_among 0 (placed 0 (records m)) }
        ensures few { length result ≤ length bytes.now }
        ensures runs { YieldsInOrder (YieldsFirst {A = FoundInterval} (λ left. left)) (λ left. left) }
    {
        Intervals {
            records: Records::new(bytes),
            article: 0,
        }
    }
}

impl<'a> Iterator for Intervals<'a> {
    type Item = FoundInterval;

    ghost next_gives = { YieldsFirst (λ left. left) };

    ghost remaining = { item_count (λ left. left) };

    #[inline(always)]
    fn next(&mut self) -> Option<FoundInterval> {
        while let Some(found) = self.records.next() {
            let article = self.article;
            self.article = found.record.article_after(article);
            if let Some(interval) = found.record.interval() {
                return Some(FoundInterval {
                    offset: found.offset,
                    article,
                    interval,
                });
            }
        }
        None
    }
}
