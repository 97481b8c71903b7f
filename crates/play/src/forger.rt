ghost use Rattle.std.specs.Prelude.{◌≤◌, IfSome};

use crate::book::Book;
use crate::due_refusal::DueRefusal;
use crate::run::Run;
use crate::told_interval::intervals;
use action::{ACTION_BYTES, LATEST_TIME};
use kind::Kind;
use message::{HEADER_BYTES, INTERVAL_BYTES, MOST_SECTIONS, SECTION_BYTES};
use std::alloc::AllocError;
use trials::Dice;

// Where the last two fields of the header stand in it.
const SENDER: usize = 4;

const SECTIONS: usize = 5;

// Where the first section's head and first interval begin in a message.
const HEAD: usize = HEADER_BYTES;

const FIRST: usize = HEAD + SECTION_BYTES;

// Where the fields of a section's head stand in it. The number of actions has two bytes; this is the low one.
const ABOUT: usize = 1;

const INTERVALS: usize = 2;

const ACTIONS: usize = 4;

// Where the fields of an interval stand in it.
const SITE: usize = 1;

const FROM: usize = 2;

const TO: usize = 6;

// Where the fields of an action stand in it.
const TIME: usize = 2;

const TRANSACTION: usize = 6;

const ARTICLE: usize = 10;

const OPERATION: usize = 11;

// Makes bytes that no table wrote, which every table has to refuse: noise, or a damaged copy of a message. The damage
// says which refusal is due. No lawful message is made that says something untrue, since a table would take that.
#[derive(Drop)]
struct Forger<'a> {
    copy: &'a mut Vec<u8>,
    dice: &'a mut Dice,
}

impl Forger<'_> {
    // The byte at an offset; 0 behind the end.
    fn byte_at(&self, at: usize) -> u8 {
        self.copy.get(at).copied().unwrap_or(0)
    }

    fn patch(&mut self, at: usize, byte: u8) {
        if let Some(old) = self.copy.get_mut(at) {
            *old = byte;
        }
    }

    // Puts another byte in place of the one at an offset.
    fn change(&mut self, at: usize) {
        let old = self.byte_at(at);
        let flips = self.dice.byte(255) + 1;
        self.patch(at, old ^ flips);
    }

    // Writes a time at an offset.
    fn patch_time(&mut self, at: usize, time: u32) {
        for (place, byte) in self.copy.iter_mut().skip(at).zip(time.to_be_bytes()) {
            *place = byte;
        }
    }

    // Noise that does not begin as a message does.
    fn make_noise(&mut self) -> Result<DueRefusal, AllocError> {
        self.copy.clear();
        for _ in 0..self.dice.byte(100) {
            self.copy.push(self.dice.byte(255))?;
        }
        let first = self.dice.byte(b'H');
        self.patch(0, first);
        Ok(DueRefusal::Cut)
    }

    // The message without its end.
    fn cut(&mut self) -> DueRefusal {
        let length = u32::try_from(self.copy.len()).unwrap_or(0);
        self.copy.truncate(self.dice.below(length) as usize);
        DueRefusal::Cut
    }

    // The message with bytes after its end.
    fn append(&mut self) -> Result<DueRefusal, AllocError> {
        let more = usize::from(self.dice.byte(20) + 1);
        let length = self.copy.len().wrapping_add(more);
        self.copy.resize(length, 0)?;
        Ok(DueRefusal::Trailing)
    }

    // Damages the header: its letter, its group or kind, its sender, or how many sections it has.
    fn spoil_header(&mut self, sites: u8) -> DueRefusal {
        match self.dice.byte(6) {
            0 => {
                self.change(0);
                DueRefusal::Cut
            }
            at @ 1..=3 => {
                self.change(usize::from(at));
                DueRefusal::Foreign
            }
            4 => {
                let sender = sites.wrapping_add(self.dice.byte(200));
                self.patch(SENDER, sender);
                DueRefusal::Broken
            }
            _ => {
                let sections = match self.dice.byte(200) {
                    0 => 0,
                    more => more + MOST_SECTIONS,
                };
                self.patch(SECTIONS, sections);
                DueRefusal::Broken
            }
        }
    }

    // Damages the first section's head or its first interval.
    fn spoil_section(&mut self, sites: u8, articles: u8) -> DueRefusal {
        match self.dice.byte(7) {
            0 => {
                self.change(HEAD);
                return DueRefusal::Cut;
            }
            1 => {
                let about = articles.wrapping_add(self.dice.byte(150));
                self.patch(HEAD + ABOUT, about);
            }
            2 => self.patch(HEAD + INTERVALS, 0),
            3 => {
                self.change(FIRST);
                return DueRefusal::Cut;
            }
            4 => {
                let site = sites.wrapping_add(self.dice.byte(200));
                self.patch(FIRST + SITE, site);
            }
            5 => self.patch_time(FIRST + FROM, u32::MAX),
            _ => self.patch_time(FIRST + TO, LATEST_TIME + 1),
        }
        DueRefusal::Broken
    }

    // Where the first section's first action begins, if it has one. A section has 255 intervals at the most.
    fn first_action(&self) -> Option<usize>
        ensures { IfSome result (λ at. at ≤ 2561) }
    {
        let intervals = usize::from(self.byte_at(HEAD + INTERVALS));
        let at = FIRST + INTERVAL_BYTES * intervals;
        (self.byte_at(at) == b'A').then_some(at)
    }

    // Damages the first action: its time, its transaction, its article or its operation.
    fn spoil_action(&mut self) -> DueRefusal {
        let Some(at) = self.first_action() else {
            return self.cut();
        };
        match self.dice.byte(4) {
            0 => self.patch_time(at + TIME, 0),
            1 => self.patch_time(at + TRANSACTION, 0),
            2 => self.change(at + ARTICLE),
            _ => self.patch(at + OPERATION, 0),
        }
        DueRefusal::Broken
    }

    // Has a message of one section carry its last action twice. It has so few actions that the low byte of their number
    // can count one more.
    fn double_action(&mut self) -> Result<DueRefusal, AllocError> {
        if self.first_action().is_none() || self.byte_at(SECTIONS) != 1 {
            return Ok(self.cut());
        }
        let last = self.copy.len().saturating_sub(ACTION_BYTES);
        self.copy.extend_from_within(last..)?;
        let count = self.byte_at(HEAD + ACTIONS);
        self.patch(HEAD + ACTIONS, count.wrapping_add(1));
        Ok(DueRefusal::Broken)
    }

    // Has the message say that the taking site has committed more than it has.
    fn claim(&mut self, site: u8, book: &Book) -> Result<DueRefusal, AllocError> {
        let intervals = intervals(*self.copy.allocator(), self.copy)?;
        let Some(own) = intervals.iter().find(|interval| interval.site == site) else {
            return Ok(self.cut());
        };
        let done = book.reach(site, own.article, site);
        self.patch_time(own.at.wrapping_add(TO), done.wrapping_add(1));
        if book.is_behind(site, &intervals) {
            Ok(DueRefusal::Behind)
        } else {
            Ok(DueRefusal::Ahead)
        }
    }
}

impl<K: Kind + Drop, J: Kind + Drop> Run<K, J> {
    // Damages the copy of a message that the site is to take, and answers the refusal that is due.
    pub(crate) fn forge(&mut self, site: u8, copy: &mut Vec<u8>) -> Result<DueRefusal, AllocError> {
        let dice = &mut self.dice;
        let mut forger = Forger { copy, dice };
        if forger.copy.is_empty() {
            return forger.make_noise();
        }
        Ok(match forger.dice.byte(10) {
            0 | 1 => forger.claim(site, &self.book)?,
            2 => forger.make_noise()?,
            3 => forger.cut(),
            4 => forger.append()?,
            5 => forger.spoil_action(),
            6 => forger.double_action()?,
            7 => forger.spoil_section(self.sites, self.articles),
            _ => forger.spoil_header(self.sites),
        })
    }
}
