// The lines that take a message: one that a table wrote, or a forged one.
use crate::counts::up;
use crate::due_refusal::DueRefusal;
use crate::law::Law;
use crate::line::Line;
use crate::run::Run;
use crate::stop::Stop;
use crate::told_interval::{self, ToldInterval};
use kind::Kind;
use std::alloc::AllocError;
use table::TableFault;

impl<K: Kind + Drop, J: Kind + Drop> Run<K, J> {
    // What a take has to be refused by, of a message with these intervals and so many new actions.
    fn due_of_take(&self, site: u8, intervals: &[ToldInterval], news: usize) -> Option<DueRefusal> {
        if self.holds(site) {
            Some(DueRefusal::AlreadyOpen)
        } else if intervals.is_empty() {
            Some(DueRefusal::Cut)
        } else if self.book.is_behind(site, intervals) {
            Some(DueRefusal::Behind)
        } else if news > self.free(site) {
            Some(DueRefusal::Full)
        } else {
            None
        }
    }

    // Takes the message in the slot. `None` where there is no such site or slot.
    fn take_from(&mut self, site: u8, slot: u8) -> Option<Result<usize, TableFault>> {
        let message = self.slots.get(usize::from(slot))?.message();
        let seat = self.seats.get_mut(usize::from(site))?;
        Some(seat.take(message))
    }

    // Enters a granted take into the book, and notes it at the slot. `count` is what the take answered.
    fn enter_take(
        &mut self,
        site: u8,
        slot: u8,
        intervals: &[ToldInterval],
        count: usize,
    ) -> Result<(), AllocError> {
        self.book.take(site, intervals)?;
        up(&mut self.counts.taken, count);
        match self.slots.get_mut(usize::from(slot)) {
            Some(slot) => slot.note_take(site),
            None => Ok(()),
        }
    }

    // Checks law c: a message that the site has taken before changes nothing there, and has nothing new.
    fn check_repeat(
        &mut self,
        line: &Line,
        answer: Result<usize, TableFault>,
    ) -> Result<(), AllocError> {
        up(&mut self.counts.repeats, 1);
        let is_same = self.is_same(line)?;
        self.counts.hold(Law::Repeat, line.site, is_same);
        let is_nothing = answer.unwrap_or(0) == 0;
        self.counts.hold(Law::Repeat, line.site, is_nothing);
        Ok(())
    }

    pub(crate) fn take_line(&mut self, site: u8, slot: u8) -> Result<(), Stop> {
        let Some(held) = self.slots.get(usize::from(slot)) else {
            return Ok(());
        };
        let intervals = told_interval::intervals(self.heap, held.message())?;
        let is_repeat = held.was_taken(site);
        let news = self.book.news(site, &intervals);
        let line = self.begin(site, self.due_of_take(site, &intervals, news))?;
        let Some(answer) = self.take_from(site, slot) else {
            return Ok(());
        };
        if let Ok(count) = answer {
            self.counts.hold(Law::Answer, site, count == news);
            self.enter_take(site, slot, &intervals, count)?;
        }
        if is_repeat {
            self.check_repeat(&line, answer)?;
        }
        self.end(line, answer.err(), answer.is_ok())?;
        Ok(())
    }

    // A take of bytes that no table wrote, which has to be refused.
    pub(crate) fn forged_line(&mut self, site: u8, slot: u8) -> Result<(), Stop> {
        let Some(held) = self.slots.get(usize::from(slot)) else {
            return Ok(());
        };
        let mut copy = Vec::from_slice(self.heap, held.message())?;
        let forged = self.forge(site, &mut copy)?;
        let due = if self.holds(site) {
            DueRefusal::AlreadyOpen
        } else {
            forged
        };
        let line = self.begin(site, Some(due))?;
        let Some(seat) = self.seat_mut(site) else {
            return Ok(());
        };
        let answer = seat.take(&copy);
        self.end(line, answer.err(), false)?;
        Ok(())
    }
}
