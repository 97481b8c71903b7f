// The lines of transactions: open, write, commit and abandon, by the site's own ticket or a wrong one.
use crate::call::{Abandon, Call, Commit, Write};
use crate::counts::up;
use crate::due_refusal::DueRefusal;
use crate::law::Law;
use crate::run::Run;
use crate::slot::{SLOT_BYTES, Space};
use crate::stop::Stop;
use crate::turn::{Holder, Turn};
use action::MOST_WRITES;
use kind::Kind;
use table::TableFault;
use trials::Movement;

// Two items of a slice, by their different indices.
fn two_of<T>(items: &mut [T], one: u8, other: u8) -> Option<(&mut T, &mut T)> {
    let (one, other) = (usize::from(one), usize::from(other));
    if one < other {
        let (low, high) = items.split_at_mut_checked(other)?;
        Some((low.get_mut(one)?, high.first_mut()?))
    } else {
        let (low, high) = items.split_at_mut_checked(one)?;
        let other = low.get_mut(other)?;
        Some((high.first_mut()?, other))
    }
}

impl<K: Kind + Drop, J: Kind + Drop> Run<K, J> {
    // Makes a call at the site, by the ticket of the holder. `None` where there is no such ticket.
    fn call<C: Call>(&mut self, turn: Turn, call: C) -> Option<Result<C::Answer, TableFault>> {
        let Turn { site, by } = turn;
        match by {
            Holder::Own => self.seat_mut(site)?.call(call),
            Holder::Site(other) => {
                let (seat, other) = two_of(&mut self.seats, site, other)?;
                seat.call_by(other, call)
            }
            Holder::Outsider => {
                let seat = self.seats.get_mut(usize::from(site))?;
                seat.call_by(&mut self.outsider.seat, call)
            }
        }
    }

    pub(crate) fn open_line(&mut self, site: u8) -> Result<(), Stop> {
        let due = self.holds(site).then_some(DueRefusal::AlreadyOpen);
        let line = self.begin(site, due)?;
        let Some(seat) = self.seat_mut(site) else {
            return Ok(());
        };
        let answer = seat.open();
        self.end(line, answer.err(), false)?;
        Ok(())
    }

    // What a write has to be refused by.
    fn due_of_write(&self, turn: Turn, movement: Movement) -> Option<DueRefusal> {
        if turn.by != Holder::Own {
            Some(DueRefusal::NotItsTicket)
        } else if movement.article >= self.articles {
            Some(DueRefusal::NoArticle)
        } else if !K::is_known(movement.operation, movement.amount) {
            Some(DueRefusal::UnknownPair)
        } else if self.book.writes(turn.site) >= MOST_WRITES {
            Some(DueRefusal::TooManyWrites)
        } else {
            None
        }
    }

    pub(crate) fn write_line(&mut self, turn: Turn, movement: Movement) -> Result<(), Stop> {
        let Turn { site, .. } = turn;
        let line = self.begin(site, self.due_of_write(turn, movement))?;
        let Some(answer) = self.call(turn, Write(movement)) else {
            return Ok(());
        };
        if let Ok(time) = answer {
            let booked = self.book.write(site, movement)?;
            self.counts.hold(Law::Answer, site, time == booked);
        }
        self.end(line, answer.err(), false)?;
        Ok(())
    }

    // What a commit has to be refused by.
    fn due_of_commit(&self, turn: Turn) -> Option<DueRefusal> {
        if turn.by != Holder::Own {
            Some(DueRefusal::NotItsTicket)
        } else if self.book.writes(turn.site) > self.free(turn.site) {
            Some(DueRefusal::Full)
        } else {
            None
        }
    }

    // Enters a granted commit into the book. `count` is how many actions it answered.
    fn enter_commit(&mut self, site: u8, count: usize) -> Result<(), Stop> {
        let is_all = count == self.book.writes(site);
        self.counts.hold(Law::Answer, site, is_all);
        let are_new = self.book.commit(site)?;
        self.counts.hold(Law::Distinct, site, are_new);
        up(&mut self.counts.committed, count);
        Ok(())
    }

    pub(crate) fn commit_line(&mut self, turn: Turn, space: Space) -> Result<(), Stop> {
        let line = self.begin(turn.site, self.due_of_commit(turn))?;
        let mut buffer = [0; SLOT_BYTES];
        let most = space.most;
        let Some(answer) = self.call(turn, Commit(&mut buffer[..most])) else {
            return Ok(());
        };
        if let Ok((count, length)) = answer {
            if length > 0 {
                self.put(space.slot, &buffer[..length.min(most)])?;
            }
            self.enter_commit(turn.site, count)?;
        }
        self.end(line, answer.err(), answer.is_ok())?;
        Ok(())
    }

    pub(crate) fn abandon_line(&mut self, turn: Turn) -> Result<(), Stop> {
        let Turn { site, by } = turn;
        let due = (by != Holder::Own).then_some(DueRefusal::NotItsTicket);
        let line = self.begin(site, due)?;
        let Some(answer) = self.call(turn, Abandon) else {
            return Ok(());
        };
        if answer.is_ok() {
            self.book.abandon(site);
        }
        self.end(line, answer.err(), false)?;
        Ok(())
    }
}
