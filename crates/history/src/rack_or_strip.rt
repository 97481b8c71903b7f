ghost use Rattle.either.specs.Either.{either};
ghost use Rattle.either.specs.declared.Either.TheVariants.{Left, Right};

use crate::history::History;
use crate::history_fault::HistoryFault;
use crate::rack::Rack;
use crate::strip::Strip;
use action::Action;
use either::{Either, for_both};

/// A rack or a strip, whichever was chosen when it was made.
pub type RackOrStrip = Either<Rack, Strip>;

// A value that is one of two histories is a history.
impl<L: History, R: History> History for Either<L, R> {
    ghost items = { either L.items R.items };

    ghost room = { either L.room R.room };

    ghost bounded = { elim [ Left x ↦ L.bounded x | Right y ↦ R.bounded y ] };

    fn count(&self) -> usize {
        for_both!(self, history => history.count())
    }

    fn capacity(&self) -> usize {
        for_both!(self, history => history.capacity())
    }

    fn read(&self, place: usize) -> Result<Action, HistoryFault> {
        for_both!(self, history => history.read(place))
    }

    fn insert(&mut self, place: usize, action: Action) -> Result<(), HistoryFault> {
        for_both!(self, history => history.insert(place, action))
    }

    fn remove(&mut self, place: usize) -> Result<Action, HistoryFault> {
        for_both!(self, history => history.remove(place))
    }
}
