ghost use Rattle.std.specs.Prelude.{◌≡◌, ℕ, ◌≤◌, List, length};
ghost use Rattle.action.specs.declared.action.Action.{Action as AnAction};
ghost use Rattle.history.specs.Changes.{Inserted, Read, Removed};
ghost use Rattle.history.specs.Room.{Room, Small};

use crate::history_fault::HistoryFault;
use action::Action;

/// The most places that a history may have.
pub const MOST_PLACES: usize = 1024;

/// Where a table keeps its actions: a list of them, with room for a fixed number. Places are counted from 0.
/// docs/RULES.md, section 5, has what it does, and what the author of another one has to prove.
pub trait History {
    // The list.
    ghost items: { Self → List AnAction };

    // What it has room for.
    ghost room: { Self → Room };

    /// How many actions there are.
    fn count(&self) -> usize
        ensures { result ≡ length (items self.now) };

    /// For how many actions there is room in all.
    fn capacity(&self) -> usize
        ensures { result ≡ (room self.now).places };

    /// The action at a place. Refused by 17 where there is none.
    fn read(&self, place: usize) -> Result<Action, HistoryFault>
        ensures { Read (items self.now) place result };

    /// Puts an action at a place; those from there on move up by one. Refused by 16 where there is no room, else
    /// by 17 where the place is beyond the end of the list.
    fn insert(&mut self, place: usize, action: Action) -> Result<(), HistoryFault>
        ensures list { Inserted (items self.old) (room self.old) place action result (items self.new) }
        ensures fixed { room self.new ≡ room self.old };

    /// Takes out the action at a place; those after it move down by one. Refused by 17 where there is none.
    fn remove(&mut self, place: usize) -> Result<Action, HistoryFault>
        ensures list { Removed (items self.old) place result (items self.new) }
        ensures fixed { room self.new ≡ room self.old };

    // No list is longer than its capacity, and no capacity is above `MOST_PLACES`.
    ghost bounded: { (h : Self) → (length (items h) ≤ (room h).places) × Small (room h) };
}
