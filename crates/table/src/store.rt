ghost use Rattle.std.specs.Prelude.{◌≡◌, List, length};
ghost use Rattle.action.specs.declared.action.Action.{Action as AnAction};
ghost use Rattle.table.specs.Room.{Allows, room_refusal};

use crate::state::State;
use history::{History, HistoryFault};
use std::marker::Model;

// A table's state and its history, which contracts see as one `View`.
// What holds of every table (`Sound`) need not hold of a store while a call is at work on it.
#[derive(Drop)]
pub(crate) struct Store<H: History> {
    pub(crate) state: State,
    pub(crate) history: H,
}

impl<H: History> Model for Store<H> {
    ghost use Rattle.table.specs.View.{View, held};

    ghost Value = { View };

    ghost view = { λ s. held s.state (H.items s.history) (H.room s.history) };
}

impl<H: History> Store<H> {
    // Refuses so many new actions where the history has not room for them all.
    pub(crate) fn check_room(&self, more: usize) -> Result<(), HistoryFault>
        ensures { (new : List AnAction) → length new ≡ more → Allows (room_refusal self.now new) result }
    {
        let capacity = self.history.capacity();
        if more > capacity - self.history.count() {
            return Err(HistoryFault::Full(capacity));
        }
        Ok(())
    }
}
