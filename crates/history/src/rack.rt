ghost use Rattle.std.specs.Prelude.{◌≡◌, ◌≤◌, min, [], length, IfOk, IsOk, vec_capacity};

use crate::history::{History, MOST_PLACES};
use crate::history_fault::{HistoryFault, check_insert, check_place};
use action::Action;
use std::alloc::{AllocError, Global};

/// A history that keeps each action as an `Action`. It gets all of its memory when it is made.
#[derive(Drop)]
pub struct Rack {
    actions: Vec<Action>,
    // The capacity: what was asked for. The memory may have room for more.
    places: usize,
    ghost within: { length actions.items ≤ places },
    ghost held: { places ≤ vec_capacity actions },
    ghost few: { places ≤ 1024 },
}

impl Rack {
    /// An empty rack with room for so many actions, at most `MOST_PLACES`.
    pub fn new(heap: Global, places: usize) -> Result<Rack, AllocError>
        ensures made { IfOk result (λ rack. (rack.actions.items ≡ []) × (rack.places ≡ min places 1024)) }
        ensures succeeds { places ≡ 0 → IsOk result }
    {
        let places = places.min(MOST_PLACES);
        let actions = Vec::with_capacity(heap, places)?;
        Ok(Rack { actions, places })
    }
}

impl History for Rack {
    ghost items = { λ rack. rack.actions.items };

    ghost room = { λ rack. record { places = rack.places } };

    ghost bounded = { λ rack. (rack.within, rack.few) };

    fn count(&self) -> usize {
        self.actions.len()
    }

    fn capacity(&self) -> usize {
        self.places
    }

    fn read(&self, place: usize) -> Result<Action, HistoryFault> {
        self.actions
            .get(place)
            .copied()
            .ok_or(HistoryFault::NoPlace(place))
    }

    fn insert(&mut self, place: usize, action: Action) -> Result<(), HistoryFault> {
        check_insert(place, self.actions.len(), self.places)?;
        self.actions.insert(place, action).unwrap();
        Ok(())
    }

    fn remove(&mut self, place: usize) -> Result<Action, HistoryFault> {
        check_place(place, self.actions.len())?;
        Ok(self.actions.remove(place))
    }
}
