ghost use Rattle.std.specs.Prelude.{◌≡◌, ◌*◌, ◌/◌, ◌<◌, ◌≤◌, min, [], length, drop, vec_len, slice_index_or};
ghost use Rattle.std.specs.List.{insert, remove};
ghost use Rattle.history.specs.Strips.{Recorded, strip_items};

use crate::history::{History, MOST_PLACES};
use crate::history_fault::{HistoryFault, check_insert, check_place};
use action::{ACTION_BYTES, Action};

/// How many bytes a strip has for each place: those of an action's record.
pub const PLACE_BYTES: usize = ACTION_BYTES;

/// A history that keeps actions as the bytes of their records, in memory that it is given.
#[derive(Drop)]
pub struct Strip {
    bytes: Vec<u8>,
    places: usize,
    used: usize,
    ghost within: { length (strip_items used bytes.items) ≤ places },
    ghost whole: { places ≡ min (vec_len bytes / 16) 1024 },
    ghost few: { places ≤ 1024 },
    // Each used place has the whole record of its action, the first byte too.
    ghost recorded: { Recorded used bytes.items },
    // As many actions as used places.
    ghost counted: { length (strip_items used bytes.items) ≡ used },
}

#[tactic(auto, using(crate::proofs::Places::strip_steps))]
impl Strip {
    /// An empty strip with as many places as whole records fit into the memory, at most `MOST_PLACES`. What the
    /// memory held means nothing. Bytes after the last place are never written.
    pub fn new(memory: Vec<u8>) -> Strip
        ensures empty { strip_items result.used result.bytes.items ≡ [] }
        ensures room { result.places ≡ min (vec_len memory / 16) 1024 }
    {
        let places = (memory.len() / PLACE_BYTES).min(MOST_PLACES);
        Strip {
            bytes: memory,
            places,
            used: 0,
        }
    }

    // The action at a used place.
    fn action_at(&self, place: usize) -> Action
        requires { place < self.now.used }
        ensures { result ≡ slice_index_or (strip_items self.now.used self.now.bytes.items) place result }
    {
        let start = place * PLACE_BYTES;
        let mut record = [0; PLACE_BYTES];
        record.copy_from_slice(&self.bytes[start..start + PLACE_BYTES]);
        Action::from_bytes(&record)
    }

    // Moves the used places from this one on up by one, and writes the action's record here.
    fn put_in(&mut self, place: usize, action: Action)
        requires { (place ≤ self.old.used) × (self.old.used < self.old.places) }
        ensures items { strip_items self.new.used self.new.bytes.items
            ≡ insert (strip_items self.old.used self.old.bytes.items) place action }
        ensures rest { drop (self.new.used * 16) self.new.bytes.items ≡ drop (self.new.used * 16) self.old.bytes.items }
        ensures fixed { self.new.places ≡ self.old.places }
    {
        let start = place * PLACE_BYTES;
        let next = start + PLACE_BYTES;
        self.bytes.copy_within(start..self.used * PLACE_BYTES, next);
        self.bytes[start..next].copy_from_slice(&action.to_bytes());
        self.used += 1;
    }

    // Moves the used places after this one down by one.
    fn take_out(&mut self, place: usize)
        requires { place < self.old.used }
        ensures items { strip_items self.new.used self.new.bytes.items
            ≡ remove (strip_items self.old.used self.old.bytes.items) place }
        ensures rest { drop (self.new.used * 16) self.new.bytes.items ≡ drop (self.new.used * 16) self.old.bytes.items }
        ensures fixed { self.new.places ≡ self.old.places }
    {
        let start = place * PLACE_BYTES;
        self.bytes
            .copy_within(start + PLACE_BYTES..self.used * PLACE_BYTES, start);
        self.used -= 1;
    }
}

impl History for Strip {
    ghost items = { λ strip. strip_items strip.used strip.bytes.items };

    ghost room = { λ strip. record { places = strip.places } };

    ghost bounded = { λ strip. (strip.within, strip.few) };

    fn count(&self) -> usize {
        self.used
    }

    fn capacity(&self) -> usize {
        self.places
    }

    fn read(&self, place: usize) -> Result<Action, HistoryFault> {
        check_place(place, self.used)?;
        Ok(self.action_at(place))
    }

    fn insert(&mut self, place: usize, action: Action) -> Result<(), HistoryFault> {
        check_insert(place, self.used, self.places)?;
        self.put_in(place, action);
        Ok(())
    }

    fn remove(&mut self, place: usize) -> Result<Action, HistoryFault> {
        let action = self.read(place)?;
        self.take_out(place);
        Ok(action)
    }
}
