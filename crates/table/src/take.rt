ghost use Rattle.std.specs.Prelude.{◌≡◌, length};
ghost use Rattle.history.specs.Room.{Fits};
ghost use Rattle.message.specs.Format.{Message, records};
ghost use Rattle.message.specs.Walks.{records_in};
ghost use Rattle.row.specs.Passes.{new_actions};
ghost use Rattle.table.specs.Outcomes.{OneOutcome};
ghost use Rattle.table.specs.Sound.{Sound};
ghost use Rattle.table.specs.Taking.{Took, taken};

use crate::store::Store;
use crate::table::Table;
use crate::table_fault::TableFault;
use history::History;
use kind::Kind;
use message::check;

impl<K: Kind, H: History> Table<K, H> {
    /// Takes a message whole, or refuses it and changes nothing (docs/RULES.md, section 12).
    /// Answers how many of its actions were new.
    pub fn take(&mut self, bytes: &[u8]) -> Result<usize, TableFault>
        ensures does { Took K.means self.old bytes.now result self.new }
        ensures sound { Sound K.means self.new }
        ensures once { OneOutcome (Took K.means self.old bytes.now) }
    {
        self.store.take::<K>(bytes)
    }
}

impl<H: History> Store<H> {
    fn take<K: Kind>(&mut self, bytes: &[u8]) -> Result<usize, TableFault>
        requires { Sound K.means self.old }
        ensures { Took K.means self.old bytes.now result self.new }
    {
        self.state.check_closed()?;
        check::<K>(self.state.ledger.setup, bytes)?;
        if let Some(place) = self.state.ledger.first_behind(bytes) {
            return Err(TableFault::Behind(place));
        }
        if let Some(place) = self.state.ledger.first_ahead(bytes) {
            return Err(TableFault::Ahead(place));
        }
        let new = self.state.ledger.count_new(bytes);
        self.check_room(new)?;
        self.absorb::<K>(bytes, new);
        Ok(new)
    }

    // Takes in a message of which so many actions are new. These go into the history before the known entries are
    // raised, since what is new is judged by the entries as they were. If none is new, the figures stay.
    fn absorb<K: Kind>(&mut self, bytes: &[u8], new: usize)
        requires sound { Sound K.means self.old }
        requires counted { new ≡ length (new_actions self.old.rows self.old.setup.own bytes.now) }
        requires room { Fits self.old.room self.old.history (new_actions self.old.rows self.old.setup.own bytes.now) }
        ensures { (m : Message) → records_in bytes.now ≡ records m → self.new ≡ taken K.means self.old m }
    {
        let Store { state, history } = self;
        if new == 0 {
            state.clock = state.ledger.raise_all(bytes, state.clock);
            return;
        }
        state.ledger.insert_new(history, bytes);
        state.clock = state.ledger.record::<K, H>(history, bytes, state.clock);
    }
}
