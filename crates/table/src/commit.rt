ghost use Rattle.std.specs.Prelude.{◌≡◌, ℕ, ◌<◌, List, length};
ghost use Rattle.history.specs.Room.{Fits};
ghost use Rattle.message.specs.Buffer.{overwritten};
ghost use Rattle.message.specs.Lawful.{LawfulMessage};
ghost use Rattle.table.specs.Outcomes.{OneOutcome};
ghost use Rattle.table.specs.Sound.{Sound};
ghost use Rattle.table.specs.Transactions.{Committed, committed, fitting, transaction_bytes, transaction_message};
ghost use Rattle.table.specs.View.{View, bare};

use crate::state::{State, written_in};
use crate::store::Store;
use crate::table::Table;
use crate::table_fault::TableFault;
use crate::ticket::Ticket;
use history::History;
use kind::Kind;
use row::append;

impl<K: Kind, H: History> Table<K, H> {
    /// Commits the open transaction, and writes its message to the buffer if that has room for it (docs/RULES.md,
    /// section 9.3). Answers how many actions were committed, and how many bytes were written.
    pub fn commit(
        &mut self,
        ticket: Ticket,
        buffer: &mut [u8],
    ) -> Result<(usize, usize), (TableFault, Ticket)>
        ensures does { Committed K.means self.old ticket buffer.old result self.new buffer.new }
        ensures sound { Sound K.means self.new }
        ensures once { OneOutcome (λ answer (after : View × List ℕ).
            Committed K.means self.old ticket buffer.old answer after.0 after.1) }
        ensures lawful { 0 < length self.old.pending
            → LawfulMessage K.means self.old.setup (transaction_message K.means self.old) }
    {
        self.store.commit::<K>(ticket, buffer)
    }
}

impl<H: History> Store<H> {
    fn commit<K: Kind>(
        &mut self,
        ticket: Ticket,
        buffer: &mut [u8],
    ) -> Result<(usize, usize), (TableFault, Ticket)>
        requires { Sound K.means self.old }
        ensures { Committed K.means self.old ticket buffer.old result self.new buffer.new }
    {
        if !self.state.holds::<K>(&ticket) {
            return Err((TableFault::NotItsTicket, ticket));
        }
        let writes = written_in(&self.state.transaction).len();
        if let Err(fault) = self.check_room(writes) {
            return Err((fault.into(), ticket));
        }
        ticket.spend();
        let length = send::<K>(&self.state, buffer);
        self.post::<K>();
        Ok((writes, length))
    }

    // Puts the pending actions into the history, with all that this changes, and ends the transaction.
    fn post<K: Kind>(&mut self)
        requires sound { Sound K.means self.old }
        requires room { Fits self.old.room self.old.history self.old.pending }
        ensures { self.new ≡ committed K.means self.old }
    {
        let Store { state, history } = self;
        let pending = written_in(&state.transaction);
        append(history, pending);
        state.ledger.raise_posted(pending);
        state.ledger.work::<K, H>(history, pending);
        state.clock += pending.len() as u32;
        state.transaction = None;
    }
}

// Writes the transaction's message, if there were writes and it fits. Answers how many bytes were written.
fn send<K: Kind>(state: &State, buffer: &mut [u8]) -> usize
    ensures length { result ≡ length (fitting (transaction_bytes K.means (bare state.now)) buffer.old) }
    ensures bytes { buffer.new
        ≡ overwritten buffer.old 0 (fitting (transaction_bytes K.means (bare state.now)) buffer.old) }
{
    if written_in(&state.transaction).is_empty() {
        return 0;
    }
    let size = state.measure::<K>();
    if size.length > buffer.len() {
        return 0;
    }
    state.put_transaction::<K>(size.sections, buffer);
    size.length
}
