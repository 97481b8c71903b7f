ghost use Rattle.table.specs.Sound.{Sound};
ghost use Rattle.table.specs.Transactions.{Abandoned, Opened, Wrote};

use crate::state::{Pending, written_in};
use crate::store::Store;
use crate::table::Table;
use crate::table_fault::TableFault;
use crate::ticket::Ticket;
use action::{Action, LATEST_TIME, MOST_WRITES};
use history::History;
use kind::Kind;

impl<K: Kind, H: History> Table<K, H> {
    /// Opens a transaction and answers its ticket. A table has one open transaction at most.
    pub fn open(&mut self) -> Result<Ticket, TableFault>
        ensures does { Opened K.means self.old result self.new }
        ensures sound { Sound K.means self.new }
    {
        self.store.open::<K>()
    }

    /// Adds a pending action, and answers the time that it will have (docs/RULES.md, section 9.2).
    /// A refusal leaves the transaction open.
    pub fn write(
        &mut self,
        ticket: &Ticket,
        article: u8,
        operation: u8,
        amount: i32,
    ) -> Result<u32, TableFault>
        ensures does { Wrote K.means self.old ticket.now article operation amount result self.new }
        ensures sound { Sound K.means self.new }
    {
        self.store.write::<K>(ticket, article, operation, amount)
    }

    /// Drops the pending actions and closes the transaction. The clock stays.
    pub fn abandon(&mut self, ticket: Ticket) -> Result<(), (TableFault, Ticket)>
        ensures does { Abandoned K.means self.old ticket result self.new }
        ensures sound { Sound K.means self.new }
    {
        self.store.abandon::<K>(ticket)
    }
}

impl<H: History> Store<H> {
    fn open<K: Kind>(&mut self) -> Result<Ticket, TableFault>
        ensures { Opened K.means self.old result self.new }
    {
        let state = &mut self.state;
        state.check_closed()?;
        state.transaction = Some(Pending::new());
        Ok(Ticket {
            group: state.ledger.setup.group,
            kind: K::NUMBER,
            site: state.ledger.setup.own,
            clock: state.clock,
        })
    }

    fn write<K: Kind>(
        &mut self,
        ticket: &Ticket,
        article: u8,
        operation: u8,
        amount: i32,
    ) -> Result<u32, TableFault>
        requires { Sound K.means self.old }
        ensures { Wrote K.means self.old ticket.now article operation amount result self.new }
    {
        let state = &mut self.state;
        if !state.holds::<K>(ticket) {
            return Err(TableFault::NotItsTicket);
        }
        state.check_article(article)?;
        if !K::is_known(operation, amount) {
            return Err(TableFault::UnknownPair);
        }
        let writes = written_in(&state.transaction).len();
        if writes >= MOST_WRITES {
            return Err(TableFault::TooManyWrites);
        }
        let time = state.clock + writes as u32 + 1;
        if time > LATEST_TIME {
            return Err(TableFault::TooLate);
        }
        let action = Action {
            coordinator: state.ledger.setup.own,
            time,
            transaction: state.clock + 1,
            article,
            operation,
            amount,
        };
        // A transaction is open, since the ticket fits.
        if let Some(pending) = &mut state.transaction {
            pending.push(action);
        }
        Ok(time)
    }

    fn abandon<K: Kind>(&mut self, ticket: Ticket) -> Result<(), (TableFault, Ticket)>
        ensures { Abandoned K.means self.old ticket result self.new }
    {
        if !self.state.holds::<K>(&ticket) {
            return Err((TableFault::NotItsTicket, ticket));
        }
        ticket.spend();
        self.state.transaction = None;
        Ok(())
    }
}
