ghost use Rattle.std.specs.Prelude.{◌≡◌, true, Some, None};
ghost use Rattle.table.specs.Transactions.{holds};

use crate::call::Call;
use history::History;
use kind::Kind;
use table::{Table, TableFault, Ticket};

// Puts a ticket, if there is one, where there is none.
fn put_back(hand: &mut Option<Ticket>, ticket: Option<Ticket>)
    requires { hand.old ≡ None }
    ensures { hand.new ≡ ticket }
{
    match std::mem::replace(hand, ticket) {
        None => {}
        Some(_) => unreachable(),
    }
}

// A table, how many places its history has, and the ticket of its open transaction. A ticket cannot be let go, so a
// seat that is let go abandons by it first.
pub(crate) struct Seat<K: Kind + Drop, H: History + Drop> {
    table: Table<K, H>,
    pub(crate) places: usize,
    ticket: Option<Ticket>,
    ghost own: { (t : _) → ticket ≡ Some t → holds K.means table t ≡ true },
}

impl<K: Kind + Drop, H: History + Drop> Seat<K, H> {
    pub(crate) fn new(table: Table<K, H>, places: usize) -> Seat<K, H> {
        Seat {
            table,
            places,
            ticket: None,
        }
    }

    pub(crate) fn table(&self) -> &Table<K, H> {
        &self.table
    }

    // Is a transaction open, so that the seat holds its ticket?
    pub(crate) fn holds(&self) -> bool {
        self.ticket.is_some()
    }

    // Opens a transaction. No table gives out a second ticket.
    pub(crate) fn open(&mut self) -> Result<(), TableFault> {
        let ticket = self.table.open()?;
        put_back(&mut self.ticket, Some(ticket));
        Ok(())
    }

    // Makes a call by the own ticket. `None` where there is none.
    pub(crate) fn call<C: Call>(&mut self, call: C) -> Option<Result<C::Answer, TableFault>> {
        let ticket = self.ticket.take()?;
        let (answer, back) = call.make(&mut self.table, ticket);
        put_back(&mut self.ticket, back);
        Some(answer)
    }

    // Makes a call by the ticket of another seat. `None` where it has none. Where the table spends that ticket, it
    // noted the same numbers as the own one, which then goes to the other seat.
    pub(crate) fn call_by<J: Kind + Drop, C: Call>(
        &mut self,
        other: &mut Seat<J, H>,
        call: C,
    ) -> Option<Result<C::Answer, TableFault>> {
        let ticket = other.ticket.take()?;
        let (answer, back) = call.make(&mut self.table, ticket);
        match back {
            None => std::mem::swap(&mut self.ticket, &mut other.ticket),
            back => put_back(&mut other.ticket, back),
        }
        Some(answer)
    }

    pub(crate) fn take(&mut self, bytes: &[u8]) -> Result<usize, TableFault> {
        self.table.take(bytes)
    }

    pub(crate) fn archive(&mut self, article: u8) -> Result<usize, TableFault> {
        self.table.archive(article)
    }
}

impl<K: Kind + Drop, H: History + Drop> Drop for Seat<K, H> {
    // The abandon is not refused, since the ticket is the table's own.
    fn drop(self) {
        let Seat {
            mut table,
            places: _,
            ticket,
        } = self;
        if let Some(ticket) = ticket {
            table.abandon(ticket).unwrap();
        }
    }
}
