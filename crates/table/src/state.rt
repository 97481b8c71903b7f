ghost use Rattle.std.specs.Prelude.{◌≡◌, ◌≤◌, ◌+◌, length, not, nat_lt};
ghost use Rattle.std.specs.Option.{is_some};
ghost use Rattle.message.specs.Buffer.{overwritten};
ghost use Rattle.message.specs.Format.{record_bytes};
ghost use Rattle.message.specs.declared.record.Header.{Header as AHeader};
ghost use Rattle.table.specs.Transactions.{holds};
ghost use Rattle.table.specs.View.{bare, written_in};
ghost use Rattle.table.specs.Faults.{Passes};

use crate::table_fault::TableFault;
use crate::ticket::Ticket;
use action::{Action, MOST_WRITES};
use arrayvec::ArrayVec;
use history::History;
use kind::Kind;
use message::{Header, Record, put};
use row::Ledger;

// The pending actions of an open transaction.
pub(crate) type Pending = ArrayVec<Action, MOST_WRITES>;

// What a table keeps besides its history.
#[derive(Drop)]
pub(crate) struct State {
    pub(crate) ledger: Ledger,
    pub(crate) clock: u32,
    // The pending actions of the open transaction; `None` where none is open.
    pub(crate) transaction: Option<Pending>,
}

impl State {
    // Does the ticket fit (docs/RULES.md, section 9.1)?
    pub(crate) fn holds<K: Kind>(&self, ticket: &Ticket) -> bool
        ensures { result ≡ holds K.means (bare self.now) ticket.now }
    {
        self.transaction.is_some()
            && ticket.group == self.ledger.setup.group
            && ticket.kind == K::NUMBER
            && ticket.site == self.ledger.setup.own
            && ticket.clock == self.clock
    }

    // The header of a message that this site sends.
    pub(crate) fn header<K: Kind>(&self, sections: u8) -> Header
        ensures { let setup = self.now.ledger.setup in
            ◌≡◌ {A = AHeader} result (record {
              group = setup.group;
              kind = K.means.number;
              sender = setup.own;
              sections = sections;
            }) }
    {
        let setup = self.ledger.setup;
        Header {
            group: setup.group,
            kind: K::NUMBER,
            sender: setup.own,
            sections,
        }
    }

    // Refuses where a transaction is open.
    pub(crate) fn check_closed(&self) -> Result<(), TableFault>
        ensures { Passes (not (is_some self.now.transaction)) TableFault.AlreadyOpen result }
    {
        if self.transaction.is_some() {
            return Err(TableFault::AlreadyOpen);
        }
        Ok(())
    }

    // Refuses an article that is none of the group's.
    pub(crate) fn check_article(&self, article: u8) -> Result<(), TableFault>
        ensures { Passes (nat_lt article self.now.ledger.setup.articles) TableFault.NoArticle result }
    {
        if article >= self.ledger.setup.articles {
            return Err(TableFault::NoArticle);
        }
        Ok(())
    }

    // Refuses a site that is none of the group's.
    pub(crate) fn check_site(&self, site: u8) -> Result<(), TableFault>
        ensures { Passes (nat_lt site self.now.ledger.setup.sites) TableFault.NoSite result }
    {
        if site >= self.ledger.setup.sites {
            return Err(TableFault::NoSite);
        }
        Ok(())
    }
}

// The pending actions, none where no transaction is open.
pub(crate) fn written_in(transaction: &Option<Pending>) -> &[Action]
    ensures value { result.now ≡ written_in transaction.now }
    ensures few { length result.now ≤ 16 }
{
    match transaction {
        Some(pending) => pending.as_slice(),
        None => &[],
    }
}

// Writes a record of a message, which fits, at an offset of the buffer, and answers the offset after it.
pub(crate) fn emit(buffer: &mut [u8], at: usize, part: Record) -> usize
    requires { at + length (record_bytes part) ≤ length buffer.old }
    ensures end { result ≡ at + length (record_bytes part) }
    ensures bytes { buffer.new ≡ overwritten buffer.old at (record_bytes part) }
{
    put(buffer, at, part).unwrap()
}
