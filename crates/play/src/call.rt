ghost use Rattle.std.specs.Prelude.{◌≡◌, Some, None, MatchResult};
ghost use Rattle.play.specs.Calls.{Fair};

use history::History;
use kind::Kind;
use table::{Table, TableFault, Ticket};
use trials::Movement;

// What a call by a ticket answered, and the ticket where the call did not spend it.
pub(crate) type Answered<T> = (Result<T, TableFault>, Option<Ticket>);

// A call by a ticket, at a table of any kind and history.
pub(crate) trait Call: Drop {
    type Answer;

    fn make<K: Kind, H: History>(
        self,
        table: &mut Table<K, H>,
        ticket: Ticket,
    ) -> Answered<Self::Answer>
        ensures { Fair K.means table.old ticket result.1 table.new };
}

// What a commit or an abandon answered: one that is granted has spent the ticket, and one that is refused hands it
// back.
fn ended<T>(end: Result<T, (TableFault, Ticket)>) -> Answered<T>
    ensures { MatchResult end (λ _. result.1 ≡ None) (λ e. result.1 ≡ Some e.1) }
{
    match end {
        Ok(done) => (Ok(done), None),
        Err((fault, ticket)) => (Err(fault), Some(ticket)),
    }
}

// A write. It answers the time.
#[derive(Drop)]
pub(crate) struct Write(pub(crate) Movement);

impl Call for Write {
    type Answer = u32;

    fn make<K: Kind, H: History>(self, table: &mut Table<K, H>, ticket: Ticket) -> Answered<u32> {
        let Movement {
            article,
            operation,
            amount,
        } = self.0;
        let answer = table.write(&ticket, article, operation, amount);
        (answer, Some(ticket))
    }
}

// A commit, into a buffer. It answers how many actions there were, and how many bytes of a message were written.
#[derive(Drop)]
pub(crate) struct Commit<'a>(pub(crate) &'a mut [u8]);

impl Call for Commit<'_> {
    type Answer = (usize, usize);

    fn make<K: Kind, H: History>(
        self,
        table: &mut Table<K, H>,
        ticket: Ticket,
    ) -> Answered<(usize, usize)> {
        ended(table.commit(ticket, self.0))
    }
}

// An abandon. It answers nothing.
#[derive(Drop)]
pub(crate) struct Abandon;

impl Call for Abandon {
    type Answer = ();

    fn make<K: Kind, H: History>(self, table: &mut Table<K, H>, ticket: Ticket) -> Answered<()> {
        ended(table.abandon(ticket))
    }
}
