ghost use Rattle.std.specs.Prelude.{◌≡◌, ◌≤◌, IfSome, length};
ghost use Rattle.std.specs.Iterator.{IsFinite};

use history::History;
use kind::Kind;
use table::Table;

/// What one write asks for: a pair of operation and amount, on an article.
#[derive(Clone, Copy, Default)]
pub struct Movement {
    pub article: u8,
    pub operation: u8,
    pub amount: i32,
}

/// Opens, writes and commits one transaction. Writes that are refused are left out of it.
/// Answers how many actions it has and how many bytes its message has; `None` where it was not opened or not committed.
pub fn post<K: Kind, H: History, I: Iterator<Item = Movement>>(
    table: &mut Table<K, H>,
    movements: I,
    buffer: &mut [u8],
) -> Option<(usize, usize)>
    requires { I.can_next movements × IsFinite (I.remaining movements) }
    ensures fits { IfSome result (λ posted. posted.1 ≤ length buffer.old) }
    ensures size { length buffer.new ≡ length buffer.old }
{
    let ticket = table.open().ok()?;
    for movement in movements {
        let Movement {
            article,
            operation,
            amount,
        } = movement;
        let _ = table.write(&ticket, article, operation, amount);
    }
    match table.commit(ticket, buffer) {
        Ok(done) => Some(done),
        // A ticket has to be spent. This one is the table's own, so the abandon is not refused.
        Err((_, ticket)) => {
            table.abandon(ticket).unwrap();
            None
        }
    }
}
