ghost use Rattle.std.specs.Prelude.{◌≡◌};
ghost use Rattle.table.specs.Faults.{shown};
ghost use Rattle.table.specs.declared.table_fault.TableFault.TheVariants.{InHistory, InReader};

use action::Refusal;
use history::HistoryFault;
use message::ReaderFault;
use std::error::Error;
use std::fmt;

/// Why a table refused a call. docs/REFUSALS.md has what each call checks, and in which order.
#[derive(Clone, Copy, Debug, PartialEq, Eq)]
pub enum TableFault {
    /// Refusal 2: a transaction is open.
    AlreadyOpen,
    /// Refusal 3: no open transaction fits the ticket.
    NotItsTicket,
    /// Refusal 4: there is no such article.
    NoArticle,
    /// Refusal 5: there is no such site.
    NoSite,
    /// Refusal 6: the kind does not know the operation with this amount.
    UnknownPair,
    /// Refusal 7: the transaction has as many writes as it may have.
    TooManyWrites,
    /// Refusal 8: the action would be later than any may be.
    TooLate,
    /// Refusal 13, at the offset of the first interval that begins above what the table has.
    Behind(usize),
    /// Refusal 14, at the offset of the first interval that goes beyond the own site's actions.
    Ahead(usize),
    /// Refusal 15, with how many bytes the offer has: more than the buffer.
    Short(usize),
    /// Refusals 9 to 12: the bytes are no message for this table.
    InReader(ReaderFault),
    /// Refusal 16: the history has no room.
    InHistory(HistoryFault),
}

impl From<HistoryFault> for TableFault {
    ghost from_gives = { λ e r. r ≡ InHistory e };

    fn from(fault: HistoryFault) -> TableFault {
        TableFault::InHistory(fault)
    }
}

impl From<ReaderFault> for TableFault {
    ghost from_gives = { λ e r. r ≡ InReader e };

    fn from(fault: ReaderFault) -> TableFault {
        TableFault::InReader(fault)
    }
}

impl From<TableFault> for Refusal {
    ghost from_gives = { λ e r. r ≡ shown e };

    fn from(fault: TableFault) -> Refusal {
        match fault {
            TableFault::AlreadyOpen => Refusal::by_table(2, 0),
            TableFault::NotItsTicket => Refusal::by_table(3, 0),
            TableFault::NoArticle => Refusal::by_table(4, 0),
            TableFault::NoSite => Refusal::by_table(5, 0),
            TableFault::UnknownPair => Refusal::by_table(6, 0),
            TableFault::TooManyWrites => Refusal::by_table(7, 0),
            TableFault::TooLate => Refusal::by_table(8, 0),
            TableFault::Behind(place) => Refusal::by_table(13, place),
            TableFault::Ahead(place) => Refusal::by_table(14, place),
            TableFault::Short(needed) => Refusal::by_table(15, needed),
            TableFault::InReader(fault) => fault.into(),
            TableFault::InHistory(fault) => fault.into(),
        }
    }
}

impl fmt::Display for TableFault {
    ghost use Rattle.std.specs.Prelude.{Some};
    ghost use Rattle.action.specs.Words.{refusal_words};

    ghost output = { λ e. Some (refusal_words (shown e)) };

    fn fmt<W: fmt::Write>(&self, f: &mut fmt::Formatter<W>) -> fmt::Result {
        let refusal = Refusal::from(*self);
        write!(f, "{refusal}")
    }
}

impl Error for TableFault {}
