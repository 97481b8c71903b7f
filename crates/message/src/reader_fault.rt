ghost use Rattle.std.specs.Prelude.{◌≡◌};
ghost use Rattle.message.specs.Faults.{fault_at, shown};

use action::Refusal;
use std::error::Error;
use std::fmt;

/// Why bytes were refused as a message. Each place is an offset in the bytes.
#[derive(Clone, Copy, Debug, PartialEq, Eq)]
pub enum ReaderFault {
    /// Refusal 9, at the record that is not there whole or is another than the one due.
    Cut(usize),
    /// Refusal 10: the message is not for this group, or not for this kind of figure.
    Foreign,
    /// Refusal 11, at the record whose fields break a rule.
    Broken(usize),
    /// Refusal 12, at the first byte after the message.
    Trailing(usize),
}

// A reader's fault without its offset.
#[derive(Clone, Copy)]
pub(crate) enum UnplacedFault {
    Cut,
    Foreign,
    Broken,
    Trailing,
}

impl UnplacedFault {
    // The fault at an offset.
    pub(crate) fn at(self, place: usize) -> ReaderFault
        ensures { result ≡ fault_at place self }
    {
        match self {
            UnplacedFault::Cut => ReaderFault::Cut(place),
            UnplacedFault::Foreign => ReaderFault::Foreign,
            UnplacedFault::Broken => ReaderFault::Broken(place),
            UnplacedFault::Trailing => ReaderFault::Trailing(place),
        }
    }
}

impl From<ReaderFault> for Refusal {
    ghost from_gives = { λ e r. r ≡ shown e };

    fn from(fault: ReaderFault) -> Refusal {
        let (number, place) = match fault {
            ReaderFault::Cut(place) => (9, place),
            ReaderFault::Foreign => (10, 0),
            ReaderFault::Broken(place) => (11, place),
            ReaderFault::Trailing(place) => (12, place),
        };
        Refusal::by_reader(number, place)
    }
}

impl fmt::Display for ReaderFault {
    ghost use Rattle.std.specs.Prelude.{Some};
    ghost use Rattle.action.specs.Words.{refusal_words};

    ghost output = { λ e. Some (refusal_words (shown e)) };

    fn fmt<W: fmt::Write>(&self, f: &mut fmt::Formatter<W>) -> fmt::Result {
        let refusal = Refusal::from(*self);
        write!(f, "{refusal}")
    }
}

impl Error for ReaderFault {}
