ghost use Rattle.std.specs.Prelude.{◌≡◌, Some};
ghost use Rattle.action.specs.Lawful.{by_history, by_reader, by_table};
ghost use Rattle.action.specs.Words.{about, reason, reason_words, refusal_words};

use std::error::Error;
use std::fmt;

/// The part of the library that refused.
#[derive(Clone, Copy, Debug, PartialEq, Eq)]
pub enum Layer {
    Reader,
    History,
    Table,
}

/// Why a call was refused, in the form that all layers share. docs/REFUSALS.md has the numbers.
#[derive(Clone, Copy, Debug, PartialEq, Eq)]
pub struct Refusal {
    pub number: u8,
    /// What the refusal is about, such as the offset of a byte or a capacity; 0 where the number says all.
    pub place: usize,
    pub layer: Layer,
}

impl Refusal {
    /// A refusal by the reader of messages.
    pub fn by_reader(number: u8, place: usize) -> Refusal
        ensures { result ≡ by_reader number place }
    {
        Refusal {
            number,
            place,
            layer: Layer::Reader,
        }
    }

    /// A refusal by a history.
    pub fn by_history(number: u8, place: usize) -> Refusal
        ensures { result ≡ by_history number place }
    {
        Refusal {
            number,
            place,
            layer: Layer::History,
        }
    }

    /// A refusal by a table, by a set-up or by a line of a script.
    pub fn by_table(number: u8, place: usize) -> Refusal
        ensures { result ≡ by_table number place }
    {
        Refusal {
            number,
            place,
            layer: Layer::Table,
        }
    }
}

impl fmt::Display for Refusal {
    ghost output = { λ r. Some (refusal_words r) };

    fn fmt<W: fmt::Write>(&self, f: &mut fmt::Formatter<W>) -> fmt::Result {
        let number = self.number;
        let reason = Reason::new(number, self.place);
        write!(f, "refused by {number}{reason}")
    }
}

impl Error for Refusal {}

// What follows the number in the sentence of a refusal: some words and, where the number names a place, that
// place and more words.
#[derive(Drop)]
struct Reason {
    before: &'static str,
    place: Option<usize>,
    after: &'static str,
}

impl Reason {
    // Nothing is said where the number is not known.
    fn new(number: u8, place: usize) -> Reason
        ensures { reason_words result ≡ reason number place }
    {
        match number {
            1 => Reason::plain(": the set-up is outside its limits"),
            2 => Reason::plain(": a transaction is open"),
            3 => Reason::plain(": no open transaction fits the ticket"),
            4 => Reason::plain(": there is no such article"),
            5 => Reason::plain(": there is no such site"),
            6 => Reason::plain(": the kind does not know this pair"),
            7 => Reason::plain(": the transaction is full, it has 16 writes"),
            8 => Reason::plain(": the time would be above 4,000,000,000"),
            9 => Reason::about(
                ": the record at byte ",
                place,
                " is cut off or not the one due",
            ),
            10 => Reason::plain(": the message is of another group or kind"),
            11 => Reason::about(": the record at byte ", place, " breaks a field rule"),
            12 => Reason::about(
                ": the message ends before byte ",
                place,
                ", where more follows",
            ),
            13 => Reason::about(
                ": the interval at byte ",
                place,
                " begins above what this table has",
            ),
            14 => Reason::about(
                ": the interval at byte ",
                place,
                " goes beyond this site's own actions",
            ),
            15 => Reason::about(": the buffer is too short, the offer has ", place, " bytes"),
            16 => Reason::about(": the history has no room, its capacity is ", place, ""),
            17 => Reason::about(": the history has no place ", place, ""),
            18 => Reason::about(": line ", place, " has no known form"),
            _ => Reason::plain(""),
        }
    }

    fn plain(words: &'static str) -> Reason
        ensures { reason_words result ≡ words.now }
    {
        Reason {
            before: words,
            place: None,
            after: "",
        }
    }

    fn about(before: &'static str, place: usize, after: &'static str) -> Reason
        ensures { reason_words result ≡ about before.now place after.now }
    {
        Reason {
            before,
            place: Some(place),
            after,
        }
    }
}

impl fmt::Display for Reason {
    ghost output = { λ r. Some (reason_words r) };

    fn fmt<W: fmt::Write>(&self, f: &mut fmt::Formatter<W>) -> fmt::Result {
        let Reason { before, after, .. } = *self;
        match self.place {
            Some(place) => write!(f, "{before}{place}{after}"),
            None => f.write_str(before),
        }
    }
}
