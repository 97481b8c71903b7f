use std::str::FromStr;
use trials::NoJob;

/// What there is before the first round.
#[derive(Clone, Copy)]
pub enum Start {
    // An empty table.
    Empty,
    // A full table, filled by transactions of one write.
    Full,
    // An empty table, and the messages by which another table was filled.
    Transactions,
    // An empty table, and offers of all articles by a full one.
    Offers,
}

/// Which table a round works on: a new one, or that of the round before.
#[derive(Clone, Copy)]
pub enum Basis {
    New,
    Same,
}

/// What a round does with its table.
#[derive(Clone, Copy)]
pub enum Work {
    Nothing,
    // Fills it by transactions of one write.
    Commit1,
    // Fills it by transactions of sixteen writes.
    Commit16,
    // Offers every article.
    Offer,
    // Takes every message.
    Take,
}

/// The work that a word names (docs/SPEED.md).
#[derive(Clone, Copy)]
pub struct Call {
    pub start: Start,
    pub basis: Basis,
    pub work: Work,
}

impl FromStr for Call {
    type Err = NoJob;

    fn from_str(word: &str) -> Result<Call, NoJob> {
        let (start, basis, work) = match word {
            "new" => (Start::Empty, Basis::New, Work::Nothing),
            "commit-1" => (Start::Empty, Basis::New, Work::Commit1),
            "commit-16" => (Start::Empty, Basis::New, Work::Commit16),
            "offer" => (Start::Full, Basis::Same, Work::Offer),
            "take-1" => (Start::Transactions, Basis::New, Work::Take),
            "take-many" => (Start::Offers, Basis::New, Work::Take),
            "again-1" => (Start::Transactions, Basis::Same, Work::Take),
            "again-many" => (Start::Offers, Basis::Same, Work::Take),
            _ => return Err(NoJob),
        };
        Ok(Call { start, basis, work })
    }
}
