ghost use Rattle.std.specs.Prelude.{◌≡◌, ◌<◌, ◌≤◌, ◌⊎◌, MatchResult};
ghost use Rattle.history.specs.Faults.{shown};
ghost use Rattle.history.specs.declared.history_fault.HistoryFault.TheVariants.{Full, NoPlace};

use action::Refusal;
use std::error::Error;
use std::fmt;

/// Why a history refused.
#[derive(Clone, Copy, Debug, PartialEq, Eq)]
pub enum HistoryFault {
    /// Refusal 16: it has no room. With its capacity.
    Full(usize),
    /// Refusal 17: there is no such place. With that place.
    NoPlace(usize),
}

impl From<HistoryFault> for Refusal {
    ghost from_gives = { λ e r. r ≡ shown e };

    fn from(fault: HistoryFault) -> Refusal {
        match fault {
            HistoryFault::Full(capacity) => Refusal::by_history(16, capacity),
            HistoryFault::NoPlace(place) => Refusal::by_history(17, place),
        }
    }
}

impl fmt::Display for HistoryFault {
    ghost use Rattle.std.specs.Prelude.{Some};
    ghost use Rattle.action.specs.Words.{refusal_words};

    ghost output = { λ e. Some (refusal_words (shown e)) };

    fn fmt<W: fmt::Write>(&self, f: &mut fmt::Formatter<W>) -> fmt::Result {
        let refusal = Refusal::from(*self);
        write!(f, "{refusal}")
    }
}

impl Error for HistoryFault {}

// Refuses a place that is not in use.
pub(crate) fn check_place(place: usize, used: usize) -> Result<(), HistoryFault>
    ensures { MatchResult result (λ _. place < used) (λ e. (used ≤ place) × (e ≡ NoPlace place)) }
{
    if place < used {
        Ok(())
    } else {
        Err(HistoryFault::NoPlace(place))
    }
}

// Refuses where there is no room for one more, or where its place is neither in use nor the first free one.
pub(crate) fn check_insert(place: usize, used: usize, places: usize) -> Result<(), HistoryFault>
    ensures { MatchResult result (λ _. (place ≤ used) × (used < places))
        (λ e. ((places ≤ used) × (e ≡ Full places))
        ⊎ ((used < places) × (used < place) × (e ≡ NoPlace place))) }
{
    if used >= places {
        return Err(HistoryFault::Full(places));
    }
    check_place(place, used + 1)
}
