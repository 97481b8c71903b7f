ghost use Rattle.std.specs.Prelude.{◌≡◌};
ghost use Rattle.c_api.specs.Faults.{fault_words, number};
ghost use Rattle.c_api.specs.declared.call_fault.CallFault.TheVariants.{NoTable, InReader};

use action::{Refusal, UnlawfulSetup};
use message::ReaderFault;
use std::error::Error;
use std::fmt;

// Why the call counts no actions.
#[derive(Clone, Copy, Debug, PartialEq, Eq)]
pub(crate) enum CallFault {
    // The set-up is outside its limits, or the call has no such kind.
    NoTable,
    InReader(ReaderFault),
}

impl CallFault {
    // The call answers minus this number, and C gets no more of a fault.
    pub(crate) fn number(self) -> u8
        ensures { result ≡ number self }
    {
        match self {
            CallFault::NoTable => 1,
            CallFault::InReader(fault) => Refusal::from(fault).number,
        }
    }
}

impl From<UnlawfulSetup> for CallFault {
    ghost from_gives = { λ _ r. r ≡ NoTable };

    fn from(_fault: UnlawfulSetup) -> CallFault {
        CallFault::NoTable
    }
}

impl From<ReaderFault> for CallFault {
    ghost from_gives = { λ e r. r ≡ InReader e };

    fn from(fault: ReaderFault) -> CallFault {
        CallFault::InReader(fault)
    }
}

impl fmt::Display for CallFault {
    ghost use Rattle.std.specs.Prelude.{Some};

    ghost output = { λ e. Some (fault_words e) };

    fn fmt<W: fmt::Write>(&self, f: &mut fmt::Formatter<W>) -> fmt::Result {
        match self {
            CallFault::NoTable => {
                f.write_str(
                    "refused by 1: the set-up is outside its limits, or there is no such kind",
                )
            }
            CallFault::InReader(fault) => write!(f, "{fault}"),
        }
    }
}

impl Error for CallFault {}
