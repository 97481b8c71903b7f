use action::UnlawfulSetup;
use std::alloc::{AllocError, AllocFailed};
use std::error::Error;
use std::{fmt, io};

/// Why the program stops before its end.
#[derive(Debug, Drop)]
pub enum Stop {
    Memory,
    // Reading or printing failed.
    Io,
    Unlawful,
    // A law does not hold.
    Broken,
}

impl fmt::Display for Stop {
    fn fmt<W: fmt::Write>(&self, f: &mut fmt::Formatter<W>) -> fmt::Result {
        match self {
            Stop::Memory => f.write_str("there is not enough memory"),
            Stop::Io => f.write_str("reading or printing failed"),
            Stop::Unlawful => f.write_str("a set-up is outside its limits"),
            Stop::Broken => f.write_str("a law does not hold"),
        }
    }
}

impl Error for Stop {}

impl From<AllocError> for Stop {
    fn from(_error: AllocError) -> Stop {
        Stop::Memory
    }
}

impl<T: Drop> From<AllocFailed<T>> for Stop {
    fn from(_error: AllocFailed<T>) -> Stop {
        Stop::Memory
    }
}

impl From<io::Error> for Stop {
    fn from(_error: io::Error) -> Stop {
        Stop::Io
    }
}

impl From<UnlawfulSetup> for Stop {
    fn from(_fault: UnlawfulSetup) -> Stop {
        Stop::Unlawful
    }
}
