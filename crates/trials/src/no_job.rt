use std::error::Error;
use std::fmt;
use std::num::ParseIntError;

/// The line names no job that the program has.
#[derive(Clone, Copy, Debug)]
pub struct NoJob;

impl From<ParseIntError> for NoJob {
    fn from(_error: ParseIntError) -> NoJob {
        NoJob
    }
}

impl fmt::Display for NoJob {
    fn fmt<W: fmt::Write>(&self, f: &mut fmt::Formatter<W>) -> fmt::Result {
        f.write_str("the line names no job")
    }
}

impl Error for NoJob {}
