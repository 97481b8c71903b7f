use crate::law::Law;
use crate::outsider::OUTSIDER;
use std::fmt;

// Whose table is held to a law.
#[derive(Clone, Copy)]
pub(crate) enum Whose {
    Site(u8),
    // The table outside the group.
    Outsider,
}

impl From<u8> for Whose {
    fn from(site: u8) -> Whose {
        Whose::Site(site)
    }
}

impl fmt::Display for Whose {
    fn fmt<W: fmt::Write>(&self, f: &mut fmt::Formatter<W>) -> fmt::Result {
        let number = match *self {
            Whose::Site(site) => site,
            Whose::Outsider => OUTSIDER,
        };
        write!(f, "{number}")
    }
}

// A law that does not hold, and where that was seen.
#[derive(Clone, Copy)]
pub(crate) struct Breach {
    pub(crate) law: Law,
    pub(crate) seed: u64,
    pub(crate) run: u32,
    pub(crate) line: u32,
    pub(crate) whose: Whose,
}

impl fmt::Display for Breach {
    fn fmt<W: fmt::Write>(&self, f: &mut fmt::Formatter<W>) -> fmt::Result {
        let Breach {
            law,
            seed,
            run,
            line,
            whose,
        } = *self;
        write!(
            f,
            "{law} (seed {seed}, run {run}, line {line}, site {whose})"
        )
    }
}
