use crate::breach::{Breach, Whose};
use crate::law::Law;
use std::fmt;

// The calls of a table can meet the refusals from 2 to 16.
const FIRST_REFUSAL: usize = 2;

const LAST_REFUSAL: usize = 16;

// What all runs so far have met and checked, which line is played now, and the first breach of a law.
#[derive(Clone, Copy, Default)]
pub(crate) struct Counts {
    seed: u64,
    run: u32,
    // The number of the line within its run.
    line: u32,
    lines: usize,
    granted: usize,
    // By the refusal's number.
    refused: [usize; LAST_REFUSAL + 1],
    // How many actions were committed, taken and archived.
    pub(crate) committed: usize,
    pub(crate) taken: usize,
    pub(crate) archived: usize,
    // How often laws a, b and c were checked; of law b also how often of an article that has actions.
    pub(crate) figures: usize,
    pub(crate) levels: usize,
    pub(crate) moved_levels: usize,
    pub(crate) repeats: usize,
    pub(crate) breach: Option<Breach>,
}

// Counts so many more. A count wraps at 2⁶⁴.
pub(crate) fn up(count: &mut usize, by: usize) {
    *count = (*count).wrapping_add(by);
}

impl Counts {
    pub(crate) fn new(seed: u64) -> Counts {
        Counts {
            seed,
            ..Counts::default()
        }
    }

    // A run begins.
    pub(crate) fn begin(&mut self, run: u32) {
        self.run = run;
        self.line = 0;
    }

    // A line has been played: it was granted, or refused by this number.
    pub(crate) fn note_line(&mut self, refused: Option<u8>) {
        up(&mut self.lines, 1);
        self.line = self.line.wrapping_add(1);
        match refused {
            None => up(&mut self.granted, 1),
            Some(number) => {
                if let Some(count) = self.refused.get_mut(usize::from(number)) {
                    up(count, 1);
                }
            }
        }
    }

    // Holds a table to a law: the first breach is noted.
    pub(crate) fn hold<W: Into<Whose> + Drop>(&mut self, law: Law, whose: W, is_kept: bool) {
        if !is_kept && self.breach.is_none() {
            self.breach = Some(Breach {
                law,
                seed: self.seed,
                run: self.run,
                line: self.line,
                whose: whose.into(),
            });
        }
    }

    pub(crate) fn is_broken(&self) -> bool {
        self.breach.is_some()
    }
}

impl fmt::Display for Counts {
    fn fmt<W: fmt::Write>(&self, f: &mut fmt::Formatter<W>) -> fmt::Result {
        let lines = self.lines;
        let granted = self.granted;
        writeln!(f, "lines {lines}, granted {granted}")?;
        for (number, times) in self.refused.iter().enumerate().skip(FIRST_REFUSAL) {
            writeln!(f, "refused by {number}: {times}")?;
        }
        let committed = self.committed;
        let taken = self.taken;
        let archived = self.archived;
        write!(
            f,
            "actions committed {committed}, taken {taken}, archived {archived}"
        )
    }
}
