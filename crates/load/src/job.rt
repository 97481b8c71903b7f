use crate::counts::Counts;
use crate::group::Group;
use crate::kind_name::KindName;
use crate::posted::Posted;
use history::{History, Rack, Strip};
use kind::{Flags, OnHand, Price};
use std::alloc::{AllocError, Global};
use std::str::FromStr;
use trials::{Keeping, Made, NoJob};

/// What a line asks for: so many seasons of one group.
#[derive(Clone, Copy)]
pub struct Job {
    keeping: Keeping,
    kind: KindName,
    seasons: u32,
    seed: u32,
}

// A line has four words: `rack` or `strip`, the kind, the seasons and the seed.
impl FromStr for Job {
    type Err = NoJob;

    fn from_str(line: &str) -> Result<Job, NoJob> {
        let mut words = line.split_whitespace();
        let mut word = || words.next().ok_or(NoJob);
        let job = Job {
            keeping: word()?.parse()?,
            kind: word()?.parse()?,
            seasons: word()?.parse()?,
            seed: word()?.parse()?,
        };
        match words.next() {
            None => Ok(job),
            Some(_) => Err(NoJob),
        }
    }
}

impl Job {
    // Does the job on tables of the history that its line names.
    pub(crate) fn run(&self, heap: Global) -> Result<Counts, AllocError> {
        match self.keeping {
            Keeping::Rack => self.run_over::<Rack>(heap),
            Keeping::Strip => self.run_over::<Strip>(heap),
        }
    }

    fn run_over<H: History + Made + Drop>(&self, heap: Global) -> Result<Counts, AllocError> {
        match self.kind {
            KindName::OnHand => self.run_seasons::<OnHand, H>(heap),
            KindName::Flags => self.run_seasons::<Flags, H>(heap),
            KindName::Price => self.run_seasons::<Price, H>(heap),
        }
    }

    fn run_seasons<K: Posted + Drop, H: History + Made + Drop>(
        &self,
        heap: Global,
    ) -> Result<Counts, AllocError> {
        let mut group: Group<K, H> = Group::new(heap, self.seed.into())?;
        for _ in 0..self.seasons {
            group.season()?;
        }
        Ok(group.counts())
    }
}
