use crate::bench::{ARTICLES, Bench};
use crate::call::{Basis, Call, Start};
use crate::report::Report;
use history::{History, Rack, Strip};
use std::alloc::{AllocError, Global};
use std::str::FromStr;
use trials::{Keeping, Made, NoJob};

/// What a line asks for: a call, on tables of so many places, once and then in so many rounds.
#[derive(Clone, Copy)]
pub struct Job {
    keeping: Keeping,
    call: Call,
    places: usize,
    rounds: u32,
}

// A line has four words: `rack` or `strip`, the call, the places and the rounds. Where the places are a
// multiple of sixteen, all messages of a job have one length.
impl FromStr for Job {
    type Err = NoJob;

    fn from_str(line: &str) -> Result<Job, NoJob> {
        let mut words = line.split_whitespace();
        let mut word = || words.next().ok_or(NoJob);
        let job = Job {
            keeping: word()?.parse()?,
            call: word()?.parse()?,
            places: word()?.parse()?,
            rounds: word()?.parse()?,
        };
        match words.next() {
            None => Ok(job),
            Some(_) => Err(NoJob),
        }
    }
}

impl Job {
    // Does the job on a table of the history that its line names.
    pub(crate) fn answer(&self, heap: Global) -> Result<Report, AllocError> {
        match self.keeping {
            Keeping::Rack => self.run::<Rack>(heap),
            Keeping::Strip => self.run::<Strip>(heap),
        }
    }

    // Does the work once, and then as often as there are rounds.
    fn run<H: History + Made + Drop>(&self, heap: Global) -> Result<Report, AllocError> {
        let mut bench: Bench<H> = self.prepared(heap)?;
        let mut answers = bench.work(self.call.work)?;
        for _ in 0..self.rounds {
            if let Basis::New = self.call.basis {
                bench.renew()?;
            }
            answers = answers.wrapping_add(bench.work(self.call.work)?);
        }
        Ok(Report {
            answers,
            bytes: bench.bag.sum(),
            figures: ARTICLES.map(|article| bench.table.figure(article).unwrap_or(0)),
        })
    }

    // The table and the messages that there are before the first round.
    fn prepared<H: History + Made + Drop>(&self, heap: Global) -> Result<Bench<H>, AllocError> {
        let mut bench: Bench<H> = Bench::new(heap, self.places)?;
        match self.call.start {
            Start::Empty => {}
            Start::Full => {
                bench.commit_all(1)?;
            }
            Start::Transactions => {
                bench.commit_all(1)?;
                bench.hand_over()?;
            }
            Start::Offers => {
                bench.commit_all(1)?;
                bench.offer_all()?;
                bench.hand_over()?;
            }
        }
        Ok(bench)
    }
}
