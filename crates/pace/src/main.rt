//! Does the work that each line of standard input names, as often as the line says. Prints a sum of all answers, a
//! sum of the bytes of the messages, and the figures at the end. `scripts/pace` measures how long it takes.
//!
//! The second program (`second/`) has to print the same.
#![tactic(auto)]

mod bag;
mod bench;
mod call;
mod job;
mod report;

use crate::job::Job;
use std::io;
use trials::NoJob;

fn main(rt: HostRuntime) -> io::Result<()> {
    for line in rt.lines(rt.alloc()) {
        match line?.as_str().parse::<Job>() {
            Ok(job) => {
                let report = job.answer(rt.alloc())?;
                println!(rt; "{report}")?;
            }
            Err(NoJob) => println!(rt; "?")?,
        }
    }
    Ok(())
}
