//! Does the work that each line of standard input names, and prints what came of it (docs/LOAD.md). The second
//! program (`second/`) has to print the same.
#![tactic(auto)]

mod counts;
mod group;
mod job;
mod kind_name;
mod posted;
mod season;
mod site;
mod slot;

use crate::job::Job;
use std::io;
use trials::NoJob;

fn main(rt: HostRuntime) -> io::Result<()> {
    for line in rt.lines(rt.alloc()) {
        match line?.as_str().parse::<Job>() {
            Ok(job) => {
                let counts = job.run(rt.alloc())?;
                println!(rt; "{counts}")?;
            }
            Err(NoJob) => println!(rt; "?")?,
        }
    }
    Ok(())
}
