//! The tally: runs a script from standard input on a new desk, and prints what its lines answer (docs/TALLY.md).
#![tactic(auto)]

use kind::OnHand;
use runs::each_movement_counted_once;
use script::{Desk, LONGEST_SCRIPT, run_script};
use std::io::{self, Read, Write};

fn main(rt: HostRuntime) -> io::Result<()> {
    // This call does nothing. Its contract states the laws of whole runs (docs/LAWS.md).
    each_movement_counted_once::<OnHand>();
    let mut input = Vec::new(rt.alloc());
    rt.stdin()
        .take(LONGEST_SCRIPT as u64)
        .read_to_end(&mut input)?;
    let mut desk = Desk::<OnHand>::new(rt.alloc())?;
    let mut out = Vec::new(rt.alloc());
    run_script(&mut desk, &input, &mut out)?;
    rt.stdout().write_all(&out)
}
