//! Plays random runs by seed on real tables, and holds them to four laws of whole runs by a book that it keeps itself
//! (docs/PLAY.md). The laws are proved of every run. This program is a test beside the proofs, of the compiled tables.
//! Its own functions are proved only to be safe and to end.
//!
//! A run cannot meet every refusal: 1 is that of a set-up, 17 that of a history, 18 that of a script. 8 needs a clock
//! near 4,000,000,000, which no run reaches, since clocks start at 0. All others are met.
#![tactic(auto)]

mod archive;
mod book;
mod breach;
mod call;
mod check;
mod choice;
mod counts;
mod course;
mod due_refusal;
mod forger;
mod law;
mod level;
mod line;
mod maker;
mod offer;
mod outsider;
mod page;
mod pick;
mod run;
mod seat;
mod slot;
mod stop;
mod take;
mod told_interval;
mod transaction;
mod turn;

use crate::counts::Counts;
use crate::course::play_run;
use crate::outsider::Stranger;
use crate::stop::Stop;
use kind::{Flags, Kind, OnHand, Price};
use runs::each_movement_counted_once;
use std::io;
use std::io::Read;

// What the program is asked for.
#[derive(Clone, Copy)]
struct Wish {
    seed: u64,
    runs: u32,
    // How many lines each run has at least.
    lines: u32,
}

// A run of one kind; `J` is another kind. The strangers take turns: each when all kinds have had the one before.
fn play_kind<K: Kind + Drop, J: Kind + Drop>(
    rt: &HostRuntime,
    counts: &mut Counts,
    run: u32,
    wish: Wish,
) -> Result<(), Stop> {
    let Wish { seed, lines, .. } = wish;
    let seed = seed.wrapping_mul(1_000_003).wrapping_add(u64::from(run));
    match run / 3 % 3 {
        0 => play_run::<K, K>(rt, counts, seed, Stranger::OtherGroup, lines),
        1 => play_run::<K, J>(rt, counts, seed, Stranger::OtherKind, lines),
        _ => play_run::<K, K>(rt, counts, seed, Stranger::Twin, lines),
    }
}

// All runs, or until a law does not hold. The kinds take turns.
fn play_all(rt: &HostRuntime, counts: &mut Counts, wish: Wish) -> Result<(), Stop> {
    for run in 0..wish.runs {
        counts.begin(run);
        match run % 3 {
            0 => play_kind::<OnHand, Flags>(rt, counts, run, wish)?,
            1 => play_kind::<Flags, Price>(rt, counts, run, wish)?,
            _ => play_kind::<Price, OnHand>(rt, counts, run, wish)?,
        }
        if counts.is_broken() {
            return Err(Stop::Broken);
        }
    }
    Ok(())
}

// Says how the runs went.
fn print_outcome(rt: &HostRuntime, counts: &Counts, is_whole: bool) -> io::Result<()> {
    println!(rt; "{counts}")?;
    if !is_whole {
        return println!(rt; "stopped before the end");
    }
    let Counts {
        figures,
        levels,
        moved_levels,
        repeats,
        ..
    } = *counts;
    println!(rt; "laws hold: a {figures}, b {levels} ({moved_levels} with actions), c {repeats}")
}

// The number that digits write, modulo 2⁶⁴, so that any digits are a seed.
fn number(digits: &[u8]) -> u64 {
    digits.iter().fold(0, |number: u64, digit| {
        let digit = u64::from(digit.wrapping_sub(b'0'));
        number.wrapping_mul(10).wrapping_add(digit)
    })
}

// Reads three numbers: a seed, how many runs, and how many lines each has at least. Anything but a digit parts them.
// A number that is missing is 0.
fn read_wish(rt: &HostRuntime) -> io::Result<Wish> {
    let mut text = [0; 256];
    let length = rt.stdin().read(&mut text)?;
    let mut numbers = text[..length]
        .split(|byte| !byte.is_ascii_digit())
        .filter(|digits| !digits.is_empty())
        .map(number);
    let seed = numbers.next().unwrap_or(0);
    let runs = numbers.next().unwrap_or(0);
    let lines = numbers.next().unwrap_or(0);
    Ok(Wish {
        seed,
        runs: u32::try_from(runs).unwrap_or(u32::MAX),
        lines: u32::try_from(lines).unwrap_or(u32::MAX),
    })
}

fn main(rt: HostRuntime) -> Result<(), Stop> {
    // These calls do nothing. Their contracts state the laws of whole runs, for each kind (docs/LAWS.md).
    each_movement_counted_once::<OnHand>();
    each_movement_counted_once::<Flags>();
    each_movement_counted_once::<Price>();
    let wish = read_wish(&rt)?;
    let Wish { seed, runs, lines } = wish;
    println!(rt; "seed {seed}, {runs} runs of {lines} lines and more")?;
    let mut counts = Counts::new(seed);
    let outcome = play_all(&rt, &mut counts, wish);
    let printed = print_outcome(&rt, &counts, outcome.is_ok());
    outcome?;
    printed?;
    Ok(())
}
