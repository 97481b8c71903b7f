//! The one call for C.
#![tactic(auto)]

ghost use Rattle.std.specs.Prelude.{◌≡◌};
ghost use Rattle.action.specs.Lawful.{Made};
ghost use Rattle.c_api.specs.Call.{Answered, Checked};
ghost use Rattle.c_api.specs.Faults.{as_answer};

use action::{Setup, UnlawfulSetup};
use call_fault::CallFault;
use kind::{Flags, Kind, OnHand, Price};
use message::check;

mod call_fault;

/// How many actions the message carries, or a refusal as a number below 0 (docs/C.md, section 4).
/// The kinds are 1 on hand, 2 flags and 3 price.
#[unsafe(no_mangle)]
pub extern "C" fn site_message_actions(
    message: &[u8],
    group: u32,
    kind: u32,
    sites: u32,
    articles: u32,
) -> i64
    ensures { Answered message.now group kind sites articles result }
{
    as_answer(actions_for(message, group, kind, sites, articles))
}

// The answer as C gets it.
fn as_answer(counted: Result<i64, CallFault>) -> i64
    ensures { result ≡ as_answer counted }
{
    counted.unwrap_or_else(|fault| -i64::from(fault.number()))
}

// How many actions the message carries. Each of the four numbers may be outside its limits, as C may pass any.
fn actions_for(
    message: &[u8],
    group: u32,
    kind: u32,
    sites: u32,
    articles: u32,
) -> Result<i64, CallFault>
    ensures { Answered message.now group kind sites articles (as_answer result) }
{
    let setup = setup_of(group, sites, articles)?;
    // The numbers of the kinds in `include/site_tables.h`.
    match kind {
        1 => actions_of::<OnHand>(setup, message),
        2 => actions_of::<Flags>(setup, message),
        3 => actions_of::<Price>(setup, message),
        _ => Err(CallFault::NoTable),
    }
}

// The set-up of the group's tables, as at site 0: what a check answers is the same at all sites.
fn setup_of(group: u32, sites: u32, articles: u32) -> Result<Setup, UnlawfulSetup>
    ensures { Made group sites 0 articles result }
{
    Setup::new(group, sites, 0, articles)
}

// How many actions the message carries, by the check for tables of this kind.
fn actions_of<K: Kind>(setup: Setup, message: &[u8]) -> Result<i64, CallFault>
    ensures { Checked K.means setup message.now (as_answer result) }
{
    let actions = check::<K>(setup, message)?;
    // No message carries so many actions that `as` loses any.
    Ok(actions as i64)
}
