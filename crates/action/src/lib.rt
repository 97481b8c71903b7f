//! What every other crate of the site tables speaks of: actions and their order, the set-up of a
//! table, and refusals.
#![tactic(auto)]

mod action;
mod refusal;
mod setup;

pub use action::{ACTION_BYTES, Action, LATEST_TIME, MOST_WRITES};
pub use refusal::{Layer, Refusal};
pub use setup::{MOST_ARTICLES, MOST_SITES, Setup, UnlawfulSetup};
