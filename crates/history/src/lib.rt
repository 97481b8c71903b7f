//! Histories: where a table keeps its actions, behind one trait with two ways to keep them.
#![tactic(auto)]

mod history;
mod history_fault;
mod rack;
mod rack_or_strip;
mod strip;
mod walk;

pub use history::{History, MOST_PLACES};
pub use history_fault::HistoryFault;
pub use rack::Rack;
pub use rack_or_strip::RackOrStrip;
pub use strip::{PLACE_BYTES, Strip};
pub use walk::{Walk, actions};
