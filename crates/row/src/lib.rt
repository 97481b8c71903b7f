//! What a table keeps of each article, and the passes of its calls over rows, history and messages.
#![tactic(auto)]

mod archive;
mod ledger;
mod place;
mod row;

pub use archive::move_actions;
pub use ledger::Ledger;
pub use place::append;
pub use row::Row;
