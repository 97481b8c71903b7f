//! The line language of the tally: three sites of one group, driven by lines of text.
#![tactic(auto)]

mod act;
mod answer;
mod command;
mod desk;
mod line_fault;
mod movable;
mod script;
mod sheet_line;
mod slot;

pub use answer::Answer;
pub use command::{Command, parse};
pub use desk::Desk;
pub use line_fault::LineFault;
pub use movable::Movable;
pub use script::{LONGEST_SCRIPT, run_script};
pub use sheet_line::SheetLine;
pub use slot::Slot;
