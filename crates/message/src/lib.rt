//! Messages between the sites of a group: their four records, and the writing and reading of them.
#![tactic(auto)]

mod actions;
mod due;
mod intervals;
mod progress;
mod reader;
mod reader_fault;
mod record;
mod records;

pub use actions::Actions;
pub use intervals::{FoundInterval, Intervals};
pub use reader::{Reader, check};
pub use reader_fault::ReaderFault;
pub use record::{
    HEADER_BYTES, Header, INTERVAL_BYTES, Interval, MOST_SECTIONS, Record, SECTION_BYTES,
    SectionHead, put,
};
pub use records::{FoundRecord, sender_of};
