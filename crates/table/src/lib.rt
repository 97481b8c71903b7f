//! One site's table: its articles' figures and what is known of the other sites, kept up by
//! transactions of its own and by messages from the others.
#![tactic(auto)]

mod archive;
mod commit;
mod offer;
mod state;
mod store;
mod table;
mod table_fault;
mod take;
mod ticket;
mod transaction;
mod transaction_message;

pub use table::Table;
pub use table_fault::TableFault;
pub use ticket::Ticket;
