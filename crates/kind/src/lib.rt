//! Kinds of figure: what a table keeps for each article and how actions change it, behind one trait.
#![tactic(auto)]

mod flags;
mod kind;
mod on_hand;
mod price;

pub use flags::Flags;
pub use kind::Kind;
pub use on_hand::OnHand;
pub use price::Price;
