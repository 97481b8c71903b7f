//! What `play`, `load` and `pace` share: chance by seed, movements and how they are posted, and histories by their
//! names.
#![tactic(auto)]

mod dice;
mod keeping;
mod made;
mod movement;
mod no_job;

pub use dice::Dice;
pub use keeping::Keeping;
pub use made::Made;
pub use movement::{Movement, post};
pub use no_job::NoJob;
