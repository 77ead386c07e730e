//! How the targets of references are spelled in the stacks that use them.
#![tactic(auto)]

mod entry;
mod homes;
mod index;
mod laws;
mod places;
mod target;

pub use homes::Homes;
pub use laws::put_changes_one_pair;
pub use target::{Home, Spelling, Target};
