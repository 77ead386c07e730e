//! The artifacts of an assembly's manifest: the directories of nested assemblies, the stacks, those that can be placed
//! one after another, and the least that reaches itself.
#![tactic(auto)]

mod artifacts;
mod cycle;
mod dependents;
mod directories;
mod name_set;
mod placed;
mod queue;
mod stacks;

pub use cycle::first_cycle;
pub use directories::nested_directories;
pub use name_set::NameSet;
pub use placed::{Placed, StackFile, placed_of};
pub use stacks::{Stack, stacks_of};
