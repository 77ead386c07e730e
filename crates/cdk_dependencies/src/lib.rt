//! The pairs of resources that the dependency entries of an application stand for.
#![tactic(auto)]

mod counting;
mod resources;

pub use counting::pair_counts;
