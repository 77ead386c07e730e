//! Graphs of numbers: which numbers reach themselves, and an order in which each comes behind those that it leads to.
#![tactic(auto)]

mod found_laws;
mod laws;
mod marks;
mod ordering;
mod queue;
mod reverse;
mod search;
mod walk;

pub use found_laws::loops_are_found;
pub use laws::{orders_are_whole, whole_orders_have_no_loop};
pub use ordering::order;
pub use search::loops;
