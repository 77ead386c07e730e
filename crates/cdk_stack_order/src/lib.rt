//! The stacks of an assembly's manifest in evaluation order, or the least that reaches itself.
#![tactic(auto)]

mod order;

pub use order::{Order, stacks_in_order};
