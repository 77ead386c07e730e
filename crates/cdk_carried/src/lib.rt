//! The applications that are carried so far: one stack in any groups, and within it the language but for export names.
#![tactic(auto)]

mod carried;
mod parts;
mod stacks;

pub use carried::is_carried;
