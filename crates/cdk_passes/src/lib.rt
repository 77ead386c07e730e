//! What the passes over a tree tell: a fault, at the path of the construct where it was found.
#![tactic(auto)]

mod faults;
mod values;

pub use faults::{fault_at, fault_at_root, pass_fault};
pub use values::check_values_and_sizes;
