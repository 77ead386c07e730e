//! What is wrong with the targets of constructs, and with what stands in text and list places.
#![tactic(auto)]

mod look;
mod targets;

pub use targets::check_targets;
