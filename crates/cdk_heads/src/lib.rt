//! What every construct has beside its kind and its children, as a JSON document tells it.
#![tactic(auto)]

mod heads;

pub use heads::{Head, head_of};
