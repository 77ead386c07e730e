//! JSON objects of the constructs of a tree, filled beside one another, and what stands in them by which key.
#![tactic(auto)]

mod keys;
mod maps;

pub use keys::metadata_key;
pub use maps::MapsByConstruct;
