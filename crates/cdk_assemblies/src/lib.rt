//! Cloud assemblies as they are read from files: manifests, templates and nested assemblies.
#![tactic(auto)]

mod assembly;
mod document;
mod levels;
mod stacks;

pub use assembly::{MOST_LEVELS, read_assembly};
pub use document::MOST_BYTES;
