//! Synthesis: from the bytes of an application to the files of its assembly, all in memory.
#![tactic(auto)]

mod files;
mod laws;
mod passes;
mod stacks;
mod synthesis;
mod values;

pub use files::File;
pub use laws::{files_are_named, files_keep_meaning};
pub use synthesis::{MOST_BYTES, synth};
