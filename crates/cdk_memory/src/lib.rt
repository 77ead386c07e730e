//! Files and streams in memory, for tests: their room is taken when they are made, and a list says which calls fail.
#![tactic(auto)]

mod memory_files;
mod memory_sink;
mod stored;

pub use memory_files::MemFiles;
pub use memory_sink::MemSink;
