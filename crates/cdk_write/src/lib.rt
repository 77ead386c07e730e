//! Writing a list of steps with what stands where it stops, and the lines on the error stream.
#![tactic(auto)]

mod lines;
mod step;
mod writing;

pub use lines::{BAD_WORDS, OUT_OF_MEMORY, error_text, input_text, read_text, tell, write_text};
pub use step::{Action, Step};
pub use writing::{path_in, write_steps};
