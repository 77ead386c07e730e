//! The command line: what a command is, what its settings are, and how a command ends.
#![tactic(auto)]

mod settings;
mod status;
mod words;

pub use settings::settings_of;
pub use status::Status;
pub use words::{Command, plain};
