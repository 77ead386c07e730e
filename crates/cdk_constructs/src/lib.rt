//! The constructs of a JSON document, and the application that it is.
#![tactic(auto)]

mod bodies;
mod constructs;

pub use constructs::application_of;
