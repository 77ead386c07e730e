//! What is wrong with a document of an application: the first finding, by walking it.
#![tactic(auto)]

mod first;

pub use first::first_finding;
