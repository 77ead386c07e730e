//! The forms of a values file, of a template and of an assembly's manifest: the first place of a document that misses
//! what is asked there.
#![tactic(auto)]

mod first;
mod members;
mod roles;

pub use first::first_miss;
