//! Names that are to be one construct's alone in a scope, and the set of those that are taken.
#![tactic(auto)]

mod scoped;

pub use scoped::{Claim, ScopedNames};
