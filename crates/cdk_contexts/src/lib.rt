//! Contexts: what is wrong with the contexts of an application's constructs, and with the runs of literals that they make.
#![tactic(auto)]

mod contexts;

pub use contexts::{check_contexts, found_value};
