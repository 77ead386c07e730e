//! The template JSON of single forms, made of parts that are rendered already. Parts are moved, not copied.
//!
//! A call that makes a value answers `AllocError` where no memory is found, and has no other error.
#![tactic(auto)]

mod functions;
mod joins;
mod merging;
mod splices;
mod targets;

pub use functions::{
    all_of, any_of, choice, equals, find_in_map, import_value, named, negation, reference_to,
    select, split,
};
pub use joins::{assembled, concat, join};
pub use targets::{attribute, name, reference};
