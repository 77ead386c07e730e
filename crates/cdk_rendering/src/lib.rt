//! The template JSON of marked values, of what is kept of lazies. What isn't kept is noted, and rendered again by the crate above.
#![tactic(auto)]

mod rendering;

pub use rendering::value_json;
