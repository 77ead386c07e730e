//! The check of marked values: that each marker is a token's, that lists stand alone, and that there is nothing else that no
//! resource may hold.
#![tactic(auto)]

mod bad_value;
mod check;
mod list_mix;
mod texts;
mod unknown_token;

pub use check::check_values;
