//! From marked values to the template JSON of the stack that uses them.
#![tactic(auto)]

mod conditions;
mod kept;
mod resolving;

pub use kept::Kept;
pub use resolving::{resolve, resolve_condition};
