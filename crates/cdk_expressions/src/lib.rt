//! The expression that a JSON value is, and the condition that it is.
#![tactic(auto)]

mod conditions;
mod expressions;

pub use conditions::read_condition;
pub use expressions::{expression_of, fields_of, read_expression};
