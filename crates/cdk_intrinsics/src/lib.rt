//! What one value of a template comes to, by CloudFormation's intrinsic functions, under what the names in it stand for.
#![tactic(auto)]

mod forms;
mod found;
mod intrinsic;
mod names;
mod substitution;
mod value;

pub use forms::{text_in, two_of};
pub use value::outcome_of;
