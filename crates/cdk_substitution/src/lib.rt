//! Texts with variables (`Fn::Sub` of the CloudFormation reference) as expressions: the pieces of a text, and counted
//! copies of its variables' expressions in them.
#![tactic(auto)]

mod copying;
mod cutting;
mod variables;

pub use copying::Copies;
pub use cutting::{reference_of, substituted};
