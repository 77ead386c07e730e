//! What assemblies of CloudFormation templates come to: each property and output of each stack, in evaluation order,
//! under values from outside.
#![tactic(auto)]

mod literal_names;
mod outputs;
mod report;
mod resources;
mod stack;

pub use report::eval;
