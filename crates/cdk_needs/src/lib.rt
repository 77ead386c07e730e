//! Which needs are met, each need being the numbers that must be met before it: the least solution.
#![tactic(auto)]

mod marking;

pub use marking::met_needs;
