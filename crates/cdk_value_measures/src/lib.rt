//! The measures of marked values, conditions and lazies, as if all tokens were expanded; nothing is expanded in memory.
#![tactic(auto)]

mod conditions;
mod lazies;
mod values;

pub use conditions::condition_measure;
pub use lazies::lazy_measures;
pub use values::value_measure;
