//! The check of sizes and depths of an application's values, once all tokens and lazies are expanded.
#![tactic(auto)]

mod check;

pub use check::check_sizes;
