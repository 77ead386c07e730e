//! Marked values with all the lazies that they reach: each is kept once, behind those that it mentions.
#![tactic(auto)]

mod keeping;

pub use keeping::resolved;
