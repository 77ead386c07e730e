//! The measure of a value: its size and depth as they fit 64 bits, and how parts add up to a whole.
#![tactic(auto)]

mod measure;

pub use measure::{Measure, Parts};
