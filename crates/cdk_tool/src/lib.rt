//! The commands of the program: synthesis, evaluation, the order of reads and writes, and each answer with its cause.
#![tactic(auto)]

mod evaluation;
mod inputs;
mod top;

pub use top::run;
