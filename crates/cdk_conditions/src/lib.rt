//! The truths of a template's conditions. Each is evaluated once and kept; they are taken in an order that a walk finds,
//! so that a chain of conditions takes no recursion.
#![tactic(auto)]

mod closing;
mod names;
mod order;
mod truth;
mod walk;

pub use order::truths_of;
