//! The lazies of an application, in an order in which each can be expanded, and the lazies and conditions that reach
//! themselves.
#![tactic(auto)]

mod faults;
mod graph;
mod kinds;
mod laws;
mod markers;
mod named;
mod ordering;

pub use laws::{lazy_cycles_are_mentions, lazy_orders_are_orders, tokens_are_downward};
pub use ordering::lazy_order;
