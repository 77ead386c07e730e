//! The homes of an application's one stack: each of its constructs is spelled by its logical name.
#![tactic(auto)]

mod laws;
mod local;

pub use laws::local_homes_render;
pub use local::local_homes;
