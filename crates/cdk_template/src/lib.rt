//! The template of a stack: its sections, with rendered values, what its texts may not hold, and how much it may hold.
#![tactic(auto)]

mod counts;
mod entries;
mod laws;
mod outputs;
mod resources;
mod room;
mod section;
mod sections;
mod sources;
mod templates;
mod values;

pub use counts::check_counts;
pub use laws::{templates_are_unmarked, templates_are_whole};
pub use sources::{Sources, kept_for};
pub use templates::template;
pub use values::value_of;
