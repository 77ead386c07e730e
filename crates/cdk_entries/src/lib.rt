//! What stands in a template for each construct, with values that are rendered already, by logical names; a template's description,
//! and the search for markers left in it.
#![tactic(auto)]

mod descriptions;
mod fixed;
mod markers;
mod members;
mod naming;
mod outputs;
mod parameters;
mod resources;

pub use descriptions::put_description;
pub use fixed::fixed_entry;
pub use markers::holds_marker;
pub use members::put_object_unless_empty;
pub use naming::{Named, put_named};
pub use outputs::put_output;
pub use resources::put_resource;
