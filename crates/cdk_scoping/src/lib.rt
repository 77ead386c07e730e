//! Where constructs may stand: ids and paths, which kinds stand in a stack, how deep, and paths by number.
#![tactic(auto)]

mod ids;
mod paths;
mod places;

pub use ids::{is_id, path_in};
pub use paths::path_number;
pub use places::{is_element, is_misplaced, is_stack, is_stage};
