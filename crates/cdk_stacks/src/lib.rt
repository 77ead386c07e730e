//! The names of elements, stacks, stages and their artifacts, and what is wrong with them.
#![tactic(auto)]

mod checking;
mod forms;
mod ids;
mod laws;
mod made;
mod named;
mod staged;
mod taken;

pub use checking::names;
pub use laws::{
    artifact_ids_differ, elements_have_logical_names, logical_names_differ, no_artifact_is_tree,
    stack_names_differ, stacks_have_names,
};
pub use made::Names;
pub use staged::assembly_of;
