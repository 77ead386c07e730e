//! The manifests of assemblies, and the tree file.
#![tactic(auto)]

mod assemblies;
mod laws;
mod metadata;
mod named;
mod node_tree;
mod nodes;
mod stack_entries;
mod tree_laws;

pub use assemblies::manifest;
pub use laws::{manifests_are_whole, manifests_tell_stacks};
pub use node_tree::tree_file;
pub use stack_entries::template_name;
pub use tree_laws::tree_files_are_whole;
