//! The constructs of an application in walk order: paths, scopes, stacks, stages, context, lists, and what is wrong with
//! places.
#![tactic(auto)]

mod building;
mod lists;
mod node_id;
mod nodes;
mod part;
mod pending;
mod role;
mod slot;
mod tree;
mod walking;

pub use building::build;
pub use node_id::NodeId;
pub use part::Part;
pub use role::{Found, PassError, TargetRole};
pub use tree::Tree;
