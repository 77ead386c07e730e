//! What the values of a stack's template may look up: the truths of conditions, exports, names, parameters, resources
//! and the entries of sections.
#![tactic(auto)]

mod branches;
mod entries;
mod exports;
mod name_set;
mod parameters;
mod resources;
mod scope;
mod truths;

pub use branches::branch;
pub use entries::{entry, section};
pub use exports::Exports;
pub use name_set::NameSet;
pub use parameters::parameter_outcome;
pub use resources::{barred_by, presence};
pub use scope::{Place, Scope};
pub use truths::{Kept, Truths};
