//! One place of a document: the role of a member or an item, what is found at it, and its JSON Pointer.
#![tactic(auto)]

mod forms;
mod own;
mod pointer;
mod roles;
mod shapes;
mod texts;

pub use own::first_own;
pub use pointer::{under, under_index};
pub use roles::{frame_of, item_role, member_role};
