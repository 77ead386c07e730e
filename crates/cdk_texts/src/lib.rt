//! The texts of a template's intrinsics: joined, cut, trimmed and counted, and the parts of the text of a `Fn::Sub`.
#![tactic(auto)]

mod index;
mod joining;
mod pieces;
mod splitting;
mod sub;

pub use index::index_of;
pub use joining::joined;
pub use pieces::{cut, list_items};
pub use sub::{Asked, Part, asked_by, sub_parts};
