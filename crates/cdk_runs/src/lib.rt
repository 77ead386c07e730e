//! Texts of Subs, and runs of literals in Concats and Subs that hold the beginning of a marker.
#![tactic(auto)]

mod runs;
mod subs;

pub use runs::is_marked_form;
pub use subs::is_wrong_sub_text;
