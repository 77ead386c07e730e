//! The lines that are printed of what an assembly comes to.
#![tactic(auto)]

mod faults;
mod laws;
mod lines;

pub use faults::has_fault;
pub use laws::{no_line_is_forged, outcomes_are_printable};
pub use lines::report_text;
