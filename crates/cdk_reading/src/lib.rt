//! Values files and assemblies as they are read and given, before they are evaluated.
#![tactic(auto)]

mod given;
mod values_file;

pub use given::of_templates;
pub use values_file::read_values;
