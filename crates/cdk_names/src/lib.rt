//! Names of a CloudFormation template that stay the same while a construct's path does.
#![tactic(auto)]

mod export;
mod forms;
mod hash;
mod human;
mod laws;
mod unique;
mod visible;

pub use export::export_name;
pub use forms::{is_logical, is_stack_name};
pub use laws::{
    export_names_fit, letter_first_is_logical, logical_names_are_alphanumeric,
    stack_names_are_ascii, unique_ids_are_alphanumeric,
};
pub use unique::unique_id;
