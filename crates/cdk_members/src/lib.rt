//! Looking at the parts of a JSON value: the members of an object, the items of a short array, the form of an expression
//! and the kind of a construct that a text names, the priority of an aspect entry, the policies of a resource, and the
//! pieces of a text with variables. What reads a value may answer that it has no reading.
#![tactic(auto)]

mod arrays;
mod attributes;
mod error;
mod forms;
mod items;
mod kinds;
mod members;
mod policies;
mod priorities;
mod sub;

pub use arrays::{index_and_value, lone_text, text_and_two_values, text_and_value};
pub use attributes::attribute_of;
pub use error::ReadError;
pub use forms::{FormName, form_named};
pub use items::{one_of, three_of, two_of};
pub use kinds::kind_named;
pub use members::{
    has_form_key, is_form_key, lacks, logical_id_of, member, only_member, optional_text, text_at,
};
pub use policies::{Policies, policies_of};
pub use priorities::priority_of;
pub use sub::{FirstPiece, SubPiece, first_piece, is_attribute, is_variable_name};
