//! Tokens: the marked values of an application's expressions, and what each marker stands for.
#![tactic(auto)]

mod form;
mod marked;
mod marking;
mod table;
mod whole;

pub use form::{Form, Token};
pub use marked::Marked;
pub use table::Table;
pub use whole::mark;
