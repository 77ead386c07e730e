//! What rendering stands on: the scope of one stack's values, what is kept of lazies, and the template JSON of what holds no
//! other value.
#![tactic(auto)]

mod leaves;
mod results;
mod scope;

pub use leaves::{
    lazy_json, marker_value, number_value, pseudo_value, reference_value, text_value,
};
pub use results::Results;
pub use scope::Scope;
