//! The language of applications: its types, what a JSON document means in it, and what is wrong with one.
#![tactic(auto)]

mod condition;
mod construct;
mod expression;
mod finding;
mod schema;

pub use condition::Cond;
pub use construct::{App, Entry, Kind, Node, Output, Parameter, ParameterForm, Policy, Resource};
pub use expression::{Expr, Field, Pseudo};
pub use finding::Finding;
pub use schema::{Frame, KindName, Role, Schema, Within};
