//! Texts, lists, fault codes, settings and the words on JSON that every crate above speaks of.
#![tactic(auto)]

mod code;
mod fault;
mod marker;
mod parsing;
mod pointer;
mod text;
mod value_text;

pub use code::Code;
pub use fault::Fault;
pub use marker::has_marker;
pub use parsing::parse;
pub use pointer::{step_to, step_to_index};
pub use serde_json::Value;
pub use sqlite_items::Items as List;
pub use text::Text;
pub use value_text::{json_text, pretty_bytes, pretty_text_reads_back, text_of};

/// The members of a JSON object, by key bytes.
pub type Map = serde_json::Map<String, Value>;

/// One `KEY=VALUE` of the command line, cut at its first `=`.
#[derive(Drop)]
pub struct Setting {
    pub key: Text,
    pub value: Text,
}
