use cdk_base::{Code, Text};

/// What is wrong at a place of a document.
#[derive(Drop)]
pub struct Finding {
    /// `Shape`, `Number` or `LiteralMarker`.
    pub code: Code,
    /// A JSON pointer (RFC 6901); of a setting, `=` and its key.
    pub place: Text,
}
