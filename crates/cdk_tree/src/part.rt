use cdk_base::{List, Map, Text};
use cdk_language::{Entry, Kind};

/// A construct without its children.
#[derive(Drop)]
pub struct Part {
    /// The id, which is the last part of the path. The root's is empty.
    pub id: Text,
    /// The kind, with what only this kind has.
    pub kind: Kind,
    /// The construct's own context values by key.
    pub context: Map,
    /// The aspect entries, in the order given.
    pub aspects: List<Entry>,
    /// The paths of the constructs that it depends on, in the order given.
    pub depends: List<Text>,
    /// The logical name that an element keeps, where one is given.
    pub logical: Option<Text>,
}
