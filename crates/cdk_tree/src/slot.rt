use crate::node_id::NodeId;
use crate::part::Part;

/// A construct, and where it stands.
#[derive(Drop)]
pub struct Slot {
    pub part: Part,
    /// None for the root.
    pub parent: Option<NodeId>,
    /// 0 for the root, and one more for each scope above; at most 10.
    pub level: u8,
    /// Itself or its nearest scope that is a stack.
    pub stack: Option<NodeId>,
    /// Itself or its nearest scope that is a stage, else the root.
    pub stage: NodeId,
}
