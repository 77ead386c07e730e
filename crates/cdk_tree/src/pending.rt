use crate::node_id::NodeId;
use cdk_language::Node;

/// A construct that isn't placed yet.
#[derive(Drop)]
pub struct Pending {
    pub node: Node,
    pub parent: NodeId,
}
