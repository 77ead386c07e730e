use crate::node_id::NodeId;
use cdk_base::Code;

/// What is wrong, and at which construct.
#[derive(Clone, Copy, PartialEq, Eq, Debug)]
pub struct Found {
    pub code: Code,
    pub at: NodeId,
}

/// Why a pass over a tree stopped.
#[derive(Clone, Copy, Debug)]
pub enum PassError {
    /// No memory was found.
    Memory,
    /// Something is wrong with the application.
    Fault(Found),
}

/// What a target is needed for, which says the kinds that it may have.
#[derive(Clone, Copy)]
pub enum TargetRole {
    /// Of a `Ref`: a resource or parameter.
    Referable,
    /// Of an attribute: a resource.
    Resource,
    /// A condition.
    Condition,
    /// Of `Fn::FindInMap`: a mapping.
    Mapping,
    /// Of `CDK::Lazy`: a lazy.
    Lazy,
    /// Of `dependsOn`: a resource, group or stack.
    Dependable,
}
