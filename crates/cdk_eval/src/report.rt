// What the stacks of an assembly come to.
use crate::{Made, Outcome, OutputOutcome};
use cdk_base::{List, Text};

/// A property of a resource.
#[derive(Drop)]
pub struct PropertyOut {
    pub key: Text,
    pub outcome: Outcome,
}

/// A resource. One that isn't made, or whose presence is a fault, has no properties.
#[derive(Drop)]
pub struct ResourceOut {
    pub logical: Text,
    pub made: Made,
    /// By the bytes of their keys.
    pub properties: List<PropertyOut>,
}

/// An output of a stack.
#[derive(Drop)]
pub struct OutputOut {
    pub logical: Text,
    pub outcome: OutputOutcome,
}

/// A stack, with its resources and outputs by the bytes of their logical names.
#[derive(Drop)]
pub struct StackOut {
    pub name: Text,
    pub resources: List<ResourceOut>,
    pub outputs: List<OutputOut>,
}

/// The stacks of an assembly, in evaluation order.
#[derive(Drop)]
pub struct Report {
    pub stacks: List<StackOut>,
}
