// What the values of one stack are rendered with.
use cdk_base::List;
use cdk_homes::Homes;
use cdk_tokens::{Marked, Table};
use cdk_tree::NodeId;
use std::alloc::Global;

/// What the values of one stack are rendered with.
#[derive(Clone, Copy)]
pub struct Scope<'a> {
    pub alloc: Global,
    pub table: &'a Table,
    pub marked: &'a Marked,
    /// How targets are spelled.
    pub homes: &'a Homes,
    /// The stack.
    pub consumer: NodeId,
    /// The lazies, each behind those that it mentions.
    pub order: &'a List<NodeId>,
}
