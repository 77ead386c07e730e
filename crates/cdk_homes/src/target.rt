// What is spelled, and the ways to spell it.
use cdk_base::Text;
use cdk_tree::NodeId;

/// What an expression refers to: a resource or parameter, or an attribute of a resource.
#[derive(Drop)]
pub struct Target {
    /// The resource or parameter.
    pub at: NodeId,
    /// The attribute. None where the construct itself is meant.
    pub attribute: Option<Text>,
}

/// Where a target is found, seen from a stack that uses it (after AWS CDK's references between stacks; own).
#[derive(Clone, Copy)]
pub enum Home {
    /// In the stack itself, by its logical name.
    Local,
    /// In another stack, by the name of an export.
    Import,
    /// In another stack, by the name of an export that holds a list in one text, as a list parameter's does.
    ImportList,
}

/// How a target is spelled in a stack that uses it: the name that a `Home` speaks of.
#[derive(Clone, Copy)]
pub enum Spelling<'a> {
    /// A logical name of the stack.
    Local(&'a str),
    /// The name of an export.
    Import(&'a str),
    /// The name of an export that holds a list.
    ImportList(&'a str),
}
