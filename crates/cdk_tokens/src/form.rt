// What a marker stands for.
use cdk_base::{Text, Value};
use cdk_language::Pseudo;
use cdk_tree::NodeId;

/// An expression that is a token, with its arguments marked, and with constructs as its targets (CloudFormation's
/// intrinsic functions; lazies are our own).
#[derive(Drop)]
pub enum Form {
    /// `Ref` of a pseudo parameter.
    Pseudo(Pseudo),
    /// `Ref` of a resource or parameter.
    Ref(NodeId),
    /// `Fn::GetAtt`: a resource, and an attribute.
    GetAtt(NodeId, Text),
    /// `Fn::Join`: the delimiter, and a list.
    Join(Text, Value),
    /// `Fn::Select`: an index from 0, and a list.
    Select(u64, Value),
    /// `Fn::Split`: the delimiter, and a text.
    Split(Text, Value),
    /// `Fn::If`: a condition, and the values where it holds and where not.
    If(NodeId, Value, Value),
    /// `Fn::FindInMap`: a mapping, and its two keys.
    FindInMap(NodeId, Value, Value),
    /// `Fn::ImportValue`: the name of an export.
    ImportValue(Text),
    /// `CDK::Lazy`: a lazy.
    Lazy(NodeId),
}

/// A token: an expression in the value of a construct.
#[derive(Drop)]
pub struct Token {
    /// Its hint, `.` and its number in decimals. It stands in the token's marker.
    pub key: Text,
    /// The construct whose value the expression stands in.
    pub owner: NodeId,
    /// Whether the expression is a list.
    pub list: bool,
    /// The expression.
    pub form: Form,
}
