// The expressions of an application: CloudFormation's intrinsic functions over absolute paths, and three forms of
// the application's own (concatenation, context and lazy values).

use cdk_base::{List, Text, Value};

/// A pseudo parameter: a name that stands for a value of the running service (CloudFormation reference).
#[derive(Clone, Copy, PartialEq, Eq, Debug)]
pub enum Pseudo {
    /// `AWS::AccountId`
    AccountId,
    /// `AWS::Partition`
    Partition,
    /// `AWS::Region`
    Region,
    /// `AWS::StackId`
    StackId,
    /// `AWS::StackName`
    StackName,
    /// `AWS::URLSuffix`
    UrlSuffix,
    /// `AWS::NoValue`: what it stands for is taken out.
    NoValue,
}

/// An expression. Targets are absolute paths of constructs.
#[cycle(expr)]
#[derive(Drop)]
pub enum Expr {
    /// A literal text.
    Text(Text),
    /// A whole number of 64 bits, signed or unsigned.
    Whole(i128),
    /// A truth value.
    Truth(bool),
    /// An array.
    List(List<Expr>),
    /// An object none of whose keys makes it a form, by key bytes.
    Object(List<Field>),
    /// `Ref` of a pseudo parameter.
    Pseudo(Pseudo),
    /// `Ref` of the path of a resource or parameter.
    Ref(Text),
    /// `Fn::GetAtt`: the path of a resource, and an attribute.
    GetAtt(Text, Text),
    /// `CDK::Concat`, and `Fn::Sub` by its text's pieces.
    Concat(List<Expr>),
    /// `Fn::Join`: the delimiter, and a list.
    Join(Text, Box<Expr>),
    /// `Fn::Select`: an index from 0, and a list.
    Select(u64, Box<Expr>),
    /// `Fn::Split`: the delimiter, which isn't empty, and a text.
    Split(Text, Box<Expr>),
    /// `Fn::If`: the path of a condition, and the values where it holds and where not.
    If(Text, Box<Expr>, Box<Expr>),
    /// `Fn::FindInMap`: the path of a mapping, and its two keys.
    FindInMap(Text, Box<Expr>, Box<Expr>),
    /// `Fn::ImportValue`: the name of an export.
    ImportValue(Text),
    /// `CDK::Context`: a key, and the value where no scope has it.
    Context(Text, Option<Value>),
    /// `CDK::Lazy`: the path of a lazy.
    Lazy(Text),
}

/// A member of an object.
#[cycle(expr)]
#[derive(Drop)]
pub struct Field {
    /// The member's key.
    pub key: Text,
    /// The member's value.
    pub value: Expr,
}
