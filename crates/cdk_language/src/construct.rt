// The constructs of an application (the construct tree of AWS CDK version 2, in a JSON form of our own).

use crate::condition::Cond;
use crate::expression::Expr;
use cdk_base::{List, Map, Text, Value};

/// An application: its root construct, of the empty id.
#[derive(Drop)]
pub struct App {
    /// The root, whose kind is `App`.
    pub root: Node,
}

/// A construct, with all constructs below it.
#[derive(Drop)]
pub struct Node {
    /// The id, which is the last part of the path. The root's is empty.
    pub id: Text,
    /// The kind, with what only this kind has.
    pub kind: Kind,
    /// The construct's own context values by key.
    pub context: Map,
    /// The aspect entries, in the order given.
    pub aspects: List<Entry>,
    /// The paths of the constructs that it depends on, in the order given.
    pub depends: List<Text>,
    /// The logical name that an element keeps (`logicalId`), where one is given.
    pub logical: Option<Text>,
    /// The children, in the order given.
    pub children: List<Node>,
}

/// An aspect that is to visit the resources of a scope.
#[derive(Drop)]
pub struct Entry {
    /// The aspect's name.
    pub name: Text,
    /// The literal value that the aspect gets.
    pub with: Value,
    /// From 0 to 1,000,000: lower comes first. 500 where none is given.
    pub priority: u32,
}

/// What a construct is.
#[derive(Drop)]
pub enum Kind {
    /// The root.
    App,
    /// A stage: a nested assembly of its own.
    Stage,
    /// A stack: one template.
    Stack {
        /// The template's description, where one is given.
        description: Option<Text>,
    },
    /// A scope that adds nothing but its id.
    Group,
    /// A resource.
    Resource(Resource),
    /// A parameter of a template.
    Parameter(Parameter),
    /// A condition.
    Condition(Cond),
    /// A mapping: two levels of keys, and a literal at each pair.
    Mapping(Map),
    /// An output of a template.
    Output(Output),
    /// An expression that others refer to.
    Lazy(Expr),
}

/// A resource.
#[derive(Drop)]
pub struct Resource {
    /// The CloudFormation type, as `AWS::S3::Bucket`; not empty.
    pub resource_type: Text,
    /// The properties: an object, empty where none are given.
    pub properties: Expr,
    /// The path of the condition under which it is made.
    pub condition: Option<Text>,
    /// What becomes of it when it is taken out of the template (`deletionPolicy`).
    pub deletion: Option<Policy>,
    /// What becomes of the old one when an update replaces it (`updateReplacePolicy`).
    pub replace: Option<Policy>,
}

/// What becomes of a resource that goes (CloudFormation's `DeletionPolicy` and `UpdateReplacePolicy`).
#[derive(Clone, Copy, PartialEq, Eq, Debug)]
pub enum Policy {
    /// It is deleted.
    Delete,
    /// It stays.
    Retain,
    /// It is deleted after a snapshot.
    Snapshot,
}

/// A parameter of a template.
#[derive(Drop)]
pub struct Parameter {
    /// Its type.
    pub form: ParameterForm,
    /// The text that it has where no other is given.
    pub default: Option<Text>,
    /// Its description.
    pub description: Option<Text>,
}

/// The type of a parameter.
#[derive(Clone, Copy, PartialEq, Eq, Debug)]
pub enum ParameterForm {
    /// `String`
    Text,
    /// `Number`
    Number,
    /// `CommaDelimitedList`
    List,
}

/// An output of a template.
#[derive(Drop)]
pub struct Output {
    /// Its value.
    pub value: Expr,
    /// Its description.
    pub description: Option<Text>,
    /// The name under which it is exported: 1 to 255 characters.
    pub export: Option<Text>,
    /// The path of the condition under which it is made.
    pub condition: Option<Text>,
}
