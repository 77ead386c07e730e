// The schema of an application as a table: what a place asks for is its role, and an object or array in a role gives
// roles to its members and items.

/// The schema that the member `app` of a document names.
#[derive(Clone, Copy, PartialEq, Eq, Debug)]
pub enum Schema {
    /// `"1"`
    One,
    /// `"2"`: as 1, and with `priority` and `logicalId`.
    Two,
}

/// What an expression stands in.
#[derive(Clone, Copy, PartialEq, Eq, Debug)]
pub enum Within {
    /// A property, or the value of an output or a lazy.
    Construct,
    /// An operand of a condition, where not every form may stand.
    Condition,
}

/// The kind that a construct names.
#[derive(Clone, Copy, PartialEq, Eq, Debug)]
pub enum KindName {
    Stage,
    Stack,
    Group,
    Resource,
    Parameter,
    Condition,
    Mapping,
    Output,
    Lazy,
}

/// What a place of the document asks for.
#[derive(Clone, Copy, PartialEq, Eq, Debug)]
pub enum Role {
    /// Nothing may stand here: a member that isn't known, or a key that isn't allowed.
    Nothing,
    /// Anything: the members of a construct of no known kind.
    Anything,
    /// The whole document.
    Document,
    /// The name of a schema.
    SchemaName,
    /// An array of constructs.
    Constructs(Schema),
    /// A construct.
    Construct(Schema),
    /// An object of context values by key.
    Context,
    /// A literal none of whose keys makes an object a form.
    Literal,
    /// A literal with any keys.
    FreeLiteral,
    /// An array of aspect entries.
    Entries(Schema),
    /// An aspect entry.
    Entry(Schema),
    /// The priority of an aspect entry.
    Priority,
    /// A text.
    Text,
    /// A text that isn't empty.
    NonEmptyText,
    /// An array of texts.
    Texts,
    /// The name of a policy.
    Policy,
    /// The name of a parameter's type.
    ParameterType,
    /// A text of 1 to 255 characters.
    ExportName,
    /// An object of objects of literals.
    Mapping,
    /// An object of literals.
    MappingRow,
    /// A text, whole number or truth value.
    MappingLeaf,
    /// An object of expressions that is no form.
    Properties,
    /// An expression.
    Expression(Within),
    /// A text, whole number or truth value, or a form.
    TextPlace(Within),
    /// A text place that is a piece of a `CDK::Concat`.
    Piece(Within),
    /// An array of expressions, or a form.
    ListPlace(Within),
    /// The name of an attribute.
    Attribute,
    /// A whole number from 0.
    Index,
    /// The arguments of `Fn::GetAtt`.
    GetAttArguments,
    /// The arguments of `Fn::Join`.
    JoinArguments(Within),
    /// The arguments of `Fn::Select`.
    SelectArguments(Within),
    /// The arguments of `Fn::Split`.
    SplitArguments(Within),
    /// The arguments of `Fn::If`.
    IfArguments(Within),
    /// The arguments of `Fn::FindInMap`.
    FindInMapArguments(Within),
    /// The argument of `Fn::Sub`: its text, or the text and its variables.
    SubArgument(Within),
    /// The text of `Fn::Sub`.
    SubText(Within),
    /// The variables of `Fn::Sub`.
    SubVariables(Within),
    /// The pieces of `CDK::Concat`.
    ConcatArguments(Within),
    /// The arguments of `CDK::Context`.
    ContextArguments,
    /// The expression of a condition.
    Condition,
    /// The operands of `Fn::Equals`.
    EqualsArguments,
    /// The conditions of `Fn::And` and `Fn::Or`.
    ConditionArguments,
    /// The condition of `Fn::Not`.
    NotArguments,
}

/// What an object is, by its role and its members: it gives each member's role.
#[derive(Clone, Copy, PartialEq, Eq, Debug)]
pub enum Frame {
    /// Its members may be anything.
    Anything,
    /// The whole document.
    Document(Schema),
    /// A construct of a known kind.
    Construct(Schema, KindName),
    /// A construct of no known kind.
    Unknown,
    /// An aspect entry.
    Entry(Schema),
    /// Context values, and objects in them.
    Literals,
    /// Objects in the literal of an aspect entry.
    FreeLiterals,
    /// A mapping.
    Mapping,
    /// A row of a mapping.
    MappingRow,
    /// The properties of a resource.
    Properties,
    /// An object of expressions.
    Fields(Within),
    /// A form of an expression.
    Form(Within),
    /// The variables of `Fn::Sub`.
    SubVariables(Within),
    /// A form of a condition.
    Condition,
}
