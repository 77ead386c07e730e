// The schema's table in code: which role each member and item has.
ghost use Rattle.std.specs.Prelude.{◌≡◌, codes, if◌then◌else◌};
ghost use Rattle.serde_json.specs.View.{members_view};
ghost use Rattle.cdk_base.specs.Json.{is_form_key as spec_is_form_key};
ghost use Rattle.cdk_language.specs.declared.schema.KindName.TheVariants as kinds;
ghost use Rattle.cdk_language.specs.declared.schema.Role.TheVariants as roles;
ghost use Rattle.cdk_language.specs.declared.schema.Schema.TheVariants as schemas;
ghost use Rattle.cdk_language.specs.Application.{text_at as spec_text_at};
ghost use Rattle.cdk_language.specs.Schema.{kind_in as spec_kind_in, needed_member as spec_needed_member, schema_named as spec_schema_named, frame_of as spec_frame_of, document_member as spec_document_member, in_schema_2 as spec_in_schema_2, element_member as spec_element_member, kind_member as spec_kind_member, construct_member as spec_construct_member, entry_member as spec_entry_member, form_member as spec_form_member, condition_member as spec_condition_member, member_role as spec_member_role, first_else as spec_first_else, item_role as spec_item_role};
ghost use Rattle.cdk_places.specs.Arguments.{argument_role as spec_argument_role};

use cdk_base::Map;
use cdk_language::{Frame, KindName, Role, Schema, Within};
use cdk_members::{
    FormName, form_named, has_form_key, is_form_key, is_variable_name, kind_named, text_at,
};

/// The kind that a construct's `kind` names.
pub fn kind_in(members: &Map) -> Option<KindName>
    ensures { result ≡ spec_kind_in (members_view members.now.entries) }
{
    match text_at(members, "kind") {
        Some(name) => kind_named(name),
        None => None,
    }
}

/// The member that a construct of the kind needs, beside `kind` and `id`.
pub fn needed_member(kind: KindName) -> &'static str
    ensures { result.now ≡ spec_needed_member kind }
{
    match kind {
        KindName::Stage | KindName::Stack | KindName::Group => "children",
        KindName::Resource | KindName::Parameter => "type",
        KindName::Condition => "expression",
        KindName::Mapping => "mappings",
        KindName::Output | KindName::Lazy => "value",
    }
}

fn schema_in(members: &Map) -> Schema
    ensures { result ≡ spec_schema_named (spec_text_at (codes "app") (members_view members.now.entries)) }
{
    match text_at(members, "app") {
        Some(name) => if name == "2" {
            Schema::Two
        } else {
            Schema::One
        },
        None => Schema::One,
    }
}

/// What an object in a role is.
pub fn frame_of(role: Role, members: &Map) -> Frame
    ensures { result ≡ spec_frame_of role (members_view members.now.entries) }
{
    match role {
        Role::Document => Frame::Document(schema_in(members)),
        Role::Construct(schema) => match kind_in(members) {
            Some(kind) => Frame::Construct(schema, kind),
            None => Frame::Unknown,
        },
        Role::Context | Role::Literal => Frame::Literals,
        Role::FreeLiteral => Frame::FreeLiterals,
        Role::Entry(schema) => Frame::Entry(schema),
        Role::Mapping => Frame::Mapping,
        Role::MappingRow => Frame::MappingRow,
        Role::Properties => Frame::Properties,
        Role::Expression(within) => if has_form_key(members) {
            Frame::Form(within)
        } else {
            Frame::Fields(within)
        },
        Role::TextPlace(within) | Role::Piece(within) | Role::ListPlace(within) => {
            Frame::Form(within)
        }
        Role::SubVariables(within) => Frame::SubVariables(within),
        Role::Condition => Frame::Condition,
        _ => Frame::Anything,
    }
}

fn document_member(schema: Schema, key: &str) -> Role
    ensures { result ≡ spec_document_member schema key.now }
{
    match key {
        "app" => Role::SchemaName,
        "children" => Role::Constructs(schema),
        "context" => Role::Context,
        "aspects" => Role::Entries(schema),
        _ => Role::Nothing,
    }
}

fn in_schema_2(schema: Schema, role: Role) -> Role
    ensures { result ≡ spec_in_schema_2 schema role }
{
    match schema {
        Schema::One => Role::Nothing,
        Schema::Two => role,
    }
}

fn element_member(schema: Schema, key: &str) -> Role
    ensures { result ≡ spec_element_member schema key.now }
{
    if key == "logicalId" {
        in_schema_2(schema, Role::Text)
    } else {
        Role::Nothing
    }
}

fn stage_member(schema: Schema, key: &str) -> Role
    ensures { result ≡ spec_kind_member schema kinds.Stage key.now }
{
    match key {
        "children" => Role::Constructs(schema),
        "aspects" => Role::Entries(schema),
        _ => Role::Nothing,
    }
}

fn stack_member(schema: Schema, key: &str) -> Role
    ensures { result ≡ spec_kind_member schema kinds.Stack key.now }
{
    match key {
        "children" => Role::Constructs(schema),
        "aspects" => Role::Entries(schema),
        "description" => Role::Text,
        "dependsOn" => Role::Texts,
        _ => Role::Nothing,
    }
}

fn group_member(schema: Schema, key: &str) -> Role
    ensures { result ≡ spec_kind_member schema kinds.Group key.now }
{
    match key {
        "children" => Role::Constructs(schema),
        "aspects" => Role::Entries(schema),
        "dependsOn" => Role::Texts,
        _ => Role::Nothing,
    }
}

fn resource_member(schema: Schema, key: &str) -> Role
    ensures { result ≡ spec_kind_member schema kinds.Resource key.now }
{
    match key {
        "type" => Role::NonEmptyText,
        "properties" => Role::Properties,
        "condition" => Role::Text,
        "dependsOn" => Role::Texts,
        "aspects" => Role::Entries(schema),
        "deletionPolicy" | "updateReplacePolicy" => Role::Policy,
        _ => element_member(schema, key),
    }
}

fn parameter_member(schema: Schema, key: &str) -> Role
    ensures { result ≡ spec_kind_member schema kinds.Parameter key.now }
{
    match key {
        "type" => Role::ParameterType,
        "default" | "description" => Role::Text,
        _ => element_member(schema, key),
    }
}

fn output_member(schema: Schema, key: &str) -> Role
    ensures { result ≡ spec_kind_member schema kinds.Output key.now }
{
    match key {
        "value" => Role::Expression(Within::Construct),
        "description" => Role::Text,
        "exportName" => Role::ExportName,
        "condition" => Role::Text,
        _ => element_member(schema, key),
    }
}

fn condition_construct_member(schema: Schema, key: &str) -> Role
    ensures { result ≡ spec_kind_member schema kinds.Condition key.now }
{
    if key == "expression" {
        Role::Condition
    } else {
        element_member(schema, key)
    }
}

fn mapping_member(schema: Schema, key: &str) -> Role
    ensures { result ≡ spec_kind_member schema kinds.Mapping key.now }
{
    if key == "mappings" {
        Role::Mapping
    } else {
        element_member(schema, key)
    }
}

fn lazy_member(key: &str) -> Role
    ensures { result ≡ spec_kind_member schemas.One kinds.Lazy key.now }
{
    if key == "value" {
        Role::Expression(Within::Construct)
    } else {
        Role::Nothing
    }
}

fn kind_member(schema: Schema, kind: KindName, key: &str) -> Role
    ensures { result ≡ spec_kind_member schema kind key.now }
{
    match kind {
        KindName::Stage => stage_member(schema, key),
        KindName::Stack => stack_member(schema, key),
        KindName::Group => group_member(schema, key),
        KindName::Resource => resource_member(schema, key),
        KindName::Parameter => parameter_member(schema, key),
        KindName::Condition => condition_construct_member(schema, key),
        KindName::Mapping => mapping_member(schema, key),
        KindName::Output => output_member(schema, key),
        KindName::Lazy => lazy_member(key),
    }
}

fn construct_member(schema: Schema, kind: KindName, key: &str) -> Role
    ensures { result ≡ spec_construct_member schema kind key.now }
{
    match key {
        "kind" | "id" => Role::Text,
        "context" => Role::Context,
        _ => kind_member(schema, kind, key),
    }
}

fn entry_member(schema: Schema, key: &str) -> Role
    ensures { result ≡ spec_entry_member schema key.now }
{
    match key {
        "name" => Role::Text,
        "with" => Role::FreeLiteral,
        "priority" => in_schema_2(schema, Role::Priority),
        _ => Role::Nothing,
    }
}

/// The role of a form's argument.
fn argument_role(within: Within, form: FormName) -> Role
    ensures { result ≡ spec_argument_role within form }
{
    match form {
        FormName::Ref => Role::Text,
        FormName::GetAtt => Role::GetAttArguments,
        FormName::Join => Role::JoinArguments(within),
        FormName::Select => Role::SelectArguments(within),
        FormName::Split => Role::SplitArguments(within),
        FormName::If => Role::IfArguments(within),
        FormName::FindInMap => Role::FindInMapArguments(within),
        FormName::ImportValue => Role::NonEmptyText,
        FormName::Sub => Role::SubArgument(within),
        FormName::Concat => Role::ConcatArguments(within),
        FormName::Context => Role::ContextArguments,
        FormName::Lazy => Role::Text,
    }
}

fn form_member(within: Within, key: &str) -> Role
    ensures { result ≡ spec_form_member within key.now }
{
    match form_named(key) {
        Some(form) => argument_role(within, form),
        None => Role::Nothing,
    }
}

fn condition_member(key: &str) -> Role
    ensures { result ≡ spec_condition_member key.now }
{
    match key {
        "Fn::Equals" => Role::EqualsArguments,
        "Fn::And" | "Fn::Or" => Role::ConditionArguments,
        "Fn::Not" => Role::NotArguments,
        "Condition" => Role::Text,
        _ => Role::Nothing,
    }
}

fn unless_form_key(key: &str, role: Role) -> Role
    ensures { result ≡ (if spec_is_form_key key.now then roles.Nothing else role) }
{
    if is_form_key(key) {
        Role::Nothing
    } else {
        role
    }
}

/// The role of a member.
pub fn member_role(frame: Frame, key: &str) -> Role
    ensures { result ≡ spec_member_role frame key.now }
{
    match frame {
        Frame::Anything => Role::Anything,
        Frame::Unknown => if key == "kind" {
            Role::Nothing
        } else {
            Role::Anything
        },
        Frame::Document(schema) => document_member(schema, key),
        Frame::Construct(schema, kind) => construct_member(schema, kind, key),
        Frame::Entry(schema) => entry_member(schema, key),
        Frame::Literals => unless_form_key(key, Role::Literal),
        Frame::FreeLiterals => Role::FreeLiteral,
        Frame::Mapping => Role::MappingRow,
        Frame::MappingRow => Role::MappingLeaf,
        Frame::Properties => unless_form_key(key, Role::Expression(Within::Construct)),
        Frame::Fields(within) => Role::Expression(within),
        Frame::Form(within) => form_member(within, key),
        Frame::SubVariables(within) => if is_variable_name(key) {
            Role::TextPlace(within)
        } else {
            Role::Nothing
        },
        Frame::Condition => condition_member(key),
    }
}

fn first_else(at: usize, role: Role, other: Role) -> Role
    ensures { result ≡ spec_first_else at role other }
{
    if at == 0 { role } else { other }
}

/// The role of an item.
pub fn item_role(role: Role, at: usize) -> Role
    ensures { result ≡ spec_item_role role at }
{
    match role {
        Role::Constructs(schema) => Role::Construct(schema),
        Role::Literal => Role::Literal,
        Role::FreeLiteral => Role::FreeLiteral,
        Role::Entries(schema) => Role::Entry(schema),
        Role::Texts => Role::Text,
        Role::Expression(within) | Role::ListPlace(within) => Role::Expression(within),
        Role::GetAttArguments => first_else(at, Role::Text, Role::Attribute),
        Role::JoinArguments(within) => first_else(at, Role::Text, Role::ListPlace(within)),
        Role::SelectArguments(within) => first_else(at, Role::Index, Role::ListPlace(within)),
        Role::SplitArguments(within) => {
            first_else(at, Role::NonEmptyText, Role::TextPlace(within))
        }
        Role::IfArguments(within) => first_else(at, Role::Text, Role::Expression(within)),
        Role::FindInMapArguments(within) => first_else(at, Role::Text, Role::TextPlace(within)),
        Role::SubArgument(within) => {
            first_else(at, Role::SubText(within), Role::SubVariables(within))
        }
        Role::ConcatArguments(within) => Role::Piece(within),
        Role::ContextArguments => first_else(at, Role::Text, Role::Literal),
        Role::EqualsArguments => Role::TextPlace(Within::Condition),
        Role::ConditionArguments | Role::NotArguments => Role::Condition,
        _ => Role::Anything,
    }
}
