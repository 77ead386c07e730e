// Which values are not what their place asks for.
ghost use Rattle.std.specs.Prelude.{◌≡◌, ◌||◌, nat_lt};
ghost use Rattle.serde_json.specs.View.{view, number_view, members_view};
ghost use Rattle.cdk_language.specs.Sub.{is_attribute as spec_is_attribute};
ghost use Rattle.cdk_language.specs.Schema as spec;

use crate::forms::{is_condition_form, is_form};
use crate::roles::{kind_in, needed_member};
use crate::texts::{is_export_name, is_filled, is_parameter_type, is_policy_name, is_schema_name};
use cdk_base::{Map, Value};
use cdk_language::{Role, Within};
use cdk_members::{has_form_key, is_attribute, lacks};
use cdk_runs::is_wrong_sub_text;
use serde_json::Number;

fn is_null(value: &Value) -> bool
    ensures { result ≡ spec.is_null (view value.now) }
{
    matches!(value, Value::Null)
}

fn is_no_array(value: &Value) -> bool
    ensures { result ≡ spec.is_no_array (view value.now) }
{
    !matches!(value, Value::Array(_))
}

fn is_no_object(value: &Value) -> bool
    ensures { result ≡ spec.is_no_object (view value.now) }
{
    !matches!(value, Value::Object(_))
}

fn is_no_text(value: &Value) -> bool
    ensures { result ≡ spec.is_no_text (view value.now) }
{
    !matches!(value, Value::String(_))
}

fn is_no_scalar(value: &Value) -> bool
    ensures { result ≡ spec.is_no_scalar (view value.now) }
{
    matches!(value, Value::Null | Value::Array(_) | Value::Object(_))
}

fn is_no_schema_name(value: &Value) -> bool
    ensures { result ≡ spec.is_no_such_text spec.is_schema_name (view value.now) }
{
    match value {
        Value::String(text) => !is_schema_name(text.as_str()),
        _ => true,
    }
}

fn is_no_filled_text(value: &Value) -> bool
    ensures { result ≡ spec.is_no_such_text spec.is_filled (view value.now) }
{
    match value {
        Value::String(text) => !is_filled(text.as_str()),
        _ => true,
    }
}

fn is_no_policy_name(value: &Value) -> bool
    ensures { result ≡ spec.is_no_such_text spec.is_policy_name (view value.now) }
{
    match value {
        Value::String(text) => !is_policy_name(text.as_str()),
        _ => true,
    }
}

fn is_no_parameter_type(value: &Value) -> bool
    ensures { result ≡ spec.is_no_such_text spec.is_parameter_type (view value.now) }
{
    match value {
        Value::String(text) => !is_parameter_type(text.as_str()),
        _ => true,
    }
}

fn is_no_export_name(value: &Value) -> bool
    ensures { result ≡ spec.is_no_such_text spec.is_export_name (view value.now) }
{
    match value {
        Value::String(text) => !is_export_name(text.as_str()),
        _ => true,
    }
}

fn is_no_attribute(value: &Value) -> bool
    ensures { result ≡ spec.is_no_such_text spec_is_attribute (view value.now) }
{
    match value {
        Value::String(text) => !is_attribute(text.as_str()),
        _ => true,
    }
}

fn is_outside(low: usize, high: usize, count: usize) -> bool
    ensures { result ≡ (nat_lt count low || nat_lt high count) }
{
    count < low || high < count
}

/// Whether the value is no array of `low` to `high` items.
fn is_no_array_of(low: usize, high: usize, value: &Value) -> bool
    ensures { result ≡ spec.is_no_array_of low high (view value.now) }
{
    match value {
        Value::Array(items) => is_outside(low, high, items.as_slice().len()),
        _ => true,
    }
}

fn is_no_priority_number(number: &Number) -> bool
    ensures { result ≡ spec.is_no_count_to 1000000 (number_view number.now) }
{
    match number.as_u64() {
        Some(n) => 1_000_000 < n,
        None => !number.is_f64(),
    }
}

fn is_no_priority(value: &Value) -> bool
    ensures { result ≡ spec.is_no_priority (view value.now) }
{
    match value {
        Value::Number(number) => is_no_priority_number(number),
        _ => true,
    }
}

fn is_negative(number: &Number) -> bool
    ensures { result ≡ spec.is_negative (number_view number.now) }
{
    !number.is_u64() && !number.is_f64()
}

fn is_no_index(value: &Value) -> bool
    ensures { result ≡ spec.is_no_index (view value.now) }
{
    match value {
        Value::Number(number) => is_negative(number),
        _ => true,
    }
}

fn is_wrong_document(value: &Value) -> bool
    ensures { result ≡ spec.is_wrong_document (view value.now) }
{
    match value {
        Value::Object(members) => lacks(members, "app") || lacks(members, "children"),
        _ => true,
    }
}

fn lacks_of_kind(members: &Map) -> bool
    ensures { let ms = members_view members.now.entries in result ≡ spec.lacks_of_kind (spec.kind_in ms) ms }
{
    match kind_in(members) {
        Some(kind) => lacks(members, "id") || lacks(members, needed_member(kind)),
        None => false,
    }
}

fn is_wrong_construct(value: &Value) -> bool
    ensures { result ≡ spec.is_wrong_construct (view value.now) }
{
    match value {
        Value::Object(members) => lacks(members, "kind") || lacks_of_kind(members),
        _ => true,
    }
}

fn is_wrong_entry(value: &Value) -> bool
    ensures { result ≡ spec.is_wrong_entry (view value.now) }
{
    match value {
        Value::Object(members) => lacks(members, "name") || lacks(members, "with"),
        _ => true,
    }
}

fn is_wrong_expression(within: Within, value: &Value) -> bool
    ensures { result ≡ spec.is_wrong_expression within (view value.now) }
{
    match value {
        Value::Null => true,
        Value::Object(members) => has_form_key(members) && !is_form(within, members),
        _ => false,
    }
}

fn is_wrong_in_text_place(within: Within, value: &Value) -> bool
    ensures { result ≡ spec.is_wrong_in_text_place within (view value.now) }
{
    match value {
        Value::Null | Value::Array(_) => true,
        Value::Object(members) => !is_form(within, members),
        _ => false,
    }
}

fn is_wrong_in_list_place(within: Within, value: &Value) -> bool
    ensures { result ≡ spec.is_wrong_in_list_place within (view value.now) }
{
    match value {
        Value::Array(_) => false,
        Value::Object(members) => !is_form(within, members),
        _ => true,
    }
}

fn is_wrong_in_sub_text(within: Within, value: &Value) -> bool
    ensures { result ≡ spec.is_wrong_in_sub_text within (view value.now) }
{
    match value {
        Value::String(text) => is_wrong_sub_text(within, text.as_str()),
        _ => true,
    }
}

fn is_wrong_sub_argument(within: Within, value: &Value) -> bool
    ensures { result ≡ spec.is_wrong_sub_argument within (view value.now) }
{
    match value {
        Value::String(text) => is_wrong_sub_text(within, text.as_str()),
        _ => is_no_array_of(2, 2, value),
    }
}

fn is_wrong_condition(value: &Value) -> bool
    ensures { result ≡ spec.is_wrong_condition (view value.now) }
{
    match value {
        Value::Object(members) => !is_condition_form(members),
        _ => true,
    }
}

/// Whether the value is not what its place asks for. A number that isn't whole counts as 0 here.
pub fn is_wrong(role: Role, value: &Value) -> bool
    ensures { result ≡ spec.is_wrong role (view value.now) }
{
    match role {
        Role::Nothing => true,
        Role::Anything => false,
        Role::Document => is_wrong_document(value),
        Role::SchemaName => is_no_schema_name(value),
        Role::Construct(_) => is_wrong_construct(value),
        Role::Entry(_) => is_wrong_entry(value),
        Role::Literal | Role::FreeLiteral => is_null(value),
        Role::Constructs(_) | Role::Entries(_) | Role::Texts | Role::ConcatArguments(_) => {
            is_no_array(value)
        }
        Role::Context
        | Role::Mapping
        | Role::MappingRow
        | Role::Properties
        | Role::SubVariables(_) => is_no_object(value),
        Role::Priority => is_no_priority(value),
        Role::Text => is_no_text(value),
        Role::NonEmptyText => is_no_filled_text(value),
        Role::Policy => is_no_policy_name(value),
        Role::ParameterType => is_no_parameter_type(value),
        Role::ExportName => is_no_export_name(value),
        Role::MappingLeaf => is_no_scalar(value),
        Role::Attribute => is_no_attribute(value),
        Role::Index => is_no_index(value),
        Role::Condition => is_wrong_condition(value),
        Role::Expression(within) => is_wrong_expression(within, value),
        Role::TextPlace(within) | Role::Piece(within) => is_wrong_in_text_place(within, value),
        Role::ListPlace(within) => is_wrong_in_list_place(within, value),
        Role::SubArgument(within) => is_wrong_sub_argument(within, value),
        Role::SubText(within) => is_wrong_in_sub_text(within, value),
        Role::NotArguments => is_no_array_of(1, 1, value),
        Role::ContextArguments => is_no_array_of(1, 2, value),
        Role::ConditionArguments => is_no_array_of(2, 10, value),
        Role::IfArguments(_) | Role::FindInMapArguments(_) => is_no_array_of(3, 3, value),
        Role::GetAttArguments
        | Role::JoinArguments(_)
        | Role::SelectArguments(_)
        | Role::SplitArguments(_)
        | Role::EqualsArguments => is_no_array_of(2, 2, value),
    }
}
