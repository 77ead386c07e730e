// Intrinsic functions at arguments that are rendered (CloudFormation's intrinsic function reference).
ghost use Rattle.std.specs.Prelude.{◌≡◌, [], IfOk, codes};
ghost use Rattle.serde_json.specs.Data.{array, item, no_items, number, string, unsigned};
ghost use Rattle.serde_json.specs.View.{view, items_view};
ghost use Rattle.cdk_plain.specs.Rendered.{import_json, join_json, list_delimiter, one as spec_one, split_json, three as spec_three, two as spec_two};

use cdk_base::{Map, Value};
use serde_json::{push, put};
use std::alloc::{AllocError, Global};

// ---- objects of one member, and arrays

fn one(alloc: Global, key: &str, value: Value) -> Result<Value, AllocError>
    ensures { IfOk result (λ v. view v ≡ spec_one key.now (view value)) }
{
    let mut members = Map::new(alloc);
    put(&mut members, alloc, key, value)?;
    Ok(Value::Object(members))
}

fn two(alloc: Global, first: Value, second: Value) -> Result<Value, AllocError>
    ensures { IfOk result (λ v. view v ≡ spec_two (view first) (view second)) }
{
    let mut items = Vec::new(alloc);
    push(&mut items, first)?;
    push(&mut items, second)?;
    Ok(Value::Array(items))
}

fn three(alloc: Global, first: Value, second: Value, third: Value) -> Result<Value, AllocError>
    ensures { IfOk result (λ v. view v ≡ spec_three (view first) (view second) (view third)) }
{
    let mut items = Vec::new(alloc);
    push(&mut items, first)?;
    push(&mut items, second)?;
    push(&mut items, third)?;
    Ok(Value::Array(items))
}

// ---- functions of texts and values

/// A function of a text.
fn of_text(alloc: Global, function: &str, text: &str) -> Result<Value, AllocError>
    ensures { IfOk result (λ v. view v ≡ spec_one function.now (string text.now)) }
{
    let text = Value::try_from_str(alloc, text)?;
    one(alloc, function, text)
}

/// A function of a text and a value.
fn of_text_and(alloc: Global, function: &str, text: &str, value: Value) -> Result<Value, AllocError>
    ensures { IfOk result (λ v. view v ≡ spec_one function.now (spec_two (string text.now) (view value))) }
{
    let text = Value::try_from_str(alloc, text)?;
    let arguments = two(alloc, text, value)?;
    one(alloc, function, arguments)
}

/// A function of a text and two values.
fn of_text_and_two(
    alloc: Global,
    function: &str,
    text: &str,
    first: Value,
    second: Value,
) -> Result<Value, AllocError>
    ensures { IfOk result (λ v. view v ≡ spec_one function.now (spec_three (string text.now) (view first) (view second))) }
{
    let text = Value::try_from_str(alloc, text)?;
    let arguments = three(alloc, text, first, second)?;
    one(alloc, function, arguments)
}

// ---- expressions

/// `Ref` of a logical name, or of a pseudo parameter.
pub fn reference_to(alloc: Global, name: &str) -> Result<Value, AllocError>
    ensures { IfOk result (λ v. view v ≡ spec_one (codes "Ref") (string name.now)) }
{
    of_text(alloc, "Ref", name)
}

/// `Fn::GetAtt` of a resource of the stack.
pub(crate) fn attribute_of(alloc: Global, name: &str, attribute: &str) -> Result<Value, AllocError>
    ensures { IfOk result (λ v. view v ≡ spec_one (codes "Fn::GetAtt") (spec_two (string name.now) (string attribute.now))) }
{
    let attribute = Value::try_from_str(alloc, attribute)?;
    of_text_and(alloc, "Fn::GetAtt", name, attribute)
}

/// `Fn::Join` of a list, with the delimiter between its items. Nothing is merged.
pub(crate) fn join_of(alloc: Global, delimiter: &str, list: Value) -> Result<Value, AllocError>
    ensures { IfOk result (λ v. view v ≡ join_json delimiter.now (view list)) }
{
    of_text_and(alloc, "Fn::Join", delimiter, list)
}

/// `Fn::Select`: the item of a list at an index, counted from 0.
pub fn select(alloc: Global, index: u64, list: Value) -> Result<Value, AllocError>
    ensures { IfOk result (λ v. view v ≡ spec_one (codes "Fn::Select") (spec_two (number (unsigned index)) (view list))) }
{
    let arguments = two(alloc, Value::from(index), list)?;
    one(alloc, "Fn::Select", arguments)
}

/// `Fn::Split`: the list of a text's parts between the delimiters.
pub fn split(alloc: Global, delimiter: &str, text: Value) -> Result<Value, AllocError>
    ensures { IfOk result (λ v. view v ≡ split_json delimiter.now (view text)) }
{
    of_text_and(alloc, "Fn::Split", delimiter, text)
}

/// `Fn::If`: a value where the condition of the logical name holds, and another where not.
pub fn choice(alloc: Global, condition: &str, yes: Value, no: Value) -> Result<Value, AllocError>
    ensures { IfOk result (λ v. view v ≡ spec_one (codes "Fn::If") (spec_three (string condition.now) (view yes) (view no))) }
{
    of_text_and_two(alloc, "Fn::If", condition, yes, no)
}

/// `Fn::FindInMap`: the leaf of the mapping of the logical name at two keys.
pub fn find_in_map(
    alloc: Global,
    mapping: &str,
    first: Value,
    second: Value,
) -> Result<Value, AllocError>
    ensures { IfOk result (λ v. view v ≡ spec_one (codes "Fn::FindInMap") (spec_three (string mapping.now) (view first) (view second))) }
{
    of_text_and_two(alloc, "Fn::FindInMap", mapping, first, second)
}

/// `Fn::ImportValue` of an export's name.
pub fn import_value(alloc: Global, export: &str) -> Result<Value, AllocError>
    ensures { IfOk result (λ v. view v ≡ import_json export.now) }
{
    of_text(alloc, "Fn::ImportValue", export)
}

/// The list whose items an export's text holds, with `||` between them.
pub(crate) fn import_list(alloc: Global, export: &str) -> Result<Value, AllocError>
    ensures { IfOk result (λ v. view v ≡ split_json list_delimiter (import_json export.now)) }
{
    let text = import_value(alloc, export)?;
    split(alloc, "||", text)
}

// ---- conditions

/// `Fn::Equals`: both values are the same text.
pub fn equals(alloc: Global, first: Value, second: Value) -> Result<Value, AllocError>
    ensures { IfOk result (λ v. view v ≡ spec_one (codes "Fn::Equals") (spec_two (view first) (view second))) }
{
    let arguments = two(alloc, first, second)?;
    one(alloc, "Fn::Equals", arguments)
}

/// `Fn::And`: all parts hold. CloudFormation takes 2 to 10 of them, which isn't checked here.
pub fn all_of(alloc: Global, parts: Vec<Value>) -> Result<Value, AllocError>
    ensures { IfOk result (λ v. view v ≡ spec_one (codes "Fn::And") (array (items_view parts.items))) }
{
    one(alloc, "Fn::And", Value::Array(parts))
}

/// `Fn::Or`: a part holds. CloudFormation takes 2 to 10 of them, which isn't checked here.
pub fn any_of(alloc: Global, parts: Vec<Value>) -> Result<Value, AllocError>
    ensures { IfOk result (λ v. view v ≡ spec_one (codes "Fn::Or") (array (items_view parts.items))) }
{
    one(alloc, "Fn::Or", Value::Array(parts))
}

/// `Fn::Not`: the part doesn't hold.
pub fn negation(alloc: Global, part: Value) -> Result<Value, AllocError>
    ensures { IfOk result (λ v. view v ≡ spec_one (codes "Fn::Not") (array (item (view part) no_items))) }
{
    let mut parts = Vec::new(alloc);
    push(&mut parts, part)?;
    one(alloc, "Fn::Not", Value::Array(parts))
}

/// `Condition`: the condition of the logical name holds.
pub fn named(alloc: Global, name: &str) -> Result<Value, AllocError>
    ensures { IfOk result (λ v. view v ≡ spec_one (codes "Condition") (string name.now)) }
{
    of_text(alloc, "Condition", name)
}
