// Concatenations and joins of parts that are rendered. Parts are moved, and the cost is linear in them.
ghost use Rattle.std.specs.Prelude.{◌≡◌, ◌≤◌, length, IfOk};
ghost use Rattle.serde_json.specs.View.{view, items_view};
ghost use Rattle.cdk_plain.specs.Rendered.{finished as spec_finished, joined, merged, rendered_join, spliced};
ghost use Rattle.cdk_spelling.specs.Assembled.{assembled_items};
ghost use Rattle.cdk_spelling.specs.Joins.{is_text as spec_is_text};

use crate::functions::join_of;
use crate::merging::Merging;
use cdk_base::{List, Value};
use std::alloc::{AllocError, Global};

/// The only value, or the empty text where there is none.
fn only_or_empty(alloc: Global, values: Vec<Value>) -> Value
    requires { length values.items ≤ 1 }
    ensures { view result ≡ assembled_items (items_view values.items) }
{
    let mut values = List::from_vec(values);
    match values.pop() {
        Some(value) => value,
        None => Value::String(String::new(alloc)),
    }
}

/// Whether there is no item, or a text alone.
fn is_text(items: &Vec<Value>) -> bool
    ensures { result ≡ spec_is_text (items_view items.now.items) }
{
    match items.as_slice() {
        [] => true,
        [only] => only.is_string(),
        _ => false,
    }
}

/// The text that merged items are, or their join.
fn finished(alloc: Global, items: Vec<Value>) -> Result<Value, AllocError>
    ensures { IfOk result (λ v. view v ≡ spec_finished (items_view items.items)) }
{
    if is_text(&items) {
        return Ok(only_or_empty(alloc, items));
    }
    join_of(alloc, "", Value::Array(items))
}

fn merged_parts(alloc: Global, parts: Vec<Value>) -> Result<Vec<Value>, AllocError>
    ensures { IfOk result (λ items. items_view items.items ≡ merged (spliced (items_view parts.items))) }
{
    let mut merging = Merging::new(alloc);
    for part in parts {
        merging.splice(part)?;
    }
    merging.into_items()
}

/// The Concat of parts: literals are their texts, texts that meet are one, empty ones are left out, and a part that is a
/// `Fn::Join` of the empty delimiter over an array gives way to its items (own). No part is left: the empty text. A text is left
/// alone: that text. Else `Fn::Join` of the empty delimiter.
///
/// It answers `AllocError` where no memory is found.
pub fn concat(alloc: Global, parts: Vec<Value>) -> Result<Value, AllocError>
    ensures { IfOk result (λ v. view v ≡ joined (items_view parts.items)) }
{
    let items = merged_parts(alloc, parts)?;
    finished(alloc, items)
}

/// The parts of a text as one expression: no part is the empty text, a part alone is itself, whatever it is, and more are
/// their Concat (own).
///
/// It answers `AllocError` where no memory is found.
pub fn assembled(alloc: Global, parts: Vec<Value>) -> Result<Value, AllocError>
    ensures { IfOk result (λ v. view v ≡ assembled_items (items_view parts.items)) }
{
    if parts.as_slice().len() > 1 {
        return concat(alloc, parts);
    }
    Ok(only_or_empty(alloc, parts))
}

/// `Fn::Join` of a list, with the delimiter between its items (CloudFormation: Fn::Join). Of the empty delimiter and an array
/// it is the Concat of the array's items (own).
///
/// It answers `AllocError` where no memory is found.
pub fn join(alloc: Global, delimiter: &str, list: Value) -> Result<Value, AllocError>
    ensures { IfOk result (λ v. view v ≡ rendered_join delimiter.now (view list)) }
{
    if !delimiter.is_empty() {
        return join_of(alloc, delimiter, list);
    }
    match list {
        Value::Array(items) => concat(alloc, items),
        other => join_of(alloc, delimiter, other),
    }
}
