// The walk over a document: the first finding in pre-order, with keys in byte order.
ghost use Rattle.std.specs.Prelude.{◌≡◌, Some, IfOk};
ghost use Rattle.serde_json.specs.View.{view, items_view, members_view};
ghost use Rattle.cdk_language.specs.Findings.{here, findings_at, findings, in_items, in_members, first};
ghost use Rattle.cdk_language.specs.Schema.{frame_of as spec_frame_of};

use cdk_base::{Code, Map, Text, Value, has_marker};
use cdk_language::{Finding, Role};
use cdk_places::{first_own, frame_of, item_role, member_role, under, under_index};
use std::alloc::{AllocError, Global};

/// How much is walked at most in search of runs, in bytes of texts and 16 for each expression. Subs may put in what
/// doubles at each level: beyond this the answer is want of memory. An application within the limits on sizes and
/// depth walks at most 32 times 16,000,000, and the names between `${` and `}`.
const MOST_WALKED: u64 = 1_000_000_000;

/// The finding at the value's own place.
fn found_here(alloc: Global, code: Code) -> Result<Option<Finding>, AllocError>
    ensures { IfOk result (λ f. f ≡ Some (here code)) }
{
    let place = Text::new(alloc, "")?;
    Ok(Some(Finding { code, place }))
}

/// The first finding in a value in a role; `marked` tells that its key holds the beginning of a marker.
#[cycle(walk)]
fn first_at(
    alloc: Global,
    left: &mut u64,
    marked: bool,
    role: Role,
    value: &Value,
) -> Result<Option<Finding>, AllocError>
    ensures { IfOk result (λ f. f ≡ first (findings_at marked role (view value.now))) }
{
    if let Some(code) = first_own(left, marked, role, value)? {
        return found_here(alloc, code);
    }
    match value {
        Value::Array(items) => first_in_items(alloc, left, role, items),
        Value::Object(members) => first_in_members(alloc, left, role, members),
        _ => Ok(None),
    }
}

#[cycle(walk)]
fn first_in_items(
    alloc: Global,
    left: &mut u64,
    role: Role,
    items: &Vec<Value>,
) -> Result<Option<Finding>, AllocError>
    ensures { IfOk result (λ f. f ≡ first (in_items role 0 (items_view items.now.items))) }
{
    let mut at = 0;
    for item in items {
        if let Some(finding) = first_at(alloc, left, false, item_role(role, at), item)? {
            return Ok(Some(under_index(alloc, at, finding)?));
        }
        at += 1;
    }
    Ok(None)
}

#[cycle(walk)]
fn first_in_members(
    alloc: Global,
    left: &mut u64,
    role: Role,
    members: &Map,
) -> Result<Option<Finding>, AllocError>
    ensures { let ms = members_view members.now.entries in IfOk result (λ f. f ≡ first (in_members (spec_frame_of role ms) ms)) }
{
    let frame = frame_of(role, members);
    for (key, member) in members.iter() {
        let key = key.as_str();
        let role = member_role(frame, key);
        if let Some(finding) = first_at(alloc, left, has_marker(key), role, member)? {
            return Ok(Some(under(alloc, key, finding)?));
        }
    }
    Ok(None)
}

/// What is wrong with a document of an application, first in pre-order with keys in byte order: `Shape`, `Number` or
/// `LiteralMarker` at a JSON Pointer. None exactly where nothing is wrong. The error is want of memory.
pub fn first_finding(alloc: Global, value: &Value) -> Result<Option<Finding>, AllocError>
    ensures { IfOk result (λ f. f ≡ first (findings (view value.now))) }
{
    let mut left = MOST_WALKED;
    first_at(alloc, &mut left, false, Role::Document, value)
}
