// The walk over a document: the first place in pre-order, with keys in byte order, that misses its form.
ghost use Rattle.std.specs.Prelude.{◌≡◌, IfOk};
ghost use Rattle.serde_json.specs.View.{view, items_view, members_view};
ghost use Rattle.cdk_eval.specs.Form.{first_of, place, inside, in_items, in_members, first_miss as spec_first_miss};

use crate::members::member_role;
use crate::roles::{fits, item_role, settled};
use cdk_base::{Map, Text, Value, step_to, step_to_index};
use cdk_eval::Role;
use std::alloc::{AllocError, Global};

#[cycle(walk)]
fn first_at(alloc: Global, role: Role, value: &Value) -> Result<Option<Text>, AllocError>
    ensures { IfOk result (λ p. p ≡ first_of (place role (view value.now) (inside role (view value.now)))) }
{
    if !fits(role, value) {
        let here = Text::new(alloc, "")?;
        return Ok(Some(here));
    }
    match value {
        Value::Array(items) => first_in_items(alloc, item_role(role), items),
        Value::Object(members) => first_in_members(alloc, role, members),
        _ => Ok(None),
    }
}

#[cycle(walk)]
fn first_in_items(alloc: Global, role: Role, items: &Vec<Value>) -> Result<Option<Text>, AllocError>
    ensures { IfOk result (λ p. p ≡ first_of (in_items role 0 (items_view items.now.items))) }
{
    let mut at = 0;
    for item in items {
        if let Some(pointer) = first_at(alloc, role, item)? {
            let pointer = step_to_index(alloc, at, pointer.as_str())?;
            return Ok(Some(pointer));
        }
        at += 1;
    }
    Ok(None)
}

#[cycle(walk)]
fn first_in_members(alloc: Global, role: Role, members: &Map) -> Result<Option<Text>, AllocError>
    ensures { IfOk result (λ p. p ≡ first_of (in_members role (members_view members.now.entries))) }
{
    for (key, member) in members.iter() {
        let key = key.as_str();
        let role = settled(member_role(role, key), member);
        if let Some(pointer) = first_at(alloc, role, member)? {
            let pointer = step_to(alloc, key, pointer.as_str())?;
            return Ok(Some(pointer));
        }
    }
    Ok(None)
}

/// The first place of a document that misses the form of its role, as a JSON Pointer (RFC 6901), in pre-order with keys
/// in byte order. `None` exactly where the document has the form. The error is want of memory.
pub fn first_miss(alloc: Global, role: Role, value: &Value) -> Result<Option<Text>, AllocError>
    ensures { IfOk result (λ p. p ≡ spec_first_miss role (view value.now)) }
{
    first_at(alloc, settled(role, value), value)
}
