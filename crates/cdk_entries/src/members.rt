// Members of objects, most of which are there only where they are given.
ghost use Rattle.std.specs.Prelude.{◌≡◌, Some, IfOk, OnOk, option_map};
ghost use Rattle.serde_json.specs.Data.{object, string, member, no_members, put as spec_put};
ghost use Rattle.serde_json.specs.View.{view, members_view};
ghost use Rattle.cdk_entries.specs.Entries.{policy_name as spec_policy_name};
ghost use Rattle.cdk_entries.specs.Members.{members_of, non_empty, put_given as spec_put_given, unless_empty};

use cdk_base::{Map, Text, Value};
use cdk_language::Policy;
use serde_json::put;
use std::alloc::{AllocError, Global};

/// Puts a text in.
pub(crate) fn put_text(
    members: &mut Map,
    alloc: Global,
    key: &str,
    text: &str,
) -> Result<(), AllocError>
    ensures { OnOk result (members_view members.new.entries ≡ spec_put key.now (string text.now) (members_view members.old.entries)) }
{
    let value = Value::try_from_str(alloc, text)?;
    put(members, alloc, key, value)
}

/// Puts a text in where it is given.
pub(crate) fn put_text_given(
    members: &mut Map,
    alloc: Global,
    key: &str,
    text: &Option<Text>,
) -> Result<(), AllocError>
    ensures { OnOk result (members_view members.new.entries ≡ spec_put_given key.now (option_map string text.now) (members_view members.old.entries)) }
{
    match text {
        Some(text) => put_text(members, alloc, key, text.as_str()),
        None => Ok(()),
    }
}

/// Puts a text in where it isn't empty.
pub(crate) fn put_text_unless_empty(
    members: &mut Map,
    alloc: Global,
    key: &str,
    text: &str,
) -> Result<(), AllocError>
    ensures { OnOk result (members_view members.new.entries ≡ spec_put_given key.now (non_empty (Some text.now)) (members_view members.old.entries)) }
{
    if text.is_empty() {
        return Ok(());
    }
    put_text(members, alloc, key, text)
}

fn object_of_text(alloc: Global, key: &str, text: &str) -> Result<Value, AllocError>
    ensures { IfOk result (λ v. view v ≡ object (member key.now (string text.now) no_members)) }
{
    let mut members = Map::new(alloc);
    put_text(&mut members, alloc, key, text)?;
    Ok(Value::Object(members))
}

/// Puts an object in whose one member is a text.
pub(crate) fn put_object_of_text(
    members: &mut Map,
    alloc: Global,
    key: &str,
    name: &str,
    text: &str,
) -> Result<(), AllocError>
    ensures { OnOk result (members_view members.new.entries ≡ spec_put key.now (object (member name.now (string text.now) no_members)) (members_view members.old.entries)) }
{
    let object = object_of_text(alloc, name, text)?;
    put(members, alloc, key, object)
}

/// Puts an object of these members in, where there are any.
pub fn put_object_unless_empty(
    members: &mut Map,
    alloc: Global,
    key: &str,
    inner: Map,
) -> Result<(), AllocError>
    ensures { OnOk result (members_view members.new.entries ≡ spec_put_given key.now (unless_empty (members_view inner.entries)) (members_view members.old.entries)) }
{
    if inner.is_empty() {
        return Ok(());
    }
    put(members, alloc, key, Value::Object(inner))?;
    Ok(())
}

/// Puts the value in where it is an object with members.
pub(crate) fn put_members_of(
    members: &mut Map,
    alloc: Global,
    key: &str,
    value: Value,
) -> Result<(), AllocError>
    ensures { OnOk result (members_view members.new.entries ≡ spec_put_given key.now (unless_empty (members_of (view value))) (members_view members.old.entries)) }
{
    match value {
        Value::Object(inner) => put_object_unless_empty(members, alloc, key, inner),
        Value::Null | Value::Bool(_) | Value::Number(_) | Value::String(_) | Value::Array(_) => Ok(
            (),
        ),
    }
}

fn policy_name(policy: Policy) -> &'static str
    ensures { result.now ≡ spec_policy_name policy }
{
    match policy {
        Policy::Delete => "Delete",
        Policy::Retain => "Retain",
        Policy::Snapshot => "Snapshot",
    }
}

/// Puts the name of a policy in, where there is one.
pub(crate) fn put_policy(
    members: &mut Map,
    alloc: Global,
    key: &str,
    policy: Option<Policy>,
) -> Result<(), AllocError>
    ensures { OnOk result (members_view members.new.entries ≡ spec_put_given key.now (option_map (λ p. string (spec_policy_name p)) policy) (members_view members.old.entries)) }
{
    match policy {
        Some(policy) => put_text(members, alloc, key, policy_name(policy)),
        None => Ok(()),
    }
}
