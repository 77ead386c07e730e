// The names that a condition names, directly or inside well-formed `Fn::And`, `Fn::Or` and `Fn::Not`.
ghost use Rattle.std.specs.Prelude.{◌≡◌, ◌++◌, ℕ, List, false, OnOk, IfOk, map, option_map};
ghost use Rattle.serde_json.specs.Find.{get_member};
ghost use Rattle.serde_json.specs.View.{view, items_view, members_view};
ghost use Rattle.cdk_eval.specs.Conditions.{one_name, item_names, part_names, names_in as spec_names_in, has_items, is_few as spec_is_few, is_one as spec_is_one};
ghost use Rattle.cdk_conditions.specs.Kept.{texts_of, form_names, has_parts as spec_has_parts};

use cdk_base::{Map, Value};
use std::alloc::{AllocError, Global};

fn is_few(count: usize) -> bool
    ensures { result ≡ spec_is_few count }
{
    2 <= count && count <= 10
}

fn is_one(count: usize) -> bool
    ensures { result ≡ spec_is_one count }
{
    1 <= count && count <= 1
}

/// Whether it is a list of 2 to 10 items.
pub fn has_few(value: &Value) -> bool
    ensures { result ≡ has_items spec_is_few (view value.now) }
{
    match value {
        Value::Array(items) => is_few(items.as_slice().len()),
        _ => false,
    }
}

fn has_one(value: &Value) -> bool
    ensures { result ≡ has_items spec_is_one (view value.now) }
{
    match value {
        Value::Array(items) => is_one(items.as_slice().len()),
        _ => false,
    }
}

fn push_one<'a>(names: &mut Vec<&'a str>, value: &'a Value) -> Result<(), AllocError>
    ensures { OnOk result (texts_of names.new.items ≡ texts_of names.old.items ++ one_name (view value.now)) }
{
    match value {
        Value::String(name) => {
            names.push(name.as_str())?;
            Ok(())
        }
        _ => Ok(()),
    }
}

/// Whether it is a well-formed form of conditions.
fn has_parts(key: &str, part: &Value) -> bool
    ensures { result ≡ spec_has_parts key.now (view part.now) }
{
    if key == "Fn::And" || key == "Fn::Or" {
        return has_few(part);
    }
    key == "Fn::Not" && has_one(part)
}

/// The name in a form that isn't one of conditions.
fn push_own_name<'a>(names: &mut Vec<&'a str>, key: &str, part: &'a Value) -> Result<(), AllocError>
    requires { spec_has_parts key.now (view part.now) ≡ false }
    ensures { OnOk result (texts_of names.new.items ≡ texts_of names.old.items ++ form_names key.now (view part.now)) }
{
    if key == "Condition" {
        return push_one(names, part);
    }
    Ok(())
}

#[cycle(names)]
fn push_names<'a>(names: &mut Vec<&'a str>, value: &'a Value) -> Result<(), AllocError>
    ensures { OnOk result (texts_of names.new.items ≡ texts_of names.old.items ++ spec_names_in (view value.now)) }
{
    let Value::Object(members) = value else {
        return Ok(());
    };
    let mut entries = members.iter();
    let Some((key, part)) = entries.next() else {
        return Ok(());
    };
    if entries.next().is_some() {
        return Ok(());
    }
    push_form_names(names, key.as_str(), part)
}

#[cycle(names)]
fn push_form_names<'a>(
    names: &mut Vec<&'a str>,
    key: &str,
    part: &'a Value,
) -> Result<(), AllocError>
    ensures { OnOk result (texts_of names.new.items ≡ texts_of names.old.items ++ form_names key.now (view part.now)) }
{
    if has_parts(key, part) {
        return push_part_names(names, part);
    }
    push_own_name(names, key, part)
}

#[cycle(names)]
fn push_part_names<'a>(names: &mut Vec<&'a str>, part: &'a Value) -> Result<(), AllocError>
    ensures { OnOk result (texts_of names.new.items ≡ texts_of names.old.items ++ part_names (view part.now)) }
{
    let Value::Array(items) = part else {
        return Ok(());
    };
    for item in items {
        push_names(names, item)?;
    }
    Ok(())
}

/// The condition of a name.
pub fn condition_at<'a>(conditions: &'a Map, name: &str) -> Option<&'a Value>
    ensures { option_map (λ v. view v.now) result ≡ get_member name.now (members_view conditions.now.entries) }
{
    conditions.get(name)
}

/// The names that a condition names.
pub fn names_in<'a>(alloc: Global, condition: &'a Value) -> Result<Vec<&'a str>, AllocError>
    ensures { IfOk result (λ ns. texts_of ns.items ≡ spec_names_in (view condition.now)) }
{
    let mut names = Vec::new(alloc);
    push_names(&mut names, condition)?;
    Ok(names)
}
