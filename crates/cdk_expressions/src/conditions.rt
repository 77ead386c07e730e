// The condition that a JSON value is.
ghost use Rattle.std.specs.Prelude.{◌≡◌, option_map};
ghost use Rattle.serde_json.specs.Data.{array, object, item, member, no_items, no_members};
ghost use Rattle.serde_json.specs.Find.{as_str};
ghost use Rattle.serde_json.specs.View.{view as json_view, items_view, members_view};
ghost use Rattle.cdk_language.specs.Application.{equals_of as equals_in, condition_of as condition_in, conditions_of as conditions_in, conditions_from as conditions_from_items, negated_of as negated_in};
ghost use Rattle.cdk_language.specs.Condition.{named, all_of, any_of, negated as negation, view, conditions_view};
ghost use Rattle.cdk_members.specs.Gives.{Gives};

use crate::expressions::read_expression;
use cdk_base::{List, Map, Text, Value};
use cdk_language::Cond;
use cdk_members::{ReadError, one_of, only_member, two_of};
use cdk_substitution::Copies;
use std::alloc::Global;

/// The condition that a value is.
#[cycle(conditions)]
pub fn read_condition(alloc: Global, copies: &mut Copies, value: &Value) -> Result<Cond, ReadError>
    ensures { Gives view result (condition_in (json_view value.now)) }
{
    match value {
        Value::Object(members) => form_of(alloc, copies, members),
        _ => Err(ReadError::Shape),
    }
}

/// The form that an object of one member is.
#[cycle(conditions)]
fn form_of(alloc: Global, copies: &mut Copies, members: &Map) -> Result<Cond, ReadError>
    ensures { Gives view result (condition_in (object (members_view members.now.entries))) }
{
    match only_member(members) {
        Some((key, member)) => form_with(alloc, copies, key.as_str(), member),
        None => Err(ReadError::Shape),
    }
}

/// The form of the name, with its arguments.
#[cycle(conditions)]
fn form_with(
    alloc: Global,
    copies: &mut Copies,
    name: &str,
    value: &Value,
) -> Result<Cond, ReadError>
    ensures { Gives view result (condition_in (object (member name.now (json_view value.now) no_members))) }
{
    if name == "Fn::Equals" {
        return equals_of(alloc, copies, value);
    }
    if name == "Fn::And" {
        return and_of(alloc, copies, value);
    }
    if name == "Fn::Or" {
        return or_of(alloc, copies, value);
    }
    if name == "Fn::Not" {
        return negated_of(alloc, copies, value);
    }
    if name == "Condition" {
        return named_of(alloc, value);
    }
    Err(ReadError::Shape)
}

fn equals_of(alloc: Global, copies: &mut Copies, value: &Value) -> Result<Cond, ReadError>
    ensures { Gives view result (equals_in (json_view value.now)) }
{
    let Value::Array(items) = value else {
        return Err(ReadError::Shape);
    };
    match two_of(items) {
        Some((first, second)) => equals(alloc, copies, first, second),
        None => Err(ReadError::Shape),
    }
}

fn equals(
    alloc: Global,
    copies: &mut Copies,
    first: &Value,
    second: &Value,
) -> Result<Cond, ReadError>
    ensures { Gives view result (equals_in (array (item (json_view first.now) (item (json_view second.now) no_items)))) }
{
    let first = read_expression(alloc, copies, first)?;
    match read_expression(alloc, copies, second) {
        Ok(second) => Ok(Cond::Equals(first, second)),
        Err(error) => {
            drop(first);
            Err(error)
        }
    }
}

fn named_of(alloc: Global, value: &Value) -> Result<Cond, ReadError>
    ensures { Gives view result (option_map named (as_str (json_view value.now))) }
{
    match value.as_str() {
        Some(s) => Ok(Cond::Named(Text::new(alloc, s)?)),
        None => Err(ReadError::Shape),
    }
}

#[cycle(conditions)]
fn and_of(alloc: Global, copies: &mut Copies, value: &Value) -> Result<Cond, ReadError>
    ensures { Gives view result (option_map all_of (conditions_in (json_view value.now))) }
{
    let conditions = conditions_of(alloc, copies, value)?;
    Ok(Cond::And(conditions))
}

#[cycle(conditions)]
fn or_of(alloc: Global, copies: &mut Copies, value: &Value) -> Result<Cond, ReadError>
    ensures { Gives view result (option_map any_of (conditions_in (json_view value.now))) }
{
    let conditions = conditions_of(alloc, copies, value)?;
    Ok(Cond::Or(conditions))
}

#[cycle(conditions)]
fn conditions_of(alloc: Global, copies: &mut Copies, value: &Value) -> Result<List<Cond>, ReadError>
    ensures { Gives conditions_view result (conditions_in (json_view value.now)) }
{
    match value {
        Value::Array(items) => conditions_from(alloc, copies, items),
        _ => Err(ReadError::Shape),
    }
}

#[cycle(conditions)]
fn conditions_from(
    alloc: Global,
    copies: &mut Copies,
    items: &Vec<Value>,
) -> Result<List<Cond>, ReadError>
    ensures { Gives conditions_view result (conditions_from_items (items_view items.now.items)) }
{
    let mut found = List::new(alloc);
    for item in items {
        found.push(read_condition(alloc, copies, item)?)?;
    }
    Ok(found)
}

#[cycle(conditions)]
fn negated_of(alloc: Global, copies: &mut Copies, value: &Value) -> Result<Cond, ReadError>
    ensures { Gives view result (negated_in (json_view value.now)) }
{
    let Value::Array(items) = value else {
        return Err(ReadError::Shape);
    };
    match one_of(items) {
        Some(only) => negated(alloc, copies, only),
        None => Err(ReadError::Shape),
    }
}

#[cycle(conditions)]
fn negated(alloc: Global, copies: &mut Copies, value: &Value) -> Result<Cond, ReadError>
    ensures { Gives view result (option_map negation (condition_in (json_view value.now))) }
{
    let inner = read_condition(alloc, copies, value)?;
    Ok(Cond::Not(Box::new(alloc, inner)?))
}
