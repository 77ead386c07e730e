// Joins whose items may stand in their place: of the empty delimiter, over an array.
ghost use Rattle.std.specs.Prelude.{◌≡◌, ◌≢◌, [], ◌∷◌, Some, true, is_some, length, option_map, MatchOption};
ghost use Rattle.serde_json.specs.Data.{object};
ghost use Rattle.serde_json.specs.Find.{as_array};
ghost use Rattle.serde_json.specs.View.{view, items_view, members_view};
ghost use Rattle.cdk_plain.specs.Rendered.{joined_in};
ghost use Rattle.cdk_spelling.specs.Joins.{argument_of as spec_argument_of, is_empty_text as spec_is_empty_text, items_behind as spec_items_behind};

use cdk_base::{List, Map, Value};

// ---- tests

/// The two items, where there are two.
fn two_of(items: &Vec<Value>) -> Option<(&Value, &Value)>
    ensures { MatchOption result (length items.now.items ≢ 2) (λ p. items.now.items ≡ p.0.now ∷ p.1.now ∷ []) }
{
    match items.as_slice() {
        [first, second] => Some((first, second)),
        _ => None,
    }
}

/// The argument of the only member, where it has the key.
fn argument_of<'a>(members: &'a Map, key: &str) -> Option<&'a Value>
    ensures { option_map (λ v. view v.now) result ≡ spec_argument_of key.now (members_view members.now.entries) }
{
    let mut entries = members.iter();
    let Some((name, argument)) = entries.next() else {
        return None;
    };
    if entries.next().is_some() {
        return None;
    }
    if name.as_str() == key {
        return Some(argument);
    }
    None
}

fn is_empty_text(value: &Value) -> bool
    ensures { result ≡ spec_is_empty_text (view value.now) }
{
    match value {
        Value::String(text) => text.as_str().is_empty(),
        _ => false,
    }
}

/// Whether the arguments of a join are the empty delimiter and an array.
fn has_items_behind(arguments: &Value) -> bool
    ensures { result ≡ is_some (spec_items_behind (view arguments.now)) }
{
    let Value::Array(arguments) = arguments else {
        return false;
    };
    let Some((delimiter, list)) = two_of(arguments) else {
        return false;
    };
    is_empty_text(delimiter) && list.is_array()
}

/// Whether a part is such a join.
pub fn is_joined(part: &Value) -> bool
    ensures { result ≡ is_some (joined_in (view part.now)) }
{
    let Value::Object(members) = part else {
        return false;
    };
    match argument_of(members, "Fn::Join") {
        Some(arguments) => has_items_behind(arguments),
        None => false,
    }
}

// ---- what they hold

/// The argument of the only member.
fn argument_in(mut members: Map) -> Value
    requires { is_some (joined_in (object (members_view members.entries))) ≡ true }
    ensures { joined_in (object (members_view members.entries)) ≡ spec_items_behind (view result) }
{
    let Some((_, argument)) = members.pop_first() else {
        unreachable!()
    };
    argument
}

fn items_in(list: Value) -> Vec<Value>
    requires { is_some (as_array (view list)) ≡ true }
    ensures { as_array (view list) ≡ Some (items_view result.items) }
{
    let Value::Array(items) = list else {
        unreachable!()
    };
    items
}

/// The items of the array behind the empty delimiter.
fn items_behind(arguments: Value) -> Vec<Value>
    requires { is_some (spec_items_behind (view arguments)) ≡ true }
    ensures { spec_items_behind (view arguments) ≡ Some (items_view result.items) }
{
    let Value::Array(arguments) = arguments else {
        unreachable!()
    };
    let mut arguments = List::from_vec(arguments);
    let Some(list) = arguments.pop() else {
        unreachable!()
    };
    items_in(list)
}

/// The items of such a join.
pub fn joined_items(part: Value) -> Vec<Value>
    requires { is_some (joined_in (view part)) ≡ true }
    ensures { joined_in (view part) ≡ Some (items_view result.items) }
{
    let Value::Object(members) = part else {
        unreachable!()
    };
    items_behind(argument_in(members))
}
