// What a value may not hold, tokens apart.
ghost use Rattle.std.specs.Prelude.{◌≡◌};
ghost use Rattle.serde_json.specs.View.{view, items_view, members_view, number_view};
ghost use Rattle.cdk_base.specs.Json.{is_form_key as spec_is_form_key, is_whole as spec_is_whole};
ghost use Rattle.cdk_values.specs.BadValue.{has_bad_value as spec_has_bad_value, is_bad_key as spec_is_bad_key, items_have_bad_value, members_have_bad_value};

use cdk_base::{Map, Value, has_marker};
use serde_json::Number;

/// Whether the number is whole and within 64 bits, signed or not.
fn is_whole(number: &Number) -> bool
    ensures { result ≡ spec_is_whole (number_view number.now) }
{
    number.as_u64().is_some() || number.as_i64().is_some()
}

/// Whether only a form may have the key: it is `Ref`, or begins with `Fn::` or `CDK::`.
fn is_form_key(key: &str) -> bool
    ensures { result ≡ spec_is_form_key key.now }
{
    (key == "Ref" || key.starts_with("Fn::")) || key.starts_with("CDK::")
}

fn is_bad_key(key: &str) -> bool
    ensures { result ≡ spec_is_bad_key key.now }
{
    is_form_key(key) || has_marker(key)
}

/// Whether anywhere in the value there is null, a number that isn't whole of 64 bits, or a key that only a form may have or in
/// which a marker begins.
#[cycle(bad)]
pub fn has_bad_value(value: &Value) -> bool
    ensures { result ≡ spec_has_bad_value (view value.now) }
{
    match value {
        Value::Null => true,
        Value::Number(number) => !is_whole(number),
        Value::Array(items) => item_has_bad_value(items),
        Value::Object(members) => member_has_bad_value(members),
        Value::Bool(_) | Value::String(_) => false,
    }
}

#[cycle(bad)]
fn item_has_bad_value(items: &Vec<Value>) -> bool
    ensures { result ≡ items_have_bad_value (items_view items.now.items) }
{
    for item in items {
        if has_bad_value(item) {
            return true;
        }
    }
    false
}

#[cycle(bad)]
fn member_has_bad_value(members: &Map) -> bool
    ensures { result ≡ members_have_bad_value (members_view members.now.entries) }
{
    for (key, member) in members.iter() {
        if is_bad_key(key.as_str()) || has_bad_value(member) {
            return true;
        }
    }
    false
}
