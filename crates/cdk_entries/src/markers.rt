// Whether a value still holds the beginning of a marker.
ghost use Rattle.std.specs.Prelude.{◌≡◌};
ghost use Rattle.serde_json.specs.View.{view, items_view, members_view};
ghost use Rattle.cdk_base.specs.Marker.{holds_marker as spec_holds_marker, items_hold_marker, members_hold_marker};

use cdk_base::{Map, Value, has_marker};

/// Whether `${Token[` or `#{Token[` stands in a text or a key anywhere in the value.
#[cycle(markers)]
pub fn holds_marker(value: &Value) -> bool
    ensures { result ≡ spec_holds_marker (view value.now) }
{
    match value {
        Value::String(text) => has_marker(text.as_str()),
        Value::Array(items) => item_holds_marker(items),
        Value::Object(members) => member_holds_marker(members),
        Value::Null | Value::Bool(_) | Value::Number(_) => false,
    }
}

#[cycle(markers)]
fn item_holds_marker(items: &Vec<Value>) -> bool
    ensures { result ≡ items_hold_marker (items_view items.now.items) }
{
    for item in items {
        if holds_marker(item) {
            return true;
        }
    }
    false
}

#[cycle(markers)]
fn member_holds_marker(members: &Map) -> bool
    ensures { result ≡ members_hold_marker (members_view members.now.entries) }
{
    for (key, member) in members.iter() {
        if has_marker(key.as_str()) || holds_marker(member) {
            return true;
        }
    }
    false
}
