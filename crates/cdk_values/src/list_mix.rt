// Markers of lists that don't stand alone.
ghost use Rattle.std.specs.Prelude.{◌≡◌};
ghost use Rattle.serde_json.specs.View.{view, items_view, members_view};
ghost use Rattle.cdk_tokens.specs.Values.{has_list_mix as spec_has_list_mix, items_have_list_mix, members_have_list_mix};

use crate::texts::holds;
use cdk_base::{Map, Value};
use cdk_markers::list_key;

/// Whether a text in the value holds the beginning of a list marker, and isn't the only element, a whole list marker, of its
/// array.
#[cycle(mix)]
pub fn has_list_mix(value: &Value) -> bool
    ensures { result ≡ spec_has_list_mix (view value.now) }
{
    match value {
        Value::String(text) => holds("#{Token[", text.as_str()),
        Value::Array(items) => list_key(value).is_none() && item_has_list_mix(items),
        Value::Object(members) => member_has_list_mix(members),
        Value::Null | Value::Bool(_) | Value::Number(_) => false,
    }
}

#[cycle(mix)]
fn item_has_list_mix(items: &Vec<Value>) -> bool
    ensures { result ≡ items_have_list_mix (items_view items.now.items) }
{
    for item in items {
        if has_list_mix(item) {
            return true;
        }
    }
    false
}

#[cycle(mix)]
fn member_has_list_mix(members: &Map) -> bool
    ensures { result ≡ members_have_list_mix (members_view members.now.entries) }
{
    for (_key, member) in members.iter() {
        if has_list_mix(member) {
            return true;
        }
    }
    false
}
