// Arrays of a text or an index and what stands behind it.
ghost use Rattle.std.specs.Prelude.{◌≡◌, ◌<◌, option_map};
ghost use Rattle.std.specs.Option.{IfSome};
ghost use Rattle.serde_json.specs.View.{view as json_view};
ghost use Rattle.serde_json.specs.declared.value.Value.{size-Value};
ghost use Rattle.cdk_members.specs.Arrays.{lone_text as spec_lone_text, text_then, index_then, text_then_two};

use crate::items::{one_of, three_of, two_of};
use cdk_base::Value;

/// The text of an array that holds nothing else.
pub fn lone_text(value: &Value) -> Option<&str>
    ensures { option_map (λ s. s.now) result ≡ spec_lone_text (json_view value.now) }
{
    let Value::Array(items) = value else {
        return None;
    };
    match one_of(items) {
        Some(key) => key.as_str(),
        None => None,
    }
}

/// The text and the value of an array of these two.
pub fn text_and_value(value: &Value) -> Option<(&str, &Value)>
    ensures parts { option_map (λ p. (p.0.now, json_view p.1.now)) result ≡ text_then (json_view value.now) }
    ensures smaller { IfSome result (λ p. size-Value p.1.now < size-Value value.now) }
{
    let Value::Array(items) = value else {
        return None;
    };
    let Some((text, value)) = two_of(items) else {
        return None;
    };
    let Some(text) = text.as_str() else {
        return None;
    };
    Some((text, value))
}

/// The text and the two values of an array of these three.
pub fn text_and_two_values(value: &Value) -> Option<(&str, &Value, &Value)>
    ensures parts { option_map (λ p. (p.0.now, (json_view p.1.now, json_view p.2.now))) result ≡ text_then_two (json_view value.now) }
    ensures smaller { IfSome result (λ p. (size-Value p.1.now < size-Value value.now) × (size-Value p.2.now < size-Value value.now)) }
{
    let Value::Array(items) = value else {
        return None;
    };
    let Some((text, first, second)) = three_of(items) else {
        return None;
    };
    let Some(text) = text.as_str() else {
        return None;
    };
    Some((text, first, second))
}

/// The index and the value of an array of these two.
pub fn index_and_value(value: &Value) -> Option<(u64, &Value)>
    ensures parts { option_map (λ p. (p.0, json_view p.1.now)) result ≡ index_then (json_view value.now) }
    ensures smaller { IfSome result (λ p. size-Value p.1.now < size-Value value.now) }
{
    let Value::Array(items) = value else {
        return None;
    };
    let Some((index, value)) = two_of(items) else {
        return None;
    };
    let Some(index) = index.as_u64() else {
        return None;
    };
    Some((index, value))
}
