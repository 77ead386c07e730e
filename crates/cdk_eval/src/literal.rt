// The kinds of JSON values that count as literals.
ghost use Rattle.std.specs.Prelude.{◌≡◌, is_some};
ghost use Rattle.serde_json.specs.View.{view, number_view};
ghost use Rattle.cdk_base.specs.Json.{is_whole as spec_is_whole, text_of as text_in_json};

use cdk_base::Value;
use serde_json::Number;

/// Whether a JSON number is whole and within 64 bits, signed or not.
pub fn is_whole(number: &Number) -> bool
    ensures { result ≡ spec_is_whole (number_view number.now) }
{
    match number.as_u64() {
        Some(_) => true,
        None => match number.as_i64() {
            Some(_) => true,
            None => false,
        },
    }
}

/// Whether a value has a text as a literal: a text, a whole number of 64 bits, or a truth value.
pub fn has_text(value: &Value) -> bool
    ensures { result ≡ is_some (text_in_json (view value.now)) }
{
    match value {
        Value::Bool(_) | Value::String(_) => true,
        Value::Number(number) => is_whole(number),
        _ => false,
    }
}
