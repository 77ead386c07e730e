// Members of the cases. `Data` where one is missing or has another kind.
use cdk_base::{Map, Value};
use cdk_tally::Trouble;
use std::alloc::Global;

/// Any member.
pub fn member<'a>(case: &'a Value, key: &str) -> Result<&'a Value, Trouble> {
    case.get(key).ok_or(Trouble::Data)
}

/// A text.
pub fn text_member<'a>(case: &'a Value, key: &str) -> Result<&'a str, Trouble> {
    case.get(key).and_then(Value::as_str).ok_or(Trouble::Data)
}

/// A whole number.
pub fn number_member(case: &Value, key: &str) -> Result<u64, Trouble> {
    case.get(key).and_then(Value::as_u64).ok_or(Trouble::Data)
}

/// An object.
pub fn object_member<'a>(case: &'a Value, key: &str) -> Result<&'a Map, Trouble> {
    case.get(key)
        .and_then(Value::as_object)
        .ok_or(Trouble::Data)
}

/// The items of an array.
pub fn items_of(value: &Value) -> Result<&Vec<Value>, Trouble> {
    value.as_array().ok_or(Trouble::Data)
}

/// The value of a JSON text. `Data` where it is none.
pub fn parsed(alloc: Global, text: &str) -> Result<Value, Trouble> {
    match Value::from_str(alloc, text) {
        Ok(value) => Ok(value),
        Err(_) => Err(Trouble::Data),
    }
}
