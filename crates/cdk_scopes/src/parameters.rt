// What a parameter stands for (CloudFormation: parameters).
ghost use Rattle.std.specs.Prelude.{◌≡◌, Some, IfOk, option_map, option_and_then, codes};
ghost use Rattle.serde_json.specs.Find.{get};
ghost use Rattle.serde_json.specs.View.{view};
ghost use Rattle.cdk_base.specs.Json.{text_of as text_in_json};
ghost use Rattle.cdk_eval.specs.Sections.{is_list_type as spec_is_list_type, parameter_value, parameter_outcome as spec_parameter_outcome};
ghost use Rattle.cdk_eval.specs.Views.{outcome_view};

use cdk_base::{Text, Value, text_of};
use cdk_eval::{EvalFault, Outcome};
use cdk_texts::list_items;
use std::alloc::{AllocError, Global};

fn is_list_type(kind: Option<&Value>) -> bool
    ensures { result ≡ spec_is_list_type (option_map (λ v. view v.now) kind.entry) }
{
    match kind {
        Some(Value::String(kind)) => {
            let kind = kind.as_str();
            kind == "CommaDelimitedList" || kind.as_bytes().starts_with(b"List<")
        }
        _ => false,
    }
}

fn default_text(alloc: Global, parameter: &Value) -> Result<Option<Text>, AllocError>
    ensures { IfOk result (λ t. t ≡ option_and_then text_in_json (get (codes "Default") (view parameter.now))) }
{
    match parameter.get("Default") {
        Some(value) => text_of(alloc, value),
        None => Ok(None),
    }
}

fn text_or_items(alloc: Global, is_list: bool, text: &str) -> Result<Outcome, AllocError>
    ensures { IfOk result (λ o. outcome_view o ≡ parameter_value is_list (Some text.now)) }
{
    if is_list {
        let items = list_items(alloc, text)?;
        return Ok(Outcome::Value(Value::Array(items)));
    }
    Ok(Outcome::Value(Value::String(String::from_str(alloc, text)?)))
}

/// What `Ref` of a parameter gives: the value from outside, else the default.
pub fn parameter_outcome(
    alloc: Global,
    given: Option<&str>,
    parameter: &Value,
) -> Result<Outcome, AllocError>
    ensures { IfOk result (λ o. outcome_view o ≡ spec_parameter_outcome (option_map (λ s. s.now) given.entry) (view parameter.now)) }
{
    let is_list = is_list_type(parameter.get("Type"));
    if let Some(text) = given {
        return text_or_items(alloc, is_list, text);
    }
    match default_text(alloc, parameter)? {
        Some(text) => text_or_items(alloc, is_list, text.as_str()),
        None => Ok(Outcome::Fault(EvalFault::NoParameter)),
    }
}
