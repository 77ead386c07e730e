// Texts that are cut into items of a JSON array.
ghost use Rattle.std.specs.Prelude.{◌≡◌, ◌<◌, [], reverse, length, IfOk};
ghost use Rattle.serde_json.specs.Data.{string};
ghost use Rattle.serde_json.specs.View.{view, items_view};
ghost use Rattle.cdk_eval.specs.Texts.{cut as spec_cut, trimmed as spec_trimmed, without_spaces as spec_without_spaces, list_items as spec_list_items};

use crate::splitting::around;
use cdk_base::Value;
use std::alloc::{AllocError, Global};

fn text_value(alloc: Global, text: &str) -> Result<Value, AllocError>
    ensures { IfOk result (λ v. view v ≡ string text.now) }
{
    Ok(Value::String(String::from_str(alloc, text)?))
}

/// The parts of a text between the delimiters, looked for from the left: at least one (CloudFormation: Fn::Split).
pub fn cut(alloc: Global, delimiter: &str, text: &str) -> Result<Vec<Value>, AllocError>
    requires { 0 < length delimiter.now }
    ensures { IfOk result (λ vs. items_view vs.items ≡ spec_cut delimiter.now 0 [] text.now) }
{
    let mut items = Vec::new(alloc);
    let mut rest = text;
    'parts: loop {
        match around(rest, delimiter) {
            None => {
                items.push(text_value(alloc, rest)?)?;
                return Ok(items);
            }
            Some((before, after)) => {
                items.push(text_value(alloc, before)?)?;
                rest = after;
            }
        }
    }
}

fn without_spaces_before(text: &str) -> &str
    ensures { result.now ≡ spec_without_spaces text.now }
{
    let mut rest = text;
    'spaces: while let Some(shorter) = rest.strip_prefix(" ") {
        rest = shorter;
    }
    rest
}

fn without_spaces_behind(text: &str) -> &str
    ensures { result.now ≡ reverse (spec_without_spaces (reverse text.now)) }
{
    let mut rest = text;
    'spaces: while let Some(shorter) = rest.strip_suffix(" ") {
        rest = shorter;
    }
    rest
}

fn trimmed(text: &str) -> &str
    ensures { result.now ≡ spec_trimmed text.now }
{
    without_spaces_behind(without_spaces_before(text))
}

/// The items of a list parameter's text: it is cut at each comma, and each item is trimmed of spaces (U+0020).
pub fn list_items(alloc: Global, text: &str) -> Result<Vec<Value>, AllocError>
    ensures { IfOk result (λ vs. items_view vs.items ≡ spec_list_items text.now) }
{
    let mut items = Vec::new(alloc);
    let mut rest = text;
    'parts: loop {
        match around(rest, ",") {
            None => {
                items.push(text_value(alloc, trimmed(rest))?)?;
                return Ok(items);
            }
            Some((before, after)) => {
                items.push(text_value(alloc, trimmed(before))?)?;
                rest = after;
            }
        }
    }
}
