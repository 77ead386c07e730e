// Texts of the cases: written out, taken from a file of `data/`, or made by a rule.
use crate::members::{number_member, text_member};
use cdk_base::Value;
use cdk_outside::Files;
use cdk_tally::{Trouble, text_of_file};
use std::alloc::{AllocError, Global};

// A text with a number for each mark.
fn numbered(alloc: Global, text: &str, mark: &str, number: u64) -> Result<String, AllocError> {
    let digits = number.to_string(alloc)?;
    text.replace(alloc, mark, digits.as_str())
}

// A text with a number for each `@0`, and the next one for each `@1`.
fn counted_piece(alloc: Global, text: &str, number: u64) -> Result<String, AllocError> {
    let piece = numbered(alloc, text, "@0", number)?;
    numbered(alloc, piece.as_str(), "@1", number.saturating_add(1))
}

fn push_counted(
    alloc: Global,
    all: &mut String,
    text: &str,
    number: u64,
) -> Result<(), AllocError> {
    let piece = counted_piece(alloc, text, number)?;
    if !all.is_empty() {
        all.push(',')?;
    }
    all.push_str(piece.as_str())
}

// The first half of a text's bytes, rounded down.
fn first_half(alloc: Global, text: &str) -> Result<String, Trouble> {
    let half = text.get(..text.len() / 2).ok_or(Trouble::Data)?;
    Ok(String::from_str(alloc, half)?)
}

fn half_of_file<F: Files>(alloc: Global, source: &mut F, name: &str) -> Result<String, Trouble> {
    let text = text_of_file(alloc, source, name)?;
    first_half(alloc, text.as_str())
}

// A text so many times, one behind another.
fn repeated_by(alloc: Global, rule: &Value) -> Result<String, Trouble> {
    let text = text_member(rule, "repeat")?;
    let times = number_member(rule, "times")?;
    let mut all = String::new(alloc);
    for _ in 0..times {
        all.push_str(text)?;
    }
    Ok(all)
}

// A text for each number from `from` on, so many, joined by commas.
fn counted_by(alloc: Global, rule: &Value) -> Result<String, Trouble> {
    let text = text_member(rule, "each")?;
    let from = number_member(rule, "from")?;
    let count = number_member(rule, "count")?;
    let mut all = String::new(alloc);
    for step in 0..count {
        push_counted(alloc, &mut all, text, from.saturating_add(step))?;
    }
    Ok(all)
}

// The text of one rule in an object.
fn made<F: Files>(alloc: Global, source: &mut F, rule: &Value) -> Result<String, Trouble> {
    if let Ok(name) = text_member(rule, "data") {
        return text_of_file(alloc, source, name);
    }
    if let Ok(name) = text_member(rule, "half") {
        return half_of_file(alloc, source, name);
    }
    if rule.get("repeat").is_some() {
        return repeated_by(alloc, rule);
    }
    counted_by(alloc, rule)
}

// One piece: a text, nothing, or one rule in an object.
fn piece<F: Files>(alloc: Global, source: &mut F, rule: &Value) -> Result<String, Trouble> {
    match rule {
        Value::Null => Ok(String::new(alloc)),
        Value::String(text) => Ok(String::from_str(alloc, text.as_str())?),
        _ => made(alloc, source, rule),
    }
}

fn push_piece<F: Files>(
    alloc: Global,
    source: &mut F,
    all: &mut String,
    rule: &Value,
) -> Result<(), Trouble> {
    let piece = piece(alloc, source, rule)?;
    Ok(all.push_str(piece.as_str())?)
}

fn joined<F: Files>(alloc: Global, source: &mut F, rules: &[Value]) -> Result<String, Trouble> {
    let mut all = String::new(alloc);
    for rule in rules {
        push_piece(alloc, source, &mut all, rule)?;
    }
    Ok(all)
}

/// The text that a case gives: one piece, or an array of pieces that are joined. A piece is a text, null (no text), `{"data": NAME}`
/// (a file of `data/`), `{"half": NAME}` (the first half of one), `{"repeat": TEXT, "times": N}`, or
/// `{"each": TEXT, "from": N, "count": N}` (the text for each number, with `@0` for it and `@1` for the next, joined by commas).
pub fn content<F: Files>(alloc: Global, source: &mut F, rule: &Value) -> Result<String, Trouble> {
    match rule.as_array() {
        Some(rules) => joined(alloc, source, rules.as_slice()),
        None => piece(alloc, source, rule),
    }
}
