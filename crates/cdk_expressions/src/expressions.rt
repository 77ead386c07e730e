// The expression that a JSON value is: one function for each form.
ghost use Rattle.std.specs.Prelude.{option_map, option_and_then};
ghost use Rattle.serde_json.specs.Find.{as_integer, as_str};
ghost use Rattle.serde_json.specs.View.{view as json_view, number_view, items_view, members_view};
ghost use Rattle.cdk_language.specs.Application.{expression_of as expression_in, expressions_of as expressions_in, fields_of as fields_in, form_of as form_in, get_att_of as get_att_in, context_of as context_in_json, join_of as join_in, select_of as select_in, split_of as split_in, choice_of as choice_in, find_in_map_of as find_in_map_in, concat_of as concat_in, substituted_of as substituted_in, ref_of as reference_in, sub_of};
ghost use Rattle.cdk_language.specs.Expression.{whole, lazy, import_value, no_fields, view, field_view, expressions_view, fields_view};
ghost use Rattle.cdk_members.specs.Gives.{Gives};
ghost use Rattle.cdk_expressions.specs.Arguments.{text_then_expression, text_then_two_expressions};
ghost use Rattle.cdk_expressions.specs.Forms.{form_with as spec_form_with};

use cdk_base::{List, Map, Text, Value};
use cdk_language::{Expr, Field};
use cdk_members::{
    FormName, ReadError, form_named, has_form_key, index_and_value, lone_text, only_member,
    text_and_two_values, text_and_value,
};
use cdk_substitution::{Copies, reference_of, substituted};
use serde_json::Number;
use std::alloc::Global;

fn whole_of(number: &Number) -> Result<Expr, ReadError>
    ensures { Gives view result (option_map whole (as_integer (number_view number.now))) }
{
    match number.as_i128() {
        Some(n) => Ok(Expr::Whole(n)),
        None => Err(ReadError::Shape),
    }
}

/// The expression of a value by the language of applications. It answers `Shape` exactly where the value is none, and
/// `Memory` where memory ran out or the texts with variables would put in more than 16,000,000 expressions.
pub fn expression_of(alloc: Global, value: &Value) -> Result<Expr, ReadError>
    ensures { Gives view result (expression_in (json_view value.now)) }
{
    let mut copies = Copies::new();
    read_expression(alloc, &mut copies, value)
}

/// The expression that a value is.
#[cycle(read)]
pub fn read_expression(alloc: Global, copies: &mut Copies, value: &Value) -> Result<Expr, ReadError>
    ensures { Gives view result (expression_in (json_view value.now)) }
{
    match value {
        Value::Null => Err(ReadError::Shape),
        Value::Bool(b) => Ok(Expr::Truth(*b)),
        Value::Number(n) => whole_of(n),
        Value::String(s) => Ok(Expr::Text(Text::new(alloc, s.as_str())?)),
        Value::Array(items) => Ok(Expr::List(expressions_of(alloc, copies, items)?)),
        Value::Object(members) => {
            if has_form_key(members) {
                return form_of(alloc, copies, members);
            }
            Ok(Expr::Object(fields_of(alloc, copies, members)?))
        }
    }
}

#[cycle(read)]
fn read_boxed(alloc: Global, copies: &mut Copies, value: &Value) -> Result<Box<Expr>, ReadError>
    ensures { Gives (λ e. view e.value) result (expression_in (json_view value.now)) }
{
    let expression = read_expression(alloc, copies, value)?;
    Ok(Box::new(alloc, expression)?)
}

#[cycle(read)]
fn expressions_of(
    alloc: Global,
    copies: &mut Copies,
    items: &Vec<Value>,
) -> Result<List<Expr>, ReadError>
    ensures { Gives expressions_view result (expressions_in (items_view items.now.items)) }
{
    let mut found = List::new(alloc);
    for item in items {
        found.push(read_expression(alloc, copies, item)?)?;
    }
    Ok(found)
}

#[cycle(read)]
fn read_field(
    alloc: Global,
    copies: &mut Copies,
    key: &str,
    value: &Value,
) -> Result<Field, ReadError>
    ensures { Gives field_view result (option_map (λ e. (key.now, e)) (expression_in (json_view value.now))) }
{
    let key = Text::new(alloc, key)?;
    let value = read_expression(alloc, copies, value)?;
    Ok(Field { key, value })
}

/// The fields of an object, which has each key once.
#[cycle(read)]
pub fn fields_of(
    alloc: Global,
    copies: &mut Copies,
    members: &Map,
) -> Result<List<Field>, ReadError>
    ensures { Gives fields_view result (fields_in (members_view members.now.entries)) }
{
    let mut found = List::new(alloc);
    for (key, member) in members.iter() {
        found.push(read_field(alloc, copies, key.as_str(), member)?)?;
    }
    Ok(found)
}

/// The form that an object of one member is.
#[cycle(read)]
fn form_of(alloc: Global, copies: &mut Copies, members: &Map) -> Result<Expr, ReadError>
    ensures { Gives view result (form_in (members_view members.now.entries)) }
{
    let Some((key, member)) = only_member(members) else {
        return Err(ReadError::Shape);
    };
    match form_named(key.as_str()) {
        Some(form) => form_with(alloc, copies, form, member),
        None => Err(ReadError::Shape),
    }
}

/// The form of the name, with its arguments.
#[cycle(read)]
fn form_with(
    alloc: Global,
    copies: &mut Copies,
    form: FormName,
    value: &Value,
) -> Result<Expr, ReadError>
    ensures { Gives view result (spec_form_with form (json_view value.now)) }
{
    match form {
        FormName::Ref => ref_of(alloc, value),
        FormName::GetAtt => get_att_of(alloc, value),
        FormName::Join => join_of(alloc, copies, value),
        FormName::Select => select_of(alloc, copies, value),
        FormName::Split => split_of(alloc, copies, value),
        FormName::If => choice_of(alloc, copies, value),
        FormName::FindInMap => find_in_map_of(alloc, copies, value),
        FormName::ImportValue => import_value_of(alloc, value),
        FormName::Sub => substituted_of(alloc, copies, value),
        FormName::Concat => concat_of(alloc, copies, value),
        FormName::Context => context_of(alloc, value),
        FormName::Lazy => lazy_of(alloc, value),
    }
}

fn ref_of(alloc: Global, value: &Value) -> Result<Expr, ReadError>
    ensures { Gives view result (option_map reference_in (as_str (json_view value.now))) }
{
    match value.as_str() {
        Some(s) => Ok(reference_of(alloc, s)?),
        None => Err(ReadError::Shape),
    }
}

fn import_value_of(alloc: Global, value: &Value) -> Result<Expr, ReadError>
    ensures { Gives view result (option_map import_value (as_str (json_view value.now))) }
{
    match value.as_str() {
        Some(s) => Ok(Expr::ImportValue(Text::new(alloc, s)?)),
        None => Err(ReadError::Shape),
    }
}

fn lazy_of(alloc: Global, value: &Value) -> Result<Expr, ReadError>
    ensures { Gives view result (option_map lazy (as_str (json_view value.now))) }
{
    match value.as_str() {
        Some(s) => Ok(Expr::Lazy(Text::new(alloc, s)?)),
        None => Err(ReadError::Shape),
    }
}

fn get_att_of(alloc: Global, value: &Value) -> Result<Expr, ReadError>
    ensures { Gives view result (get_att_in (json_view value.now)) }
{
    let Some((target, attribute)) = text_and_value(value) else {
        return Err(ReadError::Shape);
    };
    let Some(attribute) = attribute.as_str() else {
        return Err(ReadError::Shape);
    };
    let target = Text::new(alloc, target)?;
    let attribute = Text::new(alloc, attribute)?;
    Ok(Expr::GetAtt(target, attribute))
}

fn context_of(alloc: Global, value: &Value) -> Result<Expr, ReadError>
    ensures { Gives view result (context_in_json (json_view value.now)) }
{
    if let Some(key) = lone_text(value) {
        return Ok(Expr::Context(Text::new(alloc, key)?, None));
    }
    let Some((key, default)) = text_and_value(value) else {
        return Err(ReadError::Shape);
    };
    let key = Text::new(alloc, key)?;
    let default = default.clone()?;
    Ok(Expr::Context(key, Some(default)))
}

/// The text of an array, and the expression of the value behind it.
#[cycle(read)]
fn text_and_expression(
    alloc: Global,
    copies: &mut Copies,
    value: &Value,
) -> Result<(Text, Box<Expr>), ReadError>
    ensures { Gives (λ p. (p.0, view p.1.value)) result (text_then_expression (json_view value.now)) }
{
    let Some((text, value)) = text_and_value(value) else {
        return Err(ReadError::Shape);
    };
    let text = Text::new(alloc, text)?;
    let expression = read_boxed(alloc, copies, value)?;
    Ok((text, expression))
}

/// The text of an array, and the expressions of the two values behind it.
#[cycle(read)]
fn text_and_two_expressions(
    alloc: Global,
    copies: &mut Copies,
    value: &Value,
) -> Result<(Text, Box<Expr>, Box<Expr>), ReadError>
    ensures { Gives (λ p. (p.0, (view p.1.value, view p.2.value))) result (text_then_two_expressions (json_view value.now)) }
{
    let Some((text, first, second)) = text_and_two_values(value) else {
        return Err(ReadError::Shape);
    };
    let text = Text::new(alloc, text)?;
    let first = read_boxed(alloc, copies, first)?;
    let second = read_boxed(alloc, copies, second)?;
    Ok((text, first, second))
}

#[cycle(read)]
fn join_of(alloc: Global, copies: &mut Copies, value: &Value) -> Result<Expr, ReadError>
    ensures { Gives view result (join_in (json_view value.now)) }
{
    let (delimiter, list) = text_and_expression(alloc, copies, value)?;
    Ok(Expr::Join(delimiter, list))
}

#[cycle(read)]
fn select_of(alloc: Global, copies: &mut Copies, value: &Value) -> Result<Expr, ReadError>
    ensures { Gives view result (select_in (json_view value.now)) }
{
    let Some((index, list)) = index_and_value(value) else {
        return Err(ReadError::Shape);
    };
    Ok(Expr::Select(index, read_boxed(alloc, copies, list)?))
}

#[cycle(read)]
fn split_of(alloc: Global, copies: &mut Copies, value: &Value) -> Result<Expr, ReadError>
    ensures { Gives view result (split_in (json_view value.now)) }
{
    let (delimiter, text) = text_and_expression(alloc, copies, value)?;
    Ok(Expr::Split(delimiter, text))
}

#[cycle(read)]
fn choice_of(alloc: Global, copies: &mut Copies, value: &Value) -> Result<Expr, ReadError>
    ensures { Gives view result (choice_in (json_view value.now)) }
{
    let (condition, holds, fails) = text_and_two_expressions(alloc, copies, value)?;
    Ok(Expr::If(condition, holds, fails))
}

#[cycle(read)]
fn find_in_map_of(alloc: Global, copies: &mut Copies, value: &Value) -> Result<Expr, ReadError>
    ensures { Gives view result (find_in_map_in (json_view value.now)) }
{
    let (mapping, row, column) = text_and_two_expressions(alloc, copies, value)?;
    Ok(Expr::FindInMap(mapping, row, column))
}

#[cycle(read)]
fn concat_of(alloc: Global, copies: &mut Copies, value: &Value) -> Result<Expr, ReadError>
    ensures { Gives view result (concat_in (json_view value.now)) }
{
    match value {
        Value::Array(items) => Ok(Expr::Concat(expressions_of(alloc, copies, items)?)),
        _ => Err(ReadError::Shape),
    }
}

/// The text that has no variables of its own.
fn substituted_alone(alloc: Global, copies: &mut Copies, text: &str) -> Result<Expr, ReadError>
    ensures { Gives view result (sub_of text.now no_fields) }
{
    let none = List::new(alloc);
    substituted(alloc, copies, text, &none)
}

#[cycle(read)]
fn substituted_of(alloc: Global, copies: &mut Copies, value: &Value) -> Result<Expr, ReadError>
    ensures { Gives view result (substituted_in (json_view value.now)) }
{
    if let Some(text) = value.as_str() {
        return substituted_alone(alloc, copies, text);
    }
    let Some((text, variables)) = text_and_value(value) else {
        return Err(ReadError::Shape);
    };
    match variables {
        Value::Object(members) => substituted_with(alloc, copies, text, members),
        _ => Err(ReadError::Shape),
    }
}

/// The text with the members as its variables, all of which are read, also those that it doesn't use.
#[cycle(read)]
fn substituted_with(
    alloc: Global,
    copies: &mut Copies,
    text: &str,
    members: &Map,
) -> Result<Expr, ReadError>
    ensures { Gives view result (option_and_then (sub_of text.now) (fields_in (members_view members.now.entries))) }
{
    let fields = fields_of(alloc, copies, members)?;
    substituted(alloc, copies, text, &fields)
}
