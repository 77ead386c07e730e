// The marked value of an expression, and its tokens.
ghost use Rattle.std.specs.Prelude.{◌≡◌, ◌<◌, [], ◌∷◌, ◌++◌, length, option_map, string_bytes, IfOk, OnOk};
ghost use Rattle.std.specs.Option.{unwrap_or};
ghost use Rattle.serde_json.specs.Data.{array, no_members, number, object, string};
ghost use Rattle.serde_json.specs.Find.{of_integer};
ghost use Rattle.serde_json.specs.View.{view as json_view};
ghost use Rattle.cdk_base.specs.Json.{text_of as text_in_json};
ghost use Rattle.cdk_language.specs.Expression.{view, expressions_view, fields_view};
ghost use Rattle.cdk_tree.specs.TreeView.{constructs};
ghost use Rattle.cdk_tokens.specs.Marking.{all_tokens, context_value as spec_context_value, fields_tokens, hint as spec_hint, marked, marked_items, marked_members, marked_text, spelled, target, token_of, tokens};
ghost use Rattle.cdk_tokens.specs.TableView.{tokens_in};
ghost use Rattle.cdk_tokens.specs.Token.{get_att, import_value, join, split};
ghost use Rattle.cdk_tokens.specs.Views.{form_view};

use crate::form::Form;
use crate::table::Table;
use cdk_base::{List, Map, Text, Value, text_of};
use cdk_contexts::found_value;
use cdk_language::{Expr, Field};
use cdk_tree::{NodeId, Tree};
use serde_json::{Number, put};
use std::alloc::{AllocError, Global};

fn text_value(alloc: Global, text: &Text) -> Result<Value, AllocError>
    ensures { IfOk result (λ v. json_view v ≡ string text.now) }
{
    Value::try_from_str(alloc, text.as_str())
}

// A number that isn't within 64 bits has no place in a `Value`. No document has one, and it ends like want of memory.
fn whole_value(n: i128) -> Result<Value, AllocError>
    ensures { IfOk result (λ v. json_view v ≡ number (of_integer n)) }
{
    match Number::from_i128(n) {
        Some(number) => Ok(Value::Number(number)),
        None => Err(AllocError),
    }
}

// A Context that isn't found is refused before, and stands for null here.
fn context_value(
    tree: &Tree,
    at: NodeId,
    key: &Text,
    default: &Option<Value>,
) -> Result<Value, AllocError>
    requires { at < length (constructs tree.now) }
    ensures { IfOk result (λ v. json_view v ≡ spec_context_value (constructs tree.now) at key.now (option_map json_view default.now)) }
{
    match found_value(tree, at, key.as_str(), default) {
        Some(value) => value.clone(),
        None => Ok(Value::Null),
    }
}

// What no construct has as its path is refused before, and stands for the root here.
fn target_of(tree: &Tree, path: &Text) -> NodeId
    ensures { result ≡ target (constructs tree.now) path.now }
{
    match tree.find(path.as_str()) {
        Some(at) => at,
        None => NodeId::ROOT,
    }
}

// The beginning of a token's key, which names its expression's form.
fn hint(e: &Expr) -> &str
    ensures { result.now ≡ spec_hint (view e.now) }
{
    match e {
        Expr::Pseudo(_) | Expr::Ref(_) => "Ref",
        Expr::GetAtt(_, _) => "GetAtt",
        Expr::Join(_, _) => "Join",
        Expr::Select(_, _) => "Select",
        Expr::Split(_, _) => "Split",
        Expr::If(_, _, _) => "If",
        Expr::FindInMap(_, _, _) => "FindInMap",
        Expr::ImportValue(_) => "ImportValue",
        Expr::Lazy(_) => "Lazy",
        Expr::Text(_)
        | Expr::Whole(_)
        | Expr::Truth(_)
        | Expr::List(_)
        | Expr::Object(_)
        | Expr::Concat(_)
        | Expr::Context(_, _) => "",
    }
}

// The token of an expression whose arguments are marked.
fn push_token(
    alloc: Global,
    tree: &Tree,
    at: NodeId,
    table: &mut Table,
    e: &Expr,
    form: Form,
) -> Result<Value, AllocError>
    requires { at < length (constructs tree.now) }
    ensures value { IfOk result (λ v. json_view v ≡ spelled (constructs tree.now) at (length (tokens_in table.old)) (view e.now)) }
    ensures tokens { OnOk result (tokens_in table.new ≡ tokens_in table.old ++ token_of (constructs tree.now) at (length (tokens_in table.old)) (view e.now) (form_view form) ∷ []) }
{
    let list = tree.is_list(at, e);
    table.push(alloc, hint(e), at, list, form)
}

fn push_get_att(
    alloc: Global,
    tree: &Tree,
    at: NodeId,
    table: &mut Table,
    e: &Expr,
    path: &Text,
    attribute: &Text,
) -> Result<Value, AllocError>
    requires { at < length (constructs tree.now) }
    ensures value { IfOk result (λ v. json_view v ≡ spelled (constructs tree.now) at (length (tokens_in table.old)) (view e.now)) }
    ensures tokens { OnOk result (tokens_in table.new ≡ tokens_in table.old ++ token_of (constructs tree.now) at (length (tokens_in table.old)) (view e.now) (get_att (target (constructs tree.now) path.now) attribute.now) ∷ []) }
{
    let attribute = Text::new(alloc, attribute.as_str())?;
    let form = Form::GetAtt(target_of(tree, path), attribute);
    push_token(alloc, tree, at, table, e, form)
}

fn push_join(
    alloc: Global,
    tree: &Tree,
    at: NodeId,
    table: &mut Table,
    e: &Expr,
    delimiter: &Text,
    list: Value,
) -> Result<Value, AllocError>
    requires { at < length (constructs tree.now) }
    ensures value { IfOk result (λ v. json_view v ≡ spelled (constructs tree.now) at (length (tokens_in table.old)) (view e.now)) }
    ensures tokens { OnOk result (tokens_in table.new ≡ tokens_in table.old ++ token_of (constructs tree.now) at (length (tokens_in table.old)) (view e.now) (join delimiter.now (json_view list)) ∷ []) }
{
    let delimiter = Text::new(alloc, delimiter.as_str())?;
    push_token(alloc, tree, at, table, e, Form::Join(delimiter, list))
}

fn push_split(
    alloc: Global,
    tree: &Tree,
    at: NodeId,
    table: &mut Table,
    e: &Expr,
    delimiter: &Text,
    text: Value,
) -> Result<Value, AllocError>
    requires { at < length (constructs tree.now) }
    ensures value { IfOk result (λ v. json_view v ≡ spelled (constructs tree.now) at (length (tokens_in table.old)) (view e.now)) }
    ensures tokens { OnOk result (tokens_in table.new ≡ tokens_in table.old ++ token_of (constructs tree.now) at (length (tokens_in table.old)) (view e.now) (split delimiter.now (json_view text)) ∷ []) }
{
    let delimiter = Text::new(alloc, delimiter.as_str())?;
    push_token(alloc, tree, at, table, e, Form::Split(delimiter, text))
}

fn push_import_value(
    alloc: Global,
    tree: &Tree,
    at: NodeId,
    table: &mut Table,
    e: &Expr,
    name: &Text,
) -> Result<Value, AllocError>
    requires { at < length (constructs tree.now) }
    ensures value { IfOk result (λ v. json_view v ≡ spelled (constructs tree.now) at (length (tokens_in table.old)) (view e.now)) }
    ensures tokens { OnOk result (tokens_in table.new ≡ tokens_in table.old ++ token_of (constructs tree.now) at (length (tokens_in table.old)) (view e.now) (import_value name.now) ∷ []) }
{
    let name = Text::new(alloc, name.as_str())?;
    push_token(alloc, tree, at, table, e, Form::ImportValue(name))
}

/// The marked value of an expression of the construct. Its tokens are put at the end of the table.
///
/// It answers an error where no memory is found, and for a whole number that isn't within 64 bits, which no document has.
#[cycle(marking)]
pub(crate) fn mark_expression(
    alloc: Global,
    tree: &Tree,
    at: NodeId,
    table: &mut Table,
    e: &Expr,
) -> Result<Value, AllocError>
    requires { at < length (constructs tree.now) }
    ensures value { IfOk result (λ v. json_view v ≡ marked (constructs tree.now) at (length (tokens_in table.old)) (view e.now)) }
    ensures tokens { OnOk result (tokens_in table.new ≡ tokens_in table.old ++ tokens (constructs tree.now) at (length (tokens_in table.old)) (view e.now)) }
{
    match e {
        Expr::Text(text) => text_value(alloc, text),
        Expr::Whole(n) => whole_value(*n),
        Expr::Truth(b) => Ok(Value::Bool(*b)),
        Expr::List(items) => mark_items(alloc, tree, at, table, items),
        Expr::Object(fields) => mark_fields(alloc, tree, at, table, fields),
        Expr::Concat(pieces) => mark_pieces(alloc, tree, at, table, pieces),
        Expr::Context(key, default) => context_value(tree, at, key, default),
        Expr::Pseudo(pseudo) => push_token(alloc, tree, at, table, e, Form::Pseudo(*pseudo)),
        Expr::Ref(path) => {
            push_token(alloc, tree, at, table, e, Form::Ref(target_of(tree, path)))
        }
        Expr::GetAtt(path, attribute) => {
            push_get_att(alloc, tree, at, table, e, path, attribute)
        }
        Expr::Join(delimiter, list) => {
            let list = mark_expression(alloc, tree, at, table, list)?;
            push_join(alloc, tree, at, table, e, delimiter, list)
        }
        Expr::Select(n, list) => {
            let list = mark_expression(alloc, tree, at, table, list)?;
            push_token(alloc, tree, at, table, e, Form::Select(*n, list))
        }
        Expr::Split(delimiter, text) => {
            let text = mark_expression(alloc, tree, at, table, text)?;
            push_split(alloc, tree, at, table, e, delimiter, text)
        }
        Expr::If(path, x, y) => {
            let x = mark_expression(alloc, tree, at, table, x)?;
            let y = mark_expression(alloc, tree, at, table, y)?;
            let form = Form::If(target_of(tree, path), x, y);
            push_token(alloc, tree, at, table, e, form)
        }
        Expr::FindInMap(path, x, y) => {
            let x = mark_expression(alloc, tree, at, table, x)?;
            let y = mark_expression(alloc, tree, at, table, y)?;
            let form = Form::FindInMap(target_of(tree, path), x, y);
            push_token(alloc, tree, at, table, e, form)
        }
        Expr::ImportValue(name) => push_import_value(alloc, tree, at, table, e, name),
        Expr::Lazy(path) => {
            push_token(alloc, tree, at, table, e, Form::Lazy(target_of(tree, path)))
        }
    }
}

#[cycle(marking)]
fn mark_items(
    alloc: Global,
    tree: &Tree,
    at: NodeId,
    table: &mut Table,
    items: &List<Expr>,
) -> Result<Value, AllocError>
    requires { at < length (constructs tree.now) }
    ensures value { IfOk result (λ v. json_view v ≡ array (marked_items (constructs tree.now) at (length (tokens_in table.old)) (expressions_view items.now))) }
    ensures tokens { OnOk result (tokens_in table.new ≡ tokens_in table.old ++ all_tokens (constructs tree.now) at (length (tokens_in table.old)) (expressions_view items.now)) }
{
    let mut values = Vec::new(alloc);
    for item in items.as_slice() {
        let value = mark_expression(alloc, tree, at, table, item)?;
        values.push(value)?;
    }
    Ok(Value::Array(values))
}

#[cycle(marking)]
fn mark_fields(
    alloc: Global,
    tree: &Tree,
    at: NodeId,
    table: &mut Table,
    fields: &List<Field>,
) -> Result<Value, AllocError>
    requires { at < length (constructs tree.now) }
    ensures value { IfOk result (λ v. json_view v ≡ object (marked_members (constructs tree.now) at (length (tokens_in table.old)) (fields_view fields.now) no_members)) }
    ensures tokens { OnOk result (tokens_in table.new ≡ tokens_in table.old ++ fields_tokens (constructs tree.now) at (length (tokens_in table.old)) (fields_view fields.now)) }
{
    let mut members = Map::new(alloc);
    for field in fields.as_slice() {
        let value = mark_expression(alloc, tree, at, table, &field.value)?;
        put(&mut members, alloc, field.key.as_str(), value)?;
    }
    Ok(Value::Object(members))
}

// What has no text is refused before, and adds nothing here.
fn push_text(alloc: Global, text: &mut String, value: Value) -> Result<(), AllocError>
    ensures { OnOk result (string_bytes text.new ≡ string_bytes text.old ++ unwrap_or (text_in_json (json_view value)) []) }
{
    let more = text_of(alloc, &value);
    drop(value);
    match more? {
        Some(more) => text.push_str(more.as_str()),
        None => Ok(()),
    }
}

#[cycle(marking)]
fn mark_pieces(
    alloc: Global,
    tree: &Tree,
    at: NodeId,
    table: &mut Table,
    pieces: &List<Expr>,
) -> Result<Value, AllocError>
    requires { at < length (constructs tree.now) }
    ensures value { IfOk result (λ v. json_view v ≡ string (marked_text (constructs tree.now) at (length (tokens_in table.old)) (expressions_view pieces.now))) }
    ensures tokens { OnOk result (tokens_in table.new ≡ tokens_in table.old ++ all_tokens (constructs tree.now) at (length (tokens_in table.old)) (expressions_view pieces.now)) }
{
    let mut text = String::new(alloc);
    for piece in pieces.as_slice() {
        let value = mark_expression(alloc, tree, at, table, piece)?;
        push_text(alloc, &mut text, value)?;
    }
    Ok(Value::String(text))
}
