// The template JSON of marked values, of what is kept of lazies.
ghost use Rattle.std.specs.Prelude.{◌≡◌, ◌++◌, [], option_and_then, option_map, IfOk, OnOk};
ghost use Rattle.std.specs.Option.{unwrap_or};
ghost use Rattle.serde_json.specs.View.{view, items_view, members_view};
ghost use Rattle.cdk_leaves.specs.Kept.{results_in};
ghost use Rattle.cdk_leaves.specs.Lazies.{shown};
ghost use Rattle.cdk_leaves.specs.Views.{scope_view};
ghost use Rattle.cdk_markers.specs.Cut.{cut_of};
ghost use Rattle.cdk_markers.specs.Left.{piece_view};
ghost use Rattle.cdk_markers.specs.ListKey.{list_key_of};
ghost use Rattle.cdk_rendering.specs.Missing.{form_missing, items_missing, members_missing, piece_missing, pieces_missing, value_missing};
ghost use Rattle.cdk_rendering.specs.TokenJson.{form_json as spec_form_json, items_json as spec_items_json, members_json as spec_members_json, piece_json as spec_piece_json, pieces_json as spec_pieces_json, value_json as spec_value_json};
ghost use Rattle.cdk_rendering.specs.Views.{json_below as json_known, json_in, missing_below, missing_in};
ghost use Rattle.cdk_spelling.specs.Assembled.{assembled_items};
ghost use Rattle.cdk_tokens.specs.Views.{form_view};

use cdk_base::{Map, Value};
use cdk_leaves::{
    Results, Scope, lazy_json, marker_value, number_value, pseudo_value, reference_value,
    text_value,
};
use cdk_markers::{Piece, list_key, pieces};
use cdk_spelling::{
    assembled, attribute, choice, find_in_map, import_value, join, name, select, split,
};
use cdk_tokens::Form;
use cdk_tree::NodeId;
use serde_json::put;
use std::alloc::AllocError;

// The JSON of two marked values, the first first.
#[cycle(rendering)]
fn two_json(
    scope: &Scope<'_>,
    kept: &Results,
    below: usize,
    first: &Value,
    second: &Value,
    missing: &mut Vec<NodeId>,
) -> Result<(Value, Value), AllocError>
    ensures json { IfOk result (λ v. (view v.0 ≡ spec_value_json (json_known (scope_view scope.now) (results_in kept.now) below) (view first.now)) × (view v.1 ≡ spec_value_json (json_known (scope_view scope.now) (results_in kept.now) below) (view second.now))) }
    ensures missing { OnOk result (missing.new.items ≡ missing.old.items ++ (value_missing (missing_below (scope_view scope.now) (results_in kept.now) below) (view first.now) ++ value_missing (missing_below (scope_view scope.now) (results_in kept.now) below) (view second.now))) }
{
    let first = json_below(scope, kept, below, first, missing)?;
    let second = json_below(scope, kept, below, second, missing)?;
    Ok((first, second))
}

// The JSON of a token's expression; its arguments know the tokens of numbers below the bound.
#[cycle(rendering)]
fn form_json(
    scope: &Scope<'_>,
    kept: &Results,
    below: usize,
    form: &Form,
    missing: &mut Vec<NodeId>,
) -> Result<Value, AllocError>
    ensures json { IfOk result (λ v. view v ≡ spec_form_json (scope_view scope.now).homes (shown (results_in kept.now)) (json_known (scope_view scope.now) (results_in kept.now) below) (form_view form.now)) }
    ensures missing { OnOk result (missing.new.items ≡ missing.old.items ++ form_missing (results_in kept.now) (missing_below (scope_view scope.now) (results_in kept.now) below) (form_view form.now)) }
{
    let Scope {
        alloc,
        homes,
        consumer,
        ..
    } = *scope;
    match form {
        Form::Pseudo(pseudo) => pseudo_value(scope, *pseudo),
        Form::Ref(at) => reference_value(scope, *at),
        Form::GetAtt(at, named) => attribute(alloc, homes, consumer, *at, named.as_str()),
        Form::Join(delimiter, list) => {
            let list = json_below(scope, kept, below, list, missing)?;
            join(alloc, delimiter.as_str(), list)
        }
        Form::Select(index, list) => {
            let list = json_below(scope, kept, below, list, missing)?;
            select(alloc, *index, list)
        }
        Form::Split(delimiter, text) => {
            let text = json_below(scope, kept, below, text, missing)?;
            split(alloc, delimiter.as_str(), text)
        }
        Form::If(at, yes, no) => {
            let (yes, no) = two_json(scope, kept, below, yes, no, missing)?;
            choice(alloc, name(homes, consumer, *at), yes, no)
        }
        Form::FindInMap(at, first, second) => {
            let (first, second) = two_json(scope, kept, below, first, second, missing)?;
            find_in_map(alloc, name(homes, consumer, *at), first, second)
        }
        Form::ImportValue(export) => import_value(alloc, export.as_str()),
        Form::Lazy(lazy) => lazy_json(scope, kept, *lazy, missing),
    }
}

// The JSON of the token of a key. None exactly where there is none, or its number isn't below the bound.
#[cycle(rendering)]
fn key_json(
    scope: &Scope<'_>,
    kept: &Results,
    below: usize,
    key: &str,
    missing: &mut Vec<NodeId>,
) -> Result<Option<Value>, AllocError>
    ensures json { IfOk result (λ o. option_map view o ≡ (json_known (scope_view scope.now) (results_in kept.now) below) key.now) }
    ensures missing { OnOk result (missing.new.items ≡ missing.old.items ++ unwrap_or ((missing_below (scope_view scope.now) (results_in kept.now) below) key.now) []) }
{
    let Some(number) = scope.table.find(key) else {
        return Ok(None);
    };
    if number >= below {
        return Ok(None);
    }
    let Some(token) = scope.table.token(number) else {
        return Ok(None);
    };
    let json = form_json(scope, kept, number, &token.form, missing)?;
    Ok(Some(json))
}

// The JSON of a piece of a text. A key that isn't known stands for its marker.
#[cycle(rendering)]
fn piece_json(
    scope: &Scope<'_>,
    kept: &Results,
    below: usize,
    piece: Piece<'_>,
    missing: &mut Vec<NodeId>,
) -> Result<Value, AllocError>
    ensures json { IfOk result (λ v. view v ≡ spec_piece_json (json_known (scope_view scope.now) (results_in kept.now) below) (piece_view piece.entry)) }
    ensures missing { OnOk result (missing.new.items ≡ missing.old.items ++ piece_missing (missing_below (scope_view scope.now) (results_in kept.now) below) (piece_view piece.entry)) }
{
    match piece {
        Piece::Literal(literal) => text_value(scope, literal),
        Piece::Key(key) => match key_json(scope, kept, below, key, missing)? {
            Some(json) => Ok(json),
            None => marker_value(scope, key),
        },
    }
}

#[cycle(rendering)]
fn text_json(
    scope: &Scope<'_>,
    kept: &Results,
    below: usize,
    text: &str,
    missing: &mut Vec<NodeId>,
) -> Result<Value, AllocError>
    ensures json { IfOk result (λ v. view v ≡ assembled_items (spec_pieces_json (json_known (scope_view scope.now) (results_in kept.now) below) (cut_of text.now))) }
    ensures missing { OnOk result (missing.new.items ≡ missing.old.items ++ pieces_missing (missing_below (scope_view scope.now) (results_in kept.now) below) (cut_of text.now)) }
{
    let mut parts = Vec::new(scope.alloc);
    for piece in pieces(text) {
        let part = piece_json(scope, kept, below, piece, missing)?;
        parts.push(part)?;
    }
    assembled(scope.alloc, parts)
}

#[cycle(rendering)]
fn items_json(
    scope: &Scope<'_>,
    kept: &Results,
    below: usize,
    items: &Vec<Value>,
    missing: &mut Vec<NodeId>,
) -> Result<Vec<Value>, AllocError>
    ensures json { IfOk result (λ v. items_view v.items ≡ spec_items_json (json_known (scope_view scope.now) (results_in kept.now) below) (items_view items.now.items)) }
    ensures missing { OnOk result (missing.new.items ≡ missing.old.items ++ items_missing (missing_below (scope_view scope.now) (results_in kept.now) below) (items_view items.now.items)) }
{
    let mut values = Vec::new(scope.alloc);
    for item in items {
        let value = json_below(scope, kept, below, item, missing)?;
        values.push(value)?;
    }
    Ok(values)
}

#[cycle(rendering)]
fn members_json(
    scope: &Scope<'_>,
    kept: &Results,
    below: usize,
    members: &Map,
    missing: &mut Vec<NodeId>,
) -> Result<Map, AllocError>
    ensures json { IfOk result (λ v. members_view v.entries ≡ spec_members_json (json_known (scope_view scope.now) (results_in kept.now) below) (members_view members.now.entries)) }
    ensures missing { OnOk result (missing.new.items ≡ missing.old.items ++ members_missing (missing_below (scope_view scope.now) (results_in kept.now) below) (members_view members.now.entries)) }
{
    let mut values = Map::new(scope.alloc);
    for (key, member) in members.iter() {
        let value = json_below(scope, kept, below, member, missing)?;
        put(&mut values, scope.alloc, key.as_str(), value)?;
    }
    Ok(values)
}

// The JSON of the token of an array that is a list marker. None where it is none, and where its key isn't known.
#[cycle(rendering)]
fn list_json(
    scope: &Scope<'_>,
    kept: &Results,
    below: usize,
    array: &Value,
    missing: &mut Vec<NodeId>,
) -> Result<Option<Value>, AllocError>
    ensures json { IfOk result (λ o. option_map view o ≡ option_and_then (json_known (scope_view scope.now) (results_in kept.now) below) (list_key_of (view array.now))) }
    ensures missing { OnOk result (missing.new.items ≡ missing.old.items ++ unwrap_or (option_and_then (missing_below (scope_view scope.now) (results_in kept.now) below) (list_key_of (view array.now))) []) }
{
    match list_key(array) {
        Some(key) => key_json(scope, kept, below, key, missing),
        None => Ok(None),
    }
}

// The JSON of a marked value that knows the tokens of numbers below the bound.
#[cycle(rendering)]
fn json_below(
    scope: &Scope<'_>,
    kept: &Results,
    below: usize,
    value: &Value,
    missing: &mut Vec<NodeId>,
) -> Result<Value, AllocError>
    ensures json { IfOk result (λ v. view v ≡ spec_value_json (json_known (scope_view scope.now) (results_in kept.now) below) (view value.now)) }
    ensures missing { OnOk result (missing.new.items ≡ missing.old.items ++ value_missing (missing_below (scope_view scope.now) (results_in kept.now) below) (view value.now)) }
{
    match value {
        Value::Null => text_value(scope, ""),
        Value::Bool(truth) => Ok(Value::Bool(*truth)),
        Value::Number(number) => number_value(scope, number),
        Value::String(text) => text_json(scope, kept, below, text.as_str(), missing),
        Value::Array(items) => {
            if let Some(json) = list_json(scope, kept, below, value, missing)? {
                return Ok(json);
            }
            let values = items_json(scope, kept, below, items, missing)?;
            Ok(Value::Array(values))
        }
        Value::Object(members) => {
            let values = members_json(scope, kept, below, members, missing)?;
            Ok(Value::Object(values))
        }
    }
}

/// The template JSON of a marked value, of what is kept of lazies. The lazies that it mentions and of which nothing is kept are put
/// behind the missing ones, in the order in which they are met; an empty text stands for each. The error is want of memory.
///
/// A token's arguments know only tokens of lower numbers, as marking makes them. Where each marker stands once, each token is
/// rendered once.
pub fn value_json(
    scope: &Scope<'_>,
    kept: &Results,
    value: &Value,
    missing: &mut Vec<NodeId>,
) -> Result<Value, AllocError>
    ensures json { IfOk result (λ v. view v ≡ spec_value_json (json_in (scope_view scope.now) (results_in kept.now)) (view value.now)) }
    ensures missing { OnOk result (missing.new.items ≡ missing.old.items ++ value_missing (missing_in (scope_view scope.now) (results_in kept.now)) (view value.now)) }
{
    json_below(scope, kept, scope.table.len(), value, missing)
}
