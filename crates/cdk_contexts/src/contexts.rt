// What is wrong with the contexts of constructs.
ghost use Rattle.std.specs.Prelude.{◌≡◌, ◌<◌, ◌∷◌, [], length, Some, option_and_then, option_map, string_bytes, IfOk};
ghost use Rattle.std.specs.List.{list_any};
ghost use Rattle.std.specs.Option.{option_copied};
ghost use Rattle.serde_json.specs.Data.{number};
ghost use Rattle.serde_json.specs.Find.{of_integer};
ghost use Rattle.serde_json.specs.View.{view as json_view};
ghost use Rattle.cdk_base.specs.Json.{text_of as text_in_json, truth_text as spec_truth_text};
ghost use Rattle.cdk_language.specs.Condition.{view as condition_view, conditions_view};
ghost use Rattle.cdk_language.specs.Construct.{kind_view};
ghost use Rattle.cdk_language.specs.Expression.{view, expressions_view, fields_view};
ghost use Rattle.cdk_language.specs.Runs.{is_marked_run, no_literal};
ghost use Rattle.cdk_tree.specs.PlaceFindings.{first};
ghost use Rattle.cdk_tree.specs.Placed.{construct_at, found_value as spec_found_value};
ghost use Rattle.cdk_tree.specs.TreeView.{constructs};
ghost use Rattle.cdk_contexts.specs.Answers.{FindsFirst};
ghost use Rattle.cdk_contexts.specs.Contexts.{any_marked_run as spec_any_marked_run, any_misses_context, context_findings, fields_marked_run as spec_fields_marked_run, fields_miss_context, has_marked_run as spec_has_marked_run, literals_of, misses_context as spec_misses_context, pieces_literals, wrong_contexts_at};
ghost use Rattle.cdk_contexts.specs.Scanning.{Scans, has_flaw as spec_has_flaw};
ghost use Rattle.cdk_contexts.specs.Expressions.{expressions_in, operands_of, operands_of_all};

use cdk_base::{Code, List, Text, Value, has_marker, text_of};
use cdk_language::{Cond, Expr, Field, Kind};
use cdk_tree::{Found, NodeId, PassError, Tree};
use serde_json::Number;
use std::alloc::{AllocError, Global};

/// What a Context of the construct finds: the value of its key in the nearest scope, else its default.
pub fn found_value<'a>(
    tree: &'a Tree,
    at: NodeId,
    key: &str,
    default: &'a Option<Value>,
) -> Option<&'a Value>
    requires { at < length (constructs tree.now) }
    ensures { option_map json_view (option_copied result) ≡ spec_found_value (construct_at (constructs tree.now) at).contexts key.now (option_map json_view default.now) }
{
    match tree.context(at, key) {
        Some(value) => Some(value),
        None => default.as_ref(),
    }
}

/// The text of what a Context finds. None where it finds nothing, or what is no literal.
fn context_text(
    alloc: Global,
    tree: &Tree,
    at: NodeId,
    key: &str,
    default: &Option<Value>,
) -> Result<Option<Text>, AllocError>
    requires { at < length (constructs tree.now) }
    ensures { IfOk result (λ text. text ≡ option_and_then text_in_json (spec_found_value (construct_at (constructs tree.now) at).contexts key.now (option_map json_view default.now))) }
{
    match found_value(tree, at, key, default) {
        Some(value) => text_of(alloc, value),
        None => Ok(None),
    }
}

/// The text of a whole number. None where it isn't within 64 bits.
fn whole_text(alloc: Global, n: i128) -> Result<Option<Text>, AllocError>
    ensures { IfOk result (λ text. text ≡ text_in_json (number (of_integer n))) }
{
    match Number::from_i128(n) {
        Some(number) => {
            let value = Value::Number(number);
            text_of(alloc, &value)
        }
        None => Ok(None),
    }
}

fn truth_text(truth: bool) -> &'static str
    ensures { result.now ≡ spec_truth_text truth }
{
    if truth { "true" } else { "false" }
}

/// The run goes on with a literal's text, so that none ends.
fn put_text(run: &mut String, text: &str) -> Result<bool, AllocError>
    ensures { IfOk result (λ found. Scans (string_bytes run.old) (Some text.now ∷ []) found (string_bytes run.new)) }
{
    run.push_str(text)?;
    Ok(false)
}

/// What is no literal ends the run. Answers whether it held the beginning of a marker.
fn end_run(run: &mut String) -> bool
    ensures { Scans (string_bytes run.old) no_literal result (string_bytes run.new) }
{
    let found = has_marker(run.as_str());
    run.clear();
    found
}

/// The run goes on with a text, or ends where there is none.
fn put_piece(run: &mut String, text: &Option<Text>) -> Result<bool, AllocError>
    ensures { IfOk result (λ found. Scans (string_bytes run.old) (text.now ∷ []) found (string_bytes run.new)) }
{
    match text {
        Some(text) => put_text(run, text.as_str()),
        None => Ok(end_run(run)),
    }
}

fn put_whole(alloc: Global, run: &mut String, n: i128) -> Result<bool, AllocError>
    ensures { IfOk result (λ found. Scans (string_bytes run.old) (text_in_json (number (of_integer n)) ∷ []) found (string_bytes run.new)) }
{
    let text = whole_text(alloc, n)?;
    put_piece(run, &text)
}

fn put_context(
    alloc: Global,
    run: &mut String,
    tree: &Tree,
    at: NodeId,
    key: &str,
    default: &Option<Value>,
) -> Result<bool, AllocError>
    requires { at < length (constructs tree.now) }
    ensures { IfOk result (λ found. Scans (string_bytes run.old) (option_and_then text_in_json (spec_found_value (construct_at (constructs tree.now) at).contexts key.now (option_map json_view default.now)) ∷ []) found (string_bytes run.new)) }
{
    let text = context_text(alloc, tree, at, key, default)?;
    put_piece(run, &text)
}

/// The run goes on with an expression as a piece: with the pieces of a Concat one by one. Answers whether a run that ended
/// held the beginning of a marker.
#[cycle(scans)]
fn scan(
    alloc: Global,
    run: &mut String,
    tree: &Tree,
    at: NodeId,
    e: &Expr,
) -> Result<bool, AllocError>
    requires { at < length (constructs tree.now) }
    ensures { IfOk result (λ found. Scans (string_bytes run.old) (literals_of (construct_at (constructs tree.now) at).contexts (view e.now)) found (string_bytes run.new)) }
{
    match e {
        Expr::Text(text) => put_text(run, text.as_str()),
        Expr::Whole(n) => put_whole(alloc, run, *n),
        Expr::Truth(truth) => put_text(run, truth_text(*truth)),
        Expr::Concat(pieces) => scan_pieces(alloc, run, tree, at, pieces),
        Expr::Context(key, default) => put_context(alloc, run, tree, at, key.as_str(), default),
        Expr::List(_)
        | Expr::Object(_)
        | Expr::Pseudo(_)
        | Expr::Ref(_)
        | Expr::GetAtt(_, _)
        | Expr::Join(_, _)
        | Expr::Select(_, _)
        | Expr::Split(_, _)
        | Expr::If(_, _, _)
        | Expr::FindInMap(_, _, _)
        | Expr::ImportValue(_)
        | Expr::Lazy(_) => Ok(end_run(run)),
    }
}

#[cycle(scans)]
fn scan_pieces(
    alloc: Global,
    run: &mut String,
    tree: &Tree,
    at: NodeId,
    pieces: &List<Expr>,
) -> Result<bool, AllocError>
    requires { at < length (constructs tree.now) }
    ensures { IfOk result (λ found. Scans (string_bytes run.old) (pieces_literals (construct_at (constructs tree.now) at).contexts (expressions_view pieces.now)) found (string_bytes run.new)) }
{
    for piece in pieces.as_slice() {
        if scan(alloc, run, tree, at, piece)? {
            return Ok(true);
        }
    }
    Ok(false)
}

/// Whether a Concat of the pieces has a run of literals that holds the beginning of a marker.
fn is_marked_concat(
    alloc: Global,
    tree: &Tree,
    at: NodeId,
    pieces: &List<Expr>,
) -> Result<bool, AllocError>
    requires { at < length (constructs tree.now) }
    ensures { IfOk result (λ found. found ≡ is_marked_run [] (pieces_literals (construct_at (constructs tree.now) at).contexts (expressions_view pieces.now))) }
{
    let mut run = String::new(alloc);
    if scan_pieces(alloc, &mut run, tree, at, pieces)? {
        return Ok(true);
    }
    Ok(has_marker(run.as_str()))
}

/// Whether a Concat in an expression of the construct has such a run.
#[cycle(marked)]
fn has_marked_run(alloc: Global, tree: &Tree, at: NodeId, e: &Expr) -> Result<bool, AllocError>
    requires { at < length (constructs tree.now) }
    ensures { IfOk result (λ found. found ≡ spec_has_marked_run (construct_at (constructs tree.now) at).contexts (view e.now)) }
{
    match e {
        Expr::List(items) => any_marked_run(alloc, tree, at, items),
        Expr::Object(fields) => fields_marked_run(alloc, tree, at, fields),
        Expr::Concat(pieces) => {
            if is_marked_concat(alloc, tree, at, pieces)? {
                return Ok(true);
            }
            any_marked_run(alloc, tree, at, pieces)
        }
        Expr::Join(_, x) | Expr::Select(_, x) | Expr::Split(_, x) => {
            has_marked_run(alloc, tree, at, x)
        }
        Expr::If(_, x, y) | Expr::FindInMap(_, x, y) => {
            if has_marked_run(alloc, tree, at, x)? {
                return Ok(true);
            }
            has_marked_run(alloc, tree, at, y)
        }
        Expr::Text(_)
        | Expr::Whole(_)
        | Expr::Truth(_)
        | Expr::Pseudo(_)
        | Expr::Ref(_)
        | Expr::GetAtt(_, _)
        | Expr::ImportValue(_)
        | Expr::Context(_, _)
        | Expr::Lazy(_) => Ok(false),
    }
}

#[cycle(marked)]
fn any_marked_run(
    alloc: Global,
    tree: &Tree,
    at: NodeId,
    items: &List<Expr>,
) -> Result<bool, AllocError>
    requires { at < length (constructs tree.now) }
    ensures { IfOk result (λ found. found ≡ spec_any_marked_run (construct_at (constructs tree.now) at).contexts (expressions_view items.now)) }
{
    for item in items.as_slice() {
        if has_marked_run(alloc, tree, at, item)? {
            return Ok(true);
        }
    }
    Ok(false)
}

#[cycle(marked)]
fn fields_marked_run(
    alloc: Global,
    tree: &Tree,
    at: NodeId,
    fields: &List<Field>,
) -> Result<bool, AllocError>
    requires { at < length (constructs tree.now) }
    ensures { IfOk result (λ found. found ≡ spec_fields_marked_run (construct_at (constructs tree.now) at).contexts (fields_view fields.now)) }
{
    for field in fields.as_slice() {
        if has_marked_run(alloc, tree, at, &field.value)? {
            return Ok(true);
        }
    }
    Ok(false)
}

/// Whether a Context in an expression of the construct finds nothing.
#[cycle(misses)]
fn misses_context(tree: &Tree, at: NodeId, e: &Expr) -> bool
    requires { at < length (constructs tree.now) }
    ensures { result ≡ spec_misses_context (construct_at (constructs tree.now) at).contexts (view e.now) }
{
    match e {
        Expr::List(items) | Expr::Concat(items) => item_misses_context(tree, at, items),
        Expr::Object(fields) => field_misses_context(tree, at, fields),
        Expr::Join(_, x) | Expr::Select(_, x) | Expr::Split(_, x) => misses_context(tree, at, x),
        Expr::If(_, x, y) | Expr::FindInMap(_, x, y) => {
            misses_context(tree, at, x) || misses_context(tree, at, y)
        }
        Expr::Context(key, default) => found_value(tree, at, key.as_str(), default).is_none(),
        Expr::Text(_)
        | Expr::Whole(_)
        | Expr::Truth(_)
        | Expr::Pseudo(_)
        | Expr::Ref(_)
        | Expr::GetAtt(_, _)
        | Expr::ImportValue(_)
        | Expr::Lazy(_) => false,
    }
}

#[cycle(misses)]
fn item_misses_context(tree: &Tree, at: NodeId, items: &List<Expr>) -> bool
    requires { at < length (constructs tree.now) }
    ensures { result ≡ any_misses_context (construct_at (constructs tree.now) at).contexts (expressions_view items.now) }
{
    for item in items.as_slice() {
        if misses_context(tree, at, item) {
            return true;
        }
    }
    false
}

#[cycle(misses)]
fn field_misses_context(tree: &Tree, at: NodeId, fields: &List<Field>) -> bool
    requires { at < length (constructs tree.now) }
    ensures { result ≡ fields_miss_context (construct_at (constructs tree.now) at).contexts (fields_view fields.now) }
{
    for field in fields.as_slice() {
        if misses_context(tree, at, &field.value) {
            return true;
        }
    }
    false
}

// What may be wrong with an expression.
#[derive(Clone, Copy)]
enum Flaw {
    // a run of literals holds the beginning of a marker
    MarkedRun,
    // a Context finds nothing
    NoContext,
}

fn has_flaw(
    alloc: Global,
    tree: &Tree,
    at: NodeId,
    flaw: Flaw,
    e: &Expr,
) -> Result<bool, AllocError>
    requires { at < length (constructs tree.now) }
    ensures { IfOk result (λ found. found ≡ spec_has_flaw flaw (construct_at (constructs tree.now) at).contexts (view e.now)) }
{
    match flaw {
        Flaw::MarkedRun => has_marked_run(alloc, tree, at, e),
        Flaw::NoContext => Ok(misses_context(tree, at, e)),
    }
}

/// Whether an operand of a condition has the flaw.
#[cycle(conditions)]
fn condition_has_flaw(
    alloc: Global,
    tree: &Tree,
    at: NodeId,
    flaw: Flaw,
    c: &Cond,
) -> Result<bool, AllocError>
    requires { at < length (constructs tree.now) }
    ensures { IfOk result (λ found. found ≡ list_any (spec_has_flaw flaw (construct_at (constructs tree.now) at).contexts) (operands_of (condition_view c.now))) }
{
    match c {
        Cond::Equals(x, y) => {
            if has_flaw(alloc, tree, at, flaw, x)? {
                return Ok(true);
            }
            has_flaw(alloc, tree, at, flaw, y)
        }
        Cond::And(parts) | Cond::Or(parts) => part_has_flaw(alloc, tree, at, flaw, parts),
        Cond::Not(part) => condition_has_flaw(alloc, tree, at, flaw, part),
        Cond::Named(_) => Ok(false),
    }
}

#[cycle(conditions)]
fn part_has_flaw(
    alloc: Global,
    tree: &Tree,
    at: NodeId,
    flaw: Flaw,
    parts: &List<Cond>,
) -> Result<bool, AllocError>
    requires { at < length (constructs tree.now) }
    ensures { IfOk result (λ found. found ≡ list_any (spec_has_flaw flaw (construct_at (constructs tree.now) at).contexts) (operands_of_all (conditions_view parts.now))) }
{
    for part in parts.as_slice() {
        if condition_has_flaw(alloc, tree, at, flaw, part)? {
            return Ok(true);
        }
    }
    Ok(false)
}

/// Whether an expression of a construct of the kind has the flaw.
fn kind_has_flaw(
    alloc: Global,
    tree: &Tree,
    at: NodeId,
    flaw: Flaw,
    kind: &Kind,
) -> Result<bool, AllocError>
    requires { at < length (constructs tree.now) }
    ensures { IfOk result (λ found. found ≡ list_any (spec_has_flaw flaw (construct_at (constructs tree.now) at).contexts) (expressions_in (kind_view kind.now))) }
{
    match kind {
        Kind::Resource(resource) => has_flaw(alloc, tree, at, flaw, &resource.properties),
        Kind::Output(output) => has_flaw(alloc, tree, at, flaw, &output.value),
        Kind::Lazy(e) => has_flaw(alloc, tree, at, flaw, e),
        Kind::Condition(c) => condition_has_flaw(alloc, tree, at, flaw, c),
        Kind::App
        | Kind::Stage
        | Kind::Stack { .. }
        | Kind::Group
        | Kind::Parameter(_)
        | Kind::Mapping(_) => Ok(false),
    }
}

/// The first thing that is wrong with the contexts of a construct.
fn wrong_context(alloc: Global, tree: &Tree, at: NodeId) -> Result<Option<Code>, AllocError>
    requires { at < length (constructs tree.now) }
    ensures { IfOk result (λ code. code ≡ first (wrong_contexts_at (construct_at (constructs tree.now) at))) }
{
    let kind = &tree.node(at).kind;
    if kind_has_flaw(alloc, tree, at, Flaw::MarkedRun, kind)? {
        return Ok(Some(Code::LiteralMarker));
    }
    if kind_has_flaw(alloc, tree, at, Flaw::NoContext, kind)? {
        return Ok(Some(Code::NoContext));
    }
    Ok(None)
}

/// The first thing that is wrong with the contexts of a tree's constructs, in walk order, at one construct the lowest number:
///
/// - `LiteralMarker`: in a Concat, a run of literals holds the beginning of a marker once context values are put in.
/// - `NoContext`: no scope has the key of a Context that has no default.
///
/// `Memory` where none is found.
pub fn check_contexts(alloc: Global, tree: &Tree) -> Result<(), PassError>
    ensures { FindsFirst result (context_findings (constructs tree.now)) }
{
    for number in 0..tree.len() {
        let Some(at) = tree.id(number) else {
            unreachable!()
        };
        let Ok(wrong) = wrong_context(alloc, tree, at) else {
            return Err(PassError::Memory);
        };
        if let Some(code) = wrong {
            return Err(PassError::Fault(Found { code, at }));
        }
    }
    Ok(())
}
