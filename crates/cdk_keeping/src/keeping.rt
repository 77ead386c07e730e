// How lazies are kept: those that wait, the last first, each once all that it mentions is kept. No call recurses through lazies.
ghost use Rattle.std.specs.Prelude.{◌≡◌, ℕ, [], ◌∷◌, ◌++◌, length, Contains, None, option_map, IfOk, MatchOption, OnErr, OnOk};
ghost use Rattle.serde_json.specs.View.{view};
ghost use Rattle.cdk_graphs.specs.Graph.{StandsBefore};
ghost use Rattle.cdk_keeping.specs.Keeping.{IsRendering, IsSettled, KeepsReached};
ghost use Rattle.cdk_keeping.specs.Steps.{Steps, StepsOver, key_lazy, only_key as only_key_of, unkept, value_lazy};
ghost use Rattle.cdk_leaves.specs.Kept.{results_in};
ghost use Rattle.cdk_leaves.specs.Lazies.{IsKept, Stays, shown, lazy_missing};
ghost use Rattle.cdk_leaves.specs.Ready.{IsReady};
ghost use Rattle.cdk_leaves.specs.Views.{scope_view};
ghost use Rattle.cdk_markers.specs.Cut.{cut_of};
ghost use Rattle.cdk_rendering.specs.Missing.{value_missing};
ghost use Rattle.cdk_rendering.specs.TokenJson.{value_json as spec_value_json};
ghost use Rattle.cdk_rendering.specs.Views.{json_in, missing_in};
ghost use Rattle.cdk_tokens.specs.TableView.{marked_in, tokens_in};

use cdk_base::Value;
use cdk_leaves::{Results, Scope};
use cdk_markers::{Piece, list_key, pieces};
use cdk_rendering::value_json;
use cdk_tokens::{Form, Table};
use cdk_tree::NodeId;
use std::alloc::AllocError;

/// The lazy of the token of a key, where it is a lazy's.
fn key_of_lazy(table: &Table, key: &str) -> Option<NodeId>
    ensures { result ≡ key_lazy (tokens_in table.now) key.now }
{
    let token = table.token(table.find(key)?)?;
    match token.form {
        Form::Lazy(lazy) => Some(lazy),
        _ => None,
    }
}

/// The only piece of a text, where it is a key.
fn only_key(text: &str) -> Option<&str>
    ensures { option_map (λ k. k.now) result ≡ only_key_of (cut_of text.now) }
{
    let mut cut = pieces(text);
    let first = cut.next()?;
    if cut.next().is_some() {
        return None;
    }
    match first {
        Piece::Key(key) => Some(key),
        Piece::Literal(_) => None,
    }
}

/// The lazy whose token is all that a value is.
fn only_lazy(table: &Table, value: &Value) -> Option<NodeId>
    ensures { result ≡ value_lazy (tokens_in table.now) (view value.now) }
{
    match value {
        Value::String(text) => key_of_lazy(table, only_key(text.as_str())?),
        Value::Array(_) => key_of_lazy(table, list_key(value)?),
        Value::Null | Value::Bool(_) | Value::Number(_) | Value::Object(_) => None,
    }
}

/// Takes away the last of the waiting lazies that isn't kept, and what stands behind it.
fn next_unkept(kept: &Results, waiting: &mut Vec<NodeId>) -> Option<NodeId>
    ensures { MatchOption result (unkept (results_in kept.now) waiting.old.items ≡ []) (λ n. unkept (results_in kept.now) waiting.old.items ≡ unkept (results_in kept.now) waiting.new.items ++ n ∷ []) }
{
    while let Some(lazy) = waiting.pop() {
        if kept.get(lazy).is_none() {
            return Some(lazy);
        }
    }
    None
}

/// Keeps of a lazy that it has the JSON of another, or lets that one wait.
fn keep_same(
    kept: &mut Results,
    lazy: NodeId,
    other: NodeId,
    waiting: &mut Vec<NodeId>,
) -> Result<(), AllocError>
    requires { results_in kept.old lazy ≡ None }
    ensures ok { OnOk result (StepsOver (lazy_missing (results_in kept.old other) other) (shown (results_in kept.old) other) lazy (results_in kept.old) waiting.old.items (results_in kept.new) waiting.new.items) }
    ensures err { OnErr result ((m : ℕ) → results_in kept.new m ≡ results_in kept.old m) }
{
    if kept.get(other).is_some() {
        return kept.put_same(lazy, other);
    }
    waiting.push(lazy)?;
    waiting.push(other)?;
    Ok(())
}

/// Lets a lazy wait, and behind it those that it waits for.
fn wait_behind(
    waiting: &mut Vec<NodeId>,
    lazy: NodeId,
    missing: &[NodeId],
) -> Result<(), AllocError>
    ensures { OnOk result (waiting.new.items ≡ waiting.old.items ++ lazy ∷ missing.now) }
{
    waiting.push(lazy)?;
    waiting.extend_from_slice(missing)
}

/// Keeps the JSON of a lazy with this value, or lets what it mentions and isn't kept wait.
fn keep_value(
    scope: &Scope<'_>,
    kept: &mut Results,
    lazy: NodeId,
    value: &Value,
    waiting: &mut Vec<NodeId>,
) -> Result<(), AllocError>
    requires { results_in kept.old lazy ≡ None }
    ensures ok { OnOk result (StepsOver (value_missing (missing_in (scope_view scope.now) (results_in kept.old)) (view value.now)) (spec_value_json (json_in (scope_view scope.now) (results_in kept.old)) (view value.now)) lazy (results_in kept.old) waiting.old.items (results_in kept.new) waiting.new.items) }
    ensures err { OnErr result ((m : ℕ) → results_in kept.new m ≡ results_in kept.old m) }
{
    let mut missing = Vec::new(scope.alloc);
    let json = value_json(scope, kept, value, &mut missing)?;
    let missing = missing.as_slice();
    if missing.is_empty() {
        return kept.put(lazy, json);
    }
    drop(json);
    wait_behind(waiting, lazy, missing)
}

/// Keeps a lazy, or lets what it mentions and isn't kept wait. One without a value counts as an empty text.
fn keep_or_wait(
    scope: &Scope<'_>,
    kept: &mut Results,
    lazy: NodeId,
    waiting: &mut Vec<NodeId>,
) -> Result<(), AllocError>
    requires { results_in kept.old lazy ≡ None }
    ensures ok { OnOk result (Steps (scope_view scope.now) lazy (results_in kept.old) waiting.old.items (results_in kept.new) waiting.new.items) }
    ensures err { OnErr result ((m : ℕ) → results_in kept.new m ≡ results_in kept.old m) }
{
    let marked = scope.marked;
    let Some(value) = marked.value(lazy) else {
        return keep_value(scope, kept, lazy, &Value::Null, waiting);
    };
    match only_lazy(scope.table, value) {
        Some(other) => keep_same(kept, lazy, other, waiting),
        None => keep_value(scope, kept, lazy, value, waiting),
    }
}

/// Keeps the waiting lazies, and before each all that it mentions. Each is rendered twice at most: where it is met first, what it
/// mentions may still be missing.
fn keep_all(
    scope: &Scope<'_>,
    kept: &mut Results,
    waiting: &mut Vec<NodeId>,
) -> Result<(), AllocError>
    requires ready { IsReady (tokens_in scope.now.table.now) (marked_in scope.now.marked.now) scope.now.order.now }
    requires settled { IsSettled (scope_view scope.now) (results_in kept.old) }
    requires waiting { (n : ℕ) → Contains waiting.old.items n → StandsBefore scope.now.order.now (length scope.now.order.now) n }
    ensures all { OnOk result ((n : ℕ) → Contains waiting.old.items n → IsKept (results_in kept.new) n) }
    ensures stays { Stays (results_in kept.old) (results_in kept.new) }
    ensures settled { IsSettled (scope_view scope.now) (results_in kept.new) }
{
    while let Some(lazy) = next_unkept(kept, waiting) {
        keep_or_wait(scope, kept, lazy, waiting)?;
    }
    Ok(())
}

/// The template JSON of a marked value. Of each lazy that it reaches the JSON is kept then.
pub fn resolved(scope: &Scope<'_>, kept: &mut Results, value: &Value) -> Result<Value, AllocError>
    requires ready { IsReady (tokens_in scope.now.table.now) (marked_in scope.now.marked.now) scope.now.order.now }
    requires settled { IsSettled (scope_view scope.now) (results_in kept.old) }
    ensures value { IfOk result (λ v. IsRendering (scope_view scope.now) (view value.now) (view v)) }
    ensures reached { OnOk result (KeepsReached (scope_view scope.now) (view value.now) (results_in kept.new)) }
    ensures stays { Stays (results_in kept.old) (results_in kept.new) }
    ensures settled { IsSettled (scope_view scope.now) (results_in kept.new) }
{
    loop {
        let mut waiting = Vec::new(scope.alloc);
        let json = value_json(scope, kept, value, &mut waiting)?;
        if waiting.as_slice().is_empty() {
            return Ok(json);
        }
        drop(json);
        // The next turn finds all of it kept.
        keep_all(scope, kept, &mut waiting)?;
    }
}
