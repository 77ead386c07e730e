// The template JSON of conditions.
ghost use Rattle.std.specs.Prelude.{◌≡◌, ◌≤◌, ℕ, ◌+◌, length, IfOk, OnOk};
ghost use Rattle.serde_json.specs.View.{view, items_view};
ghost use Rattle.cdk_expansion.specs.Conditions.{operand_plain};
ghost use Rattle.cdk_keeping.specs.Keeping.{IsSettled};
ghost use Rattle.cdk_language.specs.Condition.{view as condition_view, conditions_view};
ghost use Rattle.cdk_leaves.specs.Kept.{results_in};
ghost use Rattle.cdk_leaves.specs.Lazies.{Stays};
ghost use Rattle.cdk_leaves.specs.Ready.{IsReady};
ghost use Rattle.cdk_leaves.specs.Views.{scope_view};
ghost use Rattle.cdk_plain.specs.Rendered.{rendered};
ghost use Rattle.cdk_resolve.specs.Conditions.{ArePartRenderings, IsConditionRendering, IsOperandRendering, IsPartRendering, equals_in};
ghost use Rattle.cdk_tokens.specs.Marking.{target};
ghost use Rattle.cdk_tokens.specs.TableView.{marked_in, tokens_in};
ghost use Rattle.cdk_contexts.specs.Expressions.{operands_of, operands_of_all};
ghost use Rattle.cdk_tree.specs.TreeView.{constructs};

use cdk_base::{List, Value};
use cdk_keeping::resolved;
use cdk_language::Cond;
use cdk_leaves::{Results, Scope};
use cdk_spelling::{all_of, any_of, equals, name, named, negation};
use cdk_tree::{NodeId, Tree};
use std::alloc::AllocError;

/// The construct of a path. What no construct has as its path is refused before, and stands for the root here.
fn target_of(tree: &Tree, path: &str) -> NodeId
    ensures { result ≡ target (constructs tree.now) path.now }
{
    match tree.find(path) {
        Some(at) => at,
        None => NodeId::ROOT,
    }
}

/// The number of the next operand, which is then counted. More than 64 bits count end like want of memory: none can hold them.
fn take_number(next: &mut usize) -> Result<usize, AllocError>
    ensures number { IfOk result (λ n. n ≡ next.old) }
    ensures counted { OnOk result (next.new ≡ next.old + 1) }
{
    let number = *next;
    let Some(after) = number.checked_add(1) else {
        return Err(AllocError);
    };
    *next = after;
    Ok(number)
}

/// The JSON of an operand; one that isn't there counts as an empty text.
fn operand_json(
    scope: &Scope<'_>,
    kept: &mut Results,
    at: NodeId,
    n: usize,
) -> Result<Value, AllocError>
    requires ready { IsReady (tokens_in scope.now.table.now) (marked_in scope.now.marked.now) scope.now.order.now }
    requires settled { IsSettled (scope_view scope.now) (results_in kept.old) }
    ensures value { IfOk result (λ v. IsOperandRendering (scope_view scope.now) at n (view v)) }
    ensures stays { Stays (results_in kept.old) (results_in kept.new) }
    ensures settled { IsSettled (scope_view scope.now) (results_in kept.new) }
{
    let marked = scope.marked;
    match marked.operand(at, n) {
        Some(value) => resolved(scope, kept, value),
        None => Value::try_from_str(scope.alloc, ""),
    }
}

/// The JSON of `Fn::Equals` of the next two operands.
fn equals_json(
    scope: &Scope<'_>,
    kept: &mut Results,
    at: NodeId,
    next: &mut usize,
) -> Result<Value, AllocError>
    requires ready { IsReady (tokens_in scope.now.table.now) (marked_in scope.now.marked.now) scope.now.order.now }
    requires settled { IsSettled (scope_view scope.now) (results_in kept.old) }
    ensures value { IfOk result (λ v. (k : ℕ) → length scope.now.order.now ≤ k → view v ≡ equals_in (rendered (scope_view scope.now).homes (operand_plain k (tokens_in scope.now.table.now) (marked_in scope.now.marked.now) at next.old)) (rendered (scope_view scope.now).homes (operand_plain k (tokens_in scope.now.table.now) (marked_in scope.now.marked.now) at (next.old + 1)))) }
    ensures counted { OnOk result (next.new ≡ next.old + 2) }
    ensures stays { Stays (results_in kept.old) (results_in kept.new) }
    ensures settled { IsSettled (scope_view scope.now) (results_in kept.new) }
{
    let first = take_number(next)?;
    let second = take_number(next)?;
    let first = operand_json(scope, kept, at, first)?;
    let second = operand_json(scope, kept, at, second)?;
    equals(scope.alloc, first, second)
}

/// The JSON of a part of the condition of the construct, whose operands are numbered from `next` on.
#[cycle(conditions)]
fn part_json(
    scope: &Scope<'_>,
    kept: &mut Results,
    tree: &Tree,
    at: NodeId,
    next: &mut usize,
    part: &Cond,
) -> Result<Value, AllocError>
    requires ready { IsReady (tokens_in scope.now.table.now) (marked_in scope.now.marked.now) scope.now.order.now }
    requires settled { IsSettled (scope_view scope.now) (results_in kept.old) }
    ensures value { IfOk result (λ v. IsPartRendering (scope_view scope.now) (constructs tree.now) at next.old (condition_view part.now) (view v)) }
    ensures counted { OnOk result (next.new ≡ next.old + length (operands_of (condition_view part.now))) }
    ensures stays { Stays (results_in kept.old) (results_in kept.new) }
    ensures settled { IsSettled (scope_view scope.now) (results_in kept.new) }
{
    match part {
        Cond::Equals(_, _) => equals_json(scope, kept, at, next),
        Cond::And(parts) => {
            let parts = parts_json(scope, kept, tree, at, next, parts)?;
            all_of(scope.alloc, parts)
        }
        Cond::Or(parts) => {
            let parts = parts_json(scope, kept, tree, at, next, parts)?;
            any_of(scope.alloc, parts)
        }
        Cond::Not(part) => {
            let part = part_json(scope, kept, tree, at, next, part)?;
            negation(scope.alloc, part)
        }
        Cond::Named(path) => {
            let at = target_of(tree, path.as_str());
            named(scope.alloc, name(scope.homes, scope.consumer, at))
        }
    }
}

#[cycle(conditions)]
fn parts_json(
    scope: &Scope<'_>,
    kept: &mut Results,
    tree: &Tree,
    at: NodeId,
    next: &mut usize,
    parts: &List<Cond>,
) -> Result<Vec<Value>, AllocError>
    requires ready { IsReady (tokens_in scope.now.table.now) (marked_in scope.now.marked.now) scope.now.order.now }
    requires settled { IsSettled (scope_view scope.now) (results_in kept.old) }
    ensures value { IfOk result (λ vs. ArePartRenderings (scope_view scope.now) (constructs tree.now) at next.old (conditions_view parts.now) (items_view vs.items)) }
    ensures counted { OnOk result (next.new ≡ next.old + length (operands_of_all (conditions_view parts.now))) }
    ensures stays { Stays (results_in kept.old) (results_in kept.new) }
    ensures settled { IsSettled (scope_view scope.now) (results_in kept.new) }
{
    let mut values = Vec::new(scope.alloc);
    for part in parts.as_slice() {
        let value = part_json(scope, kept, tree, at, next, part)?;
        values.push(value)?;
    }
    Ok(values)
}

/// The template JSON of a condition. Of each lazy that its operands reach the JSON is kept then.
pub fn resolved_condition(
    scope: &Scope<'_>,
    kept: &mut Results,
    tree: &Tree,
    at: NodeId,
    condition: &Cond,
) -> Result<Value, AllocError>
    requires ready { IsReady (tokens_in scope.now.table.now) (marked_in scope.now.marked.now) scope.now.order.now }
    requires settled { IsSettled (scope_view scope.now) (results_in kept.old) }
    ensures value { IfOk result (λ v. IsConditionRendering (scope_view scope.now) (constructs tree.now) at (condition_view condition.now) (view v)) }
    ensures stays { Stays (results_in kept.old) (results_in kept.new) }
    ensures settled { IsSettled (scope_view scope.now) (results_in kept.new) }
{
    let mut next = 0usize;
    part_json(scope, kept, tree, at, &mut next, condition)
}
