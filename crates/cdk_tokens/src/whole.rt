// The marking of a whole application.
ghost use Rattle.std.specs.Prelude.{◌≡◌, ◌<◌, [], ◌∷◌, ◌++◌, length, map, IfOk, OnOk};
ghost use Rattle.serde_json.specs.View.{view as json_view};
ghost use Rattle.cdk_language.specs.Condition.{view as condition_view, conditions_view};
ghost use Rattle.cdk_language.specs.Construct.{kind_view};
ghost use Rattle.cdk_language.specs.Expression.{view};
ghost use Rattle.cdk_tree.specs.Placed.{construct_at};
ghost use Rattle.cdk_tree.specs.TreeView.{constructs};
ghost use Rattle.cdk_tokens.specs.Marking.{marked, tokens};
ghost use Rattle.cdk_tokens.specs.Marks.{Marks};
ghost use Rattle.cdk_tokens.specs.TableView.{marked_in, tokens_in};
ghost use Rattle.cdk_tokens.specs.Views.{part_view};
ghost use Rattle.cdk_contexts.specs.Expressions.{expressions_in, operands_of, operands_of_all};
ghost use Rattle.cdk_tokens.specs.Whole.{marked_body, marked_list, marking, operands, tokens_of, tokens_of_list, value};

use crate::marked::{Marked, Part};
use crate::marking::mark_expression;
use crate::table::Table;
use cdk_base::{List, Value};
use cdk_contexts::check_contexts;
use cdk_language::{Cond, Expr, Kind};
use cdk_tree::{NodeId, PassError, Tree};
use std::alloc::{AllocError, Global};

fn push_operand(
    alloc: Global,
    tree: &Tree,
    at: NodeId,
    table: &mut Table,
    e: &Expr,
    values: &mut Vec<Value>,
) -> Result<(), AllocError>
    requires { at < length (constructs tree.now) }
    ensures value { OnOk result (map json_view values.new.items ≡ map json_view values.old.items ++ marked (constructs tree.now) at (length (tokens_in table.old)) (view e.now) ∷ []) }
    ensures tokens { OnOk result (tokens_in table.new ≡ tokens_in table.old ++ tokens (constructs tree.now) at (length (tokens_in table.old)) (view e.now)) }
{
    let value = mark_expression(alloc, tree, at, table, e)?;
    values.push(value)?;
    Ok(())
}

// Puts the operands of a condition at the end.
#[cycle(operands)]
fn push_operands(
    alloc: Global,
    tree: &Tree,
    at: NodeId,
    table: &mut Table,
    c: &Cond,
    values: &mut Vec<Value>,
) -> Result<(), AllocError>
    requires { at < length (constructs tree.now) }
    ensures value { OnOk result (map json_view values.new.items ≡ map json_view values.old.items ++ marked_list (constructs tree.now) at (length (tokens_in table.old)) (operands_of (condition_view c.now))) }
    ensures tokens { OnOk result (tokens_in table.new ≡ tokens_in table.old ++ tokens_of_list (constructs tree.now) at (length (tokens_in table.old)) (operands_of (condition_view c.now))) }
{
    match c {
        Cond::Equals(x, y) => {
            push_operand(alloc, tree, at, table, x, values)?;
            push_operand(alloc, tree, at, table, y, values)?;
            Ok(())
        }
        Cond::And(parts) | Cond::Or(parts) => push_each(alloc, tree, at, table, parts, values),
        Cond::Not(part) => push_operands(alloc, tree, at, table, part, values),
        Cond::Named(_) => Ok(()),
    }
}

#[cycle(operands)]
fn push_each(
    alloc: Global,
    tree: &Tree,
    at: NodeId,
    table: &mut Table,
    parts: &List<Cond>,
    values: &mut Vec<Value>,
) -> Result<(), AllocError>
    requires { at < length (constructs tree.now) }
    ensures value { OnOk result (map json_view values.new.items ≡ map json_view values.old.items ++ marked_list (constructs tree.now) at (length (tokens_in table.old)) (operands_of_all (conditions_view parts.now))) }
    ensures tokens { OnOk result (tokens_in table.new ≡ tokens_in table.old ++ tokens_of_list (constructs tree.now) at (length (tokens_in table.old)) (operands_of_all (conditions_view parts.now))) }
{
    for part in parts.as_slice() {
        push_operands(alloc, tree, at, table, part, values)?;
    }
    Ok(())
}

fn mark_operands(
    alloc: Global,
    tree: &Tree,
    at: NodeId,
    table: &mut Table,
    c: &Cond,
) -> Result<Part, AllocError>
    requires { at < length (constructs tree.now) }
    ensures value { IfOk result (λ p. part_view p ≡ operands (marked_list (constructs tree.now) at (length (tokens_in table.old)) (operands_of (condition_view c.now)))) }
    ensures tokens { OnOk result (tokens_in table.new ≡ tokens_in table.old ++ tokens_of_list (constructs tree.now) at (length (tokens_in table.old)) (operands_of (condition_view c.now))) }
{
    let mut values = Vec::new(alloc);
    push_operands(alloc, tree, at, table, c, &mut values)?;
    Ok(Part::Operands(values))
}

fn mark_value(
    alloc: Global,
    tree: &Tree,
    at: NodeId,
    table: &mut Table,
    e: &Expr,
) -> Result<Part, AllocError>
    requires { at < length (constructs tree.now) }
    ensures value { IfOk result (λ p. part_view p ≡ value (marked (constructs tree.now) at (length (tokens_in table.old)) (view e.now))) }
    ensures tokens { OnOk result (tokens_in table.new ≡ tokens_in table.old ++ tokens_of_list (constructs tree.now) at (length (tokens_in table.old)) (view e.now ∷ [])) }
{
    let value = mark_expression(alloc, tree, at, table, e)?;
    Ok(Part::Value(value))
}

// Marks the expressions of a construct.
fn mark_kind(
    alloc: Global,
    tree: &Tree,
    at: NodeId,
    table: &mut Table,
    kind: &Kind,
) -> Result<Part, AllocError>
    requires { at < length (constructs tree.now) }
    ensures value { IfOk result (λ p. part_view p ≡ marked_body (constructs tree.now) at (length (tokens_in table.old)) (kind_view kind.now)) }
    ensures tokens { OnOk result (tokens_in table.new ≡ tokens_in table.old ++ tokens_of_list (constructs tree.now) at (length (tokens_in table.old)) (expressions_in (kind_view kind.now))) }
{
    match kind {
        Kind::Resource(resource) => mark_value(alloc, tree, at, table, &resource.properties),
        Kind::Output(output) => mark_value(alloc, tree, at, table, &output.value),
        Kind::Lazy(e) => mark_value(alloc, tree, at, table, e),
        Kind::Condition(c) => mark_operands(alloc, tree, at, table, c),
        Kind::App
        | Kind::Stage
        | Kind::Stack { .. }
        | Kind::Group
        | Kind::Parameter(_)
        | Kind::Mapping(_) => Ok(Part::Nothing),
    }
}

fn mark_constructs(alloc: Global, tree: &Tree) -> Result<(Marked, Table), AllocError>
    ensures { IfOk result (λ all. (marked_in all.0 ≡ marking (constructs tree.now)) × (tokens_in all.1 ≡ tokens_of (constructs tree.now))) }
{
    let mut table = Table::new(alloc);
    let mut parts = Vec::new(alloc);
    for number in 0..tree.len() {
        let Some(at) = tree.id(number) else {
            unreachable!()
        };
        let part = mark_kind(alloc, tree, at, &mut table, &tree.node(at).kind)?;
        parts.push(part)?;
    }
    Ok((Marked::of(parts), table))
}

/// The marked values of a tree's constructs and all their tokens, numbered from 0: the constructs in walk order, in an
/// expression each argument before the expression itself (after AWS CDK's tokens; own). Or the first thing that is
/// wrong with the constructs' contexts in walk order, at one construct the lowest number:
///
/// - `LiteralMarker`: in a Concat, a run of literals holds the beginning of a marker once context values are put in.
/// - `NoContext`: no scope has the key of a Context that has no default.
///
/// Targets are not checked, as `check_targets` does: a path that no construct has stands for the root. `Memory`
/// where none is found, and for a whole number that isn't within 64 bits, which no document has.
pub fn mark(alloc: Global, tree: &Tree) -> Result<(Marked, Table), PassError>
    ensures { Marks result (constructs tree.now) }
{
    match check_contexts(alloc, tree) {
        Ok(()) => (),
        Err(error) => return Err(error),
    }
    match mark_constructs(alloc, tree) {
        Ok(all) => Ok(all),
        Err(_) => Err(PassError::Memory),
    }
}
