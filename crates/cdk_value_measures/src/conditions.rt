// The measures of conditions.
ghost use Rattle.std.specs.Prelude.{◌≡◌, ◌+◌, length, IfOk, OnOk};
ghost use Rattle.cdk_expansion.specs.Conditions.{condition_of, condition_plain, conditions_plain, operand_plain};
ghost use Rattle.cdk_language.specs.Condition.{view as condition_view, conditions_view};
ghost use Rattle.cdk_value_measures.specs.Keeping.{Serves};
ghost use Rattle.cdk_value_measures.specs.Measures.{condition_measure as spec_condition_measure, conditions_parts as spec_conditions_parts, measure};
ghost use Rattle.cdk_value_measures.specs.Constructs.{lazy_count, path_in};
ghost use Rattle.cdk_tokens.specs.Marking.{target};
ghost use Rattle.cdk_tokens.specs.TableView.{marked_in, tokens_in};
ghost use Rattle.cdk_contexts.specs.Expressions.{operands_of, operands_of_all};
ghost use Rattle.cdk_tree.specs.TreeView.{constructs};

use crate::values::{path_bytes, value_measure};
use cdk_base::List;
use cdk_language::Cond;
use cdk_measure::{Measure, Parts};
use cdk_tokens::{Marked, Table};
use cdk_tree::{NodeId, Tree};
use std::alloc::AllocError;

/// The construct of a path. What no construct has as its path is refused before, and stands for the root here.
fn target_of(tree: &Tree, path: &str) -> NodeId
    ensures { result ≡ target (constructs tree.now) path.now }
{
    match tree.find(path) {
        Some(at) => at,
        None => NodeId::ROOT,
    }
}

/// The number of the next operand, which is then counted. More than 64 bits count end like want of memory: none can hold them.
fn take_number(next: &mut usize) -> Result<usize, AllocError>
    ensures number { IfOk result (λ n. n ≡ next.old) }
    ensures counted { OnOk result (next.new ≡ next.old + 1) }
{
    let number = *next;
    let Some(after) = number.checked_add(1) else {
        return Err(AllocError);
    };
    *next = after;
    Ok(number)
}

/// The measure of an operand; one that isn't there counts as an empty text.
fn operand_measure(
    tree: &Tree,
    table: &Table,
    marked: &Marked,
    kept: &[Measure],
    at: NodeId,
    n: usize,
) -> Measure
    requires { Serves (constructs tree.now) (tokens_in table.now) (marked_in marked.now) kept.now }
    ensures { result ≡ measure (path_in (constructs tree.now)) (operand_plain (lazy_count (constructs tree.now)) (tokens_in table.now) (marked_in marked.now) at n) }
{
    match marked.operand(at, n) {
        Some(value) => value_measure(tree, table, kept, value),
        None => Measure::leaf(0),
    }
}

/// The measure of a part of the condition of the construct, whose operands are numbered from `next` on.
#[cycle(conditions)]
fn part_measure(
    tree: &Tree,
    table: &Table,
    marked: &Marked,
    kept: &[Measure],
    at: NodeId,
    next: &mut usize,
    part: &Cond,
) -> Result<Measure, AllocError>
    requires { Serves (constructs tree.now) (tokens_in table.now) (marked_in marked.now) kept.now }
    ensures value { IfOk result (λ m. m ≡ spec_condition_measure (path_in (constructs tree.now)) (condition_plain (constructs tree.now) (operand_plain (lazy_count (constructs tree.now)) (tokens_in table.now) (marked_in marked.now) at) next.old (condition_view part.now))) }
    ensures counted { OnOk result (next.new ≡ next.old + length (operands_of (condition_view part.now))) }
{
    match part {
        Cond::Equals(_, _) => {
            let first = take_number(next)?;
            let second = take_number(next)?;
            let x = operand_measure(tree, table, marked, kept, at, first);
            let y = operand_measure(tree, table, marked, kept, at, second);
            Ok(x.around_two(y, 0))
        }
        Cond::And(parts) | Cond::Or(parts) => {
            let parts = parts_measures(tree, table, marked, kept, at, next, parts)?;
            Ok(parts.collected(false))
        }
        Cond::Not(part) => {
            let measure = part_measure(tree, table, marked, kept, at, next, part)?;
            Ok(measure.around(0))
        }
        Cond::Named(path) => Ok(Measure::leaf(path_bytes(tree, target_of(tree, path.as_str())))),
    }
}

#[cycle(conditions)]
fn parts_measures(
    tree: &Tree,
    table: &Table,
    marked: &Marked,
    kept: &[Measure],
    at: NodeId,
    next: &mut usize,
    parts: &List<Cond>,
) -> Result<Parts, AllocError>
    requires { Serves (constructs tree.now) (tokens_in table.now) (marked_in marked.now) kept.now }
    ensures value { IfOk result (λ ps. ps ≡ spec_conditions_parts (path_in (constructs tree.now)) (conditions_plain (constructs tree.now) (operand_plain (lazy_count (constructs tree.now)) (tokens_in table.now) (marked_in marked.now) at) next.old (conditions_view parts.now))) }
    ensures counted { OnOk result (next.new ≡ next.old + length (operands_of_all (conditions_view parts.now))) }
{
    let mut sum = Parts::none();
    for part in parts.as_slice() {
        let measure = part_measure(tree, table, marked, kept, at, next, part)?;
        sum = sum.with(0, measure);
    }
    Ok(sum)
}

/// The measure of the plain form of a condition. The error is want of memory; more operands than 64 bits count end like it.
pub fn condition_measure(
    tree: &Tree,
    table: &Table,
    marked: &Marked,
    kept: &[Measure],
    at: NodeId,
    condition: &Cond,
) -> Result<Measure, AllocError>
    requires { Serves (constructs tree.now) (tokens_in table.now) (marked_in marked.now) kept.now }
    ensures { IfOk result (λ m. m ≡ spec_condition_measure (path_in (constructs tree.now)) (condition_of (lazy_count (constructs tree.now)) (constructs tree.now) (tokens_in table.now) (marked_in marked.now) at (condition_view condition.now))) }
{
    let mut next = 0usize;
    part_measure(tree, table, marked, kept, at, &mut next, condition)
}
