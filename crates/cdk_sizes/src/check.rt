// The check of the sizes and depths of an application's values.
ghost use Rattle.std.specs.Prelude.{◌≡◌, ◌<◌, length, min, IfOk};
ghost use Rattle.cdk_dependencies.specs.Counts.{most, pair_counts_of};
ghost use Rattle.cdk_dependencies.specs.Pairs.{pairs_of};
ghost use Rattle.cdk_sizes.specs.Checking.{IsMeasureOf, codes_of};
ghost use Rattle.cdk_value_measures.specs.Keeping.{Serves};
ghost use Rattle.cdk_value_measures.specs.Ordered.{SuitsLazies};
ghost use Rattle.cdk_value_measures.specs.Size.{depth as plain_depth, size as plain_size};
ghost use Rattle.cdk_value_measures.specs.Constructs.{path_in};
ghost use Rattle.cdk_sizes.specs.SizeFindings.{depth_at, of_value, size_at, size_findings};
ghost use Rattle.cdk_sizes.specs.Views.{ChecksFirst};
ghost use Rattle.cdk_tokens.specs.TableView.{marked_in, tokens_in};
ghost use Rattle.cdk_tree.specs.PlaceFindings.{first};
ghost use Rattle.cdk_tree.specs.Placed.{construct_at};
ghost use Rattle.cdk_tree.specs.TreeView.{constructs};

use cdk_base::{Code, List};
use cdk_dependencies::pair_counts;
use cdk_language::Kind;
use cdk_measure::Measure;
use cdk_tokens::{Marked, Table};
use cdk_tree::{Found, NodeId, PassError, Tree};
use cdk_value_measures::{condition_measure, lazy_measures, value_measure};
use std::alloc::{AllocError, Global};

// The greatest sum of sizes, and the greatest depth of a value.
const LARGEST_SUM: u64 = 16_000_000;

const GREATEST_DEPTH: u64 = 32;

/// The measure of a construct's marked value, where it has one.
fn shown_measure(
    tree: &Tree,
    table: &Table,
    marked: &Marked,
    kept: &[Measure],
    at: NodeId,
) -> Measure
    requires { Serves (constructs tree.now) (tokens_in table.now) (marked_in marked.now) kept.now }
    ensures { IsMeasureOf result (of_value (constructs tree.now) (tokens_in table.now) (marked_in marked.now) 0 (plain_size (path_in (constructs tree.now))) at) (of_value (constructs tree.now) (tokens_in table.now) (marked_in marked.now) 0 plain_depth at) }
{
    match marked.value(at) {
        Some(value) => value_measure(tree, table, kept, value),
        None => Measure::nothing(),
    }
}

/// The size and depth of what a construct has, which is the first of so many pairs. The error is want of memory.
fn construct_measure(
    tree: &Tree,
    table: &Table,
    marked: &Marked,
    kept: &[Measure],
    pairs: u64,
    at: NodeId,
) -> Result<Measure, AllocError>
    requires within { at < length (constructs tree.now) }
    requires serves { Serves (constructs tree.now) (tokens_in table.now) (marked_in marked.now) kept.now }
    requires counted { pairs ≡ min (pairs_of (constructs tree.now) at) most }
    ensures { IfOk result (λ m. IsMeasureOf m (size_at (constructs tree.now) (tokens_in table.now) (marked_in marked.now) at (construct_at (constructs tree.now) at).body) (depth_at (constructs tree.now) (tokens_in table.now) (marked_in marked.now) at (construct_at (constructs tree.now) at).body)) }
{
    match &tree.node(at).kind {
        Kind::Resource(_) => Ok(shown_measure(tree, table, marked, kept, at).with_pairs(pairs)),
        Kind::Output(_) => Ok(shown_measure(tree, table, marked, kept, at)),
        Kind::Condition(condition) => {
            condition_measure(tree, table, marked, kept, at, condition)
        }
        Kind::App
        | Kind::Stage
        | Kind::Stack { .. }
        | Kind::Group
        | Kind::Parameter(_)
        | Kind::Mapping(_)
        | Kind::Lazy(_) => Ok(Measure::nothing()),
    }
}

/// The first thing that is wrong with a construct of the measure, where the sizes before it have the sum.
fn wrong_size(before: u64, measure: Measure) -> Option<Code>
    ensures { result ≡ first (codes_of before measure) }
{
    if before.saturating_add(measure.size) > LARGEST_SUM {
        return Some(Code::TooLarge);
    }
    if measure.depth > GREATEST_DEPTH {
        return Some(Code::TooDeep);
    }
    None
}

/// Goes over the constructs with the running sum of their sizes; `pairs` has how many pairs each is the first of.
fn check_each(
    tree: &Tree,
    table: &Table,
    marked: &Marked,
    kept: &[Measure],
    pairs: &[u64],
) -> Result<(), PassError>
    requires serves { Serves (constructs tree.now) (tokens_in table.now) (marked_in marked.now) kept.now }
    requires counted { pairs.now ≡ pair_counts_of (constructs tree.now) }
    ensures { ChecksFirst result (size_findings (constructs tree.now) (tokens_in table.now) (marked_in marked.now)) }
{
    let mut sum = 0u64;
    for number in 0..tree.len() {
        let Some(at) = tree.id(number) else {
            unreachable!()
        };
        let Ok(measure) = construct_measure(tree, table, marked, kept, pairs[number], at) else {
            return Err(PassError::Memory);
        };
        if let Some(code) = wrong_size(sum, measure) {
            return Err(PassError::Fault(Found { code, at }));
        }
        sum = sum.saturating_add(measure.size);
    }
    Ok(())
}

/// The first value of a tree that is too large or too deep, in walk order, at one construct the lowest number (own
/// limits):
///
/// - `TooLarge`: with this construct the sum of the sizes passes 16,000,000. A size is that of the expanded properties of
///   a resource, value of an output, or condition; a resource has 16 more for each resource on which an entry of
///   `dependsOn` makes it depend, its own entries and those of its scopes.
/// - `TooDeep`: an expanded value is deeper than 32.
///
/// `order` has the lazies, each behind those that it mentions. Nothing is expanded in memory: each lazy is measured once, and
/// every other expression where its marker stands. `Memory` where no memory is found; more operands of a condition than 64
/// bits count end like it.
pub fn check_sizes(
    alloc: Global,
    tree: &Tree,
    table: &Table,
    marked: &Marked,
    order: &List<NodeId>,
) -> Result<(), PassError>
    requires { SuitsLazies (constructs tree.now) (tokens_in table.now) (marked_in marked.now) order.now }
    ensures { ChecksFirst result (size_findings (constructs tree.now) (tokens_in table.now) (marked_in marked.now)) }
{
    let Ok(kept) = lazy_measures(alloc, tree, table, marked, order) else {
        return Err(PassError::Memory);
    };
    let Ok(pairs) = pair_counts(alloc, tree) else {
        return Err(PassError::Memory);
    };
    check_each(tree, table, marked, kept.as_slice(), pairs.as_slice())
}
