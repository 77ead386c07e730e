// The measures of lazies, in an order in which each stands behind those that it mentions.
ghost use Rattle.std.specs.Prelude.{◌≡◌, IfOk};
ghost use Rattle.cdk_expansion.specs.Mentions.{lazy_value};
ghost use Rattle.cdk_value_measures.specs.Keeping.{Serves, kept_in, measured};
ghost use Rattle.cdk_value_measures.specs.Ordered.{SuitsLazies};
ghost use Rattle.cdk_tokens.specs.TableView.{marked_in, tokens_in};
ghost use Rattle.cdk_tree.specs.TreeView.{constructs};

use crate::values::value_measure;
use cdk_base::List;
use cdk_measure::Measure;
use cdk_tokens::{Marked, Table};
use cdk_tree::{NodeId, Tree};
use std::alloc::{AllocError, Global};

/// The measure of a lazy's value; one without a value counts as an empty text.
fn lazy_measure(
    tree: &Tree,
    table: &Table,
    marked: &Marked,
    kept: &[Measure],
    lazy: NodeId,
) -> Measure
    ensures { result ≡ measured (constructs tree.now) (tokens_in table.now) kept.now (lazy_value (marked_in marked.now) lazy) }
{
    match marked.value(lazy) {
        Some(value) => value_measure(tree, table, kept, value),
        None => Measure::leaf(0),
    }
}

/// Measures the lazies of the order one after another, each by those before it.
fn measures_in_order(
    alloc: Global,
    tree: &Tree,
    table: &Table,
    marked: &Marked,
    order: &List<NodeId>,
) -> Result<Vec<Measure>, AllocError>
    ensures { IfOk result (λ kept. kept.items ≡ kept_in (constructs tree.now) (tokens_in table.now) (marked_in marked.now) order.now) }
{
    let mut kept = vec![in alloc; Measure::leaf(0); tree.len()]?;
    for lazy in order.as_slice() {
        let measure = lazy_measure(tree, table, marked, kept.as_slice(), *lazy);
        let at = lazy.number();
        if at < kept.len() {
            kept[at] = measure;
        }
    }
    Ok(kept)
}

/// The measure of each lazy by its number; at other constructs stands that of an empty text. The error is want of memory.
pub fn lazy_measures(
    alloc: Global,
    tree: &Tree,
    table: &Table,
    marked: &Marked,
    order: &List<NodeId>,
) -> Result<Vec<Measure>, AllocError>
    requires { SuitsLazies (constructs tree.now) (tokens_in table.now) (marked_in marked.now) order.now }
    ensures { IfOk result (λ kept. Serves (constructs tree.now) (tokens_in table.now) (marked_in marked.now) kept.items) }
{
    measures_in_order(alloc, tree, table, marked, order)
}
