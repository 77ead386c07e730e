// The order of an application's lazies.
ghost use Rattle.std.specs.Prelude.{◌≡◌, ◌++◌, [], ◌∷◌, IfOk, OnOk};
ghost use Rattle.std.specs.List.{list_any};
ghost use Rattle.cdk_graphs.specs.Graph.{graph_view, IsClosed};
ghost use Rattle.cdk_lazies.specs.LazyOrder.{Orders};
ghost use Rattle.cdk_lazies.specs.Picked.{lazies_of as spec_lazies_of, lazy_of as spec_lazy_of, ArePicked};
ghost use Rattle.cdk_tokens.specs.TableView.{marked_in, tokens_in};
ghost use Rattle.cdk_tree.specs.TreeView.{constructs};

use crate::faults::first_cycle;
use crate::graph::mention_graph;
use crate::kinds::is_lazy_at;
use cdk_base::List;
use cdk_graphs::{loops, loops_are_found, order, orders_are_whole};
use cdk_tokens::{Marked, Table};
use cdk_tree::{NodeId, PassError, Tree};
use std::alloc::{AllocError, Global};

/// The lazy that has the number in the graph.
fn lazy_of(tree: &Tree, table: &Table, number: usize) -> Option<NodeId>
    ensures { result ≡ spec_lazy_of (constructs tree.now) (tokens_in table.now) number }
{
    let place = number.checked_sub(table.len())?;
    let at = tree.id(place)?;
    if is_lazy_at(tree, at) { Some(at) } else { None }
}

/// Puts the lazy that has the number in the graph at the end.
fn push_lazy_of(
    tree: &Tree,
    table: &Table,
    number: usize,
    lazies: &mut List<NodeId>,
) -> Result<(), AllocError>
    ensures { OnOk result (lazies.new ≡ lazies.old ++ spec_lazies_of (constructs tree.now) (tokens_in table.now) (number ∷ [])) }
{
    match lazy_of(tree, table, number) {
        Some(lazy) => {
            lazies.push(lazy)?;
            Ok(())
        }
        None => Ok(()),
    }
}

/// The lazies among the graph's numbers, in the order of the numbers.
fn lazies_of(
    alloc: Global,
    tree: &Tree,
    table: &Table,
    numbers: &[usize],
) -> Result<List<NodeId>, AllocError>
    ensures { IfOk result (λ lazies. lazies ≡ spec_lazies_of (constructs tree.now) (tokens_in table.now) numbers.now) }
{
    let mut lazies = List::new(alloc);
    for number in numbers {
        push_lazy_of(tree, table, *number, &mut lazies)?;
    }
    Ok(lazies)
}

/// The lazies in the order of the graph's numbers: each number behind those that it leads to, and else the least first.
fn ordered_lazies(
    alloc: Global,
    tree: &Tree,
    table: &Table,
    graph: &[Vec<usize>],
) -> Result<List<NodeId>, AllocError>
    requires { IsClosed (graph_view graph.now) }
    ensures { IfOk result (ArePicked (graph_view graph.now) (constructs tree.now) (tokens_in table.now)) }
{
    let numbers = order(alloc, graph)?;
    lazies_of(alloc, tree, table, numbers.as_slice())
}

/// Whether one of the truth values is true.
fn any_holds(truths: &[bool]) -> bool
    ensures { result ≡ list_any (λ b. b) truths.now }
{
    truths.iter().any(|truth| *truth)
}

/// All lazies of a tree, each behind those that it mentions, and the first in walk order where several may come next
/// (own). A lazy mentions another one where a token of its value, or of an argument of such a token, is that lazy's.
///
/// The first lazy or condition in walk order that reaches itself is told as `LazyCycle` or `ConditionCycle`; a condition
/// mentions those that it names. `Memory` where no memory is found, and where the arguments of tokens alone lead back to a
/// token, which marking never makes. It takes as many steps as there are constructs, tokens and markers, each with a
/// look-up.
pub fn lazy_order(
    alloc: Global,
    tree: &Tree,
    table: &Table,
    marked: &Marked,
) -> Result<List<NodeId>, PassError>
    ensures { Orders (constructs tree.now) (tokens_in table.now) (marked_in marked.now) result }
{
    let graph = match mention_graph(alloc, tree, table, marked) {
        Ok(graph) => graph,
        Err(_) => return Err(PassError::Memory),
    };
    let told = match loops(alloc, graph.as_slice()) {
        Ok(told) => told,
        Err(_) => return Err(PassError::Memory),
    };
    loops_are_found();
    if let Some(found) = first_cycle(tree, table, told.as_slice()) {
        return Err(PassError::Fault(found));
    }
    // Only tokens are left that could reach themselves. Marking makes none; what mentions such a token would be left out.
    if any_holds(told.as_slice()) {
        return Err(PassError::Memory);
    }
    orders_are_whole();
    match ordered_lazies(alloc, tree, table, graph.as_slice()) {
        Ok(lazies) => Ok(lazies),
        Err(_) => Err(PassError::Memory),
    }
}
