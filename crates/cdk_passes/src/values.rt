// The passes over the values of a tree.
ghost use Rattle.cdk_value_measures.specs.Ordered.{SuitsLazies};
ghost use Rattle.cdk_tokens.specs.TableView.{marked_in, tokens_in};
ghost use Rattle.cdk_tree.specs.TreeView.{constructs};
ghost use Rattle.cdk_passes.specs.Values.{ChecksValuesAndSizes};

use crate::faults::{fault_at, pass_fault};
use cdk_base::{Fault, List};
use cdk_sizes::check_sizes;
use cdk_tokens::{Marked, Table};
use cdk_tree::{NodeId, Tree};
use cdk_values::check_values;
use std::alloc::Global;

/// The first fault of the marked values of a tree: of the values themselves, and then of how large and how deep they are
/// once all tokens and lazies are expanded. `order` has the lazies, each behind those that it mentions.
pub fn check_values_and_sizes(
    alloc: Global,
    tree: &Tree,
    table: &Table,
    marked: &Marked,
    order: &List<NodeId>,
) -> Result<(), Fault>
    requires { SuitsLazies (constructs tree.now) (tokens_in table.now) (marked_in marked.now) order.now }
    ensures { ChecksValuesAndSizes (constructs tree.now) (tokens_in table.now) (marked_in marked.now) result }
{
    if let Err(found) = check_values(tree, table, marked) {
        return Err(fault_at(alloc, tree, found));
    }
    if let Err(error) = check_sizes(alloc, tree, table, marked, order) {
        return Err(pass_fault(alloc, tree, error));
    }
    Ok(())
}
