// The passes over a tree up to the check of sizes.
ghost use Rattle.std.specs.Prelude.{IfOk};
ghost use Rattle.cdk_expansion.specs.Clean.{TreeIsClean};
ghost use Rattle.cdk_leaves.specs.Ready.{IsReady};
ghost use Rattle.cdk_pass_cases.specs.Marked.{AreMarked};
ghost use Rattle.cdk_tokens.specs.TableView.{marked_in, tokens_in};
ghost use Rattle.cdk_tree.specs.TreeView.{constructs};

use cdk_base::List;
use cdk_lazies::lazy_order;
use cdk_sizes::check_sizes;
use cdk_targets::check_targets;
use cdk_tokens::{Marked, Table, mark};
use cdk_tree::{NodeId, PassError, Tree};
use cdk_values::check_values;
use std::alloc::Global;

/// The marked values and the tokens of a tree, or the first wrong target or context.
pub fn marks_of(alloc: Global, tree: &Tree) -> Result<(Marked, Table), PassError>
    requires { TreeIsClean (constructs tree.now) }
    ensures { IfOk result (λ all. AreMarked (constructs tree.now) (tokens_in all.1) (marked_in all.0)) }
{
    if let Err(found) = check_targets(tree) {
        return Err(PassError::Fault(found));
    }
    mark(alloc, tree)
}

/// The order of the lazies, in which values can be rendered; or what the checks of values, of loops and of sizes find first.
pub fn order_of(
    alloc: Global,
    tree: &Tree,
    table: &Table,
    marked: &Marked,
) -> Result<List<NodeId>, PassError>
    requires { AreMarked (constructs tree.now) (tokens_in table.now) (marked_in marked.now) }
    ensures { IfOk result (λ order. IsReady (tokens_in table.now) (marked_in marked.now) order) }
{
    if let Err(found) = check_values(tree, table, marked) {
        return Err(PassError::Fault(found));
    }
    let order = match lazy_order(alloc, tree, table, marked) {
        Ok(order) => order,
        Err(error) => return Err(error),
    };
    // A table has fewer tokens than 64 bits count.
    let _count = table.len();
    match check_sizes(alloc, tree, table, marked, &order) {
        Ok(()) => Ok(order),
        Err(error) => Err(error),
    }
}
