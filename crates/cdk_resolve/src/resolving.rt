// Single values as a template holds them, with nothing kept.
ghost use Rattle.std.specs.Prelude.{◌≡◌, ◌<◌, length, true, IfOk};
ghost use Rattle.std.specs.Option.{unwrap_or};
ghost use Rattle.serde_json.specs.View.{view};
ghost use Rattle.cdk_homes.specs.Kept.{entries_in};
ghost use Rattle.cdk_keeping.specs.Keeping.{IsRendering};
ghost use Rattle.cdk_leaves.specs.Ready.{IsReady, scope_of};
ghost use Rattle.cdk_resolve.specs.Conditions.{IsBodyRendering};
ghost use Rattle.cdk_spelling.specs.Spelled.{homes_for};
ghost use Rattle.cdk_tokens.specs.TableView.{marked_in, tokens_in};
ghost use Rattle.cdk_tree.specs.Expected.{is_condition};
ghost use Rattle.cdk_tree.specs.Placed.{construct_at};
ghost use Rattle.cdk_tree.specs.TreeView.{constructs};

use crate::kept::Kept;
use cdk_base::{List, Value};
use cdk_homes::Homes;
use cdk_tokens::{Marked, Table};
use cdk_tree::{NodeId, Tree};
use std::alloc::{AllocError, Global};

/// The template JSON of a marked value for the stack `consumer` (CloudFormation's intrinsic functions, as AWS CDK writes them):
/// targets as `homes` spells them there, lazies opened, joins of the empty delimiter spliced and their literals merged.
///
/// `order` has the lazies, each behind those that it mentions, as `cdk_lazies::lazy_order` answers them. Each lazy that the value
/// reaches is rendered once or twice; `Kept` shares them among values. The error is want of memory.
pub fn resolve(
    alloc: Global,
    table: &Table,
    marked: &Marked,
    homes: &Homes,
    consumer: NodeId,
    order: &List<NodeId>,
    value: &Value,
) -> Result<Value, AllocError>
    requires { IsReady (tokens_in table.now) (marked_in marked.now) order.now }
    ensures { IfOk result (λ v. IsRendering (scope_of (tokens_in table.now) (marked_in marked.now) (homes_for (entries_in homes.now) consumer) order.now) (view value.now) (view v)) }
{
    let mut kept = Kept::new(alloc, table, marked, homes, consumer, order);
    kept.resolve(value)
}

/// The template JSON of a condition for its own stack (CloudFormation's condition functions). The error is want of memory.
pub fn resolve_condition(
    alloc: Global,
    tree: &Tree,
    table: &Table,
    marked: &Marked,
    homes: &Homes,
    order: &List<NodeId>,
    at: NodeId,
) -> Result<Value, AllocError>
    requires ready { IsReady (tokens_in table.now) (marked_in marked.now) order.now }
    requires within { at < length (constructs tree.now) }
    requires is_condition { is_condition (construct_at (constructs tree.now) at).body ≡ true }
    ensures { IfOk result (λ v. IsBodyRendering (scope_of (tokens_in table.now) (marked_in marked.now) (homes_for (entries_in homes.now) (unwrap_or (construct_at (constructs tree.now) at).stack 0)) order.now) (constructs tree.now) at (construct_at (constructs tree.now) at).body (view v)) }
{
    // Each condition stands in a stack.
    let consumer = match tree.stack_of(at) {
        Some(stack) => stack,
        None => NodeId::ROOT,
    };
    let mut kept = Kept::new(alloc, table, marked, homes, consumer, order);
    kept.condition(tree, at)
}
