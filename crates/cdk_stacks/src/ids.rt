// The ids of a construct's path, and the unique ids that they make.
ghost use Rattle.std.specs.Prelude.{◌≡◌, ℕ, ◌<◌, ◌≤◌, ◌++◌, length, OnOk, IfOk};
ghost use Rattle.cdk_names.specs.Names.{unique_id as spec_unique_id};
ghost use Rattle.cdk_tree.specs.TreeView.{constructs};
ghost use Rattle.cdk_stacks.specs.Names.{ids_below, ids_within};

use cdk_base::{List, Text};
use cdk_names::unique_id;
use cdk_tree::{NodeId, Tree};
use std::alloc::{AllocError, Global};

/// Puts the ids from below a scope down to a construct to others.
fn push_ids(
    alloc: Global,
    tree: &Tree,
    scope: NodeId,
    at: NodeId,
    ids: &mut List<Text>,
) -> Result<(), AllocError>
    requires { at < length (constructs tree.now) }
    ensures { OnOk result ((most : ℕ) → at ≤ most → ids.new ≡ ids.old ++ ids_within most (constructs tree.now) scope at) }
{
    if at.number() == scope.number() {
        return Ok(());
    }
    let Some(outer) = tree.parent(at) else {
        return Ok(());
    };
    push_ids(alloc, tree, scope, outer, ids)?;
    let id = Text::new(alloc, tree.node(at).id.as_str())?;
    ids.push(id)?;
    Ok(())
}

/// The unique id of the ids from below a scope down to a construct. None exactly where these have none.
pub fn unique_below(
    alloc: Global,
    tree: &Tree,
    scope: NodeId,
    at: NodeId,
) -> Result<Option<Text>, AllocError>
    requires { at < length (constructs tree.now) }
    ensures { IfOk result (λ id. id ≡ spec_unique_id (ids_below (constructs tree.now) scope at)) }
{
    let mut ids = List::new(alloc);
    push_ids(alloc, tree, scope, at, &mut ids)?;
    match unique_id(ids.as_slice()) {
        Some(id) => Ok(Some(Text::new(alloc, id.as_str())?)),
        None => Ok(None),
    }
}
