// The tree file.
ghost use Rattle.std.specs.Prelude.{◌≡◌, ℕ, ◌<◌, length, drop, IfOk, OnOk};
ghost use Rattle.serde_json.specs.Data.{Data, no_members};
ghost use Rattle.serde_json.specs.View.{view};
ghost use Rattle.cdk_language.specs.Construct.{Application};
ghost use Rattle.cdk_language.specs.Expression.{Expression};
ghost use Rattle.cdk_tree.specs.Placed.{construct_at, constructs_of};
ghost use Rattle.cdk_tree.specs.TreeView.{constructs};
ghost use Rattle.cdk_objects.specs.Maps.{count_of, members_at};
ghost use Rattle.cdk_manifest.specs.TreeFile.{node_of, tree_document, tree_file_of};
ghost use Rattle.cdk_manifest.specs.Values.{attached, attached_from, AreProperties};

use crate::nodes::node;
use cdk_base::Value;
use cdk_objects::MapsByConstruct;
use cdk_tree::{NodeId, Tree};
use serde_json::json;
use std::alloc::{AllocError, Global};

/// Puts a construct's node, whose own children are all there, into its scope's children.
fn attach(
    alloc: Global,
    tree: &Tree,
    values: &[Value],
    at: NodeId,
    children: &mut MapsByConstruct,
) -> Result<(), AllocError>
    requires within { at < length (constructs tree.now) }
    requires values { length values.now ≡ length (constructs tree.now) }
    requires count { count_of children.old ≡ length (constructs tree.now) }
    ensures count { OnOk result (count_of children.new ≡ length (constructs tree.now)) }
    ensures members { OnOk result ((value : ℕ → Expression → Data) → AreProperties values.now value (constructs tree.now) → (k : ℕ) → k < at → members_at children.new k ≡ attached (node_of value) at (construct_at (constructs tree.now) at) (members_at children.old) k) }
{
    let own = children.take(alloc, at);
    let node = node(alloc, tree, values, at, own)?;
    children.put_child(alloc, tree, at, node)
}

/// The children of the root, each with its own: all constructs are put in, from the last one to the first below the root.
fn children_of_root(
    alloc: Global,
    tree: &Tree,
    values: &[Value],
) -> Result<MapsByConstruct, AllocError>
    requires some { 0 < length (constructs tree.now) }
    requires values { length values.now ≡ length (constructs tree.now) }
    ensures count { IfOk result (λ children. count_of children ≡ length (constructs tree.now)) }
    ensures members { IfOk result (λ children. (value : ℕ → Expression → Data) → AreProperties values.now value (constructs tree.now) → members_at children 0 ≡ attached_from (node_of value) 1 (drop 1 (constructs tree.now)) (λ k. no_members) 0) }
{
    let mut children = MapsByConstruct::new(alloc, tree.len())?;
    for number in (1..tree.len()).rev() {
        let Some(at) = tree.id(number) else {
            unreachable!()
        };
        attach(alloc, tree, values, at, &mut children)?;
    }
    Ok(children)
}

fn document_of(alloc: Global, root: Value) -> Result<Value, AllocError>
    ensures { IfOk result (λ v. view v ≡ tree_document (view root)) }
{
    json!(in alloc; {"tree": root, "version": "tree-0.1"})
}

/// The tree file (AWS CDK's tree metadata, version tree-0.1): a node for each construct of the application, with its
/// id, its path and its children by id, and for a resource its type and its properties, whose value stands in `values` at the
/// resource's number. Fails where no memory is found.
pub fn tree_file(alloc: Global, tree: &Tree, values: &[Value]) -> Result<Value, AllocError>
    requires some { 0 < length (constructs tree.now) }
    requires values { length values.now ≡ length (constructs tree.now) }
    ensures { IfOk result (λ v. (a : Application) (value : ℕ → Expression → Data) → constructs tree.now ≡ constructs_of a → AreProperties values.now value (constructs tree.now) → view v ≡ tree_file_of value a) }
{
    let mut children = children_of_root(alloc, tree, values)?;
    let of_root = children.take(alloc, NodeId::ROOT);
    let root = node(alloc, tree, values, NodeId::ROOT, of_root)?;
    document_of(alloc, root)
}
