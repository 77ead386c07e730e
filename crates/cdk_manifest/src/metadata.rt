// The metadata of stacks: of each element its logical name.
ghost use Rattle.std.specs.Prelude.{◌≡◌, ℕ, ◌<◌, ◌∷◌, [], length, IfOk, OnOk};
ghost use Rattle.serde_json.specs.View.{view};
ghost use Rattle.cdk_tree.specs.TreeView.{constructs};
ghost use Rattle.cdk_stacks.specs.Made.{AreNamesOf};
ghost use Rattle.cdk_manifest.specs.Manifest.{element_metadata, metadata_of, stack_metadata, telling_of, with_element};
ghost use Rattle.cdk_objects.specs.Maps.{count_of, members_at};

use crate::named;
use cdk_base::Value;
use cdk_objects::{MapsByConstruct, metadata_key};
use cdk_scoping::is_element;
use cdk_stacks::Names;
use cdk_tree::{NodeId, Tree};
use serde_json::json;
use std::alloc::{AllocError, Global};

fn logical_id_entry(alloc: Global, logical: &str) -> Result<Value, AllocError>
    ensures { IfOk result (λ v. view v ≡ metadata_of logical.now []) }
{
    json!(in alloc; [{"data": logical, "type": "aws:cdk:logicalId"}])
}

/// Puts the metadata of an element into its stack's.
fn put_element(
    alloc: Global,
    tree: &Tree,
    names: &Names,
    at: NodeId,
    metadata: &mut MapsByConstruct,
) -> Result<(), AllocError>
    requires within { at < length (constructs tree.now) }
    requires names { AreNamesOf names.now (constructs tree.now) }
    requires count { count_of metadata.old ≡ length (constructs tree.now) }
    ensures count { OnOk result (count_of metadata.new ≡ length (constructs tree.now)) }
    ensures members { OnOk result ((stack : ℕ) → members_at metadata.new stack ≡ with_element (constructs tree.now) stack at (members_at metadata.old stack)) }
{
    let Some(stack) = tree.stack_of(at) else {
        return Ok(());
    };
    if !is_element(&tree.node(at).kind) {
        return Ok(());
    }
    let key = metadata_key(alloc, tree, at)?;
    let entry = logical_id_entry(alloc, named::logical(names, at))?;
    metadata.put(alloc, stack, key.as_str(), entry)?;
    Ok(())
}

/// The metadata of each stack, in one walk over all constructs.
pub fn metadata_of_stacks(
    alloc: Global,
    tree: &Tree,
    names: &Names,
) -> Result<MapsByConstruct, AllocError>
    requires { AreNamesOf names.now (constructs tree.now) }
    ensures count { IfOk result (λ metadata. count_of metadata ≡ length (constructs tree.now)) }
    ensures members { IfOk result (λ metadata. (stack : ℕ) → members_at metadata stack ≡ stack_metadata (constructs tree.now) (telling_of (constructs tree.now)) stack) }
{
    let mut metadata = MapsByConstruct::new(alloc, tree.len())?;
    for number in 0..tree.len() {
        let Some(at) = tree.id(number) else {
            unreachable!()
        };
        put_element(alloc, tree, names, at, &mut metadata)?;
    }
    Ok(metadata)
}
