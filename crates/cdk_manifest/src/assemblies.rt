// The manifests of assemblies.
ghost use Rattle.std.specs.Prelude.{◌≡◌, ℕ, ◌<◌, ◌≤◌, length, IfOk, OnOk};
ghost use Rattle.serde_json.specs.View.{members_view, view};
ghost use Rattle.cdk_tree.specs.TreeView.{constructs};
ghost use Rattle.cdk_stacks.specs.Made.{AreNamesOf};
ghost use Rattle.cdk_manifest.specs.Manifest.{artifact_members, is_artifact_of, manifest_of, stack_metadata, telling_of, with_artifact, with_tree};

use crate::metadata::metadata_of_stacks;
use crate::named;
use crate::stack_entries::{artifact_entry, tree_entry};
use cdk_base::{Map, Value};
use cdk_scoping::{is_stack, is_stage};
use cdk_stacks::{Names, assembly_of};
use cdk_tree::{NodeId, Tree};
use serde_json::{json, put};
use std::alloc::{AllocError, Global};

/// Whether this is a stack or stage that stands in the assembly of a stage, or of the root.
fn is_artifact(tree: &Tree, stage: NodeId, at: NodeId) -> bool
    requires { at < length (constructs tree.now) }
    ensures { result ≡ is_artifact_of (constructs tree.now) stage at }
{
    let kind = &tree.node(at).kind;
    if !is_stack(kind) && !is_stage(kind) {
        return false;
    }
    assembly_of(tree, at).number() == stage.number()
}

/// Puts the entry of a stack or stage, where it stands in the assembly.
fn put_artifact(
    alloc: Global,
    tree: &Tree,
    names: &Names,
    stage: NodeId,
    at: NodeId,
    metadata: Map,
    artifacts: &mut Map,
) -> Result<(), AllocError>
    requires within { at < length (constructs tree.now) }
    requires names { AreNamesOf names.now (constructs tree.now) }
    requires metadata { members_view metadata.entries ≡ stack_metadata (constructs tree.now) (telling_of (constructs tree.now)) at }
    ensures { OnOk result (members_view artifacts.new.entries ≡ with_artifact (constructs tree.now) stage at (members_view artifacts.old.entries)) }
{
    if !is_artifact(tree, stage, at) {
        return Ok(());
    }
    let entry = artifact_entry(alloc, tree, names, at, metadata)?;
    put(artifacts, alloc, named::artifact(names, at), entry)?;
    Ok(())
}

fn artifacts(alloc: Global, tree: &Tree, names: &Names, stage: NodeId) -> Result<Map, AllocError>
    requires { AreNamesOf names.now (constructs tree.now) }
    ensures { IfOk result (λ m. members_view m.entries ≡ artifact_members (constructs tree.now) (telling_of (constructs tree.now)) stage) }
{
    let mut metadata = metadata_of_stacks(alloc, tree, names)?;
    let mut artifacts = Map::new(alloc);
    for number in 0..tree.len() {
        let Some(at) = tree.id(number) else {
            unreachable!()
        };
        let own = metadata.take(alloc, at);
        put_artifact(alloc, tree, names, stage, at, own, &mut artifacts)?;
    }
    Ok(artifacts)
}

/// Puts the entry of the tree file, where the assembly is the application's own.
fn put_tree(alloc: Global, stage: NodeId, artifacts: &mut Map) -> Result<(), AllocError>
    ensures { OnOk result (members_view artifacts.new.entries ≡ with_tree stage (members_view artifacts.old.entries)) }
{
    if stage.number() != 0 {
        return Ok(());
    }
    let entry = tree_entry(alloc)?;
    put(artifacts, alloc, "Tree", entry)?;
    Ok(())
}

/// The manifest of the assembly of a stage, or of the application where it is the root (the cloud assembly schema,
/// version 36): each stack with its template file and its elements' logical names, each nested assembly, and in the
/// application's own the tree file. Dependencies, notes and generated outputs aren't told. Fails where no memory is found.
pub fn manifest(
    alloc: Global,
    tree: &Tree,
    names: &Names,
    stage: NodeId,
) -> Result<Value, AllocError>
    requires names { AreNamesOf names.now (constructs tree.now) }
    requires within { stage < length (constructs tree.now) }
    ensures { IfOk result (λ v. view v ≡ manifest_of (constructs tree.now) (telling_of (constructs tree.now)) stage) }
{
    let mut artifacts = artifacts(alloc, tree, names, stage)?;
    put_tree(alloc, stage, &mut artifacts)?;
    json!(in alloc; {"artifacts": artifacts, "version": "36.0.0"})
}
