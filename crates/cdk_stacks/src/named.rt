// The names of one construct.
ghost use Rattle.std.specs.Prelude.{◌≡◌, ◌<◌, length, nat_eq, Some, IfOk};
ghost use Rattle.std.specs.Option.{option_eq};
ghost use Rattle.cdk_tree.specs.Placed.{construct_at};
ghost use Rattle.cdk_tree.specs.TreeView.{constructs};
ghost use Rattle.cdk_stacks.specs.Made.{names_of as spec_names_of};
ghost use Rattle.cdk_stacks.specs.Names.{artifact_id as spec_artifact_id, logical_name as spec_logical_name, stack_artifact as spec_stack_artifact, stack_name as spec_stack_name, stage_name as spec_stage_name};

use crate::ids::unique_below;
use crate::staged::{stage_artifact, staged_name};
use cdk_base::Text;
use cdk_scoping::{is_element, is_stack, is_stage};
use cdk_tree::{NodeId, Tree};
use std::alloc::{AllocError, Global};

/// The names of one construct; each is None where a construct of its kind has none.
#[derive(Drop)]
pub struct Named {
    pub logical: Option<Text>,
    pub stack: Option<Text>,
    pub stage: Option<Text>,
    pub artifact: Option<Text>,
}

fn logical_name(alloc: Global, tree: &Tree, at: NodeId) -> Result<Option<Text>, AllocError>
    requires { at < length (constructs tree.now) }
    ensures { IfOk result (λ name. name ≡ spec_logical_name (constructs tree.now) at) }
{
    let part = tree.node(at);
    if !is_element(&part.kind) {
        return Ok(None);
    }
    let Some(stack) = tree.stack_of(at) else {
        return Ok(None);
    };
    if let Some(kept) = &part.logical {
        return Ok(Some(Text::new(alloc, kept.as_str())?));
    }
    unique_below(alloc, tree, stack, at)
}

fn stack_name(alloc: Global, tree: &Tree, at: NodeId) -> Result<Option<Text>, AllocError>
    requires { at < length (constructs tree.now) }
    ensures { IfOk result (λ name. name ≡ spec_stack_name (constructs tree.now) at) }
{
    if !is_stack(&tree.node(at).kind) {
        return Ok(None);
    }
    Ok(Some(staged_name(alloc, tree, at)?))
}

fn stage_name(alloc: Global, tree: &Tree, at: NodeId) -> Result<Option<Text>, AllocError>
    requires { at < length (constructs tree.now) }
    ensures { IfOk result (λ name. name ≡ spec_stage_name (constructs tree.now) at) }
{
    if !is_stage(&tree.node(at).kind) {
        return Ok(None);
    }
    Ok(Some(staged_name(alloc, tree, at)?))
}

fn is_under_app(tree: &Tree, at: NodeId) -> bool
    requires { at < length (constructs tree.now) }
    ensures { result ≡ option_eq nat_eq (construct_at (constructs tree.now) at).parent (Some 0) }
{
    match tree.parent(at) {
        Some(scope) => scope.number() == 0,
        None => false,
    }
}

fn stack_artifact(alloc: Global, tree: &Tree, at: NodeId) -> Result<Option<Text>, AllocError>
    requires { at < length (constructs tree.now) }
    ensures { IfOk result (λ id. id ≡ spec_stack_artifact (constructs tree.now) at) }
{
    if is_under_app(tree, at) {
        return Ok(Some(Text::new(alloc, tree.node(at).id.as_str())?));
    }
    unique_below(alloc, tree, NodeId::ROOT, at)
}

fn artifact_id(alloc: Global, tree: &Tree, at: NodeId) -> Result<Option<Text>, AllocError>
    requires { at < length (constructs tree.now) }
    ensures { IfOk result (λ id. id ≡ spec_artifact_id (constructs tree.now) at) }
{
    let kind = &tree.node(at).kind;
    if is_stack(kind) {
        return stack_artifact(alloc, tree, at);
    }
    if is_stage(kind) {
        return Ok(Some(stage_artifact(alloc, tree, at)?));
    }
    Ok(None)
}

/// The names of a construct.
pub fn names_of(alloc: Global, tree: &Tree, at: NodeId) -> Result<Named, AllocError>
    requires { at < length (constructs tree.now) }
    ensures { IfOk result (λ named. named ≡ spec_names_of (constructs tree.now) at) }
{
    let logical = logical_name(alloc, tree, at)?;
    let stack = stack_name(alloc, tree, at)?;
    let stage = stage_name(alloc, tree, at)?;
    let artifact = artifact_id(alloc, tree, at)?;
    Ok(Named {
        logical,
        stack,
        stage,
        artifact,
    })
}
