// The names of stacks and stages: each stage around one gives its id, and `-` stands between them.
ghost use Rattle.std.specs.Prelude.{◌≡◌, ℕ, ◌<◌, ◌≤◌, ◌++◌, length, string_bytes, codes, OnOk, IfOk};
ghost use Rattle.cdk_tree.specs.TreeView.{constructs};
ghost use Rattle.cdk_stacks.specs.Names.{assembly_of as spec_assembly_of, staged_name as spec_staged_name, staged_within};

use cdk_base::Text;
use cdk_tree::{NodeId, Tree};
use std::alloc::{AllocError, Global};

/// The stage whose assembly a stack or stage stands in, else the root.
pub fn assembly_of(tree: &Tree, at: NodeId) -> NodeId
    requires { at < length (constructs tree.now) }
    ensures value { result ≡ spec_assembly_of (constructs tree.now) at }
    ensures before { 0 < result → result < at }
{
    match tree.parent(at) {
        Some(scope) => tree.stage_of(scope),
        None => tree.stage_of(at),
    }
}

/// Puts the name of a stack or stage to a text.
fn push_staged(tree: &Tree, at: NodeId, name: &mut String) -> Result<(), AllocError>
    requires { at < length (constructs tree.now) }
    ensures { OnOk result ((most : ℕ) → at ≤ most → string_bytes name.new ≡ string_bytes name.old ++ staged_within most (constructs tree.now) at) }
{
    let assembly = assembly_of(tree, at);
    let id = tree.node(at).id.as_str();
    if assembly.number() == 0 {
        name.push_str(id)?;
        return Ok(());
    }
    push_staged(tree, assembly, name)?;
    name.push_str("-")?;
    name.push_str(id)?;
    Ok(())
}

/// The name of a stack or stage: its id, after the name of the stage around it and `-` where there is one.
pub fn staged_name(alloc: Global, tree: &Tree, at: NodeId) -> Result<Text, AllocError>
    requires { at < length (constructs tree.now) }
    ensures { IfOk result (λ name. name ≡ spec_staged_name (constructs tree.now) at) }
{
    let mut name = String::new(alloc);
    push_staged(tree, at, &mut name)?;
    Ok(Text::from_string(name))
}

/// The artifact id of a stage's nested assembly.
pub fn stage_artifact(alloc: Global, tree: &Tree, at: NodeId) -> Result<Text, AllocError>
    requires { at < length (constructs tree.now) }
    ensures { IfOk result (λ id. id ≡ codes "assembly-" ++ spec_staged_name (constructs tree.now) at) }
{
    let mut id = String::from_str(alloc, "assembly-")?;
    push_staged(tree, at, &mut id)?;
    Ok(Text::from_string(id))
}
