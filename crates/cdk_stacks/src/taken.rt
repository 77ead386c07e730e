// What constructs claim, and whether it is taken.
ghost use Rattle.std.specs.Prelude.{◌≡◌, ◌<◌, ◌+◌, length, List, IfOk, OnOk, option_map};
ghost use Rattle.cdk_tree.specs.Placed.{Placed};
ghost use Rattle.cdk_tree.specs.PlaceFindings.{first};
ghost use Rattle.cdk_tree.specs.TreeView.{constructs};
ghost use Rattle.cdk_stacks.specs.Claims.{artifact_claim as spec_artifact_claim, has_taken_name, logical_claim as spec_logical_claim, stack_claim as spec_stack_claim, wrong_names};
ghost use Rattle.cdk_stacks.specs.Made.{AreNamesOf};
ghost use Rattle.cdk_claims.specs.Taken.{claim_view};
ghost use Rattle.cdk_stacks.specs.Taken.{HasTaken};

use crate::forms::is_misnamed;
use crate::made::Names;
use crate::staged::assembly_of;
use cdk_base::Code;
use cdk_claims::{Claim, ScopedNames};
use cdk_tree::{NodeId, Tree};
use std::alloc::{AllocError, Global};

/// An element claims its logical name in its stack.
fn logical_claim<'a>(tree: &Tree, names: &'a Names, at: NodeId) -> Option<Claim<'a>>
    requires within { at < length (constructs tree.now) }
    requires names { AreNamesOf names.now (constructs tree.now) }
    ensures { option_map claim_view result ≡ spec_logical_claim (constructs tree.now) at }
{
    let Some(stack) = tree.stack_of(at) else {
        return None;
    };
    match names.logical(at) {
        Some(name) => Some(Claim {
            scope: stack.number(),
            name,
        }),
        None => None,
    }
}

/// A stack claims its name in the application.
fn stack_claim<'a>(names: &'a Names, at: NodeId) -> Option<Claim<'a>>
    ensures { (cs : List Placed) → AreNamesOf names.now cs → option_map claim_view result ≡ spec_stack_claim cs at }
{
    match names.stack_name(at) {
        Some(name) => Some(Claim { scope: 0, name }),
        None => None,
    }
}

/// A stack or stage claims its artifact id in the assembly that it stands in.
fn artifact_claim<'a>(tree: &Tree, names: &'a Names, at: NodeId) -> Option<Claim<'a>>
    requires within { at < length (constructs tree.now) }
    requires names { AreNamesOf names.now (constructs tree.now) }
    ensures { option_map claim_view result ≡ spec_artifact_claim (constructs tree.now) at }
{
    let assembly = assembly_of(tree, at);
    match names.artifact(at) {
        Some(name) => Some(Claim {
            scope: assembly.number(),
            name,
        }),
        None => None,
    }
}

/// The names that are taken by the constructs so far, and by the tree file.
#[derive(Drop)]
pub struct Taken<'a> {
    logical: ScopedNames<'a>,
    stacks: ScopedNames<'a>,
    artifacts: ScopedNames<'a>,
}

impl<'a> Taken<'a> {
    /// The tree file alone has a name: `Tree`, in the root assembly.
    pub fn new(alloc: Global) -> Result<Taken<'a>, AllocError>
        ensures { IfOk result (λ taken. (cs : List Placed) → HasTaken taken cs 0) }
    {
        let mut artifacts = ScopedNames::new(alloc);
        artifacts.put(Some(Claim {
            scope: 0,
            name: "Tree",
        }))?;
        Ok(Taken {
            logical: ScopedNames::new(alloc),
            stacks: ScopedNames::new(alloc),
            artifacts,
        })
    }

    fn has_name(&self, tree: &Tree, names: &'a Names, at: NodeId) -> bool
        requires within { at < length (constructs tree.now) }
        requires names { AreNamesOf names.now (constructs tree.now) }
        requires taken { HasTaken self.now (constructs tree.now) at }
        ensures { result ≡ has_taken_name (constructs tree.now) at }
    {
        if self.logical.has(logical_claim(tree, names, at)) {
            return true;
        }
        if self.stacks.has(stack_claim(names, at)) {
            return true;
        }
        self.artifacts.has(artifact_claim(tree, names, at))
    }

    /// What is wrong with the names of a construct, the lowest number where there are two.
    pub fn wrong_name(&self, tree: &Tree, names: &'a Names, at: NodeId) -> Option<Code>
        requires within { at < length (constructs tree.now) }
        requires names { AreNamesOf names.now (constructs tree.now) }
        requires taken { HasTaken self.now (constructs tree.now) at }
        ensures { result ≡ first (wrong_names (constructs tree.now) at) }
    {
        if is_misnamed(tree, names, at) {
            return Some(Code::BadName);
        }
        if self.has_name(tree, names, at) {
            return Some(Code::SameName);
        }
        None
    }

    /// Takes the names of the next construct.
    pub fn put_names(&mut self, tree: &Tree, names: &'a Names, at: NodeId) -> Result<(), AllocError>
        requires within { at < length (constructs tree.now) }
        requires names { AreNamesOf names.now (constructs tree.now) }
        requires taken { HasTaken self.old (constructs tree.now) at }
        ensures { OnOk result (HasTaken self.new (constructs tree.now) (at + 1)) }
    {
        self.logical.put(logical_claim(tree, names, at))?;
        self.stacks.put(stack_claim(names, at))?;
        self.artifacts.put(artifact_claim(tree, names, at))?;
        Ok(())
    }
}
