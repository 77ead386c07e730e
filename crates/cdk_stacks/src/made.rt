// The names of all constructs.
ghost use Rattle.std.specs.Prelude.{◌≡◌, IfOk, option_map};
ghost use Rattle.cdk_tree.specs.TreeView.{constructs};
ghost use Rattle.cdk_stacks.specs.Made.{names_at, AreNamesOf};

use crate::named::{Named, names_of};
use cdk_base::{List, Text};
use cdk_tree::{NodeId, Tree};
use std::alloc::{AllocError, Global};

fn borrowed(text: &Option<Text>) -> Option<&str>
    ensures { option_map (λ s. s.now) result ≡ text.now }
{
    match text {
        Some(text) => Some(text.as_str()),
        None => None,
    }
}

/// The names of a tree's constructs. No look-up takes memory.
#[derive(Drop)]
pub struct Names {
    each: List<Named>,
}

impl Names {
    /// The names of a tree's constructs, of whatever form.
    pub(crate) fn of(alloc: Global, tree: &Tree) -> Result<Names, AllocError>
        ensures { IfOk result (λ names. AreNamesOf names (constructs tree.now)) }
    {
        let mut each = List::new(alloc);
        for number in 0..tree.len() {
            let Some(at) = tree.id(number) else {
                unreachable!()
            };
            let named = names_of(alloc, tree, at)?;
            each.push(named)?;
        }
        Ok(Names { each })
    }

    /// The logical name of an element (AWS CDK): its `logicalId` where it has one, else the unique id of the ids from below
    /// its stack down to its own. None exactly where the construct is no element.
    pub fn logical(&self, at: NodeId) -> Option<&str>
        ensures { option_map (λ s. s.now) result ≡ (names_at self.now at).logical }
    {
        match self.each.get(at.number()) {
            Some(named) => borrowed(&named.logical),
            None => None,
        }
    }

    /// The name of a stack: its id, after the name of the stage around it and `-` where there is one (own, after AWS CDK).
    /// None exactly where the construct is no stack.
    pub fn stack_name(&self, at: NodeId) -> Option<&str>
        ensures { option_map (λ s. s.now) result ≡ (names_at self.now at).stack }
    {
        match self.each.get(at.number()) {
            Some(named) => borrowed(&named.stack),
            None => None,
        }
    }

    /// The name of a stage, made as a stack's. None exactly where the construct is no stage.
    pub fn stage_name(&self, at: NodeId) -> Option<&str>
        ensures { option_map (λ s. s.now) result ≡ (names_at self.now at).stage }
    {
        match self.each.get(at.number()) {
            Some(named) => borrowed(&named.stage),
            None => None,
        }
    }

    /// The artifact id in the assembly that the construct stands in (AWS CDK's cloud assembly): of a stack its id directly
    /// under the app, else the unique id of its path; of a stage `assembly-` and its name. None exactly where the
    /// construct is neither.
    pub fn artifact(&self, at: NodeId) -> Option<&str>
        ensures { option_map (λ s. s.now) result ≡ (names_at self.now at).artifact }
    {
        match self.each.get(at.number()) {
            Some(named) => borrowed(&named.artifact),
            None => None,
        }
    }
}
