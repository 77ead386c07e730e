// What templates are made of.
ghost use Rattle.std.specs.Prelude.{◌≡◌};
ghost use Rattle.cdk_resolve.specs.KeptView.{IsRight, kept_scope};
ghost use Rattle.cdk_template.specs.Sources.{AreSources, scope_in};

use cdk_base::List;
use cdk_entries::Named;
use cdk_homes::Homes;
use cdk_resolve::Kept;
use cdk_stacks::Names;
use cdk_tokens::{Marked, Table};
use cdk_tree::{NodeId, Tree};
use std::alloc::Global;

/// What the templates of an application are made of.
#[derive(Clone, Copy)]
pub struct Sources<'a> {
    /// Where memory is taken from.
    pub alloc: Global,
    pub tree: &'a Tree,
    /// The names of the tree's constructs.
    pub names: &'a Names,
    /// The tokens of the tree's values.
    pub table: &'a Table,
    /// The marked values of the tree's constructs.
    pub marked: &'a Marked,
    /// How targets are spelled.
    pub homes: &'a Homes,
    /// The lazies, each behind those that it mentions, as `cdk_lazies::lazy_order` answers them.
    pub order: &'a List<NodeId>,
}

impl<'a> Sources<'a> {
    /// The tree with its names alone.
    pub(crate) fn named(&self) -> Named<'a>
        ensures { result ≡ record { alloc = self.now.alloc; tree = self.now.tree; names = self.now.names } }
    {
        Named {
            alloc: self.alloc,
            tree: self.tree,
            names: self.names,
        }
    }
}

/// What renders the values of a stack, with nothing kept yet. It takes no memory.
pub fn kept_for<'a>(sources: &Sources<'a>, stack: NodeId) -> Kept<'a>
    requires { AreSources sources.now }
    ensures scope { kept_scope result ≡ scope_in sources.now stack }
    ensures right { IsRight result }
{
    Kept::new(
        sources.alloc,
        sources.table,
        sources.marked,
        sources.homes,
        stack,
        sources.order,
    )
}
