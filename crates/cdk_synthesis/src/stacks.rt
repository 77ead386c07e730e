// The stacks of a tree.
ghost use Rattle.std.specs.Prelude.{◌≡◌};
ghost use Rattle.cdk_tree.specs.TreeView.{constructs};
ghost use Rattle.cdk_synthesis.specs.Stacks.{first_stack as spec_first_stack};

use cdk_scoping::is_stack;
use cdk_tree::{NodeId, Tree};

/// The first stack in walk order; the root where there is none.
pub(crate) fn first_stack(tree: &Tree) -> NodeId
    ensures { result ≡ spec_first_stack (constructs tree.now) }
{
    for number in 0..tree.len() {
        let Some(at) = tree.id(number) else {
            unreachable!()
        };
        if is_stack(&tree.node(at).kind) {
            return at;
        }
    }
    NodeId::ROOT
}
