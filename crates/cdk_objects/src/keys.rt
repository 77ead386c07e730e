// The keys of constructs in the objects of others.
ghost use Rattle.std.specs.Prelude.{◌≡◌, ◌<◌, length, IfOk};
ghost use Rattle.cdk_tree.specs.TreeView.{constructs};
ghost use Rattle.cdk_objects.specs.Keys.{metadata_key as spec_metadata_key};

use cdk_base::Text;
use cdk_tree::{NodeId, Tree};
use std::alloc::{AllocError, Global};

/// An element's key in its stack's metadata: its path after a slash. Fails where no memory is found.
pub fn metadata_key(alloc: Global, tree: &Tree, at: NodeId) -> Result<Text, AllocError>
    requires { at < length (constructs tree.now) }
    ensures { IfOk result (λ key. key ≡ spec_metadata_key (constructs tree.now) at) }
{
    let path = tree.path_of(at);
    let key = format!(in alloc; "/{path}")?;
    Ok(Text::from_string(key))
}
