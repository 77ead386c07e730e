// One target in one consuming stack.
ghost use Rattle.std.specs.Prelude.{◌≡◌};
ghost use Rattle.cdk_homes.specs.Homes.{spelling_of};
ghost use Rattle.cdk_homes.specs.Views.{entry_view, spelling_view};

use crate::target::{Home, Spelling, Target};
use cdk_base::Text;
use cdk_tree::NodeId;

/// A target and the stack that uses it, and how it is spelled there.
#[derive(Drop)]
pub struct Entry {
    pub consumer: NodeId,
    pub target: Target,
    pub name: Text,
    pub how: Home,
}

impl Entry {
    /// How the target is spelled.
    pub fn spelling(&self) -> Spelling<'_>
        ensures { spelling_view result ≡ spelling_of (entry_view self.now) }
    {
        let name = self.name.as_str();
        match self.how {
            Home::Local => Spelling::Local(name),
            Home::Import => Spelling::Import(name),
            Home::ImportList => Spelling::ImportList(name),
        }
    }
}
