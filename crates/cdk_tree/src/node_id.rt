ghost use Rattle.std.specs.Prelude.{◌≡◌};

use std::marker::Model;

/// A construct's number: below the length of its tree, in the order of the walk. 0 is the root. It is seen as the number.
#[derive(Clone, Copy, PartialEq, Eq, Debug)]
pub struct NodeId {
    number: usize,
}

impl Model for NodeId {
    ghost use Rattle.std.specs.Prelude.{ℕ};

    ghost Value = { ℕ };

    ghost view = { λ n. n.number };

    ghost inverse = { λ n. record { number = n } };
}

impl NodeId {
    /// The root of every tree.
    pub const ROOT: NodeId = NodeId { number: 0 };

    pub(crate) fn new(number: usize) -> NodeId
        ensures { result ≡ number }
    {
        NodeId { number }
    }

    /// The number, to index what is kept for each construct.
    pub fn number(self) -> usize
        ensures { result ≡ self }
    {
        self.number
    }
}
