ghost use Rattle.std.specs.Prelude.{◌≡◌, ℕ};

use std::marker::Model;

/// A node's number. A machine of n nodes has the nodes 0 to n - 1.
#[derive(Clone, Copy, Debug, PartialEq, Eq, PartialOrd, Ord, Hash)]
pub struct NodeId {
    number: u32,
}

impl Model for NodeId {
    ghost Value = { ℕ };

    ghost view = { λ n. n.number };

    ghost inverse = { λ n. record { number = n } };
}

impl NodeId {
    /// The NodeId with this number.
    pub const fn new(number: u32) -> Self
        ensures { result ≡ number }
    {
        NodeId { number }
    }

    /// Its number.
    pub const fn number(self) -> u32
        ensures { result ≡ self }
    {
        self.number
    }

    /// Its number as an index into a list.
    pub const fn index(self) -> usize
        ensures { result ≡ self }
    {
        Self::number(self) as usize
    }
}
