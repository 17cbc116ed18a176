//! Sets of nodes.

ghost use Rattle.std.specs.Prelude.{◌≡◌, ◌<◌, ◌↔◌, [], IsTrue, drop, length, nat_le, slice_get};
ghost use Rattle.std.specs.List.{filter, list_all, list_any};
ghost use Rattle.std.specs.Ordering.{nat_cmp};
ghost use Rattle.std.specs.BTreeSet.{insert_key};
ghost use Rattle.nm_types.specs.Nodes.{is_in, without_node, IsNodeSet};

use crate::numbers::NodeId;
use std::marker::Model;

/// A set of nodes below 64. Contracts see the list of its node numbers, in ascending order.
#[derive(Clone, Copy, Debug, PartialEq, Eq)]
pub struct NodeMask {
    bits: u64,
}

impl Model for NodeMask {
    ghost use Rattle.std.specs.Prelude.{ℕ, List, ◌<◌, ◌^◌};

    ghost Value = { List ℕ };

    ghost use Rattle.nm_types.specs.Nodes.{members, mask_of};
    ghost use Rattle.nm_types.specs.Masks.{mask_of-members};

    ghost view = { λ m. members m.bits };

    ghost invariant = { λ m. m.bits < 2 ^ 64 };

    ghost inverse = { λ ns. record { bits = mask_of ns } };

    ghost inverse_ok = { λ a h. mask_of-members a h };
}

impl NodeMask {
    /// The empty set.
    pub const fn new() -> Self
        ensures { result ≡ [] }
    {
        NodeMask { bits: 0 }
    }

    /// Whether the set is empty.
    pub fn is_empty(self) -> bool
        ensures { IsTrue result ↔ (self ≡ []) }
    {
        self.bits == 0
    }

    /// Whether the node is in the set.
    pub fn contains(self, node: NodeId) -> bool
        ensures { result ≡ is_in self node }
    {
        node.number() < 64 && (self.bits >> node.number()) & 1 == 1
    }

    /// The nodes that are in both sets.
    pub fn intersection(self, other: Self) -> Self
        ensures { result ≡ filter (is_in other) self }
    {
        NodeMask {
            bits: self.bits & other.bits,
        }
    }

    /// Whether each of its nodes is also in `other`.
    pub fn is_subset(self, other: Self) -> bool
        ensures { result ≡ list_all (is_in other) self }
    {
        self.intersection(other) == self
    }

    /// Adds a node, which must be below 64.
    pub fn insert(&mut self, node: NodeId)
        requires { node < 64 }
        ensures { self.new ≡ insert_key nat_cmp self.old node }
    {
        self.bits |= 1 << node.number();
    }

    /// Removes a node, if it is in the set.
    pub fn remove(&mut self, node: NodeId)
        ensures { self.new ≡ without_node self.old node }
    {
        if node.number() < 64 {
            self.bits &= !(1 << node.number());
        }
    }

    /// Removes the lowest node and returns it. None if the set is empty.
    pub fn take_first(&mut self) -> Option<NodeId>
        ensures first { result ≡ slice_get self.old 0 }
        ensures rest { self.new ≡ drop 1 self.old }
    {
        if self.bits == 0 {
            return None;
        }
        let lowest = self.bits.trailing_zeros();
        self.bits &= !(1 << lowest);
        Some(NodeId::new(lowest))
    }

    /// Whether it has a node that is not below `count`.
    pub fn has_beyond(self, count: usize) -> bool
        ensures { result ≡ list_any (nat_le count) self }
    {
        let mut rest = self;
        while let Some(node) = rest.take_first() {
            if node.index() >= count {
                return true;
            }
        }
        false
    }

    /// How many nodes it has: at most 64.
    pub fn len(self) -> usize
        ensures count { result ≡ length self }
        ensures nodes { IsNodeSet self }
    {
        let mut rest = NodeMask { bits: self.bits };
        let mut count = 0;
        while rest.take_first().is_some() {
            count += 1;
        }
        count
    }

    /// The node at a place, counted from 0 in ascending order. None past the last.
    pub fn nth(self, place: usize) -> Option<NodeId>
        ensures { result ≡ slice_get self place }
    {
        let mut rest = self;
        for _ in 0..place {
            rest.take_first()?;
        }
        rest.take_first()
    }
}
