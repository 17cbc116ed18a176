//! The inner nodes of an index: one part, or several.

ghost use Rattle.std.specs.Prelude.{◌≡◌, ◌/◌, ℕ, None, OnOk, OnErr};
ghost use Rattle.std.specs.List.{AllByRecursion};
ghost use Rattle.std.specs.Map.{keys_of};
ghost use Rattle.std.specs.Ordering.{nat_cmp};
ghost use Rattle.nm_types.specs.Map.{get, set};
ghost use Rattle.nm_tables.specs.definitions.Tree.{flatten};
ghost use Rattle.nm_tables.specs.definitions.Nodes.{slots_shown, IsFilledNode};
ghost use Rattle.nm_tables.specs.views.Branches.{parts_of, IsOne};

use crate::Entry;
use crate::node::Node;
use crate::places::Places;
use crate::slot::Slot;
use crate::subtree::Subtree;
use nm_types::Vpn;
use std::alloc::{AllocError, Allocator};
use std::mem;

/// An inner node of an index: parts by their numbers, the last nine bits of which are their places. A single part is
/// stored in place and needs no memory but its own, since most parts are the only ones of their node, and three nodes
/// lie above each block.
#[derive(Drop)]
pub(crate) enum Branch<T: Drop, A: Allocator + Copy> {
    /// A single part, after its number.
    One(u64, T),
    /// Several parts.
    Many(Node<T, A>),
}

impl<T: Subtree<A>, A: Allocator + Copy> Branch<T, A> {
    /// Adds a block in a new part beside the only one, which has another number. An error means that the host is out of
    /// memory, and that nothing has changed.
    fn set_beside(&mut self, alloc: A, block: u64, slot: Slot) -> Result<(), AllocError>
        requires one { IsOne self.old }
        requires kept { IsFilledNode T.whole T.is_in (parts_of self.old) }
        requires apart { get nat_cmp (parts_of self.old) (T.number block) ≡ None }

        // On success
        ensures ok { OnOk result
            (flatten (slots_shown T.slots (parts_of self.new))
            ≡ set nat_cmp (flatten (slots_shown T.slots (parts_of self.old))) block slot) }

        // Without memory
        ensures err { OnErr result
            (flatten (slots_shown T.slots (parts_of self.new))
            ≡ flatten (slots_shown T.slots (parts_of self.old))) }

        // In any case
        ensures kept { IsFilledNode T.whole T.is_in (parts_of self.new) }
        ensures inside { (i : ℕ) →
            AllByRecursion (λ k. k / 512 ≡ i) (keys_of (parts_of self.old)) →
            T.number block / 512 ≡ i →
            AllByRecursion (λ k. k / 512 ≡ i) (keys_of (parts_of self.new)) }
    {
        let own = T::number_of(block);
        let part = T::holding(alloc, block, slot)?;
        let mut parts = Vec::with_capacity(alloc, 2)?;
        let Branch::One(number, first) = mem::replace(self, Branch::Many(Node::new(alloc))) else {
            unreachable!()
        };
        if number < own {
            parts.push_reserved((number, first));
            parts.push_reserved((own, part));
        } else {
            parts.push_reserved((own, part));
            parts.push_reserved((number, first));
        }
        *self = Branch::Many(Node { parts });
        Ok(())
    }
}

impl<T: Subtree<A>, A: Allocator + Copy> Subtree<A> for Branch<T, A> {
    ghost use Rattle.std.specs.Prelude.{◌≡◌, ◌/◌};
    ghost use Rattle.std.specs.List.{AllByRecursion};
    ghost use Rattle.std.specs.Map.{keys_of};
    ghost use Rattle.nm_tables.specs.definitions.Tree.{flatten};
    ghost use Rattle.nm_tables.specs.definitions.Nodes.{slots_shown, IsFilledNode, node_ordered, node_filled, node_part, upwards_again};
    ghost use Rattle.nm_tables.specs.views.Branches.{parts_of};

    ghost slots = { λ b. flatten (slots_shown T.slots (parts_of b)) };

    ghost number = { λ v. T.number v / 512 };

    ghost whole = { λ b. IsFilledNode T.whole T.is_in (parts_of b) };

    ghost is_in = { λ b i. AllByRecursion (λ k. k / 512 ≡ i) (keys_of (parts_of b)) };

    ghost takes = { λ b v. Unit {0} };

    fn number_of(block: u64) -> u64 {
        T::number_of(block) / 512
    }

    fn holding(alloc: A, block: u64, slot: Slot) -> Result<Self, AllocError> {
        let part = T::holding(alloc, block, slot)?;
        Ok(Branch::One(T::number_of(block), part))
    }

    #[inline]
    fn get(&self, block: u64) -> Option<Slot> {
        match self {
            Branch::One(number, part) => {
                if *number == T::number_of(block) {
                    part.get(block)
                } else {
                    None
                }
            }
            Branch::Many(node) => node.get(block),
        }
    }

    fn first_from(&self, at: u64) -> Option<(u64, Slot)> {
        match self {
            Branch::One(_, part) => part.first_from(at),
            Branch::Many(node) => node.first_from(at),
        }
    }

    fn list_within(
        &self,
        leaves: &[Places],
        first: Vpn,
        last: Vpn,
        list: &mut Vec<(Vpn, Entry), A>,
    ) -> Result<(), AllocError> {
        match self {
            Branch::One(_, part) => part.list_within(leaves, first, last, list),
            Branch::Many(node) => node.list_within(leaves, first, last, list),
        }
    }

    fn set(&mut self, alloc: A, block: u64, slot: Slot) -> Result<(), AllocError> {
        match self {
            Branch::One(number, part) => {
                if *number == T::number_of(block) {
                    part.set(alloc, block, slot)
                } else {
                    self.set_beside(alloc, block, slot)
                }
            }
            Branch::Many(node) => node.set(alloc, block, slot),
        }
    }

    fn replace(&mut self, block: u64, slot: Slot) {
        match self {
            Branch::One(_, part) => part.replace(block, slot),
            Branch::Many(node) => node.replace(block, slot),
        }
    }

    fn remove(&mut self, block: u64) -> bool {
        match self {
            Branch::One(_, part) => part.remove(block),
            Branch::Many(node) => node.remove(block),
        }
    }

    ghost ordered = { λ x w. node_ordered T.slots T.number T.whole T.is_in T.parted T.upwards (parts_of x) w.0 };

    ghost filled = { λ x w. node_filled T.slots T.whole T.is_in T.filled (parts_of x) w };

    ghost parted = { λ x i w n. node_part T.slots T.number T.whole T.is_in T.parted T.upwards (parts_of x) i w.0 n };

    ghost takes_own = { λ x v n. tt };

    ghost upwards = { upwards_again T.number T.upwards };
}
