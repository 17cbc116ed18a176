//! The blocks of a page table that have entries, in order.

ghost use Rattle.std.specs.Prelude.{◌≡◌, ◌≤◌, ◌<◌, ℕ, [], ◌++◌, None, Some, IsSome, IfSome, IfNone, OnOk, OnErr};
ghost use Rattle.std.specs.List.Sorted.{IsStrictlySortedBy};
ghost use Rattle.std.specs.Map.{keys_of};
ghost use Rattle.std.specs.Ordering.{nat_cmp};
ghost use Rattle.std.specs.declared.ops.Bound.TheVariants.{Included};
ghost use Rattle.std.specs.BTreeMap.Range.{entries_between};
ghost use Rattle.nm_types.specs.Map.{get, set, replace, without};
ghost use Rattle.nm_tables.specs.definitions.Lists.{Extends, IsCutShort};
ghost use Rattle.nm_tables.specs.views.Blocks.{entries_by, AreBlocks};

use crate::Entry;
use crate::branch::Branch;
use crate::cell::Cell;
use crate::places::Places;
use crate::slot::Slot;
use crate::subtree::Subtree;
use nm_types::Vpn;
use std::alloc::{AllocError, Allocator};
use std::marker::Model;

/// Three levels of inner nodes over the blocks.
type Root<A> = Branch<Branch<Branch<Cell, A>, A>, A>;

/// The slots of blocks, by block number. Contracts see the map from number to slot.
#[derive(Drop)]
pub(crate) struct Index<A: Allocator + Copy> {
    alloc: A,
    /// None if there is no block.
    root: Option<Root<A>>,
}

impl<A: Allocator + Copy> Model for Index<A> {
    ghost use Rattle.std.specs.Prelude.{ℕ};
    ghost use Rattle.nm_types.specs.Map.{Map};
    ghost use Rattle.nm_tables.specs.declared.slot.Slot.{Slot};

    ghost Value = { Map ℕ Slot };

    ghost use Rattle.nm_tables.specs.views.Index.{root_slots, IsRoot};

    ghost view = { λ t. root_slots t.root };

    ghost invariant = { λ t. IsRoot t.root };
}

impl<A: Allocator + Copy> Index<A> {
    /// Makes an index without blocks. Does not allocate; `set` allocates from `alloc`.
    pub(crate) fn new(alloc: A) -> Self
        ensures { result ≡ [] }
    {
        Index { alloc, root: None }
    }

    /// The slot of a block.
    #[inline]
    pub(crate) fn get(&self, block: u64) -> Option<Slot>
        ensures slot { result ≡ get nat_cmp self.now block }
        ensures ordered { IsStrictlySortedBy nat_cmp (keys_of self.now) }
    {
        match &self.root {
            None => None,
            Some(root) => root.get(block),
        }
    }

    /// The first block at or after a number that has a slot, and its slot.
    pub(crate) fn first_from(&self, at: u64) -> Option<(u64, Slot)>
        // If there is one
        ensures some { IfSome result (λ e. (at ≤ e.0) × (get nat_cmp self.now e.0 ≡ Some e.1)) }
        ensures first { IfSome result
            (λ e. (v : ℕ) → at ≤ v → v < e.0 → get nat_cmp self.now v ≡ None) }

        // If there is none
        ensures none { IfNone result ((v : ℕ) → at ≤ v → get nat_cmp self.now v ≡ None) }

        // In any case
        ensures ordered { IsStrictlySortedBy nat_cmp (keys_of self.now) }
    {
        match &self.root {
            None => None,
            Some(root) => root.first_from(at),
        }
    }

    /// Appends the entries that the blocks have from one page number to another, both included, to a list, in ascending
    /// order. The slots name leaves of `leaves`. An error means that only the first few of them were appended, or
    /// none.
    pub(crate) fn list_within(
        &self,
        leaves: &[Places],
        first: Vpn,
        last: Vpn,
        list: &mut Vec<(Vpn, Entry), A>,
    ) -> Result<(), AllocError>
        requires { AreBlocks leaves.now self.now }
        ensures ok { OnOk result
            (list.new.items
            ≡ list.old.items
            ++ entries_between nat_cmp (Included first) (Included last)
            (entries_by leaves.now self.now)) }
        ensures before { Extends list.old.items list.new.items }
        ensures short { OnErr result
            (IsCutShort list.new.items
            (list.old.items
            ++ entries_between nat_cmp (Included first) (Included last)
            (entries_by leaves.now self.now))) }
    {
        match &self.root {
            None => Ok(()),
            Some(root) => root.list_within(leaves, first, last, list),
        }
    }

    /// Sets the slot of a block. An error means that the host is out of memory, and that nothing has changed.
    pub(crate) fn set(&mut self, block: u64, slot: Slot) -> Result<(), AllocError>
        ensures ok { OnOk result (self.new ≡ set nat_cmp self.old block slot) }
        ensures err { OnErr result (self.new ≡ self.old) }
        ensures ordered { IsStrictlySortedBy nat_cmp (keys_of self.old) }
    {
        match &mut self.root {
            None => {
                self.root = Some(Branch::holding(self.alloc, block, slot)?);
                Ok(())
            }
            Some(root) => root.set(self.alloc, block, slot),
        }
    }

    /// Replaces the slot of a block that has one. Does not allocate.
    pub(crate) fn replace(&mut self, block: u64, slot: Slot)
        requires { IsSome (get nat_cmp self.old block) }
        ensures slot { self.new ≡ replace nat_cmp self.old block slot }
        ensures ordered { IsStrictlySortedBy nat_cmp (keys_of self.old) }
    {
        match &mut self.root {
            None => unreachable!(),
            Some(root) => root.replace(block, slot),
        }
    }

    /// Removes a block that has a slot. Does not allocate.
    pub(crate) fn remove(&mut self, block: u64)
        requires { IsSome (get nat_cmp self.old block) }
        ensures slot { self.new ≡ without nat_cmp self.old block }
        ensures ordered { IsStrictlySortedBy nat_cmp (keys_of self.old) }
    {
        let Some(root) = &mut self.root else {
            unreachable!()
        };
        if root.remove(block) {
            self.root = None;
        }
    }
}
