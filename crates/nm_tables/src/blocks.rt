//! The blocks of a page table, and where each block's entries are stored.

ghost use Rattle.std.specs.Prelude.{◌≡◌, ◌≤◌, ◌<◌, ◌/◌, ◌^◌, ℕ, [], ◌++◌, None, Some, IsSome, IfSome, IfNone, OnOk, OnErr};
ghost use Rattle.std.specs.List.Sorted.{IsStrictlySortedBy};
ghost use Rattle.std.specs.Map.{keys_of};
ghost use Rattle.std.specs.Ordering.{nat_cmp};
ghost use Rattle.std.specs.declared.ops.Bound.TheVariants.{Included};
ghost use Rattle.std.specs.BTreeMap.Range.{entries_between};
ghost use Rattle.nm_types.specs.Map.{get, set, replace, without};
ghost use Rattle.nm_tables.specs.definitions.Lists.{Extends, IsCutShort};
ghost use Rattle.nm_tables.specs.views.Blocks.{slot_entries, IsSlotOf, block_entries, IsBlocks};
ghost use Rattle.nm_tables.specs.declared.slot.Slot.TheVariants.{Lone, Leaf};

use crate::Entry;
use crate::index::Index;
use crate::leaf::{block_of, clear_in, entry_in, first_in, has_no_other, set_in};
use crate::places::Places;
use crate::slot::Slot;
use nm_types::Vpn;
use std::alloc::{AllocError, Allocator};

/// The entries of a page table, in blocks of 512 page numbers. A block gets a leaf with its second entry and keeps it
/// until its last entry goes, and the block with it. Room for the leaf is reserved with the first entry; it takes no
/// physical memory until it is written to.
#[derive(Drop)]
pub(crate) struct Blocks<A: Allocator + Copy> {
    /// The slot of each block that has an entry.
    index: Index<A>,
    /// One for each block that has a leaf, in any order.
    leaves: Vec<Places, A>,
    /// How many blocks have no leaf. There is room for as many more leaves.
    without: usize,
}

impl<A: Allocator + Copy> Blocks<A> {
    /// Makes blocks without entries. Does not allocate.
    pub(crate) fn new(alloc: A) -> Self
        ensures none { block_entries result ≡ [] }
        ensures kept { IsBlocks result }
    {
        Blocks {
            index: Index::new(alloc),
            leaves: Vec::new(alloc),
            without: 0,
        }
    }

    /// The entry at a page number.
    #[inline]
    pub(crate) fn get(&self, vpn: Vpn) -> Option<Entry>
        requires { IsBlocks self.now }
        ensures { result ≡ get nat_cmp (block_entries self.now) vpn }
    {
        match self.leaf_near(block_of(vpn)) {
            Some(number) => entry_in(&self.leaves[number], vpn),
            None => self.get_by_index(vpn),
        }
    }

    /// The leaf of a block, if the leaves from the first one to it are those of the blocks between, in order, as they
    /// mostly are.
    #[inline]
    fn leaf_near(&self, block: u64) -> Option<usize>
        requires { IsBlocks self.now }
        ensures { IfSome result (λ i. get nat_cmp self.now.index block ≡ Some (Leaf i)) }
    {
        let first = self.leaves.first()?;
        let near = block.wrapping_sub(first.block) as usize;
        let leaf = self.leaves.get(near)?;
        if leaf.block == block {
            Some(near)
        } else {
            None
        }
    }

    /// The entry at a page number, found by the index.
    #[inline(never)]
    fn get_by_index(&self, vpn: Vpn) -> Option<Entry>
        requires { IsBlocks self.now }
        ensures { result ≡ get nat_cmp (block_entries self.now) vpn }
    {
        match self.index.get(block_of(vpn))? {
            Slot::Lone(own, entry) => { if own == vpn { Some(entry) } else { None } }
            Slot::Leaf(number) => entry_in(&self.leaves[number], vpn),
        }
    }

    /// The first entry at or after a page number. It is in one of the first two blocks from that number's on: each
    /// block has an entry, and only the first may have all of its entries before the number.
    pub(crate) fn first_from(&self, at: Vpn) -> Option<(Vpn, Entry)>
        requires { IsBlocks self.now }

        // If there is one
        ensures some { IfSome result
            (λ e. (at ≤ e.0) × (get nat_cmp (block_entries self.now) e.0 ≡ Some e.1)) }
        ensures first { IfSome result
            (λ e. (v : ℕ) → at ≤ v → v < e.0 → get nat_cmp (block_entries self.now) v ≡ None) }

        // If there is none
        ensures none { IfNone result
            ((v : ℕ) → at ≤ v → get nat_cmp (block_entries self.now) v ≡ None) }
    {
        let mut from = block_of(at);
        while let Some((block, slot)) = self.block_from(from) {
            if let Some(found) = self.first_of(slot, at) {
                return Some(found);
            }
            from = block + 1;
        }
        None
    }

    /// The first block at or after a block number that has an entry, with its slot.
    fn block_from(&self, from: u64) -> Option<(u64, Slot)>
        requires { IsBlocks self.now }

        // If there is one
        ensures some { IfSome result
            (λ e. (from ≤ e.0) × (get nat_cmp self.now.index e.0 ≡ Some e.1)) }
        ensures slot { IfSome result (λ e. IsSlotOf self.now.leaves.items e.1 e.0) }
        ensures first { IfSome result
            (λ e. (k : ℕ) → from ≤ k → k < e.0 → get nat_cmp self.now.index k ≡ None) }

        // If there is none
        ensures none { IfNone result ((k : ℕ) → from ≤ k → get nat_cmp self.now.index k ≡ None) }
    {
        self.index.first_from(from)
    }

    /// The first entry of a block with this slot at or after a page number.
    fn first_of(&self, slot: Slot, at: Vpn) -> Option<(Vpn, Entry)>
        requires { (block : ℕ) × IsSlotOf self.now.leaves.items slot block }

        // If there is one
        ensures some { IfSome result
            (λ e. (at ≤ e.0)
            × (get nat_cmp (slot_entries self.now.leaves.items slot) e.0 ≡ Some e.1)) }
        ensures first { IfSome result
            (λ e. (v : ℕ) →
            at ≤ v →
            v < e.0 →
            get nat_cmp (slot_entries self.now.leaves.items slot) v ≡ None) }

        // If there is none
        ensures none { IfNone result
            ((v : ℕ) → at ≤ v → get nat_cmp (slot_entries self.now.leaves.items slot) v ≡ None) }
    {
        match slot {
            Slot::Lone(own, entry) => { if own < at { None } else { Some((own, entry)) } }
            Slot::Leaf(number) => first_in(&self.leaves[number], at),
        }
    }

    /// Sets the entry at a page number. An error means that the host is out of memory, that the block has no entry, and
    /// that nothing has changed except the room for leaves.
    pub(crate) fn set(&mut self, vpn: Vpn, entry: Entry) -> Result<(), AllocError>
        requires { IsBlocks self.old }

        // On success
        ensures ok { OnOk result
            (block_entries self.new ≡ set nat_cmp (block_entries self.old) vpn entry) }

        // Without memory
        ensures err { OnErr result (block_entries self.new ≡ block_entries self.old) }
        ensures empty { OnErr result (get nat_cmp self.old.index (vpn / 512) ≡ None) }

        // In any case
        ensures kept { IsBlocks self.new }
    {
        match self.index.get(block_of(vpn)) {
            Some(slot) => {
                self.put(slot, vpn, entry);
                Ok(())
            }
            None => self.begin(vpn, entry),
        }
    }

    /// Sets the first entry of a block, and reserves room for its leaf.
    fn begin(&mut self, vpn: Vpn, entry: Entry) -> Result<(), AllocError>
        requires kept { IsBlocks self.old }
        requires empty { get nat_cmp self.old.index (vpn / 512) ≡ None }

        // On success
        ensures ok { OnOk result
            (block_entries self.new ≡ set nat_cmp (block_entries self.old) vpn entry) }

        // Without memory
        ensures err { OnErr result (block_entries self.new ≡ block_entries self.old) }

        // In any case
        ensures kept { IsBlocks self.new }
    {
        self.leaves.reserve(self.without + 1)?;
        self.index.set(block_of(vpn), Slot::Lone(vpn, entry))?;
        self.without += 1;
        Ok(())
    }

    /// Sets an entry of a block that has this slot. Does not allocate.
    fn put(&mut self, slot: Slot, vpn: Vpn, entry: Entry)
        requires kept { IsBlocks self.old }
        requires there { get nat_cmp self.old.index (vpn / 512) ≡ Some slot }
        ensures entries { block_entries self.new ≡ set nat_cmp (block_entries self.old) vpn entry }
        ensures kept { IsBlocks self.new }
    {
        match slot {
            Slot::Lone(own, first) => {
                if own == vpn {
                    self.index.replace(block_of(vpn), Slot::Lone(vpn, entry));
                } else {
                    self.add_leaf(own, first, vpn, entry);
                }
            }
            Slot::Leaf(number) => self.put_in_leaf(number, vpn, entry),
        }
    }

    /// Sets an entry of a block that has this leaf. Does not allocate.
    #[inline]
    fn put_in_leaf(&mut self, number: usize, vpn: Vpn, entry: Entry)
        requires kept { IsBlocks self.old }
        requires there { get nat_cmp self.old.index (vpn / 512) ≡ Some (Leaf number) }
        ensures entries { block_entries self.new ≡ set nat_cmp (block_entries self.old) vpn entry }
        ensures kept { IsBlocks self.new }
    {
        set_in(&mut self.leaves[number], vpn, entry);
    }

    /// Sets the second entry of a block, which gets its leaf. Does not allocate. Kept apart from `put`, so that `put`
    /// needs no room for a leaf on the stack.
    #[inline(never)]
    fn add_leaf(&mut self, own: Vpn, first: Entry, vpn: Vpn, entry: Entry)
        requires kept { IsBlocks self.old }
        requires there { get nat_cmp self.old.index (vpn / 512) ≡ Some (Lone own first) }
        ensures entries { block_entries self.new ≡ set nat_cmp (block_entries self.old) vpn entry }
        ensures kept { IsBlocks self.new }
    {
        let block = block_of(vpn);
        let mut leaf = Places::new(block);
        set_in(&mut leaf, own, first);
        set_in(&mut leaf, vpn, entry);
        let number = self.leaves.len();
        self.leaves.push_reserved(leaf);
        self.index.replace(block, Slot::Leaf(number));
        self.without -= 1;
    }

    /// Replaces the entry at a page number that has one. Does not allocate.
    #[inline]
    pub(crate) fn replace(&mut self, vpn: Vpn, entry: Entry)
        requires kept { IsBlocks self.old }
        requires there { IsSome (get nat_cmp (block_entries self.old) vpn) }
        ensures entries { block_entries self.new
            ≡ replace nat_cmp (block_entries self.old) vpn entry }
        ensures kept { IsBlocks self.new }
    {
        match self.leaf_near(block_of(vpn)) {
            Some(number) => self.put_in_leaf(number, vpn, entry),
            None => self.replace_by_index(vpn, entry),
        }
    }

    /// Replaces the entry at a page number that has one, found by the index. Does not allocate.
    #[inline(never)]
    fn replace_by_index(&mut self, vpn: Vpn, entry: Entry)
        requires kept { IsBlocks self.old }
        requires there { IsSome (get nat_cmp (block_entries self.old) vpn) }
        ensures entries { block_entries self.new
            ≡ replace nat_cmp (block_entries self.old) vpn entry }
        ensures kept { IsBlocks self.new }
    {
        let Some(slot) = self.index.get(block_of(vpn)) else {
            unreachable!()
        };
        self.put(slot, vpn, entry);
    }

    /// Makes a page number absent. Does not allocate.
    pub(crate) fn clear(&mut self, vpn: Vpn)
        requires { IsBlocks self.old }
        ensures entries { block_entries self.new ≡ without nat_cmp (block_entries self.old) vpn }
        ensures kept { IsBlocks self.new }
    {
        let block = block_of(vpn);
        let Some(slot) = self.index.get(block) else {
            return;
        };
        match slot {
            Slot::Lone(own, _) => {
                if own == vpn {
                    self.index.remove(block);
                    self.without -= 1;
                }
            }
            Slot::Leaf(number) => {
                if has_no_other(&self.leaves[number], vpn) {
                    self.remove_leaf(number, vpn);
                } else {
                    clear_in(&mut self.leaves[number], vpn);
                }
            }
        }
    }

    /// Removes a leaf that has no entry except at this page number, and its block. The last leaf gets its number. Does
    /// not allocate.
    fn remove_leaf(&mut self, number: usize, vpn: Vpn)
        requires kept { IsBlocks self.old }
        requires there { get nat_cmp self.old.index (vpn / 512) ≡ Some (Leaf number) }
        requires none { without nat_cmp (slot_entries self.old.leaves.items (Leaf number)) vpn ≡ [] }
        ensures entries { block_entries self.new ≡ without nat_cmp (block_entries self.old) vpn }
        ensures kept { IsBlocks self.new }
    {
        self.index.remove(block_of(vpn));
        self.leaves.swap_remove(number);
        if number == self.leaves.len() {
            return;
        }
        let moved = self.leaves[number].block;
        self.index.replace(moved, Slot::Leaf(number));
    }

    /// Appends the entries from one page number to another, both included, to a list, in ascending order. An error means
    /// that only the first few of them were appended, or none.
    pub(crate) fn list_within(
        &self,
        first: Vpn,
        last: Vpn,
        list: &mut Vec<(Vpn, Entry), A>,
    ) -> Result<(), AllocError>
        requires { IsBlocks self.now }
        ensures ok { OnOk result
            (list.new.items
            ≡ list.old.items
            ++ entries_between nat_cmp (Included first) (Included last)
            (block_entries self.now)) }
        ensures before { Extends list.old.items list.new.items }
        ensures short { OnErr result
            (IsCutShort list.new.items
            (list.old.items
            ++ entries_between nat_cmp (Included first) (Included last)
            (block_entries self.now))) }
    {
        self.index
            .list_within(self.leaves.as_slice(), first, last, list)
    }
}
