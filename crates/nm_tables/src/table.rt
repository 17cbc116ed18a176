//! A page table.

ghost use Rattle.std.specs.Prelude.{◌≡◌, ◌≤◌, ◌<◌, ◌/◌, ℕ, [], ◌++◌, length, None, Some, IsSome, IfSome, IfNone, IfOk, OnOk, OnErr};
ghost use Rattle.std.specs.List.Sorted.{IsStrictlySortedBy};
ghost use Rattle.std.specs.Map.{keys_of};
ghost use Rattle.std.specs.Ordering.{nat_cmp};
ghost use Rattle.std.specs.declared.ops.Bound.TheVariants.{Included, Excluded};
ghost use Rattle.std.specs.BTreeMap.Range.{entries_between};
ghost use Rattle.nm_types.specs.Map.{get, set, replace, without};
ghost use Rattle.nm_tables.specs.definitions.Lists.{Extends, IsCutShort};

use crate::Entry;
use crate::blocks::Blocks;
use nm_types::Vpn;
use std::alloc::{AllocError, Allocator};
use std::marker::Model;

/// A process's entries by page number. A page number without an entry is absent. Contracts see the map from page number
/// to entry.
#[derive(Drop)]
pub struct PageTable<A: Allocator + Copy> {
    alloc: A,
    blocks: Blocks<A>,
}

impl<A: Allocator + Copy> Model for PageTable<A> {
    ghost use Rattle.std.specs.Prelude.{ℕ};
    ghost use Rattle.nm_types.specs.Map.{Map};
    ghost use Rattle.nm_types.specs.declared.entry.Entry.{Entry};

    ghost Value = { Map ℕ Entry };

    ghost use Rattle.nm_tables.specs.views.Blocks.{block_entries, IsBlocks};

    ghost view = { λ t. block_entries t.blocks };

    ghost invariant = { λ t. IsBlocks t.blocks };
}

impl<A: Allocator + Copy> PageTable<A> {
    /// Makes a table in which every page number is absent. Does not allocate; `set` and `entries` allocate from
    /// `alloc`.
    pub fn new(alloc: A) -> Self
        ensures { result ≡ [] }
    {
        PageTable {
            alloc,
            blocks: Blocks::new(alloc),
        }
    }

    /// The entry at a page number, or None if it is absent.
    pub fn get(&self, vpn: Vpn) -> Option<Entry>
        ensures entry { result ≡ get nat_cmp self.now vpn }
        ensures ordered { IsStrictlySortedBy nat_cmp (keys_of self.now) }
    {
        self.blocks.get(vpn)
    }

    /// The first entry at or after a page number, with its page number. None if there is no such entry. Does not
    /// allocate.
    pub fn first_from(&self, at: Vpn) -> Option<(Vpn, Entry)>
        // If there is one
        ensures some { IfSome result (λ e. (at ≤ e.0) × (get nat_cmp self.now e.0 ≡ Some e.1)) }
        ensures first { IfSome result
            (λ e. (v : ℕ) → at ≤ v → v < e.0 → get nat_cmp self.now v ≡ None) }

        // If there is none
        ensures none { IfNone result ((v : ℕ) → at ≤ v → get nat_cmp self.now v ≡ None) }

        // In any case
        ensures ordered { IsStrictlySortedBy nat_cmp (keys_of self.now) }
    {
        self.blocks.first_from(at)
    }

    /// Sets the entry at a page number, in place of any that is there. Any page number is accepted, even past those
    /// inside areas. An error means that the host is out of memory, and that nothing has changed. That happens only if
    /// the aligned block of 512 page numbers around this one has no entry yet.
    pub fn set(&mut self, vpn: Vpn, entry: Entry) -> Result<(), AllocError>
        // On success
        ensures ok { OnOk result (self.new ≡ set nat_cmp self.old vpn entry) }

        // Without memory
        ensures err { OnErr result (self.new ≡ self.old) }
        ensures empty { OnErr result ((v : ℕ) → v / 512 ≡ vpn / 512 → get nat_cmp self.old v ≡ None) }

        // In any case
        ensures ordered { IsStrictlySortedBy nat_cmp (keys_of self.old) }
    {
        self.blocks.set(vpn, entry)
    }

    /// Replaces the entry at a page number that is not absent. Does not allocate.
    #[inline]
    pub fn replace(&mut self, vpn: Vpn, entry: Entry)
        requires { IsSome (get nat_cmp self.old vpn) }
        ensures entry { self.new ≡ replace nat_cmp self.old vpn entry }
        ensures ordered { IsStrictlySortedBy nat_cmp (keys_of self.old) }
    {
        self.blocks.replace(vpn, entry);
    }

    /// Makes a page number absent, whether or not it has an entry. Does not allocate.
    pub fn clear(&mut self, vpn: Vpn)
        ensures entry { self.new ≡ without nat_cmp self.old vpn }
        ensures ordered { IsStrictlySortedBy nat_cmp (keys_of self.old) }
    {
        self.blocks.clear(vpn);
    }

    /// Appends the entries at page numbers from `first` up to but not including `end` to a list, in ascending order.
    /// Takes time for the blocks and entries in that range, and allocates for the list alone. An error means that the
    /// host is out of memory, and that only the first few of these entries were appended, or none.
    pub fn list_between(
        &self,
        first: Vpn,
        end: Vpn,
        list: &mut Vec<(Vpn, Entry), A>,
    ) -> Result<(), AllocError>
        ensures all { OnOk result
            (list.new.items
            ≡ list.old.items
            ++ entries_between nat_cmp (Included first) (Excluded end) self.now) }
        ensures before { Extends list.old.items list.new.items }
        ensures short { OnErr result
            (IsCutShort list.new.items
            (list.old.items
            ++ entries_between nat_cmp (Included first) (Excluded end) self.now)) }
        ensures ordered { IsStrictlySortedBy nat_cmp (keys_of self.now) }
    {
        let blocks = &self.blocks;
        if end.number() == 0 {
            return Ok(());
        }
        blocks.list_within(first, Vpn::new(end.number() - 1), list)
    }

    /// All entries with their page numbers, in ascending order. An error means that the host is out of memory; a table
    /// without entries needs none.
    pub fn entries(&self) -> Result<Vec<(Vpn, Entry), A>, AllocError>
        ensures all { IfOk result (λ entries. entries.items ≡ self.now) }
        ensures allocates { OnErr result (0 < length self.now) }
        ensures ordered { IsStrictlySortedBy nat_cmp (keys_of self.now) }
    {
        let mut list = Vec::new(self.alloc);
        self.blocks
            .list_within(Vpn::new(0), Vpn::new(u64::MAX), &mut list)?;
        Ok(list)
    }
}
