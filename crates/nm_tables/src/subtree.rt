//! A part of an index.

ghost use Rattle.std.specs.Prelude.{◌≡◌, ◌≤◌, ◌<◌, ℕ, [], ◌∷◌, ◌++◌, true, false, None, Some, IsSome, IfSome, IfNone, IfOk, OnOk, OnErr};
ghost use Rattle.std.specs.List.Sorted.{IsStrictlySortedBy};
ghost use Rattle.std.specs.Map.{keys_of};
ghost use Rattle.std.specs.Ordering.{nat_cmp};
ghost use Rattle.std.specs.declared.ops.Bound.TheVariants.{Included};
ghost use Rattle.std.specs.BTreeMap.Range.{entries_between};
ghost use Rattle.nm_types.specs.Map.{Map, get, set, replace, without};
ghost use Rattle.nm_tables.specs.definitions.Lists.{Extends, IsCutShort};
ghost use Rattle.nm_tables.specs.views.Blocks.{entries_by, AreBlocks};
ghost use Rattle.nm_tables.specs.definitions.Tree.{IsPart};
ghost use Rattle.nm_tables.specs.declared.slot.Slot.{Slot};

use crate::Entry;
use crate::places::Places;
use crate::slot::Slot;
use nm_types::Vpn;
use std::alloc::{AllocError, Allocator};

/// A part of an index: blocks whose numbers begin with the same bits, and the more blocks the higher the part is in the
/// tree. Its number is these bits. It has at least one block. A method that does not allocate returns no error.
pub(crate) trait Subtree<A: Allocator + Copy>: Drop {
    /// The slots of its blocks, by their numbers.
    ghost slots: { Self → Map ℕ Slot };

    /// The number of the part of this height that a block is in.
    ghost number: { ℕ → ℕ };

    /// What always holds of a part.
    ghost whole: { Self → Type 0 };

    /// It is the part with this number.
    ghost is_in: { Self → ℕ → Type 0 };

    /// It may be asked about this block.
    ghost takes: { Self → ℕ → Type 0 };

    /// The number of the part of this height that a block is in.
    fn number_of(block: u64) -> u64
        ensures { result ≡ number block };

    /// Makes a part with one block.
    fn holding(alloc: A, block: u64, slot: Slot) -> Result<Self, AllocError>
        ensures slots { IfOk result (λ part. slots part ≡ (block, slot) ∷ []) }
        ensures kept { IfOk result whole }
        ensures inside { IfOk result (λ part. is_in part (number block)) };

    /// The slot of a block.
    fn get(&self, block: u64) -> Option<Slot>
        requires kept { whole self.now }
        requires inside { takes self.now block }
        ensures { result ≡ get nat_cmp (slots self.now) block };

    /// The first block at or after a number, with its slot.
    fn first_from(&self, at: u64) -> Option<(u64, Slot)>
        requires kept { whole self.now }

        // If there is one
        ensures some { IfSome result
            (λ e. (at ≤ e.0) × (get nat_cmp (slots self.now) e.0 ≡ Some e.1)) }
        ensures first { IfSome result
            (λ e. (v : ℕ) → at ≤ v → v < e.0 → get nat_cmp (slots self.now) v ≡ None) }

        // If there is none
        ensures none { IfNone result ((v : ℕ) → at ≤ v → get nat_cmp (slots self.now) v ≡ None) };

    /// Appends the entries that its blocks have from one page number to another, both included, to a list, in ascending
    /// order. Its slots name leaves of `leaves`. An error means that only the first few of them were appended, or
    /// none.
    fn list_within(
        &self,
        leaves: &[Places],
        first: Vpn,
        last: Vpn,
        list: &mut Vec<(Vpn, Entry), A>,
    ) -> Result<(), AllocError>
        requires kept { whole self.now }
        requires blocks { AreBlocks leaves.now (slots self.now) }
        ensures ok { OnOk result
            (list.new.items
            ≡ list.old.items
            ++ entries_between nat_cmp (Included first) (Included last)
            (entries_by leaves.now (slots self.now))) }
        ensures before { Extends list.old.items list.new.items }
        ensures short { OnErr result
            (IsCutShort list.new.items
            (list.old.items
            ++ entries_between nat_cmp (Included first) (Included last)
            (entries_by leaves.now (slots self.now)))) };

    /// Sets the slot of a block of this part.
    fn set(&mut self, alloc: A, block: u64, slot: Slot) -> Result<(), AllocError>
        requires kept { whole self.old }
        requires inside { takes self.old block }

        // On success
        ensures ok { OnOk result (slots self.new ≡ set nat_cmp (slots self.old) block slot) }

        // Without memory
        ensures err { OnErr result (slots self.new ≡ slots self.old) }

        // In any case
        ensures kept { whole self.new }
        ensures inside { (i : ℕ) → is_in self.old i → number block ≡ i → is_in self.new i };

    /// Replaces the slot of a block that has one.
    fn replace(&mut self, block: u64, slot: Slot)
        requires kept { whole self.old }
        requires inside { takes self.old block }
        requires there { IsSome (get nat_cmp (slots self.old) block) }
        ensures slot { slots self.new ≡ replace nat_cmp (slots self.old) block slot }
        ensures kept { whole self.new }
        ensures inside { (i : ℕ) → is_in self.old i → is_in self.new i };

    /// Removes a block that has a slot. Returns whether it was the last: the part is then to be dropped, whatever it
    /// has.
    fn remove(&mut self, block: u64) -> bool
        requires kept { whole self.old }
        requires inside { takes self.old block }
        requires there { IsSome (get nat_cmp (slots self.old) block) }

        // If it was the last
        ensures last { result ≡ true → without nat_cmp (slots self.old) block ≡ [] }

        // If blocks are left
        ensures left { result ≡ false → slots self.new ≡ without nat_cmp (slots self.old) block }
        ensures kept { result ≡ false → whole self.new }

        // In any case
        ensures inside { (i : ℕ) → is_in self.old i → is_in self.new i };

    /// The blocks are in ascending order.
    ghost ordered: { (x : Self) → whole x → IsStrictlySortedBy nat_cmp (keys_of (slots x)) };

    /// A part has at least one block.
    ghost filled: { (x : Self) → whole x → slots x ≡ [] → ⊥ };

    /// All blocks of a part have its number.
    ghost parted: { (x : Self) (i : ℕ) → whole x → is_in x i → IsPart number i (slots x) };

    /// A part may be asked about each block that has its number.
    ghost takes_own: { (x : Self) (v : ℕ) → is_in x (number v) → takes x v };

    /// A greater block has an equal or greater number.
    ghost upwards: { (v w : ℕ) → v ≤ w → number v ≤ number w };
}
