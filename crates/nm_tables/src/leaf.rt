//! A leaf of a page table, by page number.

ghost use Rattle.std.specs.Prelude.{◌≡◌, ◌≤◌, ◌<◌, ◌+◌, ◌*◌, ◌/◌, ◌%◌, ◌^◌, ◌++◌, ℕ, [], true, false, None, Some, IfSome, IfNone, OnOk, OnErr};
ghost use Rattle.std.specs.Ordering.{nat_cmp};
ghost use Rattle.nm_types.specs.Map.{get, set, without};
ghost use Rattle.std.specs.declared.ops.Bound.TheVariants.{Included};
ghost use Rattle.std.specs.BTreeMap.Range.{entries_between};
ghost use Rattle.nm_tables.specs.views.Leaves.{leaf_entries};
ghost use Rattle.nm_tables.specs.definitions.Lists.{Extends, IsCutShort};

use crate::Entry;
use crate::places::Places;
use nm_types::Vpn;
use std::alloc::{AllocError, Allocator};

/// The number of the block that a page number is in: all but its last nine bits.
pub(crate) fn block_of(vpn: Vpn) -> u64
    ensures number { result ≡ vpn / 512 }
    ensures fits { result < 2 ^ 55 }
{
    vpn.number() / 512
}

/// The place of a page number in its leaf: its last nine bits.
fn place_of(vpn: Vpn) -> usize
    ensures { result ≡ vpn % 512 }
{
    (vpn.number() % 512) as usize
}

/// The first place of a block whose page number is this one or greater. 512 if all are smaller.
fn place_from(block: u64, at: Vpn) -> usize
    ensures fits { result ≤ 512 }
    ensures first { (i : ℕ) → i < 512 → at ≤ block * 512 + i → result ≤ i }
    ensures last { (i : ℕ) → result ≤ i → i < 512 → at ≤ block * 512 + i }
{
    let own = at.number() / 512;
    if own < block {
        0
    } else if own == block {
        place_of(at)
    } else {
        512
    }
}

/// The entry at a page number of the leaf's block.
pub(crate) fn entry_in(leaf: &Places, vpn: Vpn) -> Option<Entry>
    requires { leaf.now.block ≡ vpn / 512 }
    ensures { result ≡ get nat_cmp (leaf_entries leaf.now) vpn }
{
    leaf.get(place_of(vpn))
}

/// Sets the entry at a page number of the leaf's block.
pub(crate) fn set_in(leaf: &mut Places, vpn: Vpn, entry: Entry)
    requires { leaf.old.block ≡ vpn / 512 }
    ensures entries { leaf_entries leaf.new ≡ set nat_cmp (leaf_entries leaf.old) vpn entry }
    ensures block { leaf.new.block ≡ leaf.old.block }
{
    leaf.put(place_of(vpn), entry);
}

/// Makes a page number of the leaf's block absent.
pub(crate) fn clear_in(leaf: &mut Places, vpn: Vpn)
    requires { leaf.old.block ≡ vpn / 512 }
    ensures entries { leaf_entries leaf.new ≡ without nat_cmp (leaf_entries leaf.old) vpn }
    ensures block { leaf.new.block ≡ leaf.old.block }
{
    leaf.clear(place_of(vpn));
}

/// Whether a leaf has no entry except at this page number of its block.
pub(crate) fn has_no_other(leaf: &Places, vpn: Vpn) -> bool
    requires { leaf.now.block ≡ vpn / 512 }
    ensures none { result ≡ true → without nat_cmp (leaf_entries leaf.now) vpn ≡ [] }
    ensures some { result ≡ false → without nat_cmp (leaf_entries leaf.now) vpn ≡ [] → ⊥ }
{
    leaf.has_no_other(place_of(vpn))
}

/// The first entry of a leaf at or after a page number.
pub(crate) fn first_in(leaf: &Places, at: Vpn) -> Option<(Vpn, Entry)>
    requires { leaf.now.block < 2 ^ 55 }

    // If there is one
    ensures some { IfSome result
        (λ e. (at ≤ e.0) × (get nat_cmp (leaf_entries leaf.now) e.0 ≡ Some e.1)) }
    ensures first { IfSome result
        (λ e. (v : ℕ) → at ≤ v → v < e.0 → get nat_cmp (leaf_entries leaf.now) v ≡ None) }

    // If there is none
    ensures none { IfNone result ((v : ℕ) → at ≤ v → get nat_cmp (leaf_entries leaf.now) v ≡ None) }
{
    let block = leaf.block;
    let (place, entry) = leaf.first_from(place_from(block, at))?;
    Some((Vpn::new(block * 512 + place as u64), entry))
}

/// Appends the entries of a leaf from one page number to another, both included, to a list, in ascending order. An error
/// means that only the first few of them were appended, or none.
pub(crate) fn list_leaf<A: Allocator + Copy>(
    leaf: &Places,
    first: Vpn,
    last: Vpn,
    list: &mut Vec<(Vpn, Entry), A>,
) -> Result<(), AllocError>
    requires { leaf.now.block < 2 ^ 55 }
    ensures ok { OnOk result
        (list.new.items
        ≡ list.old.items
        ++ entries_between nat_cmp (Included first) (Included last) (leaf_entries leaf.now)) }
    ensures before { Extends list.old.items list.new.items }
    ensures short { OnErr result
        (IsCutShort list.new.items
        (list.old.items
        ++ entries_between nat_cmp (Included first) (Included last)
        (leaf_entries leaf.now))) }
{
    let mut from = place_from(leaf.block, first);
    while let Some((place, entry)) = leaf.first_from(from) {
        let vpn = Vpn::new(leaf.block * 512 + place as u64);
        if last < vpn {
            return Ok(());
        }
        list.push((vpn, entry))?;
        from = place + 1;
    }
    Ok(())
}
