//! Walks over areas, and over the entries at the pages of a segment, one after another.

ghost use Rattle.std.specs.List.Sorted.{IsStrictlySortedBy};
ghost use Rattle.std.specs.Map.{keys_of};
ghost use Rattle.std.specs.Prelude.{IfNone, IfSome, None, Some, length, ℕ, ◌+◌, ◌<◌, ◌≡◌, ◌≤◌};
ghost use Rattle.nm_model.specs.definitions.Areas.{page_in};
ghost use Rattle.nm_areas.specs.Rests.{IsRest};
ghost use Rattle.nm_types.specs.Map.{Map, get, page_cmp, replace, spot_cmp};
ghost use Rattle.nm_types.specs.declared.area.Area.{Area};
ghost use Rattle.nm_types.specs.declared.page.Page.{Page};

use crate::area_table::AreaTable;
use nm_types::{Area, Page, Pid, Vpn};
use std::alloc::Allocator;
use std::collections::BTreeMap;
use std::collections::btree_map::Range;

impl<A: Allocator + Copy> AreaTable<A> {
    /// The first area of the process that begins from one page number up to another.
    pub(crate) fn next_own(&self, pid: Pid, at: Vpn, end: Vpn) -> Option<(Vpn, Area)>
        // If there is one
        ensures some { IfSome result
            (λ a. (at ≤ a.0) × (a.0 < end) × (get spot_cmp self.now.areas (pid, a.0) ≡ Some a.1)) }
        ensures first { IfSome result
            (λ a. (v : ℕ) → at ≤ v → v < a.0 → get spot_cmp self.now.areas (pid, v) ≡ None) }

        // If there is none
        ensures none { IfNone result
            ((v : ℕ) → at ≤ v → v < end → get spot_cmp self.now.areas (pid, v) ≡ None) }

        // In any case
        ensures ordered { IsStrictlySortedBy spot_cmp (keys_of self.now.areas) }
    {
        next_area(&self.areas, pid, at, end)
    }
}

/// The first area of a process that begins from one page number up to another.
pub(crate) fn next_area<A: Allocator + Copy>(
    areas: &BTreeMap<(Pid, Vpn), Area, A>,
    pid: Pid,
    at: Vpn,
    end: Vpn,
) -> Option<(Vpn, Area)>
    // If there is one
    ensures some { IfSome result
        (λ a. (at ≤ a.0) × (a.0 < end) × (get spot_cmp areas.now.entries (pid, a.0) ≡ Some a.1)) }
    ensures first { IfSome result
        (λ a. (v : ℕ) → at ≤ v → v < a.0 → get spot_cmp areas.now.entries (pid, v) ≡ None) }

    // If there is none
    ensures none { IfNone result
        ((v : ℕ) → at ≤ v → v < end → get spot_cmp areas.now.entries (pid, v) ≡ None) }

    // In any case
    ensures ordered { IsStrictlySortedBy spot_cmp (keys_of areas.now.entries) }
{
    let mut rest = areas.range((pid, at)..);
    step_area(&mut rest, pid, end)
}

/// Of the areas from some pid and page number on, the next one of a process that begins before a page number.
pub(crate) fn step_area(
    rest: &mut Range<'_, (Pid, Vpn), Area>,
    pid: Pid,
    end: Vpn,
) -> Option<(Vpn, Area)>
    // If there is one
    ensures some { (areas : Map (ℕ × ℕ) Area) (at : ℕ) →
        IsRest spot_cmp areas (pid, at) rest.old →
        IfSome result (λ a. (at ≤ a.0) × (a.0 < end) × (get spot_cmp areas (pid, a.0) ≡ Some a.1)) }
    ensures first { (areas : Map (ℕ × ℕ) Area) (at : ℕ) →
        IsRest spot_cmp areas (pid, at) rest.old →
        IfSome result (λ a. (v : ℕ) → at ≤ v → v < a.0 → get spot_cmp areas (pid, v) ≡ None) }

    // If there is none
    ensures none { (areas : Map (ℕ × ℕ) Area) (at : ℕ) →
        IsRest spot_cmp areas (pid, at) rest.old →
        IfNone result ((v : ℕ) → at ≤ v → v < end → get spot_cmp areas (pid, v) ≡ None) }

    // What is left of them
    ensures rest { (areas : Map (ℕ × ℕ) Area) (at : ℕ) →
        IsRest spot_cmp areas (pid, at) rest.old →
        IfSome result (λ a. IsRest spot_cmp areas (pid, a.0 + 1) rest.new) }
    ensures fewer { IfSome result (λ a. length rest.new < length rest.old) }
{
    let ((owner, start), area) = rest.next()?;
    if *owner == pid && start.number() < end.number() {
        Some((*start, *area))
    } else {
        None
    }
}

/// Replaces the area at a pid and first page number, if there is one. Does not allocate.
pub(crate) fn put<A: Allocator + Copy>(
    areas: &mut BTreeMap<(Pid, Vpn), Area, A>,
    spot: (Pid, Vpn),
    area: Area,
)
    ensures entries { areas.new.entries ≡ replace spot_cmp areas.old.entries spot area }
    ensures ordered { IsStrictlySortedBy spot_cmp (keys_of areas.old.entries) }
    ensures keys { IsStrictlySortedBy spot_cmp (keys_of areas.new.entries) }
{
    if let Some(there) = areas.get_mut(&spot) {
        *there = area;
    }
}

/// The first entry at a page of a segment from one index up to another.
pub(crate) fn next_of<V: Copy, A: Allocator + Copy>(
    pages: &BTreeMap<Page, V, A>,
    segment: u32,
    at: u64,
    past: u64,
) -> Option<(u64, V)>
    // If there is one
    ensures some { IfSome result
        (λ p. (at ≤ p.0) × (p.0 < past)
        × (get page_cmp pages.now.entries (page_in segment p.0) ≡ Some p.1)) }
    ensures first { IfSome result
        (λ p. (i : ℕ) →
        at ≤ i →
        i < p.0 →
        get page_cmp pages.now.entries (page_in segment i) ≡ None) }

    // If there is none
    ensures none { IfNone result
        ((i : ℕ) → at ≤ i → i < past → get page_cmp pages.now.entries (page_in segment i) ≡ None) }

    // In any case
    ensures ordered { IsStrictlySortedBy page_cmp (keys_of pages.now.entries) }
{
    let from = Page { segment, index: at };
    let mut rest = pages.range(from..);
    step_page(&mut rest, segment, past)
}

/// Of the entries from some page on, the next one at a page of a segment before an index.
pub(crate) fn step_page<V: Copy>(
    rest: &mut Range<'_, Page, V>,
    segment: u32,
    past: u64,
) -> Option<(u64, V)>
    // If there is one
    ensures some { (pages : Map Page V) (at : ℕ) →
        IsRest page_cmp pages (page_in segment at) rest.old →
        IfSome result
        (λ p. (at ≤ p.0) × (p.0 < past) × (get page_cmp pages (page_in segment p.0) ≡ Some p.1)) }
    ensures first { (pages : Map Page V) (at : ℕ) →
        IsRest page_cmp pages (page_in segment at) rest.old →
        IfSome result
        (λ p. (i : ℕ) → at ≤ i → i < p.0 → get page_cmp pages (page_in segment i) ≡ None) }

    // If there is none
    ensures none { (pages : Map Page V) (at : ℕ) →
        IsRest page_cmp pages (page_in segment at) rest.old →
        IfNone result ((i : ℕ) → at ≤ i → i < past → get page_cmp pages (page_in segment i) ≡ None) }

    // What is left of them
    ensures rest { (pages : Map Page V) (at : ℕ) →
        IsRest page_cmp pages (page_in segment at) rest.old →
        IfSome result (λ p. IsRest page_cmp pages (page_in segment (p.0 + 1)) rest.new) }
    ensures fewer { IfSome result (λ p. length rest.new < length rest.old) }
    ensures high { IfSome result (λ p. p.0 < past) }
{
    let (page, value) = rest.next()?;
    if page.segment == segment && page.index < past {
        Some((page.index, *value))
    } else {
        None
    }
}
