//! The areas of all processes, and the segments that they show.

ghost use Rattle.std.specs.Prelude.{ℕ, ◌≡◌, ◌≤◌, ◌<◌, ◌+◌, ◌^◌, [], suc, not, false, true, None, Some, IfSome, IfNone, OnOk, OnErr, IfOk, length, option_map};
ghost use Rattle.std.specs.Ordering.{nat_cmp};
ghost use Rattle.std.specs.List.{AllByRecursion, list_any};
ghost use Rattle.std.specs.List.Sorted.{IsStrictlySortedBy};
ghost use Rattle.std.specs.Map.{keys_of};
ghost use Rattle.nm_types.specs.Map.{get, set, replace, without, spot_cmp};
ghost use Rattle.nm_types.specs.State.{PlacedArea, area_over};
ghost use Rattle.nm_types.specs.declared.area.Area.{Area};
ghost use Rattle.nm_model.specs.definitions.Areas.{new_area};
ghost use Rattle.nm_model.specs.definitions.Areas.{is_shared};
ghost use Rattle.nm_model.specs.definitions.Areas.{AreasAreApart, EndsLow, IsSomePages};
ghost use Rattle.nm_model.specs.definitions.AreaRefusal.{overlaps, is_stretch};
ghost use Rattle.nm_model.specs.views.Table.{with_areas};

use crate::lines::is_shared;
use crate::ranges::PageRange;
use crate::scan::put;
use nm_types::{Area, Page, Pid, Policy, Segment, Vpn};
use std::alloc::{AllocError, Allocator};
use std::collections::{BTreeMap, BTreeSet};
use std::marker::Model;

/// The areas by process and first page number, the same keys again by segment, the segments by number, and the number
/// of the next segment. Contracts see all but the keys by segment, which are those of the areas.
#[derive(Drop)]
pub(crate) struct AreaTable<A: Allocator + Copy> {
    pub(crate) areas: BTreeMap<(Pid, Vpn), Area, A>,
    pub(crate) by_segment: BTreeSet<(u32, Pid, Vpn), A>,
    pub(crate) segments: BTreeMap<u32, Segment, A>,
    next_segment: u32,
}

impl<A: Allocator + Copy> Model for AreaTable<A> {
    ghost use Rattle.nm_areas.specs.Index.{IsIndex};
    ghost use Rattle.nm_model.specs.views.Table.{Table};

    ghost Value = { Table };

    ghost view = { λ t. record { areas = t.areas.entries; segments = t.segments.entries; next = t.next_segment } };

    ghost invariant = { λ t. IsIndex t.by_segment.keys t.areas.entries };
}

impl<A: Allocator + Copy> AreaTable<A> {
    /// Makes a table without areas or segments.
    pub(crate) fn new(alloc: A) -> Self
        ensures { result ≡ record { areas = []; segments = []; next = 0 } }
    {
        AreaTable {
            areas: BTreeMap::new(alloc),
            by_segment: BTreeSet::new(alloc),
            segments: BTreeMap::new(alloc),
            next_segment: 0,
        }
    }

    /// The number that the next segment gets.
    pub(crate) fn next_segment(&self) -> u32
        ensures { result ≡ self.now.next }
    {
        self.next_segment
    }

    /// How many areas there are.
    pub(crate) fn count(&self) -> usize
        ensures count { result ≡ length self.now.areas }
        ensures few { length self.now.areas < 2 ^ 63 }
    {
        self.areas.len()
    }

    /// The segment with a number, or None if there is none.
    pub(crate) fn segment(&self, number: u32) -> Option<Segment>
        ensures { result ≡ get nat_cmp self.now.segments number }
    {
        self.segments.get(&number).copied()
    }

    /// The number of a segment, if it exists, is shared, and has `pages` pages from `offset` on. None otherwise.
    pub(crate) fn stretch_of(&self, segment: u64, offset: u64, pages: u64) -> Option<u32>
        requires numbers { AllByRecursion (λ e. e.0 < self.now.next) self.now.segments }
        ensures none { IfNone result
            (is_stretch (get nat_cmp self.now.segments segment) offset pages ≡ false) }
        ensures some { IfSome result
            (λ number. (number ≡ segment)
            × (is_stretch (get nat_cmp self.now.segments number) offset pages ≡ true)) }
    {
        if segment >= u64::from(self.next_segment()) {
            return None;
        }
        let number = segment as u32;
        is_stretch(self.segment(number), offset, pages).then_some(number)
    }

    /// Whether a segment is shared. False if there is no such segment.
    pub(crate) fn is_shared(&self, number: u32) -> bool
        ensures { result ≡ is_shared self.now.segments number }
    {
        is_shared(&self.segments, number)
    }

    /// The area of a process that covers a page number, with its first page number.
    pub(crate) fn over(&self, pid: Pid, vpn: Vpn) -> Option<(Vpn, Area)>
        requires apart { AreasAreApart self.now.areas }
        requires whole { AllByRecursion IsSomePages self.now.areas }
        ensures { option_map {U = PlacedArea} (λ found. ((pid, found.0), found.1)) result
            ≡ area_over self.now.areas pid vpn }
    {
        let ((owner, first), area) = self.areas.range(..=(pid, vpn)).next_back()?;
        let within = vpn.number().checked_sub(first.number())?;
        if *owner == pid && within < area.pages {
            Some((*first, *area))
        } else {
            None
        }
    }

    /// The first page number of the process's area that covers a page number, or that page number if no area does. No
    /// area of the process that covers it or a later page number begins before the result.
    pub(crate) fn begin(&self, pid: Pid, vpn: Vpn) -> Vpn
        requires apart { AreasAreApart self.now.areas }
        requires whole { AllByRecursion IsSomePages self.now.areas }
        ensures low { result ≤ vpn }
        ensures first { (v start : ℕ) (area : Area) →
            vpn ≤ v →
            area_over self.now.areas pid v ≡ Some ((pid, start), area) →
            result ≤ start }
    {
        match self.over(pid, vpn) {
            Some((start, _)) => start,
            None => vpn,
        }
    }

    /// Whether no area of the process covers a page number of a range.
    pub(crate) fn is_free(&self, pid: Pid, range: &PageRange) -> bool
        requires apart { AreasAreApart self.now.areas }
        requires whole { AllByRecursion IsSomePages self.now.areas }
        requires low { AllByRecursion EndsLow self.now.areas }
        ensures { result ≡ not (list_any (overlaps pid range.now.first range.now.end) self.now.areas) }
    {
        let PageRange { first, end } = *range;
        match self.areas.range(..(pid, end)).next_back() {
            Some(((owner, start), area)) => {
                *owner != pid || start.number() + area.pages <= first.number()
            }
            None => true,
        }
    }

    /// Makes a segment of `pages` pages, and an area of the process over all of it with the default policy. Returns the
    /// segment's number.
    pub(crate) fn insert(
        &mut self,
        pid: Pid,
        first: Vpn,
        pages: u64,
        shared: bool,
    ) -> Result<u32, AllocError>
        requires number { self.old.next < 65536 }
        requires new { get nat_cmp self.old.segments self.old.next ≡ None }
        requires free { get spot_cmp self.old.areas (pid, first) ≡ None }

        // On success
        ensures number { IfOk result (λ number. number ≡ self.old.next) }
        ensures ok { OnOk result (self.new ≡ record {
          areas = set spot_cmp self.old.areas (pid, first) (new_area self.old.next 0 pages);
          segments = set nat_cmp self.old.segments self.old.next (record { pages = pages; shared = shared });
          next = suc self.old.next;
        }) }

        // Without memory
        ensures err { OnErr result (self.new ≡ self.old) }
    {
        let number = self.next_segment;
        self.segments.insert(number, Segment { pages, shared })?;
        if let Err(error) = self.add(pid, first, new_area(number, 0, pages)) {
            self.segments.remove(&number);
            return Err(error);
        }
        self.next_segment = number + 1;
        Ok(number)
    }

    /// Makes an area of the process over `pages` pages of a segment from index `offset` on, with the default policy.
    pub(crate) fn attach(
        &mut self,
        pid: Pid,
        first: Vpn,
        segment: u32,
        offset: u64,
        pages: u64,
    ) -> Result<(), AllocError>
        requires free { get spot_cmp self.old.areas (pid, first) ≡ None }
        ensures ok { OnOk result
            (self.new
            ≡ with_areas self.old
            (set spot_cmp self.old.areas (pid, first) (new_area segment offset pages))) }
        ensures err { OnErr result (self.new ≡ self.old) }
    {
        self.add(pid, first, new_area(segment, offset, pages))
    }

    /// Adds an area where none begins. An error means that nothing has changed.
    pub(crate) fn add(&mut self, pid: Pid, first: Vpn, area: Area) -> Result<(), AllocError>
        requires free { get spot_cmp self.old.areas (pid, first) ≡ None }
        ensures ok { OnOk result
            (self.new ≡ with_areas self.old (set spot_cmp self.old.areas (pid, first) area)) }
        ensures err { OnErr result (self.new ≡ self.old) }
        ensures ordered { OnOk result (IsStrictlySortedBy spot_cmp (keys_of self.old.areas)) }
    {
        let key = (area.page.segment, pid, first);
        self.by_segment.insert(key)?;
        if let Err(error) = self.areas.insert((pid, first), area) {
            self.by_segment.remove(&key);
            return Err(AllocError::from(error));
        }
        Ok(())
    }

    /// Replaces the area at a pid and first page number, if there is one, by another over pages of the same segment.
    /// Does not allocate.
    pub(crate) fn put(&mut self, pid: Pid, start: Vpn, area: Area)
        requires same { IfSome (get spot_cmp self.old.areas (pid, start))
            (λ a. a.page.segment ≡ area.page.segment) }
        ensures { self.new ≡ with_areas self.old (replace spot_cmp self.old.areas (pid, start) area) }
    {
        put(&mut self.areas, (pid, start), area);
    }

    /// Removes the area that begins at `start`, if there is one.
    pub(crate) fn take(&mut self, pid: Pid, start: Vpn)
        ensures gone { self.new ≡ with_areas self.old (without spot_cmp self.old.areas (pid, start)) }
        ensures ordered { IsStrictlySortedBy spot_cmp (keys_of self.new.areas) }
    {
        if let Some(area) = self.areas.remove(&(pid, start)) {
            self.by_segment.remove(&(area.page.segment, pid, start));
        }
    }
}

/// Whether the segment is there, is shared, and has `pages` pages from `offset` on.
fn is_stretch(segment: Option<Segment>, offset: u64, pages: u64) -> bool
    ensures { result ≡ is_stretch segment offset pages }
{
    match segment {
        Some(whole) => { whole.shared && offset <= whole.pages && pages <= whole.pages - offset }
        None => false,
    }
}

/// An area over `pages` pages of a segment from index `offset` on, with the default policy.
pub(crate) fn new_area(segment: u32, offset: u64, pages: u64) -> Area
    ensures { result ≡ new_area segment offset pages }
{
    Area {
        pages,
        policy: Policy::Default,
        page: Page {
            segment,
            index: offset,
        },
    }
}
