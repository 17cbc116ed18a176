//! Unmapping areas.

ghost use Rattle.std.specs.List.{AllByRecursion, fold, list_any};
ghost use Rattle.std.specs.List.Sorted.{IsStrictlySortedBy};
ghost use Rattle.std.specs.Map.{keys_of};
ghost use Rattle.std.specs.Ordering.{nat_cmp};
ghost use Rattle.std.specs.Prelude.{IfOk, None, OnErr, OnOk, Some, false, true, length, min, vec_capacity, vec_len, ℕ, [], ◌++◌, ◌+◌, ◌-◌, ◌<◌, ◌^◌, ◌≡◌, ◌≤◌, ◌⊎◌};
ghost use Rattle.nm_areas.specs.Splits.{HasSplit};
ghost use Rattle.nm_areas.specs.Coverage.{IsCoverage};
ghost use Rattle.nm_model.specs.definitions.Areas.{is_shared};
ghost use Rattle.nm_model.specs.definitions.Areas.{AllShown, AreasAreApart, HasIndices, PrivateIsOnce, shows_segment};
ghost use Rattle.nm_model.specs.definitions.Areas.{pages_from};
ghost use Rattle.nm_model.specs.definitions.AreaRefusal.{overlaps};
ghost use Rattle.nm_model.specs.definitions.Areas.{IsAlone, all_lost, frames_lost, lost_page, others, page_outside, pages_of_area, pages_of_own, place_left, after_removal, without_own};
ghost use Rattle.nm_types.specs.declared.area.Segment.{Segment};
ghost use Rattle.nm_types.specs.Map.{Map, get, page_cmp, spot_cmp, without};
ghost use Rattle.nm_types.specs.State.{page_at};

use crate::area_table::AreaTable;
use crate::areas::Areas;
use crate::counting::{count_out_own, join_steps, split_steps};
use crate::coverage::count_at;
use crate::ranges::PageRange;
use crate::scan::next_of;
use nm_coverage::Coverage;
use nm_types::{Area, FrameId, Page, Pid, Vpn};
use std::alloc::{AllocError, Allocator};
use std::collections::BTreeMap;

impl<A: Allocator + Copy> Areas<A> {
    /// Unmaps a range of one or more page numbers of a process, which may have holes. The process's areas are split at
    /// both ends, and those between are removed, with the segments that no other area shows. Pages that no other area of
    /// any process covers lose their frames. Returns these pages with the frames that they had, in address order, each
    /// page at its lowest address.
    ///
    /// An error means that nothing has changed. Allocates only if an area of the process covers a page of the range, and
    /// some page has a frame or an area begins before one end of the range and covers it; the returned list has room for
    /// at most as many pages as have frames, and at most as many as the range has.
    pub fn remove(
        &mut self,
        pid: Pid,
        range: PageRange,
    ) -> Result<Vec<(Page, FrameId), A>, AllocError>
        requires some { range.first < range.end }

        // On success
        ensures ok { OnOk result (self.new ≡ after_removal self.old pid range.first range.end) }
        ensures pages { OnOk result
            ((q v : ℕ) →
            page_at self.new.areas q v
            ≡ page_outside self.old.areas pid range.first range.end q v) }
        ensures freed { IfOk result
            (λ freed. freed.items ≡ frames_lost self.old pid range.first range.end) }
        ensures room { IfOk result
            (λ freed. vec_capacity freed ≤ min (length self.old.place) (range.end - range.first)) }

        // Without memory
        ensures err { OnErr result (self.new ≡ self.old) }
        ensures allocates { OnErr result
            (list_any (overlaps pid range.first range.end) self.old.areas ≡ true) }
        ensures needed { OnErr result
            ((0 < length self.old.place)
            ⊎ HasSplit self.old.areas pid range.first
            ⊎ HasSplit self.old.areas pid range.end) }
    {
        if self.table.is_free(pid, &range) {
            return Ok(Vec::new(self.alloc));
        }
        let PageRange { first, end } = range;
        let pages = end.number() - first.number();
        let most = self.places.len().min(pages as usize);
        let mut freed = Vec::with_capacity(self.alloc, most)?;
        split_steps(&self.table, &mut self.steps, pid, first, end)?;
        let Ok(()) = self.table.cut(pid, first, end) else {
            join_steps(&self.table, &mut self.steps, pid, first, end);
            return Err(AllocError);
        };
        // Pages that other areas cover keep their frames, so the steps are those of the others before the first page
        // loses its.
        count_out_own(&self.table, &mut self.steps, pid, first, end);
        self.table
            .lose_all(&self.steps, pid, first, end, &mut self.places, &mut freed);
        self.table.drop_own(pid, first, end);
        Ok(freed)
    }
}

impl<A: Allocator + Copy> AreaTable<A> {
    /// Takes the frames of pages that the areas of a process show that begin from one page number up to another, and
    /// that no other area covers. Appends these pages to a list that has room for them. The steps are those of the
    /// other areas.
    fn lose_all(
        &self,
        steps: &Coverage<A>,
        pid: Pid,
        first: Vpn,
        end: Vpn,
        places: &mut BTreeMap<Page, FrameId, A>,
        freed: &mut Vec<(Page, FrameId), A>,
    )
        requires range { first ≤ end }
        requires steps { IsCoverage steps.now self.now.segments
            (others pid first end self.now.areas) }
        requires apart { AreasAreApart self.now.areas }
        requires once { PrivateIsOnce self.now.areas self.now.segments }
        requires indices { AllByRecursion HasIndices self.now.areas }
        requires room { vec_len freed.old
            + min (length places.old.entries)
            (length (pages_of_own pid first end self.now.areas))
            ≤ vec_capacity freed.old }

        // The pages lose their frames and join the list
        ensures places { places.new.entries
            ≡ fold (place_left (others pid first end self.now.areas)) places.old.entries
            (pages_of_own pid first end self.now.areas) }
        ensures freed { freed.new.items
            ≡ freed.old.items
            ++ all_lost (others pid first end self.now.areas) places.old.entries
            (pages_of_own pid first end self.now.areas) }

        // The list keeps its capacity
        ensures room { vec_capacity freed.new ≡ vec_capacity freed.old }
    {
        let mut at = first.number();
        while let Some((start, area)) = self.next_own(pid, Vpn::new(at), end) {
            let shared = self.is_shared(area.page.segment);
            lose_area(steps, area, shared, places, freed);
            at = start.number() + 1;
        }
    }

    /// Removes the areas of a process that begin from one page number up to another, and the segments that no other
    /// area shows.
    fn drop_own(&mut self, pid: Pid, first: Vpn, end: Vpn)
        requires shown { AllShown self.old.areas self.old.segments }
        requires sorted { IsStrictlySortedBy nat_cmp (keys_of self.old.segments) }
        ensures { self.new ≡ without_own self.old pid first end }
    {
        while let Some((start, area)) = self.next_own(pid, first, end) {
            self.take(pid, start);
            if !self.is_shown(area.page.segment) {
                self.drop_segment(area.page.segment);
            }
        }
    }

    /// Whether any area shows pages of a segment.
    fn is_shown(&self, segment: u32) -> bool
        requires ordered { IsStrictlySortedBy spot_cmp (keys_of self.now.areas) }
        ensures { result ≡ list_any (shows_segment segment) self.now.areas }
    {
        let from = (segment, Pid::new(0), Vpn::new(0));
        match self.by_segment.range(from..).next() {
            Some((number, _, _)) => *number == segment,
            None => false,
        }
    }

    /// Removes a segment, if there is one of this number.
    fn drop_segment(&mut self, number: u32)
        ensures { self.new ≡ record self.old { segments = without nat_cmp self.old.segments number } }
    {
        self.segments.remove(&number);
    }
}

/// Takes the frames of pages that an area shows and that none of the areas covers whose steps these are. Appends these
/// pages to a list that has room for them. No other area covers a page of a private segment.
fn lose_area<A: Allocator + Copy>(
    steps: &Coverage<A>,
    area: Area,
    shared: bool,
    places: &mut BTreeMap<Page, FrameId, A>,
    freed: &mut Vec<(Page, FrameId), A>,
)
    requires indices { area.page.index + area.pages < 2 ^ 64 }
    requires room { vec_len freed.old + min (length places.old.entries) area.pages
        ≤ vec_capacity freed.old }

    // The pages lose their frames and join the list
    ensures places { (segments : Map ℕ Segment) (left : Map (ℕ × ℕ) Area) →
        IsCoverage steps.now segments left →
        shared ≡ is_shared segments area.page.segment →
        IsAlone left area shared →
        places.new.entries ≡ fold (place_left left) places.old.entries (pages_of_area area) }
    ensures freed { (segments : Map ℕ Segment) (left : Map (ℕ × ℕ) Area) →
        IsCoverage steps.now segments left →
        shared ≡ is_shared segments area.page.segment →
        IsAlone left area shared →
        freed.new.items ≡ freed.old.items ++ all_lost left places.old.entries (pages_of_area area) }

    // The list grows by as many, and keeps its capacity
    ensures counted { vec_len freed.new + length places.new.entries
        ≡ vec_len freed.old + length places.old.entries }
    ensures few { vec_len freed.new ≤ vec_len freed.old + area.pages }
    ensures room { vec_capacity freed.new ≡ vec_capacity freed.old }
{
    if shared {
        lose(steps, area, places, freed);
    } else {
        let Page { segment, index } = area.page;
        lose_stretch(segment, index, index + area.pages, places, freed);
    }
}

/// Takes the frames of pages of a shared segment that an area shows and that none of the areas covers whose steps these
/// are. Appends these pages to a list that has room for them. Goes from one page that has a frame to the next; where
/// areas cover one, to the next after the next step, since as many cover the pages between.
fn lose<A: Allocator + Copy>(
    steps: &Coverage<A>,
    area: Area,
    places: &mut BTreeMap<Page, FrameId, A>,
    freed: &mut Vec<(Page, FrameId), A>,
)
    requires indices { area.page.index + area.pages < 2 ^ 64 }
    requires room { vec_len freed.old + min (length places.old.entries) area.pages
        ≤ vec_capacity freed.old }

    // The pages lose their frames and join the list
    ensures places { (segments : Map ℕ Segment) (left : Map (ℕ × ℕ) Area) →
        IsCoverage steps.now segments left →
        is_shared segments area.page.segment ≡ true →
        places.new.entries ≡ fold (place_left left) places.old.entries (pages_of_area area) }
    ensures freed { (segments : Map ℕ Segment) (left : Map (ℕ × ℕ) Area) →
        IsCoverage steps.now segments left →
        is_shared segments area.page.segment ≡ true →
        freed.new.items ≡ freed.old.items ++ all_lost left places.old.entries (pages_of_area area) }

    // The list grows by as many, and keeps its capacity
    ensures counted { vec_len freed.new + length places.new.entries
        ≡ vec_len freed.old + length places.old.entries }
    ensures few { vec_len freed.new ≤ vec_len freed.old + area.pages }
    ensures room { vec_capacity freed.new ≡ vec_capacity freed.old }
{
    let Page { segment, index } = area.page;
    let past = index + area.pages;
    let mut at = index;
    while let Some((found, frame)) = next_of(places, segment, at, past) {
        let page = Page {
            segment,
            index: found,
        };
        if count_at(steps, page) == 0 {
            lose_page(page, frame, places, freed);
            at = found + 1;
        } else {
            at = steps.next_from(segment, found + 1, past);
        }
    }
}

/// Takes the frames of a segment's pages from an index up to another. Appends these pages to a list that has room for
/// them.
fn lose_stretch<A: Allocator + Copy>(
    segment: u32,
    first: u64,
    past: u64,
    places: &mut BTreeMap<Page, FrameId, A>,
    freed: &mut Vec<(Page, FrameId), A>,
)
    requires range { first ≤ past }
    requires room { vec_len freed.old + min (length places.old.entries) (past - first)
        ≤ vec_capacity freed.old }

    // The pages lose their frames and join the list
    ensures places { places.new.entries
        ≡ fold (place_left []) places.old.entries (pages_from segment first (past - first)) }
    ensures freed { freed.new.items
        ≡ freed.old.items
        ++ all_lost [] places.old.entries (pages_from segment first (past - first)) }

    // The list grows by as many, and keeps its capacity
    ensures counted { vec_len freed.new + length places.new.entries
        ≡ vec_len freed.old + length places.old.entries }
    ensures few { vec_len freed.new ≤ vec_len freed.old + (past - first) }
    ensures room { vec_capacity freed.new ≡ vec_capacity freed.old }
{
    let mut at = first;
    while let Some((index, frame)) = next_of(places, segment, at, past) {
        lose_page(Page { segment, index }, frame, places, freed);
        at = index + 1;
    }
}

/// Takes the frame of a page, and appends the page to a list that has room for it.
fn lose_page<A: Allocator + Copy>(
    page: Page,
    frame: FrameId,
    places: &mut BTreeMap<Page, FrameId, A>,
    freed: &mut Vec<(Page, FrameId), A>,
)
    requires known { get page_cmp places.old.entries page ≡ Some frame }
    requires room { vec_len freed.old + min (length places.old.entries) 1 ≤ vec_capacity freed.old }

    // The page loses its frame and joins the list
    ensures places { places.new.entries ≡ place_left [] places.old.entries page }
    ensures freed { freed.new.items ≡ freed.old.items ++ lost_page [] places.old.entries page }

    // The list grows by one, and keeps its capacity
    ensures counted { vec_len freed.new + length places.new.entries
        ≡ vec_len freed.old + length places.old.entries }
    ensures few { vec_len freed.new ≤ vec_len freed.old + 1 }
    ensures room { vec_capacity freed.new ≡ vec_capacity freed.old }
{
    places.remove(&page);
    freed.push_reserved((page, frame));
}
