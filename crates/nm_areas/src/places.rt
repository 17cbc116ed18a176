//! The frames of pages.

ghost use Rattle.std.specs.Prelude.{ℕ, ◌≡◌, ◌≤◌, ◌<◌, ◌+◌, ◌^◌, nat_lt, true, false, length, slice_index_or, None, Some, IsSome, IfSome, IfNone, IfOk, OnOk, OnErr};
ghost use Rattle.std.specs.List.Sorted.{IsStrictlySortedBy};
ghost use Rattle.std.specs.Map.{keys_of, values_of};
ghost use Rattle.nm_types.specs.declared.page.Page.{Page};
ghost use Rattle.nm_types.specs.Map.{get, page_cmp};
ghost use Rattle.nm_types.specs.State.{page_of, page_at};
ghost use Rattle.nm_model.specs.definitions.Areas.{with_frame, with_frame_of, without_frame};
ghost use Rattle.nm_model.specs.definitions.Areas.{IsWellFormed, mapping_of};
ghost use Rattle.nm_model.specs.definitions.Areas.{page_in};

use crate::area_table::AreaTable;
use crate::areas::Areas;
use crate::scan::{step_area, step_page};
use nm_types::{Area, FrameId, Page, Pid, Vpn};
use std::alloc::{AllocError, Allocator};
use std::collections::BTreeMap;

impl<A: Allocator + Copy> Areas<A> {
    /// The frame of a page, or None if it has none.
    pub fn page_frame(&self, page: Page) -> Option<FrameId>
        ensures { result ≡ get page_cmp self.now.place page }
    {
        self.places.get(&page).copied()
    }

    /// Whether an area of a process shows, at a page number from `first` up to `end`, a page whose frame has a number
    /// above 0 in a list by frame. A frame past the end of the list counts as 0. Does not allocate.
    pub fn shows_counted(&self, pid: Pid, first: Vpn, end: Vpn, counts: &[u32]) -> bool
        ensures shown { result ≡ true →
            (v : ℕ) × (p : Page) × (frame : ℕ) × (first ≤ v) × (v < end)
            × (page_at self.now.areas pid v ≡ Some p)
            × (get page_cmp self.now.place p ≡ Some frame)
            × (0 < slice_index_or counts.now frame 0) }
        ensures none { result ≡ false →
            (v : ℕ) (p : Page) (frame : ℕ) →
            first ≤ v →
            v < end →
            page_at self.now.areas pid v ≡ Some p →
            get page_cmp self.now.place p ≡ Some frame →
            slice_index_or counts.now frame 0 ≡ 0 }
        ensures kept { IsWellFormed self.now }
    {
        shows_counted(&self.table, &self.places, pid, first, end, counts)
    }

    /// The frames of all pages that have one, in page order. An error means that the host is out of memory; if no page
    /// has a frame, the list needs none.
    pub fn frames(&self) -> Result<Vec<FrameId, A>, AllocError>
        ensures frames { IfOk result (λ frames. frames.items ≡ values_of self.now.place) }
        ensures allocates { OnErr result (0 < length self.now.place) }
    {
        list_frames(self.alloc, &self.places)
    }

    /// The pages that have a frame, each with its frame, by segment and index. An error means that the host is out of
    /// memory; if no page has a frame, the list needs none.
    pub fn placed(&self) -> Result<Vec<(Page, FrameId), A>, AllocError>
        ensures placed { IfOk result (λ placed. placed.items ≡ self.now.place) }
        ensures allocates { OnErr result (0 < length self.now.place) }
    {
        list_placed(self.alloc, &self.places)
    }

    /// Sets the frame of a page. An error means that the host is out of memory, that the page had no frame, and that
    /// nothing has changed.
    pub fn set_frame(&mut self, page: Page, frame: FrameId) -> Result<(), AllocError>
        ensures ok { OnOk result (self.new ≡ with_frame self.old page frame) }
        ensures err { OnErr result (self.new ≡ self.old) }
        ensures absent { OnErr result (get page_cmp self.old.place page ≡ None) }
        ensures ordered { IsStrictlySortedBy page_cmp (keys_of self.new.place) }
    {
        self.places.insert(page, frame)?;
        Ok(())
    }

    /// Replaces the frame of a page that has one. Does not allocate.
    pub fn move_page(&mut self, page: Page, frame: FrameId)
        requires { IsSome (get page_cmp self.old.place page) }
        ensures { self.new ≡ with_frame_of self.old page frame }
    {
        if let Some(there) = self.places.get_mut(&page) {
            *there = frame;
        }
    }

    /// Removes the frame of a page that has one. Does not allocate.
    pub fn drop_frame(&mut self, page: Page)
        requires { IsSome (get page_cmp self.old.place page) }
        ensures { self.new ≡ without_frame self.old page }
    {
        self.places.remove(&page);
    }
}

/// Whether an area of a process shows, at a page number from one up to another, a page whose frame has a number above 0
/// in a list by frame.
fn shows_counted<A: Allocator + Copy>(
    table: &AreaTable<A>,
    places: &BTreeMap<Page, FrameId, A>,
    pid: Pid,
    first: Vpn,
    end: Vpn,
    counts: &[u32],
) -> bool
    requires { IsWellFormed (mapping_of table.now places.now.entries) }
    ensures shown { result ≡ true →
        (v : ℕ) × (p : Page) × (frame : ℕ) × (first ≤ v) × (v < end)
        × (page_at table.now.areas pid v ≡ Some p)
        × (get page_cmp places.now.entries p ≡ Some frame)
        × (0 < slice_index_or counts.now frame 0) }
    ensures none { result ≡ false →
        (v : ℕ) (p : Page) (frame : ℕ) →
        first ≤ v →
        v < end →
        page_at table.now.areas pid v ≡ Some p →
        get page_cmp places.now.entries p ≡ Some frame →
        slice_index_or counts.now frame 0 ≡ 0 }
{
    let begin = table.begin(pid, first);
    let mut rest = table.areas.range((pid, begin)..);
    while let Some((start, area)) = step_area(&mut rest, pid, end) {
        if area_shows_counted(places, start, area, first, end, counts) {
            return true;
        }
    }
    false
}

/// The same for one area, given with its first page number.
fn area_shows_counted<A: Allocator + Copy>(
    places: &BTreeMap<Page, FrameId, A>,
    start: Vpn,
    area: Area,
    first: Vpn,
    end: Vpn,
    counts: &[u32],
) -> bool
    requires range { start < end }
    requires indices { area.page.index + area.pages < 2 ^ 64 }

    // If there is one
    ensures shown { result ≡ true →
        (v : ℕ) × (frame : ℕ) × (first ≤ v) × (v < end) × (start ≤ v) × (v < start + area.pages)
        × (get page_cmp places.now.entries (page_of ((0, start), area) v) ≡ Some frame)
        × (0 < slice_index_or counts.now frame 0) }

    // If there is none
    ensures none { result ≡ false →
        (v frame : ℕ) →
        first ≤ v →
        v < end →
        start ≤ v →
        v < start + area.pages →
        get page_cmp places.now.entries (page_of ((0, start), area) v) ≡ Some frame →
        slice_index_or counts.now frame 0 ≡ 0 }
{
    let Page { segment, index } = area.page;
    let front = first
        .number()
        .saturating_sub(start.number())
        .min(area.pages);
    let back = area.pages.min(end.number() - start.number());
    has_counted(places, segment, index + front, index + back, counts)
}

/// The same for the pages of a segment from an index up to another.
fn has_counted<A: Allocator + Copy>(
    places: &BTreeMap<Page, FrameId, A>,
    segment: u32,
    at: u64,
    past: u64,
    counts: &[u32],
) -> bool
    ensures shown { result ≡ true →
        (i : ℕ) × (frame : ℕ) × (at ≤ i) × (i < past)
        × (get page_cmp places.now.entries (page_in segment i) ≡ Some frame)
        × (0 < slice_index_or counts.now frame 0) }
    ensures none { result ≡ false →
        (i frame : ℕ) →
        at ≤ i →
        i < past →
        get page_cmp places.now.entries (page_in segment i) ≡ Some frame →
        slice_index_or counts.now frame 0 ≡ 0 }
{
    let from = Page { segment, index: at };
    let mut rest = places.range(from..);
    while let Some((_, frame)) = step_page(&mut rest, segment, past) {
        if is_counted(counts, frame) {
            return true;
        }
    }
    false
}

/// Whether a frame has a number above 0 in a list by frame.
fn is_counted(counts: &[u32], frame: FrameId) -> bool
    ensures { result ≡ nat_lt 0 (slice_index_or counts.now frame 0) }
{
    match counts.get(frame.index()) {
        Some(count) => *count > 0,
        None => false,
    }
}

/// The frames of all pages that have one, in page order.
fn list_frames<A: Allocator + Copy>(
    alloc: A,
    places: &BTreeMap<Page, FrameId, A>,
) -> Result<Vec<FrameId, A>, AllocError>
    ensures frames { IfOk result (λ frames. frames.items ≡ values_of places.now.entries) }
    ensures allocates { OnErr result (0 < length places.now.entries) }
{
    let mut frames = Vec::with_capacity(alloc, places.len())?;
    for frame in places.values() {
        frames.push_reserved(*frame);
    }
    Ok(frames)
}

/// The pages that have a frame, each with its frame, in page order.
fn list_placed<A: Allocator + Copy>(
    alloc: A,
    places: &BTreeMap<Page, FrameId, A>,
) -> Result<Vec<(Page, FrameId), A>, AllocError>
    ensures placed { IfOk result (λ placed. placed.items ≡ places.now.entries) }
    ensures allocates { OnErr result (0 < length places.now.entries) }
{
    let mut placed = Vec::with_capacity(alloc, places.len())?;
    for (page, frame) in places.iter() {
        placed.push_reserved((*page, *frame));
    }
    Ok(placed)
}
