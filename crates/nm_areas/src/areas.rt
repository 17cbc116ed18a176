//! The areas of all processes.

ghost use Rattle.std.specs.Prelude.{ℕ, OnOk, Some, ◌≡◌, ◌≤◌, ◌<◌, ◌+◌, ◌/◌, true, IfOk, IfSome, option_map};
ghost use Rattle.nm_types.specs.State.{PlacedArea, area_over};
ghost use Rattle.nm_types.specs.Does.{Makes};
ghost use Rattle.nm_model.specs.definitions.Areas.{no_areas, new_area, with_segment, with_area, over_with};
ghost use Rattle.nm_model.specs.definitions.Areas.{is_shared};
ghost use Rattle.nm_areas.specs.Lines.{area_line};
ghost use Rattle.nm_model.specs.definitions.Areas.{IsWellFormed};
ghost use Rattle.nm_model.specs.definitions.AreaRefusal.{insert_refusal, stretch_refusal};

use crate::area_table::{AreaTable, new_area};
use crate::counting::{count_in, count_out};
use crate::lines::{Area, line_of};
use crate::ranges::PageRange;
use nm_coverage::Coverage;
use nm_types::limits::MAX_SEGMENTS;
use nm_types::{Errno, FrameId, MachineError, Page, Pid, Vpn};
use std::alloc::Allocator;
use std::collections::BTreeMap;
use std::marker::Model;

/// The areas of all processes, the segments that they show, and the frame of each page that has one. Contracts see
/// maps: the areas by process and first page number, the segments by number, and the frames by page. The areas of a
/// process do not overlap, and a page of a private segment is shown at one page number only. How many areas cover each
/// page of a shared segment is kept too (`coverage`), and no contract sees it.
#[derive(Drop)]
pub struct Areas<A: Allocator + Copy> {
    pub(crate) table: AreaTable<A>,
    pub(crate) steps: Coverage<A>,
    pub(crate) places: BTreeMap<Page, FrameId, A>,
    pub(crate) alloc: A,
}

impl<A: Allocator + Copy> Model for Areas<A> {
    ghost use Rattle.nm_areas.specs.Coverage.{IsCoverage};
    ghost use Rattle.nm_model.specs.definitions.Areas.{Mapping, IsWellFormed, mapping_of};

    ghost Value = { Mapping };

    ghost view = { λ a. mapping_of a.table a.places.entries };

    ghost invariant = { λ a. IsWellFormed (mapping_of a.table a.places.entries) × IsCoverage a.steps a.table.segments a.table.areas };
}

impl<A: Allocator + Copy> Areas<A> {
    /// Makes a table without areas, segments and frames. Does not allocate.
    pub fn new(alloc: A) -> Self
        ensures { result ≡ no_areas }
    {
        Areas {
            table: AreaTable::new(alloc),
            steps: Coverage::new(alloc),
            places: BTreeMap::new(alloc),
            alloc,
        }
    }

    /// The area of a process that covers a page number. None if no area does. Looks up the area and its segment.
    pub fn find(&self, pid: Pid, vpn: Vpn) -> Option<Area>
        ensures { result
            ≡ option_map (area_line self.now.segments) (area_over self.now.areas pid vpn) }
    {
        let (first, area) = self.table.over(pid, vpn)?;
        Some(line_of(&self.table.segments, first, area))
    }

    /// The area of a process that covers a page number, as it is kept, with its first page number. Unlike `find`, this
    /// does not look up whether its segment is shared. The result holds for all of the area's page numbers, so callers
    /// may keep it for those.
    pub fn over(&self, pid: Pid, vpn: Vpn) -> Option<(Vpn, nm_types::Area)>
        ensures found { option_map {U = PlacedArea} (λ found. ((pid, found.0), found.1)) result
            ≡ area_over self.now.areas pid vpn }
        ensures over { IfSome result
            (λ a. (v : ℕ) →
            a.0 ≤ v →
            v < a.0 + a.1.pages →
            area_over self.now.areas pid v ≡ Some ((pid, a.0), a.1)) }
        ensures kept { IsWellFormed self.now }
    {
        self.table.over(pid, vpn)
    }

    /// Whether a segment is shared. False if there is no such segment.
    pub fn is_shared(&self, segment: u32) -> bool
        ensures { result ≡ is_shared self.now.segments segment }
    {
        self.table.is_shared(segment)
    }

    /// Makes the next segment, of `pages` pages, and an area of the process over all of it that begins at address
    /// `addr`, with the default policy. Returns the segment's number, which no other segment ever gets.
    ///
    /// Errors, in order: EINVAL if the address is not a multiple of 4,096, `pages` is 0, the area would end past 2^47,
    /// or an area of the process covers one of its page numbers; ENOMEM if 65,536 segments have been made. A refused
    /// call uses up no number. Allocates only if the call is not refused.
    pub fn insert(
        &mut self,
        pid: Pid,
        addr: u64,
        pages: u64,
        shared: bool,
    ) -> Result<u32, MachineError>
        // In any case
        ensures done { Makes result self.old self.new (insert_refusal self.old pid addr pages)
            (with_segment self.old pid addr pages shared) }

        // Without memory
        ensures memory { result ≡ Err MachineError.HostMemory →
            insert_refusal self.old pid addr pages ≡ None }

        // On success
        ensures number { IfOk result (λ number. number ≡ self.old.next) }
        ensures over { OnOk result
            ((q v : ℕ) →
            area_over self.new.areas q v
            ≡ over_with self.old.areas
            ((pid, addr / 4096), new_area self.old.next 0 pages) q v) }
    {
        let Some(range) = PageRange::of_pages(addr, pages) else {
            return Err(MachineError::Refused(Errno::Einval));
        };
        // An area in the way is reported before the limit.
        if !self.table.is_free(pid, &range) {
            return Err(MachineError::Refused(Errno::Einval));
        }
        if self.table.next_segment() >= MAX_SEGMENTS {
            return Err(MachineError::Refused(Errno::Enomem));
        }
        let PageRange { first, .. } = range;
        let next = self.table.next_segment();
        count_in(
            &self.table,
            &mut self.steps,
            new_area(next, 0, pages),
            shared,
        )?;
        let Ok(number) = self.table.insert(pid, first, pages, shared) else {
            count_out(&mut self.steps, new_area(next, 0, pages), shared);
            return Err(MachineError::HostMemory);
        };
        Ok(number)
    }

    /// Makes an area of the process that begins at address `addr`, over `pages` pages of a shared segment from `offset`
    /// on, in pages, with the default policy.
    ///
    /// Errors: EINVAL as for `insert`, or if there is no such segment, it is private, or it ends before the area would.
    /// Allocates only if the call is not refused.
    pub fn attach(
        &mut self,
        pid: Pid,
        addr: u64,
        segment: u64,
        offset: u64,
        pages: u64,
    ) -> Result<(), MachineError>
        ensures done { Makes result self.old self.new
            (stretch_refusal self.old pid addr segment offset pages)
            (with_area self.old pid addr segment offset pages) }
        ensures memory { result ≡ Err MachineError.HostMemory →
            stretch_refusal self.old pid addr segment offset pages ≡ None }
        ensures over { OnOk result
            ((q v : ℕ) →
            area_over self.new.areas q v
            ≡ over_with self.old.areas
            ((pid, addr / 4096), new_area segment offset pages) q v) }
    {
        let Some(range) = PageRange::of_pages(addr, pages) else {
            return Err(MachineError::Refused(Errno::Einval));
        };
        if !self.table.is_free(pid, &range) {
            return Err(MachineError::Refused(Errno::Einval));
        }
        let Some(number) = self.table.stretch_of(segment, offset, pages) else {
            return Err(MachineError::Refused(Errno::Einval));
        };
        let PageRange { first, .. } = range;
        count_in(
            &self.table,
            &mut self.steps,
            new_area(number, offset, pages),
            true,
        )?;
        let Ok(()) = self.table.attach(pid, first, number, offset, pages) else {
            count_out(&mut self.steps, new_area(number, offset, pages), true);
            return Err(MachineError::HostMemory);
        };
        Ok(())
    }
}
