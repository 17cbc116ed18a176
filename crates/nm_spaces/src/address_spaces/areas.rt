//! Adding, splitting and removing areas of address spaces.

ghost use Rattle.std.specs.Prelude.{ℕ, true, false, ◌≡◌, ◌<◌, ◌≤◌, ◌+◌, ◌/◌, ◌⊎◌, [], length, None, Some, Err, IfOk, OnOk, OnErr};
ghost use Rattle.std.specs.List.{AllByRecursion, list_any};
ghost use Rattle.std.specs.Map.{keys_of};
ghost use Rattle.std.specs.Ordering.{nat_cmp};
ghost use Rattle.std.specs.List.Sorted.{IsStrictlySortedBy};
ghost use Rattle.nm_types.specs.Map.{get, without};
ghost use Rattle.nm_types.specs.State.{Process, page_at};
ghost use Rattle.nm_types.specs.Does.{Makes};
ghost use Rattle.nm_areas.specs.Splits.{HasSplit};
ghost use Rattle.nm_model.specs.definitions.Areas.{with_segment, with_area, page_count, with_policy};
ghost use Rattle.nm_model.specs.definitions.AreaRefusal.{insert_refusal, stretch_refusal, range_refusal, overlaps};
ghost use Rattle.nm_model.specs.definitions.Areas.{frames_lost};
ghost use Rattle.nm_model.specs.definitions.Effect.{shows_pinned};
ghost use Rattle.nm_model.specs.definitions.PageTables.{entry_at};
ghost use Rattle.nm_spaces.specs.views.ProcessTable.{names, without_entries};
ghost use Rattle.nm_spaces.specs.definitions.Tied.{IsCleared};
ghost use Rattle.nm_spaces.specs.views.AddressSpaces.{is_page_pinned, mapped_of, with_mapped, without_range};

use crate::address_spaces::AddressSpaces;
use crate::entry::frame_named;
use crate::process_table::ProcessTable;
use nm_areas::PageRange;
use nm_rmap::ReverseMap;
use nm_types::{FrameId, MachineError, Page, Pid, Policy, Vpn};
use std::alloc::{AllocError, Allocator};

impl<A: Allocator + Copy> AddressSpaces<A> {
    /// Makes the next segment, and an area of the process over all of it. Returns the segment's number.
    pub fn map(
        &mut self,
        pid: Pid,
        addr: u64,
        pages: u64,
        shared: bool,
    ) -> Result<u32, MachineError>
        // The result and the areas
        ensures done { Makes result (mapped_of self.old) (mapped_of self.new)
            (insert_refusal (mapped_of self.old) pid addr pages)
            (with_segment (mapped_of self.old) pid addr pages shared) }
        ensures memory { result ≡ Err MachineError.HostMemory →
            insert_refusal (mapped_of self.old) pid addr pages ≡ None }
        ensures number { IfOk result (λ number. number ≡ self.old.next) }

        // Nothing else changes
        ensures same { self.new ≡ with_mapped self.old (mapped_of self.new) }
    {
        let parts = &mut *self.parts;
        parts.areas.insert(pid, addr, pages, shared)
    }

    /// Makes an area of the process over a range of a shared segment.
    pub fn attach(
        &mut self,
        pid: Pid,
        addr: u64,
        segment: u64,
        offset: u64,
        pages: u64,
    ) -> Result<(), MachineError>
        ensures done { Makes result (mapped_of self.old) (mapped_of self.new)
            (stretch_refusal (mapped_of self.old) pid addr segment offset pages)
            (with_area (mapped_of self.old) pid addr segment offset pages) }
        ensures memory { result ≡ Err MachineError.HostMemory →
            stretch_refusal (mapped_of self.old) pid addr segment offset pages ≡ None }
        ensures same { self.new ≡ with_mapped self.old (mapped_of self.new) }
    {
        let parts = &mut *self.parts;
        parts.areas.attach(pid, addr, segment, offset, pages)
    }

    /// Sets the policy of the whole pages of `len` bytes of a process from address `addr` on.
    pub fn set_policy(
        &mut self,
        pid: Pid,
        addr: u64,
        len: u64,
        policy: Policy,
    ) -> Result<(), MachineError>
        // The result and the areas
        ensures done { Makes result (mapped_of self.old) (mapped_of self.new)
            (range_refusal (mapped_of self.old) pid addr len)
            (with_policy (mapped_of self.old) pid (addr / 4096) (addr / 4096 + page_count len) policy) }
        ensures memory { result ≡ Err MachineError.HostMemory →
            (range_refusal (mapped_of self.old) pid addr len ≡ None) × (0 < len) }
        ensures allocates { result ≡ Err MachineError.HostMemory →
            HasSplit self.old.areas pid (addr / 4096)
            ⊎ HasSplit self.old.areas pid (addr / 4096 + page_count len) }

        // Nothing else changes
        ensures same { self.new ≡ with_mapped self.old (mapped_of self.new) }
    {
        let parts = &mut *self.parts;
        parts.areas.split_policy(pid, addr, len, policy)
    }

    /// Sets the policy of a range of page numbers of a process, and of no others. An error means that nothing has
    /// changed.
    pub fn set_range_policy(
        &mut self,
        pid: Pid,
        range: PageRange,
        policy: Policy,
    ) -> Result<(), AllocError>
        // On success
        ensures ok { OnOk result
            (self.new
            ≡ with_mapped self.old
            (with_policy (mapped_of self.old) pid range.first range.end policy)) }

        // Without memory
        ensures err { OnErr result (self.new ≡ self.old) }
        ensures some { OnErr result (range.first < range.end) }
        ensures allocates { OnErr result
            (HasSplit self.old.areas pid range.first ⊎ HasSplit self.old.areas pid range.end) }
    {
        let parts = &mut *self.parts;
        parts.areas.set_range_policy(pid, range, policy)
    }

    /// Whether an area of a process shows a page with a pin from one page number up to another. Walks once over the
    /// areas and the pages with a frame there, up to the first pin, and not at all if no page has a pin.
    pub fn has_pinned(&self, pid: Pid, first: Vpn, end: Vpn) -> bool
        requires { first ≤ end }
        ensures { result ≡ shows_pinned self.now.areas self.now.pins pid first end }
    {
        let parts = &*self.parts;
        if !parts.rmap.has_pins() {
            return false;
        }
        parts
            .areas
            .shows_counted(pid, first, end, parts.rmap.pin_counts())
    }

    /// Whether the page that an area of a process shows at a page number has a pin.
    pub fn has_pin_at(&self, pid: Pid, vpn: Vpn) -> bool
        ensures pinned { result ≡ is_page_pinned self.now (page_at self.now.areas pid vpn) }
        ensures range { result ≡ true →
            (first end : ℕ) →
            first ≤ vpn →
            vpn < end →
            shows_pinned self.now.areas self.now.pins pid first end ≡ true }
    {
        let parts = &*self.parts;
        let Some(page) = self.page_at(pid, vpn) else {
            return false;
        };
        match parts.areas.page_frame(page) {
            Some(frame) => parts.rmap.pins(frame) > 0,
            None => false,
        }
    }

    /// Unmaps a range of one or more page numbers of a process, none of which may show a page with a pin: the process
    /// loses what it sees there, and the parts of its areas there. Returns the pages that no area covers, with the
    /// frames that they had, in address order.
    pub fn remove(
        &mut self,
        pid: Pid,
        range: PageRange,
    ) -> Result<Vec<(Page, FrameId), A>, AllocError>
        requires some { range.first < range.end }
        requires unpinned { shows_pinned self.old.areas self.old.pins pid range.first range.end
            ≡ false }

        // On success
        ensures ok { OnOk result (self.new ≡ without_range self.old pid range.first range.end) }
        ensures freed { IfOk result
            (λ freed. freed.items ≡ frames_lost (mapped_of self.old) pid range.first range.end) }

        // Without memory
        ensures err { OnErr result (self.new ≡ self.old) }
        ensures allocates { OnErr result
            (list_any (overlaps pid range.first range.end) self.old.areas ≡ true) }
        ensures needed { OnErr result
            ((0 < length self.old.place)
            ⊎ HasSplit self.old.areas pid range.first
            ⊎ HasSplit self.old.areas pid range.end) }
    {
        let parts = &mut *self.parts;
        let PageRange { first, end } = range;
        let freed = parts.areas.remove(pid, range)?;
        clear_between(&mut parts.tasks, &mut parts.rmap, pid, first, end);
        Ok(freed)
    }

    /// Removes a process that sees nothing.
    pub fn remove_task(&mut self, pid: Pid)
        requires { (p : Process) → get nat_cmp self.old.processes pid ≡ Some p → p.sees ≡ [] }
        ensures { self.new
            ≡ record (self.old) { processes = without nat_cmp self.old.processes pid } }
    {
        let parts = &mut *self.parts;
        parts.tasks.remove(pid);
    }
}

/// Removes the entries of a process from one page number up to another, and the mappers that they were.
fn clear_between<A: Allocator + Copy>(
    tasks: &mut ProcessTable<A>,
    rmap: &mut ReverseMap<A>,
    pid: Pid,
    first: Vpn,
    end: Vpn,
)
    requires frames { (f v : ℕ) →
        names f (entry_at tasks.old pid v) ≡ true →
        f < length rmap.old.mappings }
    requires pids { IsStrictlySortedBy nat_cmp (keys_of tasks.old) }
    requires tables { AllByRecursion (λ e. IsStrictlySortedBy nat_cmp (keys_of e.1.table)) tasks.old }
    ensures tasks { tasks.new ≡ without_entries tasks.old pid first end }
    ensures rmap { IsCleared rmap.old rmap.new pid first end tasks.old }
{
    let mut at = first.number();
    while let Some((vpn, entry)) = tasks.first_from(pid, Vpn::new(at)) {
        if vpn.number() >= end.number() {
            return;
        }
        if let Some(frame) = frame_named(&entry) {
            rmap.drop_one(frame, pid, vpn);
        }
        tasks.clear(pid, vpn);
        at = vpn.number() + 1;
    }
}
