//! Adding, splitting and removing areas.

ghost use Rattle.std.specs.Prelude.{Err, IfOk, OnErr, OnOk, false, length, map, true, ◌+◌, ◌/◌, ◌<◌, ◌≡◌, ◌⊎◌};
ghost use Rattle.nm_model.specs.definitions.AreaRefusal.{overlaps};
ghost use Rattle.std.specs.List.{list_any};
ghost use Rattle.nm_engine.specs.definitions.Does.{AsksLast, Makes};
ghost use Rattle.nm_model.specs.definitions.Effect.{attach, attach_refusal, drop_range, is_unknown, map_new, map_refusal, policy_refusal, set_policy, set_range_policy, shows_pinned, unmap, unmap_refusal};
ghost use Rattle.nm_areas.specs.Splits.{HasSplit};
ghost use Rattle.nm_model.specs.definitions.Areas.{page_count};
ghost use Rattle.nm_pool.specs.views.Frames.{CanFree, pool_of, with_freed};
ghost use Rattle.nm_runs.specs.Targets.{Checks};

use crate::machine::Machine;
use nm_areas::PageRange;
use nm_pool::FramePool;
use nm_types::{Errno, FrameId, MachineError, Page, Pid, Policy};
use std::alloc::{AllocError, Allocator};

impl<A: Allocator + Copy + Send + Sync> Machine<A> {
    /// Makes a segment of `pages` pages, private or shared, and an area of the process over all of it from address
    /// `addr` on, with the default policy (mmap(2)). Returns the segment's number, which no other segment ever gets.
    ///
    /// Errors, in order: ESRCH if there is no such process; EINVAL if the address is not a multiple of 4,096, `pages`
    /// is 0, the end is past 2^47, or an area of the process is in the way; ENOMEM if 65,536 segments have been made. A
    /// refused call uses up no number.
    pub fn map(
        &mut self,
        pid: Pid,
        addr: u64,
        pages: u64,
        shared: bool,
    ) -> Result<u32, MachineError>
        ensures done { Makes result self.old self.new (map_refusal self.old pid addr pages)
            (map_new self.old pid addr pages shared) }
        ensures memory { AsksLast result (map_refusal self.old pid addr pages) }
        ensures number { IfOk result (λ number. number ≡ self.old.next_segment) }
    {
        if self.spaces.info(pid).is_none() {
            return Err(MachineError::Refused(Errno::Esrch));
        }
        Ok(self.spaces.map(pid, addr, pages, shared)?)
    }

    /// Makes an area of the process from address `addr` on, over `pages` pages of a shared segment from `offset` on, in
    /// pages, with the default policy (mmap(2), MAP_SHARED).
    ///
    /// Errors, in order: ESRCH if there is no such process; EINVAL as for `map`, or if the segment does not exist, is
    /// private, or ends before the area would.
    pub fn attach(
        &mut self,
        pid: Pid,
        addr: u64,
        segment: u64,
        offset: u64,
        pages: u64,
    ) -> Result<(), MachineError>
        ensures done { Makes result self.old self.new
            (attach_refusal self.old pid addr segment offset pages)
            (attach self.old pid addr segment offset pages) }
        ensures memory { AsksLast result (attach_refusal self.old pid addr segment offset pages) }
    {
        if self.spaces.info(pid).is_none() {
            return Err(MachineError::Refused(Errno::Esrch));
        }
        Ok(self.spaces.attach(pid, addr, segment, offset, pages)?)
    }

    /// Unmaps `pages` pages of a process from address `addr` on; the range may have holes (munmap(2)). The process
    /// loses what it sees there, and the parts of its areas there. Pages that no area of any process covers lose their
    /// frames, which become free in address order, each page at its lowest address.
    ///
    /// Errors, in order: ESRCH if there is no such process; EINVAL if the address is not a multiple of 4,096, `pages`
    /// is 0, or the end is past 2^47; EBUSY if an area of the process shows a page with a pin there. Allocates only if
    /// an area of the process is in the range, and only if it is split there or a page has a frame.
    pub fn unmap(&mut self, pid: Pid, addr: u64, pages: u64) -> Result<(), MachineError>
        ensures done { Makes result self.old self.new (unmap_refusal self.old pid addr pages)
            (unmap self.old pid addr pages) }
        ensures memory { AsksLast result (unmap_refusal self.old pid addr pages) }
        ensures allocates { result ≡ Err MachineError.HostMemory →
            list_any (overlaps pid (addr / 4096) (addr / 4096 + pages)) self.old.areas ≡ true }
        ensures needed { result ≡ Err MachineError.HostMemory →
            (0 < length self.old.place)
            ⊎ HasSplit self.old.areas pid (addr / 4096)
            ⊎ HasSplit self.old.areas pid (addr / 4096 + pages) }
    {
        if self.spaces.info(pid).is_none() {
            return Err(MachineError::Refused(Errno::Esrch));
        }
        let Some(range) = PageRange::of_pages(addr, pages) else {
            return Err(MachineError::Refused(Errno::Einval));
        };
        let PageRange { first, end } = range;
        if self.shows_pinned(pid, first, end) {
            return Err(MachineError::Refused(Errno::Ebusy));
        }
        Ok(self.let_go(pid, range)?)
    }

    /// Unmaps a range of one or more page numbers of a process, none of which may show a page with a pin. The frames of
    /// pages that no area covers become free, in address order.
    pub(crate) fn let_go(&mut self, pid: Pid, range: PageRange) -> Result<(), AllocError>
        requires known { is_unknown self.old pid ≡ false }
        requires some { range.first < range.end }
        requires unpinned { shows_pinned self.old.areas self.old.pins pid range.first range.end
            ≡ false }

        // On success
        ensures ok { OnOk result (self.new ≡ drop_range self.old pid range.first range.end) }

        // Without memory
        ensures err { OnErr result (self.new ≡ self.old) }
        ensures allocates { OnErr result
            (list_any (overlaps pid range.first range.end) self.old.areas ≡ true) }
        ensures needed { OnErr result
            ((0 < length self.old.place)
            ⊎ HasSplit self.old.areas pid range.first
            ⊎ HasSplit self.old.areas pid range.end) }
    {
        let freed = self.spaces.remove(pid, range)?;
        free_each(&mut self.frames, freed.as_slice());
        Ok(())
    }

    /// The page numbers of the `len` bytes from address `addr` on, rounded up to whole pages, whose policy `set_policy`
    /// would set. If it would refuse, returns the same error. Does not allocate.
    ///
    /// Errors, in order: ESRCH if there is no such process; EINVAL if the address is not a multiple of 4,096, or the
    /// range ends past 2^64 - 1; EFAULT if a page of the range has no area. A `len` of 0 that is not refused is an empty
    /// range.
    pub fn check_policy(&self, pid: Pid, addr: u64, len: u64) -> Result<PageRange, Errno>
        // In any case
        ensures exact { Checks result (policy_refusal self.now pid addr len) }

        // On success
        ensures range { IfOk result
            (λ range. (range.first ≡ addr / 4096) × (range.end ≡ addr / 4096 + page_count len)) }
    {
        if self.spaces.info(pid).is_none() {
            return Err(Errno::Esrch);
        }
        self.spaces.areas().check_policy(pid, addr, len)
    }

    /// Sets where new pages are placed in the `len` bytes from address `addr` on, rounded up to whole pages, as mbind(2)
    /// does. The process's areas are split at both ends of the range, and never merged; no page moves.
    ///
    /// Errors, in order: those of `check_policy`; `HostMemory`, only where an area is split. An error means that nothing
    /// has changed.
    pub fn set_policy(
        &mut self,
        pid: Pid,
        addr: u64,
        len: u64,
        policy: Policy,
    ) -> Result<(), MachineError>
        ensures done { Makes result self.old self.new (policy_refusal self.old pid addr len)
            (set_policy self.old pid addr len policy) }
        ensures memory { AsksLast result (policy_refusal self.old pid addr len) }
        ensures some { result ≡ Err MachineError.HostMemory → 0 < len }
        ensures allocates { result ≡ Err MachineError.HostMemory →
            HasSplit self.old.areas pid (addr / 4096)
            ⊎ HasSplit self.old.areas pid (addr / 4096 + page_count len) }
    {
        if self.spaces.info(pid).is_none() {
            return Err(MachineError::Refused(Errno::Esrch));
        }
        self.spaces.set_policy(pid, addr, len, policy)
    }

    /// Sets where new pages are placed in a range of page numbers of a process, as `set_policy` does. An empty range
    /// changes nothing.
    ///
    /// An error means that nothing has changed. Allocates only where an area is split.
    pub fn set_range_policy(
        &mut self,
        pid: Pid,
        range: PageRange,
        policy: Policy,
    ) -> Result<(), AllocError>
        // On success
        ensures ok { OnOk result
            (self.new ≡ set_range_policy self.old pid range.first range.end policy) }

        // Without memory
        ensures err { OnErr result (self.new ≡ self.old) }
        ensures some { OnErr result (range.first < range.end) }
        ensures allocates { OnErr result
            (HasSplit self.old.areas pid range.first ⊎ HasSplit self.old.areas pid range.end) }
    {
        self.spaces.set_range_policy(pid, range, policy)
    }
}

/// Frees the frames of pages, in order, each at the end of its own node's list.
fn free_each<A: Allocator + Copy>(frames: &mut FramePool<A>, freed: &[(Page, FrameId)])
    requires { CanFree (pool_of frames.old) (map (λ f. f.1) freed.now) }
    ensures { frames.new
        ≡ record (frames.old) {
          free = (with_freed (pool_of frames.old)
              (map (λ f. f.1) freed.now)).lists;
        } }
{
    for (_, frame) in freed {
        frames.free(*frame);
    }
}
