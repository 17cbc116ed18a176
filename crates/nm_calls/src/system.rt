//! A system: a machine and its limit on runs, and the calls that processes make.

ghost use Rattle.std.specs.Prelude.{Err, IfOk, OnErr, [], length, true, ◌+◌, ◌<◌, ◌≡◌, ◌≤◌};
ghost use Rattle.nm_types.specs.State.{free_list};
ghost use Rattle.nm_model.specs.definitions.PageTables.{entries_of};
ghost use Rattle.nm_model.specs.definitions.Sound.{each_frame_is_once};
ghost use Rattle.nm_model.specs.definitions.Sound.{IsSound};
ghost use Rattle.nm_requests.specs.Calls.{Unmap, Exit, Pin, Unpin, ReadBytes, WriteBytes, Offline, Online, FreeList, Pagemap, Vmstat, NumaMaps, default_limit};
ghost use Rattle.nm_calls.specs.definitions.Answers.{Done, NewSegment, TheBytes, Statuses, Failed, Frames, Entries, TheTotals, Lines};
ghost use Rattle.nm_calls.specs.definitions.Entries.{entries_mapped, entries_shown};
ghost use Rattle.nm_calls.specs.definitions.Maps.{lines_shown};
ghost use Rattle.nm_calls.specs.definitions.Memory.{MayAllocate};
ghost use Rattle.nm_calls.specs.definitions.Systems.{new_system, system_with};
ghost use Rattle.nm_calls.specs.definitions.Outcome.{outcome};
ghost use Rattle.nm_calls.specs.definitions.Does.{AllocatesOnlyIf, Does, DoesOrRefuses};
ghost use Rattle.nm_calls.specs.views.Answers.{moved_shown};
ghost use Rattle.nm_requests.specs.Views.{attach_call, map_call, mbind_call, migrate_call, move_call, query_call, spawn_call};

use crate::answer::PagemapEntry;
use crate::maps::areas_text;
use crate::mbind::{bind, check_binding};
use crate::migrate::{migrate, migration_of};
use crate::offline::{check_offline, empty_node};
use crate::status::statuses_of;
use nm_engine::{FIXED_SEED, Machine, RunCrew, Totals};
use nm_passes::{CallError, Moved, check_targets, entries_of, move_batch, permit_of};
use nm_requests::{
    Attachment, MbindRequest, MigrateRequest, MoveRequest, NewArea, NewProcess, Question,
};
use nm_spaces::frame_named;
use nm_tables::Entry;
use nm_types::limits::MAX_BATCH;
use nm_types::{Errno, FrameId, Geometry, NodeId, Pid, Vpn};
use std::alloc::{AllocError, Allocator};
use std::marker::Model;

/// Entries in the form that `pagemap` returns. An error means that the host is out of memory; without entries it needs
/// none.
fn mapped_of<A: Allocator + Copy>(
    alloc: A,
    entries: &[(Vpn, Entry)],
) -> Result<Vec<PagemapEntry, A>, AllocError>
    ensures list { IfOk result
        (λ mapped. entries_mapped mapped.items ≡ entries_shown entries.now) }
    ensures allocates { OnErr result (0 < length entries.now) }
{
    let mut mapped = Vec::with_capacity(alloc, entries.len())?;
    for (vpn, entry) in entries {
        mapped.push_reserved(PagemapEntry {
            vpn: *vpn,
            frame: frame_named(entry),
        });
    }
    Ok(mapped)
}

/// A machine of nodes, processes and pages, and the most requests that a run may have. Contracts see its state, which
/// is sound, and that limit.
///
/// A call that moves pages takes the crew that looks at them and copies them: the caller alone, threads, or any other.
/// Which crew it is changes nothing that a call does or returns.
///
/// A call with four arguments or more takes them as one value, such as an `MbindRequest`: a struct with public fields,
/// which `Call` has too.
#[derive(Drop)]
pub struct System<A: Allocator + Copy + Send + Sync> {
    machine: Machine<A>,
    run_limit: usize,
    alloc: A,
}

impl<A: Allocator + Copy + Send + Sync> Model for System<A> {
    ghost use Rattle.std.specs.Prelude.{◌<◌, ◌≤◌};
    ghost use Rattle.nm_calls.specs.definitions.Systems.{SystemState};

    ghost Value = { SystemState };

    ghost view = { λ s. record { state = s.machine; run_limit = s.run_limit } };

    ghost invariant = { λ s. 0 < s.run_limit };
}

#[tactic(auto, unfolding(crate::specs::definitions::Outcome::refusal_of, crate::specs::definitions::Outcome::refused_at_once, crate::specs::definitions::Outcome::end_of_call, crate::specs::definitions::Outcome::runs_asked, crate::specs::definitions::Outcome::start, crate::specs::definitions::Outcome::sets_policy, crate::specs::definitions::Outcome::accesses_asked), using(crate::proofs::Outcomes::answers, crate::proofs::Outcomes::refuses, crate::proofs::Outcomes::unchanged, crate::proofs::Outcomes::host_leaves))]
impl<A: Allocator + Copy + Send + Sync> System<A> {
    /// Makes a new machine: no process, every node online, every frame free, and each free list in ascending order. An
    /// error means that the host is out of memory.
    pub fn new(alloc: A, geometry: Geometry<A>) -> Result<Self, AllocError>
        ensures { IfOk result (λ system. system ≡ new_system geometry) }
    {
        System::with_run_limit(alloc, geometry, MAX_BATCH)
    }

    /// Makes a new machine as `new` does, whose runs have at most `run_limit` requests, 1 to 16,384: a longer stretch
    /// for one target is cut from its front. An error means that the host is out of memory.
    pub fn with_run_limit(
        alloc: A,
        geometry: Geometry<A>,
        run_limit: usize,
    ) -> Result<Self, AllocError>
        requires some { 0 < run_limit }
        requires within { run_limit ≤ default_limit }
        ensures { IfOk result (λ system. system ≡ system_with geometry run_limit) }
    {
        System::with_hash_seed(alloc, geometry, run_limit, FIXED_SEED)
    }

    /// Makes a new machine as `with_run_limit` does, with a seed for the hash function by which it finds processes.
    /// Whoever writes the calls and does not know the seed cannot choose pids that are slow to find. Nothing that a call
    /// does or returns depends on it.
    pub fn with_hash_seed(
        alloc: A,
        geometry: Geometry<A>,
        run_limit: usize,
        seed: u64,
    ) -> Result<Self, AllocError>
        requires some { 0 < run_limit }
        requires within { run_limit ≤ default_limit }
        ensures { IfOk result (λ system. system ≡ system_with geometry run_limit) }
    {
        Ok(System {
            machine: Machine::new(alloc, geometry, seed)?,
            run_limit,
            alloc,
        })
    }

    /// The allocator of its lists.
    pub(crate) fn allocator(&self) -> A {
        self.alloc
    }

    /// Makes a process, with the credentials and the cpuset of credentials(7), capabilities(7) and cpuset(7). Its home
    /// node need be neither allowed nor online.
    ///
    /// Errors, in order: EINVAL (pid 0 or one that is alive, a home that is not a node, an allowed set that is empty or
    /// has a node that the machine does not have); ENOMEM (1,024 processes are alive).
    pub fn spawn(&mut self, process: &NewProcess) -> Result<(), CallError>
        ensures { Does (λ done. Done) result self.old self.new (spawn_call process.now) }
    {
        let NewProcess {
            pid,
            uid,
            home,
            allowed,
            privileged,
        } = *process;
        Ok(self.machine.spawn(pid, uid, home, allowed, privileged)?)
    }

    /// Makes an area over a new segment, private or shared, with the default policy (mmap(2)). Returns the segment's
    /// number.
    ///
    /// Errors, in order: ESRCH (no such process); EINVAL (an address that is not a multiple of 4,096, no page, an end
    /// past 2^47, an area in the way); ENOMEM (no segment number left).
    pub fn map(&mut self, area: &NewArea) -> Result<u32, CallError>
        ensures { Does NewSegment result self.old self.new (map_call area.now) }
    {
        let NewArea {
            pid,
            addr,
            pages,
            shared,
        } = *area;
        Ok(self.machine.map(pid, addr, pages, shared)?)
    }

    /// Makes an area over a range of a shared segment, with the default policy (mmap(2), MAP_SHARED).
    ///
    /// Errors, in order: ESRCH (no such process); EINVAL (an address that is not a multiple of 4,096, no page, an end
    /// past 2^47, an area in the way; or a segment that is unknown, gone or private, or ends before the area would).
    pub fn attach(&mut self, area: &Attachment) -> Result<(), CallError>
        ensures { Does (λ done. Done) result self.old self.new (attach_call area.now) }
    {
        let Attachment {
            pid,
            addr,
            segment,
            offset,
            pages,
        } = *area;
        Ok(self.machine.attach(pid, addr, segment, offset, pages)?)
    }

    /// Unmaps `pages` pages from address `addr` on; the range may have holes (munmap(2)). Pages that no area of any
    /// process covers lose their frames, which go to the ends of their nodes' free lists, in address order.
    ///
    /// Errors, in order: ESRCH (no such process); EINVAL (an address that is not a multiple of 4,096, no page, an end
    /// past 2^47); EBUSY (an area shows a page with a pin there). Allocates only if an area of the process is in the
    /// range, and only if it is split there or a page has a frame.
    pub fn unmap(&mut self, pid: Pid, addr: u64, pages: u64) -> Result<(), CallError>
        ensures done { Does (λ done. Done) result self.old self.new (Unmap pid addr pages) }
        ensures allocates { AllocatesOnlyIf result (MayAllocate self.old.state (Unmap pid addr pages)) }
    {
        Ok(self.machine.unmap(pid, addr, pages)?)
    }

    /// Ends a process, which loses all its areas as by one `unmap`. Its pid may be used again.
    ///
    /// Errors, in order: ESRCH (no such process); EBUSY (one of its areas shows a page with a pin). Allocates only if
    /// the process has an area, and a page has a frame.
    pub fn exit(&mut self, pid: Pid) -> Result<(), CallError>
        ensures done { Does (λ done. Done) result self.old self.new (Exit pid) }
        ensures allocates { AllocatesOnlyIf result (MayAllocate self.old.state (Exit pid)) }
    {
        Ok(self.machine.exit(pid)?)
    }

    /// Adds a pin to the page at an address: the page stays in its frame while it has one. Does not allocate.
    ///
    /// Errors, in order: ESRCH (no such process); EFAULT (no area, or the page of zeros); ENOENT (nothing was touched
    /// there); EBUSY (65,535 pins).
    pub fn pin(&mut self, pid: Pid, addr: u64) -> Result<(), Errno>
        ensures { DoesOrRefuses (λ done. Done) result self.old self.new (Pin pid addr) }
    {
        self.machine.pin(pid, addr)
    }

    /// Removes a pin from the page at an address, whoever added it. Does not allocate.
    ///
    /// Errors, in order: ESRCH, EFAULT and ENOENT as for `pin`; EINVAL (no pin).
    pub fn unpin(&mut self, pid: Pid, addr: u64) -> Result<(), Errno>
        ensures { DoesOrRefuses (λ done. Done) result self.old self.new (Unpin pid addr) }
    {
        self.machine.unpin(pid, addr)
    }

    /// Reads 1 to 4,096 bytes inside one page. Memory never written reads as zeros; the first touch of shared memory
    /// takes a frame (numa(7)).
    ///
    /// Errors, in order: ESRCH (no such process); EINVAL (no byte, or past the page's end); EFAULT (no area); ENOMEM
    /// (no free frame).
    pub fn read(&mut self, pid: Pid, addr: u64, len: u64) -> Result<Vec<u8, A>, CallError>
        ensures { Does (λ bytes. TheBytes bytes.items) result self.old self.new
            (ReadBytes pid addr len) }
    {
        Ok(self.machine.read(pid, addr, len)?)
    }

    /// Writes 1 to 4,096 bytes inside one page. The first write to a page takes a frame (numa(7)). Errors as for
    /// `read`. A write that is refused, or to a page that the process sees, does not allocate.
    pub fn write(&mut self, pid: Pid, addr: u64, bytes: &[u8]) -> Result<(), CallError>
        ensures done { Does (λ done. Done) result self.old self.new
            (WriteBytes pid addr bytes.now) }
        ensures allocates { AllocatesOnlyIf result (MayAllocate self.old.state (WriteBytes pid addr bytes.now)) }
    {
        Ok(self.machine.write(pid, addr, bytes)?)
    }

    /// Moves the pages of a batch, each named by an address in it, to the node at the same index, as move_pages(2)
    /// does. Pid 0 means the caller. Flags 0 act as MPOL_MF_MOVE (2): a page that another process sees stays; with
    /// MPOL_MF_MOVE_ALL (4) it moves. The list is cut into its longest stretches for one target, and each is a run, or
    /// several if it is longer than the limit.
    ///
    /// The status of an entry is the first that holds: -14 (EFAULT) no area; -2 (ENOENT) nothing was touched there; -14
    /// the page of zeros; the target's number, if the page is there already; -13 (EACCES) another process sees it,
    /// without MPOL_MF_MOVE_ALL; -16 (EBUSY) it has a pin; -12 (ENOMEM) the target has no free frame; otherwise the
    /// target's number, and the page moves. -16 and -12 count as failed. A frame that a run leaves becomes free when
    /// the run ends.
    ///
    /// Each access of `during` is made during the run that it names by number, from 0: those of one run in order, after
    /// the run has taken its frames and before those that its pages left are free. An access to a page that its run
    /// moves is held: it reads and writes nothing, and takes no frame. On Linux it would find a migration entry, and
    /// wait (the kernel's Documentation/mm/page_migration.rst). ESRCH, EINVAL and EFAULT come before that, and ENOMEM
    /// after it. Any other access does what `read` or `write` would, with the same answer.
    ///
    /// Returns the statuses in the order of the list, the number of entries that failed, and the answers to the
    /// accesses in the order of `during`. An access of a run that the call does not make has none: `run_count` returns
    /// how many runs there are.
    ///
    /// Errors, in order, each before anything moves: ESRCH (no such caller); EINVAL (a flag other than the two); EPERM
    /// (MPOL_MF_MOVE_ALL without privilege); ESRCH (no such process); EPERM (a process of another user, without
    /// privilege); then for the first entry that is refused ENODEV (a node that does not exist or is offline) or else
    /// EACCES (a node that the process may not use, whoever calls). After `HostMemory { runs, .. }` the first `runs`
    /// runs remain.
    pub fn move_pages<C: RunCrew<A>>(
        &mut self,
        crew: &C,
        request: &MoveRequest<A>,
    ) -> Result<Moved<A>, CallError>
        ensures done { Does moved_shown result self.old self.new (move_call request.now) }
        ensures allocates { AllocatesOnlyIf result (MayAllocate self.old.state (move_call request.now)) }
    {
        let permit = permit_of(&self.machine, request.caller, request.pid, request.flags)?;
        let batch = &request.batch;
        let nodes = batch.nodes.as_slice();
        check_targets(&self.machine, permit.allowed, nodes)?;
        let limit = self.run_limit;
        move_batch(crew, self.alloc, &mut self.machine, &permit, request, limit)
    }

    /// Moves the pages that a process sees on the nodes of `old` to those nodes of `new` that are online and that it
    /// may use, as migrate_pages(2) does. Returns how many of them failed because of a pin or for lack of a free frame.
    /// Pid 0 means the caller. Each node of `old` is paired with one of these nodes, which take turns in ascending
    /// order; a node keeps its pages if it is its own target, or if the sets differ in size and it is in the new one.
    /// The pages are listed before the first moves, each once at its lowest address: by pair, so that a chain of nodes
    /// is emptied from its end, then by address. Each stretch of the list for one target is a run, or several if it is
    /// longer than the limit. A page that another process sees stays, and is no failure; a privileged caller moves it.
    ///
    /// Errors, in order, each before anything moves: ESRCH (no such caller); EINVAL (a node that the machine does not
    /// have); ESRCH (no such process); EPERM (a process of another user, without privilege); EPERM (a node of `new`
    /// that the process may not use, without privilege); EINVAL (no node of `new` that is online and that the process
    /// may use). After `HostMemory { runs, .. }` the first `runs` runs remain.
    pub fn migrate_pages<C: RunCrew<A>>(
        &mut self,
        crew: &C,
        request: &MigrateRequest,
    ) -> Result<usize, CallError>
        ensures { Does Failed result self.old self.new (migrate_call request.now) }
    {
        let what = migration_of(&self.machine, request)?;
        let limit = self.run_limit;
        let moved = migrate(
            crew,
            self.alloc,
            &mut self.machine,
            what,
            request.old,
            limit,
        )?;
        Ok(moved.failed)
    }

    /// Sets where new pages of the caller are placed in the `len` bytes from address `addr` on, rounded up to whole
    /// pages, as mbind(2) does. The policy keeps those of `nodes` that are online and allowed; MPOL_PREFERRED keeps the
    /// lowest, and without nodes acts as MPOL_LOCAL. The areas are split at both ends of the range, and never merged.
    /// With MPOL_MF_MOVE (2) or MPOL_MF_MOVE_ALL (4) the pages that the caller sees in the range and that are not where
    /// the policy wants them are listed, each once at its lowest address, and move: for MPOL_PREFERRED to its node; for
    /// MPOL_INTERLEAVE each to the node whose turn it is by the page's index in its segment, in the order of nodes and
    /// then of addresses; for MPOL_BIND in passes over its nodes, the nearest to the caller's home first, and pages
    /// that find no free frame go on to the next node. Each stretch of pages for one node is a run, or several if it is
    /// longer than the limit. A page that another process sees stays, unless MPOL_MF_MOVE_ALL is given.
    ///
    /// Errors, in order: ESRCH (no such caller); EINVAL (a flag beyond 7; an unknown mode; nodes with MPOL_DEFAULT or
    /// MPOL_LOCAL, or none with MPOL_BIND or MPOL_INTERLEAVE; a node that the machine does not have; nodes none of
    /// which is online and allowed); EPERM (MPOL_MF_MOVE_ALL without privilege); EINVAL (an address that is not a
    /// multiple of 4,096, or `addr` plus `len` rounded up to whole pages is over 2^64 - 1); then a `len` of 0 changes
    /// nothing and does not allocate; EFAULT (a page of the range has no area); EIO (MPOL_MF_STRICT (1) without a flag
    /// to move, and a page that the caller sees in the range is not where the policy wants it). Each changes nothing.
    /// With MPOL_MF_STRICT and a flag to move, EIO is also returned if a listed page is not where the policy wants it
    /// after the moves: policy and moves remain. After `HostMemory { runs, policy_set }` the first `runs` runs remain,
    /// and the policy is set if `policy_set` says so. Allocates only if a flag to move is given, or an area is split.
    pub fn mbind<C: RunCrew<A>>(
        &mut self,
        crew: &C,
        request: &MbindRequest,
    ) -> Result<(), CallError>
        ensures done { Does (λ done. Failed 0) result self.old self.new (mbind_call request.now) }
        ensures allocates { AllocatesOnlyIf result (MayAllocate self.old.state (mbind_call request.now)) }
    {
        let (asked, binding) = check_binding(&self.machine, request)?;
        if request.len == 0 {
            return Ok(());
        }
        let limit = self.run_limit;
        bind(crew, self.alloc, &mut self.machine, &binding, asked, limit)
    }

    /// Takes a node offline: its pages, by segment and index, go to the other online nodes, in passes by their distance
    /// from it, ties by number, whoever sees them and whatever is allowed. A page with a pin stays; one that finds no
    /// free frame goes on to the next node. Each pass is a run, or several if it is longer than the limit. No frame is
    /// taken from an offline node; its free frames remain in its list, and so do those that become free. A node that is
    /// offline already is left as it is.
    ///
    /// Errors, in order: EINVAL (no such node); EBUSY (no other node is online). EBUSY is also returned if a page of
    /// the node stays: the moves remain, and the node is online. After `HostMemory { runs, .. }` the first `runs` runs
    /// remain, and the node is online.
    pub fn offline<C: RunCrew<A>>(&mut self, crew: &C, node: NodeId) -> Result<(), CallError>
        ensures done { Does (λ done. Done) result self.old self.new (Offline node) }
        ensures allocates { AllocatesOnlyIf result (MayAllocate self.old.state (Offline node)) }
    {
        check_offline(&self.machine, node)?;
        if !self.machine.online().contains(node) {
            return Ok(());
        }
        let limit = self.run_limit;
        empty_node(crew, self.alloc, &mut self.machine, node, limit)
    }

    /// Brings a node online: its free frames may be taken again, and pages may go there. Does not allocate. A node that
    /// is online already is left as it is. Error: EINVAL (no such node).
    pub fn online(&mut self, node: NodeId) -> Result<(), Errno>
        ensures { DoesOrRefuses (λ done. Done) result self.old self.new (Online node) }
    {
        if node.index() >= self.machine.geometry().node_count() {
            return Err(Errno::Einval);
        }
        self.machine.set_online(node, true);
        Ok(())
    }

    /// Reports where pages are, each named by an address in it, as move_pages(2) without nodes does: the number of its
    /// node, -14 (EFAULT) if there is no area or only the page of zeros, -2 (ENOENT) if nothing was touched. Pid 0
    /// means the caller. Errors as for `move_pages`, except those of entries: ESRCH, EINVAL, EPERM, ESRCH, EPERM. A
    /// call without addresses does not allocate.
    pub fn query(&self, question: &Question<A>) -> Result<Vec<i32, A>, CallError>
        ensures done { Does (λ statuses. Statuses 0 statuses.items []) result self.now self.now
            (query_call question.now) }
        ensures allocates { AllocatesOnlyIf result (MayAllocate self.now.state (query_call question.now)) }
    {
        let Question {
            caller,
            pid,
            pages,
            flags,
        } = question;
        let permit = permit_of(&self.machine, *caller, *pid, *flags)?;
        Ok(statuses_of(self.alloc, &self.machine, permit.pid, pages.as_slice())?)
    }

    /// How many pages have moved, and how many entries have failed: `pgmigrate_success` and `pgmigrate_fail` of
    /// `/proc/vmstat`. Each stays at 2^64 - 1 once it is there. Between two calls a system is sound.
    pub fn vmstat(&self) -> Totals
        ensures sound { IsSound self.now.state }
        ensures moved { result.moved ≡ self.now.state.moved }
        ensures failed { result.failed ≡ self.now.state.failed }
        ensures answer { outcome self.now Vmstat
            ≡ record { answer = TheTotals result.moved result.failed; system = self.now } }
    {
        self.machine.totals()
    }

    /// A process's areas as text, in address order, one line each, like `/proc/PID/numa_maps` in numa(7), with only
    /// these fields: the address at which the area begins, in at least eight hexadecimal digits; its policy, with the
    /// nodes that it kept, as `default`, `prefer:1`, `bind:0-1,3`, `interleave:0,2` or `local`; and if the process sees
    /// pages in it, `anon=` and their number, `mapmax=` and the greatest number of processes that see one of them, if
    /// that is over 1, `N0=`, `N1=` and so on with the number on that node, if there are any, and
    /// `kernelpagesize_kB=4`. The page of zeros does not count as a page. Error: ESRCH (no such process). Allocates
    /// only if the process has an area.
    pub fn numa_maps(&self, pid: Pid) -> Result<Vec<String<A>, A>, CallError>
        ensures done { Does (λ lines. Lines (lines_shown lines.items)) result self.now self.now
            (NumaMaps pid) }
        ensures allocates { AllocatesOnlyIf result (MayAllocate self.now.state (NumaMaps pid)) }
    {
        let spaces = self.machine.spaces();
        if spaces.info(pid).is_none() {
            return Err(CallError::Refused(Errno::Esrch));
        }
        let areas = spaces.areas().lines(pid)?;
        prove!(self.machine.geometry().node_count() <= 64);
        Ok(areas_text(self.alloc, &self.machine, pid, areas.as_slice())?)
    }

    /// The free frames of a node, front first. Error: EINVAL (no such node). Allocates only if there are any.
    pub fn free_list(&self, node: NodeId) -> Result<Vec<FrameId, A>, CallError>
        ensures done { Does (λ frames. Frames frames.items) result self.now self.now
            (FreeList node) }
        ensures allocates { AllocatesOnlyIf result (MayAllocate self.now.state (FreeList node)) }
    {
        Ok(self.machine.free_list(node)?)
    }

    /// The entries of a process, in address order, like `/proc/PID/pagemap`: the frame of each, or the page of zeros.
    /// Error: ESRCH (no such process). Allocates only if there are any.
    pub fn pagemap(&self, pid: Pid) -> Result<Vec<PagemapEntry, A>, CallError>
        ensures done { Does (λ mapped. Entries (entries_mapped mapped.items)) result self.now
            self.now (Pagemap pid) }
        ensures allocates { AllocatesOnlyIf result (MayAllocate self.now.state (Pagemap pid)) }
    {
        let entries = entries_of(&self.machine, pid)?;
        Ok(mapped_of(self.alloc, entries.as_slice())?)
    }

    /// Whether each frame is in exactly one place: once in its own node's free list, or the frame of one page. True,
    /// since a system is always sound. An error means that the host is out of memory.
    pub fn audit(&self) -> Result<bool, AllocError>
        ensures frames { IfOk result (λ b. b ≡ each_frame_is_once self.now.state) }
        ensures sound { IfOk result (λ b. b ≡ true) }
    {
        self.machine.audit()
    }
}
