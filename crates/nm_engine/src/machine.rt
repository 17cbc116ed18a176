//! The machine.

ghost use Rattle.std.specs.Prelude.{◌≡◌, ◌<◌, ◌≤◌, ◌+◌, ◌/◌, length, Some, Err, true, IfOk, OnErr};
ghost use Rattle.std.specs.Result.{result_err};
ghost use Rattle.nm_types.specs.declared.page.Page.{Page};
ghost use Rattle.nm_types.specs.declared.sight.Sight.TheVariants.{Sees};
ghost use Rattle.nm_types.specs.Layout.{node_count};
ghost use Rattle.nm_types.specs.Nodes.{up_from};
ghost use Rattle.nm_laws.specs.Moves.{IsPlanOf};
ghost use Rattle.nm_model.specs.definitions.Touch.{Bytes, Done, read, write, site_refusal, touch};
ghost use Rattle.nm_model.specs.definitions.Run.{total_after, with_counts, failures, HasOneAll};
ghost use Rattle.std.specs.declared.vec.Vec.{Vec};
ghost use Rattle.nm_frames.specs.declared.job.CopyJob.{CopyJob};
ghost use Rattle.nm_pool.specs.declared.answers.AccessAnswer.{AccessAnswer as Given};
ghost use Rattle.nm_engine.specs.views.Flights.{Flight};
ghost use Rattle.nm_engine.specs.views.Runs.{asked_by, ran_by};
ghost use Rattle.nm_model.specs.definitions.Effect.{new_machine};
ghost use Rattle.nm_model.specs.definitions.Seen.{sight_at};
ghost use Rattle.nm_model.specs.definitions.Sound.{IsSound};
ghost use Rattle.nm_engine.specs.definitions.Orders.{EndsSo, GoesByEvents, result_of_run};
ghost use Rattle.nm_engine.specs.definitions.Does.{Accesses, AsksLast};
ghost use Rattle.nm_engine.specs.views.Spaces.{spaces_of};

mod areas;
mod online;
mod pins;
mod process;
mod query;

use crate::answers::RunAnswer;
use crate::laws::interleavings;
use crate::planned_run::{PlannedRun, make_run};
use crate::resolved_address::ResolvedAddress;
use crate::run_crew::RunCrew;
use crate::touch::push_zeros;
use core::mem::replace_with;
use nm_plan::{Plan, plan};
use nm_pool::FramePool;
use nm_runs::Run;
use nm_spaces::AddressSpaces;
use nm_types::{Access, Geometry, MachineError, NodeId, NodeMask, Pid, Vpn};
use std::alloc::{AllocError, Allocator};
use std::marker::Model;

/// How many pages have moved, and how many requests have failed because of a pin or for lack of a free frame. Each
/// total stays at 2^64 - 1 once it is there.
#[derive(Clone, Copy, Debug, PartialEq, Eq)]
pub struct Totals {
    /// Pages moved: `pgmigrate_success` of `/proc/vmstat`.
    pub moved: u64,
    /// Requests failed: `pgmigrate_fail` of `/proc/vmstat`.
    pub failed: u64,
}

impl Totals {
    /// The totals after this many more moves and failures.
    pub(crate) fn after(self, moved: u64, failed: u64) -> Self
        ensures moved { result.moved ≡ total_after self.moved moved }
        ensures failed { result.failed ≡ total_after self.failed failed }
    {
        Totals {
            moved: self.moved.saturating_add(moved),
            failed: self.failed.saturating_add(failed),
        }
    }
}

/// Processes, areas and pages over nodes of frames. Contracts see it as a sound `State` of the definitions.
#[derive(Drop)]
pub struct Machine<A: Allocator + Copy + Send + Sync> {
    pub(crate) spaces: AddressSpaces<A>,
    pub(crate) frames: FramePool<A>,
    pub(crate) online: NodeMask,
    pub(crate) totals: Totals,
    /// Where a page was pinned last. Says nothing of whether it still has the pin.
    pub(crate) last_pin: Option<(Pid, Vpn)>,
    pub(crate) alloc: A,
}

impl<A: Allocator + Copy + Send + Sync> Model for Machine<A> {
    ghost use Rattle.nm_types.specs.State.{State};
    ghost use Rattle.nm_engine.specs.views.Shown.{shown_by};
    ghost use Rattle.nm_engine.specs.views.RunState.{IsBetweenRuns};

    ghost Value = { State };

    ghost view = { λ m. shown_by m.spaces m.frames m.online m.totals.moved m.totals.failed };

    ghost invariant = { λ m. IsBetweenRuns (shown_by m.spaces m.frames m.online m.totals.moved m.totals.failed) m.frames.vacated m.spaces.frames };
}

impl<A: Allocator + Copy + Send + Sync> Machine<A> {
    /// Makes a machine with these nodes, all online, with every frame free and no process. Each node's free list is in
    /// ascending order. The seed is that of the hash function by which processes are found; nothing that a call does or
    /// returns depends on it. An error means that the host is out of memory.
    pub fn new(alloc: A, geometry: Geometry<A>, seed: u64) -> Result<Self, AllocError>
        ensures { IfOk result (λ machine. machine ≡ new_machine geometry) }
    {
        let online = all_nodes(geometry.node_count());
        Ok(Machine {
            spaces: AddressSpaces::new(alloc, geometry.frame_count(), seed)?,
            frames: FramePool::new(alloc, geometry)?,
            online,
            totals: Totals {
                moved: 0,
                failed: 0,
            },
            last_pin: None,
            alloc,
        })
    }

    /// The nodes, their frames, and the distances between nodes (numa(7)). Between two calls a machine is sound.
    pub fn geometry(&self) -> &Geometry<A>
        ensures geometry { result.now ≡ self.now.layout }
        ensures sound { IsSound self.now }
    {
        self.frames.geometry()
    }

    /// The address spaces of all processes: what each sees, its areas, and the frames and pins of pages.
    pub fn spaces(&self) -> &AddressSpaces<A>
        ensures { result.now ≡ spaces_of self.now }
    {
        &self.spaces
    }

    /// The nodes that are online.
    pub fn online(&self) -> NodeMask
        ensures { result ≡ self.now.online }
    {
        self.online
    }

    /// Reads 1 to 4,096 bytes inside one page. Memory never written reads as zeros. The first touch of shared memory
    /// takes a frame as its area's policy says (numa(7)).
    ///
    /// Errors, in order: ESRCH if there is no such process; EINVAL if there is no byte, or the bytes go past the page's
    /// end; EFAULT if there is no area; ENOMEM if shared memory needs a frame and no node that may give one has any.
    pub fn read(&mut self, pid: Pid, addr: u64, len: u64) -> Result<Vec<u8, A>, MachineError>
        ensures answer { Accesses result (λ bytes. Bytes bytes.items) self.old self.new
            (read self.old pid addr len) }
        ensures memory { AsksLast result (site_refusal self.old pid addr len) }
    {
        let resolved = ResolvedAddress::of(&self.spaces, pid, addr, len)?;
        let len = len as usize;
        let mut bytes = Vec::with_capacity(self.alloc, len)?;
        let online = self.online;
        let touched = resolved.touch(
            &mut self.spaces,
            &mut self.frames,
            online,
            self.alloc,
            false,
        )?;
        match touched.frame {
            Some(frame) => self.frames.read(frame, Vpn::offset(addr), len, &mut bytes),
            None => push_zeros(&mut bytes, len),
        }
        Ok(bytes)
    }

    /// Writes 1 to 4,096 bytes inside one page. The first write to a page takes a frame as its area's policy says
    /// (numa(7)).
    ///
    /// Errors, in order: ESRCH, EINVAL and EFAULT as for `read`; ENOMEM if the page needs a frame and no node that may
    /// give one has any. A refused write changes nothing. A write that is refused, or to a page that the process sees,
    /// does not allocate.
    pub fn write(&mut self, pid: Pid, addr: u64, bytes: &[u8]) -> Result<(), MachineError>
        ensures answer { Accesses result (λ done. Done) self.old self.new
            (write self.old pid addr bytes.now) }
        ensures memory { AsksLast result
            (result_err (touch self.old pid addr (length bytes.now) true)) }
        ensures allocates { result ≡ Err MachineError.HostMemory →
            (page : Page) →
            sight_at self.old pid (addr / 4096) ≡ Some (Sees page) →
            ⊥ }
    {
        let resolved = ResolvedAddress::of(&self.spaces, pid, addr, bytes.len() as u64)?;
        let online = self.online;
        let touched = resolved.touch(&mut self.spaces, &mut self.frames, online, self.alloc, true)?;
        let Some(frame) = touched.frame else {
            unreachable!()
        };
        self.frames.write(frame, Vpn::offset(addr), bytes);
        Ok(())
    }

    /// Decides the requests of a run one after another, and returns a status for each, as in move_pages(2): the
    /// target's number if the page is there afterwards, or an error's number with a minus sign. The first case that
    /// holds: -14 (EFAULT) if there is no area; -2 (ENOENT) if nothing was touched; -14 for the page of zeros; the
    /// target's number if the page is there already; -13 (EACCES) if another process sees the page and the request does
    /// not ask for all; -16 (EBUSY) if the page has a pin; -12 (ENOMEM) if the target has no free frame. A page that
    /// moves takes the front of the target's free list. The frames that pages leave become free when the run ends, in
    /// the order of the moves. The totals count the moves, and the requests with -16 or -12. Either all requests move a
    /// page even if other processes see it, as those by page do, or none does: then the classes at the run's start are
    /// enough to decide one after another. An error means that the host is out of memory, and that nothing has changed.
    ///
    /// While the pages are copied, processes make accesses, one after another. Each is answered as it would be outside
    /// a run, except that an access to a page that moves in this run is held, as it has to wait in the kernel's
    /// Documentation/mm/page_migration.rst: it does nothing, even if the process has not touched the page. ESRCH,
    /// EINVAL and EFAULT come before that. For an access, the frames that the run took are not free, and those that its
    /// pages left are not free yet.
    ///
    /// The crew looks at what the run asks for, and copies the pages. Which crew it is makes no difference to any of
    /// this.
    pub fn run_flight<C: RunCrew<A>>(
        &mut self,
        crew: &C,
        requests: &Run<A>,
        accesses: &[&Access<A>],
    ) -> Result<RunAnswer<A>, AllocError>
        requires target { requests.now.target < node_count self.old.layout }
        requires alike { HasOneAll requests.now.wanted.items }

        // On success
        ensures run { IfOk result
            (λ landed. ran_by self.new landed ≡ result_of_run self.old (asked_by requests.now accesses.now)) }
        ensures failed { IfOk result (λ landed. landed.failed ≡ failures landed.statuses.items) }

        // Events of the run machine that lead to it, for jobs that the crew has done and the run that `work` returned
        ensures events { IfOk result
            (λ landed. (x : Flight) × (jobs : Vec (CopyJob _) _)
            × C.has_done crew.now jobs (Flight × Vec (Given _) _) (x, landed.answers)
            × GoesByEvents self.old (asked_by requests.now accesses.now) x jobs.items (ran_by self.new landed)) }

        // Whatever order the events of such a run take
        ensures ends { IfOk result
            (λ landed. EndsSo self.old (asked_by requests.now accesses.now) (ran_by self.new landed)) }

        // Without memory
        ensures err { OnErr result (self.new ≡ self.old) }
        ensures allocates { OnErr result (0 < length requests.now.wanted.items + length accesses.now) }
    {
        // For the clause `ends`: the clause `events` is about one order of events, and this law about every order.
        interleavings();
        let plan = self.plan(crew, requests)?;
        let answers = Vec::with_capacity(self.alloc, accesses.len())?;
        let planned = PlannedRun {
            crew,
            requests,
            plan,
            accesses,
            answers,
        };
        replace_with(self, planned, make_run)
    }

    /// The plan of a run, from the classes of its requests at its start.
    fn plan<C: RunCrew<A>>(&self, crew: &C, requests: &Run<A>) -> Result<Plan<A>, AllocError>
        requires target { requests.now.target < node_count self.now.layout }
        requires alike { HasOneAll requests.now.wanted.items }
        ensures plan { IfOk result
            (λ plan. IsPlanOf self.now requests.now.target requests.now.wanted.items plan) }
        ensures allocates { OnErr result (0 < length requests.now.wanted.items) }
    {
        let geometry = self.frames.geometry();
        prove!(geometry.node_count() <= 64);
        let target = requests.target;
        let classes = crew.classify(self.alloc, geometry, &self.spaces, requests)?;
        let front = self.frames.free_front(self.alloc, target, classes.len())?;
        plan(self.alloc, classes.as_slice(), front.as_slice(), target)
    }

    /// Counts this many requests as failed, and does nothing else: what a run does if none of its requests finds a free
    /// frame.
    pub fn count_failures(&mut self, requests: usize)
        ensures { self.new ≡ with_counts self.old 0 requests }
    {
        let totals = self.totals;
        self.totals = totals.after(0, requests as u64);
    }
}

/// The nodes below a count of at most 64.
fn all_nodes(count: usize) -> NodeMask
    requires { count ≤ 64 }
    ensures { result ≡ up_from 0 count }
{
    let mut nodes = NodeMask::new();
    for node in 0..count {
        nodes.insert(NodeId::new(node as u32));
    }
    nodes
}
