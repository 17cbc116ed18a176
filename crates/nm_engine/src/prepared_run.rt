//! Runs that are prepared, and how they begin.

ghost use Rattle.std.specs.Prelude.{◌≡◌, ◌≤◌, [], ℕ, Some, map, length, slice_get};
ghost use Rattle.nm_frames.specs.declared.job.CopyJob.{CopyJob as Job};
ghost use Rattle.nm_laws.specs.Laws.{with_moves};
ghost use Rattle.nm_model.specs.definitions.BeforeCopy.{PendingAccess as Pending, with_fronts, frames_taken, IsPending};
ghost use Rattle.nm_spaces.specs.definitions.Moves.{all_moved};
ghost use Rattle.nm_pool.specs.definitions.AfterCopy.{CanDo};
ghost use Rattle.nm_engine.specs.views.Flights.{AreOutIn, BeginsSo, HoldsMovingPages, IsReadyFor, pair_of, state_in_flight};
ghost use Rattle.nm_engine.specs.views.Spaces.{spaces_of};

mod prepare;
pub(crate) mod undo;

use crate::machine::{Machine, Totals};
use crate::run_in_flight::RunInFlight;
use nm_frames::CopyJob;
use nm_pool::FramePool;
use nm_spaces::{AddressSpaces, HeldSpaces};
use nm_types::{NodeMask, PageMove, Pid, Vpn};
use std::alloc::Allocator;
use std::marker::Model;

/// A machine in which a run is prepared: the frames that its pages take belong to the run, and the accesses that come
/// while the pages are on their way have made their touches. Contracts see a state, and the frames that the run has.
#[derive(Drop)]
pub(crate) struct PreparedRun<A: Allocator + Copy> {
    pub(crate) spaces: AddressSpaces<A>,
    pub(crate) frames: FramePool<A>,
    pub(crate) online: NodeMask,
    pub(crate) totals: Totals,
    pub(crate) last_pin: Option<(Pid, Vpn)>,
    pub(crate) alloc: A,
}

impl<A: Allocator + Copy> Model for PreparedRun<A> {
    ghost use Rattle.nm_engine.specs.views.Shown.{shown_by};
    ghost use Rattle.nm_engine.specs.views.RunState.{RunState, IsSoundMachine};

    ghost Value = { RunState };

    ghost view = { λ p. record {
      state = shown_by p.spaces p.frames p.online p.totals.moved p.totals.failed;
      left = p.frames.vacated;
      room = p.frames.room;
    } };

    ghost invariant = { λ p. IsSoundMachine (shown_by p.spaces p.frames p.online p.totals.moved p.totals.failed) p.frames.vacated p.spaces.frames };
}

impl<A: Allocator + Copy + Send + Sync> PreparedRun<A> {
    /// A run of which nothing is prepared.
    pub(crate) fn of(machine: Machine<A>) -> Self
        ensures state { result.state ≡ machine }
        ensures left { result.left ≡ [] }
    {
        PreparedRun {
            spaces: machine.spaces,
            frames: machine.frames,
            online: machine.online,
            totals: machine.totals,
            last_pin: machine.last_pin,
            alloc: machine.alloc,
        }
    }

    /// Gives back the machine. The run must have no frames.
    pub(crate) fn into_machine(self) -> Machine<A>
        requires none { self.left ≡ [] }
        ensures { result ≡ self.state }
    {
        Machine {
            spaces: self.spaces,
            frames: self.frames,
            online: self.online,
            totals: self.totals,
            last_pin: self.last_pin,
            alloc: self.alloc,
        }
    }

    /// Begins the run of these moves, whose frames are taken: every entry that names a frame that a page leaves is held,
    /// on its way to the frame that the page takes, and the bytes of both frames go out, as the jobs of the crew. Does
    /// not allocate.
    pub(crate) fn begin(self, moves: &[PageMove]) -> (RunInFlight<'_, A>, Vec<CopyJob<A>, A>)
        requires ready { (target : ℕ) × IsReadyFor self target moves.now }
        requires few { length moves.now ≤ self.room }

        // The run
        ensures entries { HoldsMovingPages result.0 }
        ensures spaces { result.0.spaces ≡ all_moved (spaces_of self.state) moves.now }
        ensures moves { result.0.moves ≡ moves.now }
        ensures state { (target : ℕ) →
            IsReadyFor self target moves.now →
            state_in_flight result.0 result.1.items
            ≡ with_moves (with_fronts self.state target (frames_taken moves.now)) target moves.now }

        // A run machine that begins the same run is then at the same moment
        ensures event { BeginsSo self moves.now result.0 result.1.items }

        // Its jobs
        ensures pairs { map pair_of result.1.items ≡ map (λ t. (t.from, t.to)) moves.now }
        ensures out { AreOutIn result.0 result.1.items }
        ensures tickets { (t : ℕ) (job : Job _) → slice_get result.1.items t ≡ Some job → job.ticket ≡ t }

        // What is due for accesses can be done during the run
        ensures pending { (d : Pending) →
            IsPending (map (λ t. t.page) moves.now) self.state d →
            CanDo result.0.spaces.place result.0.frames.frames d }
    {
        let mut frames = self.frames;
        frames.vacate_each(moves);
        let (frames, jobs) = frames.take_out(moves);
        let run = RunInFlight {
            spaces: HeldSpaces::hold(self.spaces, moves),
            frames,
            online: self.online,
            totals: self.totals,
            last_pin: self.last_pin,
            alloc: self.alloc,
            moves,
        };
        (run, jobs)
    }
}
