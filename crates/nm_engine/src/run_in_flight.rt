//! Runs whose pages are on their way.

ghost use Rattle.std.specs.Prelude.{◌≡◌, ℕ, IsSome, Some, map, length, slice_get};
ghost use Rattle.nm_frames.specs.Job.{job_after_copy};
ghost use Rattle.nm_frames.specs.declared.job.CopyJob.{CopyJob as Job};
ghost use Rattle.nm_types.specs.Map.{get, page_cmp};
ghost use Rattle.nm_model.specs.definitions.BeforeCopy.{all_after_copy};
ghost use Rattle.nm_model.specs.definitions.Run.{failures, frames_left, with_all_free, with_counts};
ghost use Rattle.nm_pool.specs.definitions.AfterCopy.{CanDo, all_stored_after_copy, answer_from_store, frame_at, store_after_copy};
ghost use Rattle.nm_pool.specs.views.Accesses.{answer_shown, pending_shown, HasRoom};
ghost use Rattle.std.specs.declared.vec.Vec.{Vec};
ghost use Rattle.nm_pool.specs.declared.answers.AccessAnswer.{AccessAnswer as Given};
ghost use Rattle.nm_engine.specs.views.Flights.{Flight, AnswersEach, AnswersSo, AreOutIn, CanAnswer, EndsAs, FliesSo, state_in_flight, with_store};

use crate::machine::{Machine, Totals};
use crate::run_crew::RunCrew;
use nm_frames::CopyJob;
use nm_pool::{AccessAnswer, FramesInFlight, PendingAccess};
use nm_spaces::HeldSpaces;
use nm_types::{Errno, FrameId, NodeMask, Page, PageMove, Pid, Vpn};
use std::alloc::Allocator;
use std::marker::Model;

/// A run whose pages are on their way to other frames, with the whole machine. Every entry for such a page is held, as
/// migration entries are in the kernel (Documentation/mm/page_migration.rst); the bytes of both frames of each move are
/// out, in the jobs of the crew. Contracts see the page tables, what the address spaces are once the pages arrived, and
/// the frames with the bytes that are home.
#[derive(Drop)]
pub(crate) struct RunInFlight<'m, A: Allocator + Copy> {
    pub(crate) spaces: HeldSpaces<A>,
    pub(crate) frames: FramesInFlight<A>,
    pub(crate) online: NodeMask,
    pub(crate) totals: Totals,
    pub(crate) last_pin: Option<(Pid, Vpn)>,
    pub(crate) alloc: A,
    pub(crate) moves: &'m [PageMove],
}

impl<'m, A: Allocator + Copy> Model for RunInFlight<'m, A> {
    ghost use Rattle.nm_engine.specs.views.Flights.{Flight, flight_of, IsSoundFlight};

    ghost Value = { Flight };

    ghost view = { λ r. flight_of r.spaces r.frames r.online r.totals.moved r.totals.failed r.moves.now };

    ghost invariant = { λ r. IsSoundFlight (flight_of r.spaces r.frames r.online r.totals.moved r.totals.failed r.moves.now) };
}

impl<'m, A: Allocator + Copy> RunInFlight<'m, A> {
    /// Does what is due for an access. The page that it reads or writes, if any, is not on its way. Does not allocate.
    fn access(&mut self, due: PendingAccess<'_, A>) -> AccessAnswer<A>
        requires due { CanDo self.old.spaces.place self.old.frames.frames (pending_shown due) }
        requires room { HasRoom due }
        ensures run { self.new
            ≡ with_store self.old
            (store_after_copy self.old.spaces.place self.old.frames.frames
            (pending_shown due.entry)) }
        ensures answer { answer_shown result
            ≡ answer_from_store self.old.spaces.place self.old.frames.frames
            (pending_shown due.entry) }

        // The run machine that has made such an access
        ensures event { AnswersSo A self.old (pending_shown due.entry) self.new (answer_shown result) }
    {
        match due {
            PendingAccess::Known(answer) => answer,
            PendingAccess::Read {
                page,
                at,
                len,
                mut bytes,
            } => {
                let frame = self.frame_of(page);
                self.frames.read(frame, at, len, &mut bytes);
                AccessAnswer::Bytes(bytes)
            }
            PendingAccess::Write { page, at, bytes } => {
                let frame = self.frame_of(page);
                self.frames.write(frame, at, bytes);
                AccessAnswer::Done
            }
        }
    }

    /// The frame of a page that has one.
    fn frame_of(&self, page: Page) -> FrameId
        requires { IsSome (get page_cmp self.now.spaces.place page) }
        ensures { result ≡ frame_at self.now.spaces.place page }
    {
        let Some(frame) = self.spaces.place(page) else {
            unreachable!()
        };
        frame
    }

    /// Does what is left to do for accesses, in order. The answers go into a list that has room for them. The crew is
    /// notified before each access.
    fn answer_each<C: RunCrew<A>>(
        mut self,
        all_due: Vec<PendingAccess<'_, A>, A>,
        mut answers: Vec<AccessAnswer<A>, A>,
        crew: &C,
    ) -> (Self, Vec<AccessAnswer<A>, A>)
        requires can { CanAnswer self all_due answers }
        ensures done { AnswersEach self.entry all_due.entry.items result.0 result.1.items }
    {
        for due in all_due {
            crew.access(answers.len());
            let answer = self.access(due);
            answers.push_reserved(answer);
        }
        (self, answers)
    }
}

impl<'m, A: Allocator + Copy + Send + Sync> RunInFlight<'m, A> {
    /// Has a crew make the copies of the run, and at the same time does what is due for accesses. The answers go into a
    /// list that has room for them. Returns the run, the jobs, which are done, and the answers.
    pub(crate) fn copy_beside<C: RunCrew<A>>(
        self,
        crew: &C,
        jobs: Vec<CopyJob<A>, A>,
        all_due: Vec<PendingAccess<'_, A>, A>,
        answers: Vec<AccessAnswer<A>, A>,
    ) -> (Self, Vec<CopyJob<A>, A>, Vec<AccessAnswer<A>, A>)
        requires out { AreOutIn self jobs.items }
        requires tickets { (t : ℕ) (job : Job _) → slice_get jobs.items t ≡ Some job → job.ticket ≡ t }
        requires can { CanAnswer self all_due answers }

        // Afterwards
        ensures run { result.0
            ≡ with_store self.entry
            (all_stored_after_copy self.entry.spaces.place self.entry.frames.frames
            (map pending_shown all_due.entry.items)).store }
        ensures jobs { result.1.items ≡ map job_after_copy jobs.items }
        ensures done { C.has_done crew.now result.1 (Flight × Vec (Given _) _) (result.0, result.2) }
        ensures out { AreOutIn result.0 result.1.items }
        ensures state { state_in_flight result.0 result.1.items
            ≡ (all_after_copy (state_in_flight self.entry jobs.items) (map pending_shown all_due.entry.items)).state }
        ensures answers { map answer_shown result.2.items
            ≡ (all_after_copy (state_in_flight self.entry jobs.items) (map pending_shown all_due.entry.items)).answers }

        // The run machine in which jobs are drawn and given back, and such accesses made
        ensures event { FliesSo self.entry jobs.items (map pending_shown all_due.entry.items) result.0 result.1.items
            (map answer_shown result.2.items) }
    {
        let run = self;
        let (jobs, (run, answers)) = crew.copy_while(
            jobs,
            move || -> (RunInFlight<A>, Vec<AccessAnswer<A>, A>)
                requires can { CanAnswer run all_due answers }
                ensures done { AnswersEach run.entry all_due.entry.items result.0 result.1.items }
            { run.answer_each(all_due, answers, crew) },
        );
        (run, jobs, answers)
    }

    /// Ends the run: the bytes of its jobs, which are done, are home again, each held entry names the frame that its page
    /// was on its way to, the frames that the pages have left become free, in the order of the moves, and the moves and
    /// failures are counted. Returns the machine and the number of failures. Does not allocate.
    pub(crate) fn finish(self, jobs: Vec<CopyJob<A>, A>, statuses: &[i32]) -> (Machine<A>, usize)
        requires out { AreOutIn self jobs.items }
        requires done { map job_after_copy jobs.items ≡ jobs.items }
        ensures state { result.0
            ≡ with_counts (with_all_free (state_in_flight self.entry jobs.items) (frames_left self.entry.moves))
            (length self.entry.moves) (failures statuses.now) }
        ensures failed { result.1 ≡ failures statuses.now }

        // The run machine that has ended the same run
        ensures event { EndsAs self.entry jobs.items statuses.now result.0 }
    {
        let spaces = self.spaces.settle(self.moves);
        let mut frames = self.frames.put_back(jobs);
        let failed = failures(statuses);
        let moved = frames.free_vacated();
        let machine = Machine {
            spaces,
            frames,
            online: self.online,
            totals: self.totals.after(moved as u64, failed as u64),
            last_pin: self.last_pin,
            alloc: self.alloc,
        };
        (machine, failed)
    }
}

/// How many of these statuses are of failed requests: the page has a pin (EBUSY), or the target has no free frame
/// (ENOMEM). This is what `pgmigrate_fail` of `/proc/vmstat` counts.
fn failures(statuses: &[i32]) -> usize
    ensures { result ≡ failures statuses.now }
{
    let pinned = -Errno::Ebusy.number();
    let full = -Errno::Enomem.number();
    statuses
        .iter()
        .filter(|status| **status == pinned || **status == full)
        .count()
}
