//! Jobs that a crew does.

ghost use Rattle.std.specs.Prelude.{◌≡◌, map};
ghost use Rattle.nm_frames.specs.Job.{job_after_copy};

use nm_frames::CopyJob;
use std::alloc::Allocator;

/// A list of jobs, to be done in any order.
pub trait Jobs {
    /// What holds of jobs that may be done.
    ghost may_be_done: { Self → Type 0 };

    /// What holds of jobs before and after they are done.
    ghost are_done: { Self → Self → Type 0 };

    /// Does each job, one after another, on the calling thread.
    fn do_each(&mut self)
        ensures { are_done self.old self.new };
}

/// Copies of frames. Their tickets count up from 0 in the list's order. Afterwards each is copied, and they are in the
/// same order.
impl<A: Allocator + Copy> Jobs for Vec<CopyJob<A>, A> {
    ghost use Rattle.std.specs.Prelude.{◌≡◌, map};
    ghost use Rattle.nm_frames.specs.Job.{job_after_copy};
    ghost use Rattle.nm_board.specs.Tickets.{InTicketOrder};

    ghost may_be_done = { λ jobs. InTicketOrder jobs.items };

    ghost are_done = { λ old new. new.items ≡ map job_after_copy old.items };

    fn do_each(&mut self) {
        copy_each(self.as_mut_slice());
    }
}

/// Copies each job in turn.
fn copy_each<A: Allocator + Copy>(jobs: &mut [CopyJob<A>])
    ensures { jobs.new ≡ map job_after_copy jobs.old }
{
    for job in jobs {
        job.copy();
    }
}
