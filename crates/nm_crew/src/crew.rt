//! Crews that do jobs.

use crate::jobs::Jobs;

/// The seed where no host lends one.
pub const FIXED_SEED: u64 = 0;

/// Those who do jobs of one type: the caller, and threads if the crew has any.
pub trait Crew<J: Jobs> {
    /// What holds of a crew, of jobs that it has done, and of what `work` returned. Code that takes any crew knows it
    /// from `copy_while` alone.
    ghost has_done: { Self → J → (X : Type 0) → X → Type 0 };

    /// The seed of the hash function by which the processes of a system are found that this crew plays a trace on.
    /// Whoever does not know it cannot choose pids that are slow to find; no report depends on it.
    fn hash_seed(&self) -> u64 {
        FIXED_SEED
    }

    /// The caller has come to the access in flight with this number, counted from 0 in each run. The access is made once
    /// this returns.
    fn access(&self, _number: usize) {}

    /// Does the jobs, and at the same time calls `work`, once, on the calling thread. Returns every job, done, and what
    /// `work` returned.
    fn copy_while<T, W: FnOnce() -> T>(&self, jobs: J, work: W) -> (J, T)
        requires jobs { J.may_be_done jobs }
        requires work { W.pre work }
        ensures jobs { J.are_done jobs result.0 }
        ensures done { has_done self.now result.0 T result.1 }
        ensures work { W.post work result.1 };
}
