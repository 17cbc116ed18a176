//! The crew of the caller and threads of a runtime.

ghost use Rattle.std.specs.Prelude.{◌≡◌, ◌<◌, ◌≤◌};

use crate::classes::classify;
use crate::copying::copy_while;
use crate::gate::OpenGate;
use nm_crew::{Crew, FIXED_SEED, Looks};
use nm_frames::CopyJob;
use nm_refusing_alloc::Refusing;
use nm_runs::{Class, Run};
use nm_spaces::AddressSpaces;
use nm_types::Geometry;
use std::alloc::{AllocError, Global};
use std::marker::Model;
use std::sync::Wait;
use std::thread::Threads;

/// The caller and threads of a runtime, 1 to 64 workers in total, who pass an open gate. Contracts see the number of
/// workers. Their memory is that of `Global`, or of an allocator over it that refuses.
#[derive(Drop)]
pub struct Hired<'a, R: Threads + Wait> {
    rt: &'a R,
    workers: usize,
    seed: u64,
}

impl<'a, R: Threads + Wait> Model for Hired<'a, R> {
    ghost use Rattle.std.specs.Prelude.{ℕ, ◌<◌, ◌≤◌};

    ghost Value = { ℕ };

    ghost view = { λ crew. crew.workers };

    ghost invariant = { λ crew. (0 < crew.workers) × (crew.workers ≤ 64) };
}

impl<'a, R: Threads + Wait> Hired<'a, R> {
    /// Makes a crew of `workers` workers, 1 to 64, the first of which is the caller.
    pub fn new(rt: &'a R, workers: usize) -> Self
        requires { (0 < workers) × (workers ≤ 64) }
        ensures { result ≡ workers }
    {
        Hired::with_hash_seed(rt, workers, FIXED_SEED)
    }

    /// Makes a crew as `new` does, with a seed of the host's for the hash function by which processes are found.
    pub fn with_hash_seed(rt: &'a R, workers: usize, seed: u64) -> Self
        requires { (0 < workers) × (workers ≤ 64) }
        ensures { result ≡ workers }
    {
        Hired { rt, workers, seed }
    }
}

impl<'a, R: Threads + Wait> Crew<Vec<CopyJob<Global>>> for Hired<'a, R> {
    ghost has_done = { λ crew jobs X answer. Unit {0} };

    fn hash_seed(&self) -> u64 {
        self.seed
    }

    fn copy_while<T, W: FnOnce() -> T>(
        &self,
        jobs: Vec<CopyJob<Global>>,
        work: W,
    ) -> (Vec<CopyJob<Global>>, T) {
        let alloc = *jobs.allocator();
        copy_while(self.rt, alloc, jobs, self.workers, &OpenGate, work)
    }
}

impl<'a, R: Threads + Wait> Looks<Global, AddressSpaces<Global>> for Hired<'a, R> {
    fn classify(
        &self,
        alloc: Global,
        geometry: &Geometry<Global>,
        view: &AddressSpaces<Global>,
        run: &Run<Global>,
    ) -> Result<Vec<Class>, AllocError> {
        classify(self.rt, self.workers, alloc, geometry, view, run)
    }
}

/// An allocator over `Global` that may refuse.
type Heap<'h> = &'h Refusing<Global>;

impl<'a, 'h, R: Threads + Wait> Crew<Vec<CopyJob<Heap<'h>>, Heap<'h>>> for Hired<'a, R> {
    ghost has_done = { λ crew jobs X answer. Unit {0} };

    fn hash_seed(&self) -> u64 {
        self.seed
    }

    fn copy_while<T, W: FnOnce() -> T>(
        &self,
        jobs: Vec<CopyJob<Heap<'h>>, Heap<'h>>,
        work: W,
    ) -> (Vec<CopyJob<Heap<'h>>, Heap<'h>>, T) {
        let alloc = *jobs.allocator();
        copy_while(self.rt, alloc, jobs, self.workers, &OpenGate, work)
    }
}

impl<'a, 'h, R: Threads + Wait> Looks<Heap<'h>, AddressSpaces<Heap<'h>>> for Hired<'a, R> {
    fn classify(
        &self,
        alloc: Heap<'h>,
        geometry: &Geometry<Heap<'h>>,
        view: &AddressSpaces<Heap<'h>>,
        run: &Run<Heap<'h>>,
    ) -> Result<Vec<Class, Heap<'h>>, AllocError> {
        classify(self.rt, self.workers, alloc, geometry, view, run)
    }
}
