//! Crews of two or more workers that pass gates of the tests.

ghost use Rattle.std.specs.Prelude.{◌<◌, ◌≤◌};

use crate::gates::TestGate;
use crate::traces::Heap;
use nm_crew::{Crew, Looks};
use nm_frames::CopyJob;
use nm_runs::{Class, Run};
use nm_spaces::AddressSpaces;
use nm_threads::{classify, copy_while};
use nm_types::Geometry;
use std::alloc::AllocError;
use std::sync::Wait;
use std::thread::Threads;

/// The caller and threads of a runtime, who pass a gate.
#[derive(Drop)]
pub(crate) struct Gated<'a, R: Threads + Wait> {
    rt: &'a R,
    workers: usize,
    gate: &'a TestGate,
    ghost range: { (0 < workers) × (workers ≤ 64) },
}

impl<'a, R: Threads + Wait> Gated<'a, R> {
    /// Makes a crew of so many workers.
    pub(crate) fn new(rt: &'a R, workers: usize, gate: &'a TestGate) -> Self
        requires { (0 < workers) × (workers ≤ 64) }
    {
        Gated { rt, workers, gate }
    }
}

impl<'a, 'h, R: Threads + Wait> Crew<Vec<CopyJob<Heap<'h>>, Heap<'h>>> for Gated<'a, R> {
    ghost has_done = { λ crew jobs X answer. Unit {0} };

    fn access(&self, number: usize) {
        self.gate.access(number);
    }

    fn copy_while<T, W: FnOnce() -> T>(
        &self,
        jobs: Vec<CopyJob<Heap<'h>>, Heap<'h>>,
        work: W,
    ) -> (Vec<CopyJob<Heap<'h>>, Heap<'h>>, T) {
        let alloc = *jobs.allocator();
        copy_while(self.rt, alloc, jobs, self.workers, self.gate, work)
    }
}

impl<'a, 'h, R: Threads + Wait> Looks<Heap<'h>, AddressSpaces<Heap<'h>>> for Gated<'a, R> {
    fn classify(
        &self,
        alloc: Heap<'h>,
        geometry: &Geometry<Heap<'h>>,
        view: &AddressSpaces<Heap<'h>>,
        run: &Run<Heap<'h>>,
    ) -> Result<Vec<Class, Heap<'h>>, AllocError> {
        classify(self.rt, self.workers, alloc, geometry, view, run)
    }
}
