//! Gates: called by each worker before it copies.

use std::thread::Builder;

/// The fewest bytes for which an open gate lets a second worker start: those of 2,048 whole pages.
const OPEN_FROM: usize = 8_388_608;

/// Called by each worker between drawing a job and copying it. Whatever a gate does, it changes no job.
pub trait Gate {
    /// The worker with this number has drawn the job with this ticket. It copies once this returns. Worker 0 is the
    /// caller, and tickets count from 0.
    fn pass(&self, worker: usize, ticket: u64);

    /// How many bytes all jobs together must have to copy for a second worker to be worth starting. With fewer, the
    /// caller copies alone.
    fn worth_from(&self) -> usize {
        0
    }

    /// The settings for the thread of the worker with this number.
    fn builder(&self, _worker: usize) -> Builder {
        Builder::new()
    }
}

/// Lets each worker through at once. A second worker starts from 8 MiB on: with fewer bytes to copy, a run on a busy
/// machine takes longer with two workers than with one.
pub struct OpenGate;

impl Gate for OpenGate {
    fn pass(&self, _worker: usize, _ticket: u64) {}

    fn worth_from(&self) -> usize {
        OPEN_FROM
    }
}
