//! Traces in memory.

ghost use Rattle.std.specs.Prelude.{◌<◌, ◌≤◌};
ghost use Rattle.nm_requests.specs.Calls.{default_limit};

use nm_requests::Call;
use nm_types::Geometry;
use std::alloc::Allocator;

/// A machine, and the calls to make on it, step by step.
#[derive(Debug, Drop)]
pub struct Trace<A: Allocator + Copy + Send + Sync> {
    /// The nodes, their frames and distances.
    pub geometry: Geometry<A>,
    /// The most requests that a run may have: 1 to 16,384. The greatest is no limit for a trace that was read, as no
    /// batch of it is longer.
    pub run_limit: usize,
    /// The calls of the steps, step 0 first. Each access in flight must name a run that its call makes (`run_count`),
    /// as in those of `read_trace`: an access of a run that is not made has no answer, and the report would give its
    /// number to those after it.
    pub calls: Vec<Call<A>, A>,
    pub ghost some: { 0 < run_limit },
    pub ghost within: { run_limit ≤ default_limit },
}
