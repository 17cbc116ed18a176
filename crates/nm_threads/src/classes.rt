//! Looking by threads of a runtime, from any thread.

ghost use Rattle.std.specs.Prelude.{◌≡◌, ◌<◌, ◌^◌, length, map, IfOk, OnErr};
ghost use Rattle.nm_runs.specs.Shown.{class_shown, ShowsItsFrames};

use nm_runs::{Class, Run};
use nm_types::{Geometry, PageView};
use std::alloc::{AllocError, Allocator};
use std::marker::PhantomData;
use std::sync::atomic::AtomicPtr;
use std::thread::Threads;

/// Stands in for a runtime of this type: leave to start its threads. It has no bytes, so every thread may have it.
#[derive(Drop)]
struct Leave<R: Threads> {
    of: PhantomData<AtomicPtr<R>>,
}

impl<R: Threads> Leave<R> {
    /// The stand-in for a runtime.
    fn of(_rt: &R) -> Self {
        Leave { of: PhantomData }
    }
}

impl<R: Threads> Threads for Leave<R> {}

/// What to do with each request of a run, in order, from a look at what it names: `classify` of `nm_runs`, but for a
/// runtime that need not be `Sync`.
pub fn classify<R: Threads, A: Allocator + Copy + Send + Sync, V: PageView + Sync>(
    rt: &R,
    workers: usize,
    alloc: A,
    geometry: &Geometry<A>,
    view: &V,
    run: &Run<A>,
) -> Result<Vec<Class, A>, AllocError>
    requires target { run.now.target < 2 ^ 31 }
    requires frames { ShowsItsFrames geometry.now (V.seen_at view.now) (V.placed_at view.now) }
    ensures classes { IfOk result
        (λ classes. classes.items
        ≡ map
        (class_shown geometry.now (V.seen_at view.now) (V.placed_at view.now) run.now.target)
        run.now.wanted.items) }
    ensures allocates { OnErr result (0 < length run.now.wanted.items) }
{
    nm_runs::classify(&Leave::of(rt), workers, alloc, geometry, view, run)
}
