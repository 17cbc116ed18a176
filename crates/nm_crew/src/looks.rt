//! Crews that look.

ghost use Rattle.std.specs.Prelude.{◌≡◌, ◌<◌, ◌^◌, length, map, IfOk, OnErr};
ghost use Rattle.nm_runs.specs.Shown.{class_shown, ShowsItsFrames};

use nm_runs::{Class, Run};
use nm_types::{Geometry, PageView};
use std::alloc::{AllocError, Allocator};

/// Those who look up, in a view of one type, what runs ask for. The runs are in memory of one allocator.
pub trait Looks<A: Allocator + Copy, V: PageView> {
    /// What to do with each request of a run, in order, from a look at what it names. The view must show frames of this
    /// machine only. An error means that the host is out of memory; a run without requests needs none. The target's
    /// number is also used as a status, so it must be below 2^31.
    fn classify(
        &self,
        alloc: A,
        geometry: &Geometry<A>,
        view: &V,
        run: &Run<A>,
    ) -> Result<Vec<Class, A>, AllocError>
        requires target { run.now.target < 2 ^ 31 }
        requires frames { ShowsItsFrames geometry.now (V.seen_at view.now) (V.placed_at view.now) }
        ensures classes { IfOk result
            (λ classes. classes.items
            ≡ map
            (class_shown geometry.now (V.seen_at view.now) (V.placed_at view.now) run.now.target)
            run.now.wanted.items) }
        ensures allocates { OnErr result (0 < length run.now.wanted.items) };
}
