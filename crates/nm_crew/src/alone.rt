//! The crew that is the caller alone.

use crate::crew::Crew;
use crate::jobs::Jobs;
use crate::looks::Looks;
use nm_runs::{Class, Run, classes_of};
use nm_types::{Geometry, PageView};
use std::alloc::{AllocError, Allocator};

/// The caller alone: it needs no runtime, starts no thread and waits for none.
#[derive(Clone, Copy, Debug, Drop)]
pub struct Alone;

impl<J: Jobs> Crew<J> for Alone {
    ghost has_done = { λ crew jobs X answer. Unit {0} };

    fn copy_while<T, W: FnOnce() -> T>(&self, mut jobs: J, work: W) -> (J, T) {
        let answer = work();
        jobs.do_each();
        (jobs, answer)
    }
}

impl<A: Allocator + Copy, V: PageView> Looks<A, V> for Alone {
    fn classify(
        &self,
        alloc: A,
        geometry: &Geometry<A>,
        view: &V,
        run: &Run<A>,
    ) -> Result<Vec<Class, A>, AllocError> {
        classes_of(alloc, geometry, view, run.target, run.wanted.as_slice())
    }
}
