//! The copy of one frame's bytes to another frame.

use crate::buf::FrameBuf;
use std::alloc::Allocator;

/// A frame whose bytes are to be copied to another frame.
#[derive(Debug, Drop)]
pub struct CopyJob<A: Allocator + Copy> {
    /// The frame to copy from.
    pub source: FrameBuf<A>,
    /// The frame to copy to.
    pub target: FrameBuf<A>,
    /// The job's index among the jobs of its run, from 0.
    pub ticket: u64,
}

impl<A: Allocator + Copy> CopyJob<A> {
    ghost use Rattle.std.specs.Prelude.{◌≡◌};
    ghost use Rattle.nm_frames.specs.Job.{job_after_copy};
    ghost use Rattle.nm_frames.specs.Zeros.{AreZeroBut};

    /// How many bytes `copy` copies: all others are zero in both frames, in one stretch.
    pub fn size(&self) -> usize
        ensures { AreZeroBut self.now.source.1 self.now.target.1 result }
    {
        self.source.gap().common(self.target.gap()).outside()
    }

    /// Copies the source's bytes to the target, and changes nothing else.
    pub fn copy(&mut self)
        ensures { self.new ≡ job_after_copy self.old }
    {
        self.target.copy_from(&self.source);
    }
}
