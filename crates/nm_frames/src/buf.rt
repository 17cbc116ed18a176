//! A frame's bytes, on their own.

ghost use Rattle.std.specs.Prelude.{◌≡◌, length};
ghost use Rattle.nm_frames.specs.Zeros.{FitsFrame, IsZeroIn};

use crate::bytes::Bytes;
use crate::gap::Gap;
use nm_types::FrameId;
use std::alloc::Allocator;
use std::marker::Model;

/// The 4,096 bytes of a frame, owned, with the frame's number. Contracts see the pair of the number and the list of
/// bytes.
#[derive(Debug, Drop)]
pub struct FrameBuf<A: Allocator + Copy> {
    pub(crate) bytes: Bytes<A>,
    pub(crate) frame: FrameId,
}

impl<A: Allocator + Copy> Model for FrameBuf<A> {
    ghost use Rattle.std.specs.Prelude.{◌≡◌, ℕ, List, length};

    ghost Value = { ℕ × List ℕ };

    ghost view = { λ b. (b.frame, b.bytes) };

    ghost invariant = { λ b. length b.bytes ≡ 4096 };
}

impl<A: Allocator + Copy> FrameBuf<A> {
    /// The number of the frame whose bytes these are.
    pub fn frame(&self) -> FrameId
        ensures { result ≡ self.now.0 }
    {
        self.frame
    }

    /// The 4,096 bytes.
    pub fn bytes(&self) -> &[u8]
        ensures value { result.now ≡ self.now.1 }
        ensures whole { length self.now.1 ≡ 4096 }
    {
        self.bytes.as_slice()
    }

    /// Bytes that are zero.
    pub(crate) fn gap(&self) -> Gap
        ensures fits { FitsFrame result }
        ensures zeros { IsZeroIn self.now.1 result }
    {
        self.bytes.gap()
    }

    /// Overwrites all bytes with another frame's.
    pub(crate) fn copy_from(&mut self, other: &Self)
        ensures { self.new ≡ (self.old.0, other.now.1) }
    {
        self.bytes.copy_from(&other.bytes);
    }
}
