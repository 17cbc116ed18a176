//! The bytes of one frame.

ghost use Rattle.std.specs.Prelude.{◌≡◌, ◌+◌, ◌≤◌, length, replicate, IfOk};
ghost use Rattle.nm_model.specs.definitions.Frames.{overwrite};
ghost use Rattle.nm_frames.specs.Zeros.{FitsFrame, IsZeroIn};

use crate::gap::Gap;
use nm_types::limits::PAGE_BYTES;
use std::alloc::{AllocError, Allocator};
use std::marker::Model;

/// What a frame is cleared with.
const ZEROS: [u8; PAGE_BYTES] = [0; PAGE_BYTES];

/// The 4,096 bytes of a frame, owned. Contracts see the list of them. Most pages hold little, and bytes never written
/// are zero: the gap between those at both ends is kept, and no call copies or clears it.
#[derive(Debug, Drop)]
pub struct Bytes<A: Allocator + Copy> {
    bytes: Box<[u8; PAGE_BYTES], A>,
    /// Every byte of it is zero.
    gap: Gap,
}

impl<A: Allocator + Copy> Model for Bytes<A> {
    ghost use Rattle.std.specs.Prelude.{◌≡◌, ℕ, List, length};
    ghost use Rattle.nm_frames.specs.Zeros.{FitsFrame, IsZeroIn};

    ghost Value = { List ℕ };

    ghost view = { λ b. b.bytes.value };

    ghost invariant = { λ b. (length b.bytes.value ≡ 4096) × FitsFrame b.gap × IsZeroIn b.bytes.value b.gap };
}

impl<A: Allocator + Copy> Bytes<A> {
    /// Allocates 4,096 zeros.
    pub fn zeros(alloc: A) -> Result<Self, AllocError>
        ensures { IfOk result (λ b. b ≡ replicate 4096 0) }
    {
        let bytes = Box::new(alloc, [0; PAGE_BYTES])?;
        Ok(Bytes {
            bytes,
            gap: Gap::whole(),
        })
    }

    /// All 4,096 bytes.
    pub fn as_slice(&self) -> &[u8]
        ensures value { result.now ≡ self.now }
        ensures whole { length self.now ≡ 4096 }
    {
        self.bytes.as_slice()
    }

    /// Bytes that are zero.
    pub(crate) fn gap(&self) -> Gap
        ensures fits { FitsFrame result }
        ensures zeros { IsZeroIn self.now result }
    {
        self.gap
    }

    /// Sets all bytes to zero.
    pub fn clear(&mut self)
        ensures { self.new ≡ replicate 4096 0 }
    {
        self.replace(&ZEROS, Gap::whole());
    }

    /// Overwrites the bytes from index `at` on. They must end within the frame.
    pub fn write(&mut self, at: usize, bytes: &[u8])
        requires { at + length bytes.now ≤ 4096 }
        ensures { self.new ≡ overwrite self.old at bytes.now }
    {
        let end = at + bytes.len();
        self.bytes[at..end].copy_from_slice(bytes);
        self.gap = self.gap.without(at as u16, end as u16);
    }

    /// Overwrites all bytes with another frame's.
    pub fn copy_from(&mut self, other: &Self)
        ensures { self.new ≡ other.now }
    {
        self.replace(&other.bytes, other.gap);
    }

    /// Overwrites all bytes with others that are zero in a gap. What is zero in both is not copied.
    fn replace(&mut self, bytes: &[u8; PAGE_BYTES], gap: Gap)
        requires fits { FitsFrame gap }
        requires zeros { IsZeroIn bytes.now gap }
        ensures { self.new ≡ bytes.now }
    {
        let both = self.gap.common(gap);
        let end = usize::from(both.end);
        self.write(0, &bytes[..usize::from(both.first)]);
        self.write(end, &bytes[end..]);
        self.gap = gap;
    }
}
