//! The place of one frame's bytes in a store.

ghost use Rattle.std.specs.Prelude.{◌≡◌, ◌<◌, [], false, true, length, slice_index, replicate, Some, None, IsSome, IfSome, unwrap_or};

use crate::bytes::Bytes;
use std::alloc::Allocator;
use std::marker::Model;

/// The bytes of one frame. Until it has its buffer they are zeros; then they are in the buffer, which may be out.
/// Contracts see the list of the 4,096 bytes, or None while they are out, and whether the frame has its buffer.
#[derive(Debug, Drop)]
pub(crate) struct Slot<A: Allocator + Copy> {
    buffer: Option<Bytes<A>>,
    is_out: bool,
}

impl<A: Allocator + Copy> Model for Slot<A> {
    ghost use Rattle.std.specs.Prelude.{◌≡◌, ◌||◌, Some, None, is_some, unwrap_or, length, replicate, IfSome, if◌then◌else◌};
    ghost use Rattle.nm_frames.specs.Stores.{FrameView};

    ghost Value = { FrameView };

    ghost view = { λ s. record {
      bytes = if s.is_out then None else Some (unwrap_or s.buffer (replicate 4096 0));
      has_buffer = s.is_out || is_some s.buffer;
    } };

    ghost invariant = { λ s. IfSome s.buffer (λ b. length b ≡ 4096) };
}

impl<A: Allocator + Copy> Slot<A> {
    /// A frame without its buffer. Does not allocate.
    pub(crate) fn without_buffer() -> Self
        ensures { result ≡ record { bytes = Some (replicate 4096 0); has_buffer = false } }
    {
        Slot {
            buffer: None,
            is_out: false,
        }
    }

    /// A frame with this buffer.
    pub(crate) fn of(buffer: Bytes<A>) -> Self
        requires { length buffer ≡ 4096 }
        ensures { result ≡ record { bytes = Some buffer; has_buffer = true } }
    {
        Slot {
            buffer: Some(buffer),
            is_out: false,
        }
    }

    /// The byte at a place below 4,096, where the frame is home.
    pub(crate) fn byte(&self, at: usize) -> u8
        requires home { IsSome self.now.bytes }
        requires inside { at < 4096 }
        ensures value { result ≡ slice_index (unwrap_or self.now.bytes []) at }
        ensures unused { self.now.has_buffer ≡ false → result ≡ 0 }
    {
        match &self.buffer {
            Some(buffer) => buffer.as_slice()[at],
            None => 0,
        }
    }

    /// Whether the frame has its buffer, where it is home.
    pub(crate) fn has_buffer(&self) -> bool
        requires { IsSome self.now.bytes }
        ensures value { result ≡ self.now.has_buffer }
        ensures whole { length (unwrap_or self.now.bytes []) ≡ 4096 }
    {
        self.buffer.is_some()
    }

    /// Gives a frame that has no buffer one of zeros.
    pub(crate) fn fill(&mut self, zeros: Bytes<A>)
        requires unused { self.old.has_buffer ≡ false }
        requires zeros { zeros ≡ replicate 4096 0 }
        ensures { self.new ≡ record (self.old) { has_buffer = true } }
    {
        self.buffer = Some(zeros);
    }

    /// Takes the buffer out, where it is home.
    pub(crate) fn take(&mut self) -> Bytes<A>
        requires home { IsSome self.old.bytes }
        requires buffer { self.old.has_buffer ≡ true }
        ensures bytes { result ≡ unwrap_or self.old.bytes [] }
        ensures whole { length result ≡ 4096 }
        ensures out { self.new ≡ record (self.old) { bytes = None } }
    {
        self.is_out = true;
        match self.buffer.take() {
            Some(buffer) => buffer,
            None => unreachable!(),
        }
    }

    /// Puts a buffer back, where it is out.
    pub(crate) fn put(&mut self, buffer: Bytes<A>)
        requires whole { length buffer ≡ 4096 }
        requires out { self.old.bytes ≡ None }
        ensures home { self.new ≡ record (self.old) { bytes = Some buffer } }
        ensures buffer { self.old.has_buffer ≡ true }
    {
        self.is_out = false;
        self.buffer = Some(buffer);
    }
}
