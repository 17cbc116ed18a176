//! The bytes of all frames.

ghost use Rattle.std.specs.Prelude.{◌≡◌, false, true, [], ◌+◌, ◌<◌, ◌≤◌, length, slice_index, slice_index_or, slice_set, Some, None, IfOk, OnOk, OnErr, replicate};
ghost use Rattle.nm_model.specs.definitions.Frames.{IsHome, IsOut, bytes_of, overwrite};
ghost use Rattle.nm_frames.specs.Stores.{HasBuffer, frames_of_zeros};

use crate::buf::FrameBuf;
use crate::bytes::Bytes;
use crate::slot::Slot;
use nm_types::FrameId;
use std::alloc::{AllocError, Allocator};
use std::marker::Model;

/// The bytes of each frame, or none while they are out as a `FrameBuf`. Contracts see two lists by frame: the 4,096 bytes
/// of a frame that is home, or None where they are out, and whether the frame has its buffer. A frame has its buffer from
/// the start or once it is populated, and keeps it; until then its bytes are zeros. Only what does not allocate asks for it.
#[derive(Debug, Drop)]
pub struct FrameStore<A: Allocator + Copy> {
    frames: Vec<Slot<A>, A>,
}

impl<A: Allocator + Copy> Model for FrameStore<A> {
    ghost use Rattle.std.specs.Prelude.{map};
    ghost use Rattle.nm_frames.specs.Stores.{FrameView, StoreView};

    ghost Value = { StoreView };

    ghost view = { λ s. record {
      bytes = map (λ (f : FrameView). f.bytes) s.frames.items;
      buffers = map (λ (f : FrameView). f.has_buffer) s.frames.items;
    } };
}

impl<A: Allocator + Copy> FrameStore<A> {
    /// Makes a store of `frames` frames that read as zeros, all home and with their buffers. An error means that the host
    /// is out of memory; a store of no frames needs none.
    pub fn new(alloc: A, frames: usize) -> Result<Self, AllocError>
        ensures ok { IfOk result (λ store. store ≡ frames_of_zeros frames true) }
        ensures allocates { OnErr result (0 < frames) }
    {
        let mut slots = Vec::with_capacity(alloc, frames)?;
        for _ in 0..frames {
            let buffer = Bytes::zeros(alloc)?;
            slots.push(Slot::of(buffer))?;
        }
        Ok(FrameStore { frames: slots })
    }

    /// Makes a store of `frames` frames that read as zeros, all home and without their buffers. An error means that the
    /// host is out of memory; a store of no frames needs none.
    pub fn without_buffers(alloc: A, frames: usize) -> Result<Self, AllocError>
        ensures ok { IfOk result (λ store. store ≡ frames_of_zeros frames false) }
        ensures allocates { OnErr result (0 < frames) }
    {
        let mut unused = Vec::with_capacity(alloc, frames)?;
        for _ in 0..frames {
            unused.push(Slot::without_buffer())?;
        }
        Ok(FrameStore { frames: unused })
    }

    /// How many frames there are, home and out.
    pub fn frame_count(&self) -> usize
        ensures bytes { result ≡ length self.now.bytes }
        ensures buffers { result ≡ length self.now.buffers }
    {
        self.frames.len()
    }

    /// The byte at an index below 4,096 of a home frame: 0 until the frame has its buffer.
    pub fn byte(&self, frame: FrameId, at: usize) -> u8
        requires home { IsHome self.now.bytes frame }
        requires inside { at < 4096 }
        ensures value { result ≡ slice_index (bytes_of self.now.bytes frame) at }
        ensures unused { slice_index_or self.now.buffers frame false ≡ false → result ≡ 0 }
    {
        self.frames[frame.index()].byte(at)
    }

    /// Whether a home frame has its buffer.
    pub fn has_buffer(&self, frame: FrameId) -> bool
        requires { IsHome self.now.bytes frame }
        ensures value { result ≡ slice_index_or self.now.buffers frame false }
        ensures whole { length (bytes_of self.now.bytes frame) ≡ 4096 }
    {
        self.frames[frame.index()].has_buffer()
    }

    /// Gives a home frame its buffer, unless it has it. An error means that the host is out of memory, that the frame did
    /// not have its buffer, and that nothing has changed.
    pub fn populate(&mut self, alloc: A, frame: FrameId) -> Result<(), AllocError>
        requires { IsHome self.old.bytes frame }
        ensures ok { OnOk result
            (self.new ≡ record (self.old) { buffers = slice_set self.old.buffers frame true }) }
        ensures err { OnErr result (self.new ≡ self.old) }
        ensures absent { OnErr result (HasBuffer self.old frame → ⊥) }
    {
        if self.has_buffer(frame) {
            return Ok(());
        }
        let zeros = Bytes::zeros(alloc)?;
        self.frames[frame.index()].fill(zeros);
        Ok(())
    }

    /// Overwrites the bytes of a home frame that has its buffer, from index `at` on. They must end within its 4,096 bytes.
    pub fn write(&mut self, frame: FrameId, at: usize, bytes: &[u8])
        requires home { IsHome self.old.bytes frame }
        requires buffer { HasBuffer self.old frame }
        requires inside { at + length bytes.now ≤ 4096 }
        ensures { self.new
            ≡ record (self.old) {
              bytes = slice_set self.old.bytes frame
                  (Some (overwrite (bytes_of self.old.bytes frame) at bytes.now));
            } }
    {
        let mut buf = self.take_out(frame);
        buf.bytes.write(at, bytes);
        self.put_back(buf);
    }

    /// Sets all bytes of a home frame that has its buffer to zero.
    pub fn zero(&mut self, frame: FrameId)
        requires home { IsHome self.old.bytes frame }
        requires buffer { HasBuffer self.old frame }
        ensures { self.new
            ≡ record (self.old) { bytes = slice_set self.old.bytes frame (Some (replicate 4096 0)) } }
    {
        let mut buf = self.take_out(frame);
        buf.bytes.clear();
        self.put_back(buf);
    }

    /// Takes the bytes of a home frame out in its buffer, without copying them.
    pub fn take_out(&mut self, frame: FrameId) -> FrameBuf<A>
        requires home { IsHome self.old.bytes frame }
        requires buffer { HasBuffer self.old frame }
        ensures buf { result ≡ (frame, bytes_of self.old.bytes frame) }
        ensures out { self.new ≡ record (self.old) { bytes = slice_set self.old.bytes frame None } }
    {
        let bytes = self.frames[frame.index()].take();
        FrameBuf { frame, bytes }
    }

    /// Puts the bytes of a frame that is out back home, without copying them.
    pub fn put_back(&mut self, buf: FrameBuf<A>)
        requires { IsOut self.old.bytes buf.0 }
        ensures home { self.new
            ≡ record (self.old) { bytes = slice_set self.old.bytes buf.0 (Some buf.1) } }
        ensures buffer { HasBuffer self.old buf.0 }
    {
        let FrameBuf { frame, bytes } = buf;
        self.frames[frame.index()].put(bytes);
    }
}
