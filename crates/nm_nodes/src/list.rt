//! The free frames of one node.

ghost use Rattle.std.specs.Prelude.{◌≡◌, ◌+◌, ◌<◌, ◌≤◌, ◌^◌, [], ◌∷◌, ◌++◌, ◌↔◌, length, take, drop, slice_get, vec_len, vec_capacity, IfOk, OnErr};
ghost use Rattle.std.specs.VecDeque.{deque_capacity};
ghost use Rattle.nm_types.specs.Nodes.{up_from};

use nm_types::FrameId;
use std::alloc::{AllocError, Allocator};
use std::collections::VecDeque;
use std::marker::Model;

/// The free frames of one node, front first, with room for all frames that the node owns. Contracts see the pair of
/// that number and the list.
#[derive(Debug, Drop)]
pub struct FreeList<A: Allocator + Copy> {
    size: u32,
    frames: VecDeque<FrameId, A>,
}

impl<A: Allocator + Copy> Model for FreeList<A> {
    ghost use Rattle.std.specs.Prelude.{ℕ, ◌≤◌, List};
    ghost use Rattle.std.specs.VecDeque.{deque_capacity};

    ghost Value = { ℕ × List ℕ };

    ghost view = { λ l. (l.size, l.frames.items) };

    ghost invariant = { λ l. l.size ≤ deque_capacity l.frames };
}

impl<A: Allocator + Copy> FreeList<A> {
    /// Makes the list of all frames of a node that owns `size` frames from `first` on, in ascending order. The last
    /// must be at most 65,535, as a frame's number has 16 bits. An error means that the host is out of memory; a node
    /// without frames needs none.
    pub fn upwards(alloc: A, first: u32, size: u32) -> Result<Self, AllocError>
        requires { first + size ≤ 2 ^ 16 }
        ensures ok { IfOk result (λ l. l ≡ (size, up_from first size)) }
        ensures allocates { OnErr result (0 < size) }
    {
        let mut frames = VecDeque::with_capacity(alloc, size as usize)?;
        for number in first..first + size {
            frames.push_back(FrameId::new(number as u16))?;
        }
        Ok(FreeList { size, frames })
    }

    /// How many frames the node owns.
    pub fn size(&self) -> u32
        ensures { result ≡ self.now.0 }
    {
        self.size
    }

    /// How many free frames there are.
    pub fn len(&self) -> usize
        ensures { result ≡ length self.now.1 }
    {
        self.frames.len()
    }

    /// The k-th free frame, counted from 0 at the front. None past the end.
    pub fn nth(&self, k: usize) -> Option<FrameId>
        ensures { result ≡ slice_get self.now.1 k }
    {
        self.frames.get(k).copied()
    }

    /// The free frames, front first, as the two parts in which they lie in memory. The first is empty only if there are
    /// none.
    pub fn as_slices(&self) -> (&[FrameId], &[FrameId])
        ensures parts { result.0.now ++ result.1.now ≡ self.now.1 }
        ensures first { (0 < length result.0.now) ↔ (0 < length self.now.1) }
    {
        self.frames.as_slices()
    }

    /// Takes the front frame. None if the list is empty.
    pub fn take_front(&mut self) -> Option<FrameId>
        ensures front { result ≡ slice_get self.old.1 0 }
        ensures rest { self.new ≡ (self.old.0, drop 1 self.old.1) }
    {
        self.frames.pop_front()
    }

    /// Takes `count` frames from the front, or all if there are fewer, and appends them in order to a list that has
    /// room for them.
    pub fn take_many(&mut self, count: usize, taken: &mut Vec<FrameId, A>)
        requires { vec_len taken.old + count ≤ vec_capacity taken.old }
        ensures taken { taken.new.items ≡ taken.old.items ++ take count self.old.1 }
        ensures rest { self.new ≡ (self.old.0, drop count self.old.1) }
        ensures room { vec_capacity taken.new ≡ vec_capacity taken.old }
    {
        take_front(&mut self.frames, count, taken);
    }

    /// Puts a frame at the end. There must be room.
    pub fn append(&mut self, frame: FrameId)
        requires { length self.old.1 < self.old.0 }
        ensures { self.new ≡ (self.old.0, self.old.1 ++ frame ∷ []) }
    {
        self.frames.push_back_reserved(frame);
    }

    /// Puts a frame at the front. There must be room.
    pub fn prepend(&mut self, frame: FrameId)
        requires { length self.old.1 < self.old.0 }
        ensures { self.new ≡ (self.old.0, frame ∷ self.old.1) }
    {
        self.frames.push_front_reserved(frame);
    }
}

/// Takes `count` frames from the front of a queue, or all if there are fewer, and appends them in order to a list that
/// has room for them.
fn take_front<A: Allocator + Copy>(
    frames: &mut VecDeque<FrameId, A>,
    count: usize,
    taken: &mut Vec<FrameId, A>,
)
    requires { vec_len taken.old + count ≤ vec_capacity taken.old }

    // Frames move from the queue to the list
    ensures taken { taken.new.items ≡ taken.old.items ++ take count frames.old.items }
    ensures rest { frames.new.items ≡ drop count frames.old.items }

    // Both keep their capacity
    ensures capacity { deque_capacity frames.new ≡ deque_capacity frames.old }
    ensures room { vec_capacity taken.new ≡ vec_capacity taken.old }
{
    for _ in 0..count {
        let Some(frame) = frames.pop_front() else {
            return;
        };
        taken.push_reserved(frame);
    }
}
