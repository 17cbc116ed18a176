//! The machine's frames: their bytes, and the free ones.

ghost use Rattle.std.specs.Prelude.{◌≡◌, ℕ, false, ◌+◌, ◌<◌, ◌≤◌, [], ◌∷◌, ◌++◌, length, vec_capacity, vec_len, Some, IfOk, OnOk, OnErr, min, replicate, take, drop, slice_get, slice_set};
ghost use Rattle.nm_types.specs.Layout.{node_count, frame_count};
ghost use Rattle.nm_types.specs.Nodes.{is_in};
ghost use Rattle.nm_model.specs.definitions.Touch.{has_free};
ghost use Rattle.nm_model.specs.definitions.Frames.{list_of, with_list, with_back, with_front};
ghost use Rattle.std.specs.Cow.{cow_slice_items};
ghost use Rattle.std.specs.List.{AllByRecursion};
ghost use Rattle.nm_pool.specs.views.Copies.{CanCopy, HasBoth, without_moves, jobs_of};
ghost use Rattle.nm_model.specs.definitions.BeforeCopy.{frames_taken};
ghost use Rattle.nm_model.specs.definitions.Run.{frames_left};
ghost use Rattle.nm_model.specs.definitions.Frames.{IsHome, bytes_of, overwrite};
ghost use Rattle.nm_model.specs.definitions.Sound.{is_audited, with_numbers};
ghost use Rattle.nm_model.specs.definitions.Frames.{all_frames};
ghost use Rattle.nm_pool.specs.views.Frames.{HasAllFrames, KeepsBytes, free_on, pool_of, all_freed, CanFree, CanReturn, with_freed, in_memory};
ghost use Rattle.nm_pool.specs.views.Populated.{IsPopulated};
ghost use Rattle.nm_model.specs.definitions.Memory.{stretch_of};

mod in_flight;

use crate::audit;
pub use in_flight::FramesInFlight;
use in_flight::take_out_each;
use nm_frames::{CopyJob, FrameStore};
use nm_nodes::NodePool;
use nm_types::{FrameId, Geometry, NodeId, NodeMask, PageMove};
use std::alloc::{AllocError, Allocator};
use std::borrow::CowSlice;
use std::marker::Model;

/// How many frames get their bytes in memory at once. So many are 64 KiB.
const POPULATED_TOGETHER: u16 = 16;

/// What frames are made of, but for the list of jobs.
#[derive(Drop)]
struct FrameParts<A: Allocator + Copy> {
    geometry: Geometry<A>,
    frames: FrameStore<A>,
    nodes: NodePool<A>,
    vacated: Vec<FrameId, A>,
}

/// The frames of all nodes with their bytes, each node's free frames, and those of a run: the frames taken for its
/// pages, then those that its pages left. All but the list of jobs is in one box, so passing it by value copies little.
#[derive(Drop)]
pub struct FramePool<A: Allocator + Copy> {
    parts: Box<FrameParts<A>, A>,
    jobs: Vec<CopyJob<A>, A>,
}

impl<A: Allocator + Copy> Model for FramePool<A> {
    ghost use Rattle.std.specs.Prelude.{◌≡◌, [], min, vec_capacity};
    ghost use Rattle.std.specs.List.{AllByRecursion};
    ghost use Rattle.nm_pool.specs.views.Populated.{IsPopulated};
    ghost use Rattle.nm_pool.specs.views.Frames.{FramesView, HasAllFrames, in_memory};

    ghost Value = { FramesView };

    ghost view = { λ s. record {
      layout = s.parts.value.geometry;
      frames = in_memory s.parts.value.frames;
      free = s.parts.value.nodes.lists;
      vacated = s.parts.value.vacated.items;
      room = min (vec_capacity s.parts.value.vacated) (vec_capacity s.jobs);
    } };

    ghost invariant = { λ s. (s.parts.value.nodes.sizes ≡ s.parts.value.geometry.sizes) × HasAllFrames (record {
      layout = s.parts.value.geometry;
      frames = in_memory s.parts.value.frames;
      free = s.parts.value.nodes.lists;
      vacated = s.parts.value.vacated.items;
      room = min (vec_capacity s.parts.value.vacated) (vec_capacity s.jobs);
    }) × (s.jobs.items ≡ []) × AllByRecursion (IsPopulated (in_memory s.parts.value.frames)) s.parts.value.vacated.items };
}

impl<A: Allocator + Copy> FramePool<A> {
    /// Makes the frames of these nodes, all free.
    pub fn new(alloc: A, geometry: Geometry<A>) -> Result<Self, AllocError>
        // On success
        ensures layout { IfOk result (λ s. s.layout ≡ geometry) }
        ensures free { IfOk result (λ s. s.free ≡ all_frames 0 geometry.sizes) }
        ensures vacated { IfOk result (λ s. s.vacated ≡ []) }
        ensures whole { IfOk result (λ s. HasAllFrames s) }
    {
        let frames = FrameStore::without_buffers(alloc, geometry.frame_count())?;
        let nodes = NodePool::new(alloc, &geometry)?;
        let parts = Box::new(
            alloc,
            FrameParts {
                geometry,
                frames,
                nodes,
                vacated: Vec::new(alloc),
            },
        )?;
        Ok(FramePool {
            parts,
            jobs: Vec::new(alloc),
        })
    }

    /// The nodes.
    pub fn geometry(&self) -> &Geometry<A>
        ensures { result.now ≡ self.now.layout }
    {
        let parts = &*self.parts;
        &parts.geometry
    }

    /// How many nodes there are: 1 to 64.
    pub(crate) fn node_count(&self) -> usize
        ensures count { result ≡ node_count self.now.layout }
        ensures few { result ≤ 64 }
        ensures others { (node : ℕ) → result ≤ node → has_free self.now.free node ≡ false }
    {
        let parts = &*self.parts;
        parts.geometry.node_count()
    }

    /// How many free frames a node has. 0 if there is no such node.
    pub(crate) fn free_count(&self, node: NodeId) -> usize
        ensures { result ≡ length (free_on self.now node) }
    {
        let parts = &*self.parts;
        if node.index() < self.node_count() {
            parts.nodes.free_count(node)
        } else {
            0
        }
    }

    /// Whether a node has a free frame.
    pub fn has_free(&self, node: NodeId) -> bool
        ensures { result ≡ has_free self.now.free node }
    {
        self.free_count(node) > 0
    }

    /// The nodes that have a free frame.
    pub fn free_nodes(&self) -> NodeMask
        ensures { (node : ℕ) → is_in result node ≡ has_free self.now.free node }
    {
        let mut nodes = NodeMask::new();
        for number in 0..self.node_count() {
            let node = NodeId::new(number as u32);
            if self.has_free(node) {
                nodes.insert(node);
            }
        }
        nodes
    }

    /// The free frames of a node, front first.
    pub fn free_list(&self, alloc: A, node: NodeId) -> Result<Vec<FrameId, A>, AllocError>
        requires { node < node_count self.now.layout }
        ensures frames { IfOk result (λ frames. frames.items ≡ free_on self.now node) }
        ensures allocates { OnErr result (0 < length (free_on self.now node)) }
    {
        let parts = &*self.parts;
        front_of(alloc, &parts.nodes, node, parts.nodes.free_count(node))
    }

    /// The first `count` free frames of a node, or all if there are fewer: borrowed where they lie in one piece, else as
    /// a list. An error means that the host is out of memory; for one frame or none, nothing is allocated.
    pub fn free_front(
        &self,
        alloc: A,
        node: NodeId,
        count: usize,
    ) -> Result<CowSlice<'_, FrameId, A>, AllocError>
        requires { node < node_count self.now.layout }
        ensures front { IfOk result
            (λ frames. cow_slice_items frames ≡ take count (free_on self.now node)) }
        ensures allocates { OnErr result (1 < min count (length (free_on self.now node))) }
    {
        let parts = &*self.parts;
        let count = count.min(parts.nodes.free_count(node));
        front_in_place(alloc, &parts.nodes, node, count)
    }

    /// The front of a node's free list. None if the list is empty.
    pub fn front(&self, node: NodeId) -> Option<FrameId>
        requires { node < node_count self.now.layout }
        ensures front { result ≡ slice_get (free_on self.now node) 0 }
        ensures whole { HasAllFrames self.now }
    {
        let parts = &*self.parts;
        parts.nodes.nth(node, 0)
    }

    /// Takes the front of a node's free list. None if the list is empty.
    pub fn take_front(&mut self, node: NodeId) -> Option<FrameId>
        requires { node < node_count self.old.layout }
        ensures front { result ≡ slice_get (free_on self.old node) 0 }
        ensures rest { self.new
            ≡ record (self.old) {
              free = slice_set self.old.free node
                  (drop 1 (free_on self.old node));
            } }
        ensures whole { HasAllFrames self.old }
    {
        let parts = &mut *self.parts;
        parts.nodes.take_front(node)
    }

    /// Appends `len` bytes of a frame, from index `at` on, to a list that has room for them.
    pub fn read(&self, frame: FrameId, at: usize, len: usize, bytes: &mut Vec<u8, A>)
        requires frame { frame < frame_count self.now.layout }
        requires inside { at + len ≤ 4096 }
        requires room { vec_len bytes.old + len ≤ vec_capacity bytes.old }
        ensures { bytes.new.items
            ≡ bytes.old.items ++ stretch_of (bytes_of self.now.frames frame) at len }
    {
        let parts = &*self.parts;
        copy_bytes(&parts.frames, frame, at, len, bytes);
    }

    /// Gives a frame its bytes in memory, unless it has them. An error means that the host is out of memory, and that the
    /// frame did not have them.
    pub fn populate(&mut self, alloc: A, frame: FrameId) -> Result<(), AllocError>
        requires { frame < frame_count self.old.layout }
        ensures kept { KeepsBytes self.old.frames self.new.frames }
        ensures same { self.new ≡ record (self.old) { frames = self.new.frames } }
        ensures populated { OnOk result (IsPopulated self.new.frames frame) }
        ensures absent { OnErr result (IsPopulated self.old.frames frame → ⊥) }
        ensures whole { HasAllFrames self.new }
    {
        let parts = &mut *self.parts;
        populate(&mut parts.frames, alloc, frame)
    }

    /// Gives the frames that pages of moves take their bytes in memory, as far as they lack them. An error means that the
    /// host is out of memory, and that one of them did not have its bytes.
    pub fn populate_each(&mut self, alloc: A, moves: &[PageMove]) -> Result<(), AllocError>
        requires { AllByRecursion (λ frame. frame < frame_count self.old.layout) (frames_taken moves.now) }
        ensures kept { KeepsBytes self.old.frames self.new.frames }
        ensures same { self.new ≡ record (self.old) { frames = self.new.frames } }
        ensures populated { OnOk result
            (AllByRecursion (IsPopulated self.new.frames) (frames_taken moves.now)) }
        ensures allocates { OnErr result (0 < length moves.now) }
        ensures absent { OnErr result
            (AllByRecursion (IsPopulated self.old.frames) (frames_taken moves.now) → ⊥) }
        ensures whole { HasAllFrames self.new }
    {
        let parts = &mut *self.parts;
        populate_each(&mut parts.frames, alloc, moves)
    }

    /// Overwrites the bytes of a frame from index `at` on.
    pub fn write(&mut self, frame: FrameId, at: usize, bytes: &[u8])
        requires frame { frame < frame_count self.old.layout }
        requires populated { IsPopulated self.old.frames frame }
        requires inside { at + length bytes.now ≤ 4096 }
        ensures written { self.new
            ≡ record (self.old) {
              frames = slice_set self.old.frames frame
                  (Some (overwrite (bytes_of self.old.frames frame) at bytes.now));
            } }
        ensures whole { HasAllFrames self.old }
    {
        let parts = &mut *self.parts;
        parts.frames.write(frame, at, bytes);
    }

    /// Sets all bytes of a frame to zero.
    pub fn zero(&mut self, frame: FrameId)
        requires frame { frame < frame_count self.old.layout }
        requires populated { IsPopulated self.old.frames frame }
        ensures { self.new
            ≡ record (self.old) {
              frames = slice_set self.old.frames frame
                  (Some (replicate 4096 0));
            } }
    {
        let parts = &mut *self.parts;
        parts.frames.zero(frame);
    }

    /// Reserves room for `count` moves of a run. An error means that the host is out of memory, and that there was less room.
    pub fn reserve(&mut self, count: usize) -> Result<(), AllocError>
        ensures room { OnOk result (length self.new.vacated + count ≤ self.new.room) }
        ensures same { self.new ≡ record (self.old) { room = self.new.room } }
        ensures allocates { OnErr result (0 < length self.old.vacated + count) }
        ensures full { OnErr result (self.old.room < length self.old.vacated + count) }
    {
        let parts = &mut *self.parts;
        parts.vacated.reserve(count)?;
        self.jobs.reserve(parts.vacated.len() + count)
    }

    /// Takes `count` frames from the front of a node's list, or all if there are fewer. They belong to a run, and are
    /// in `vacated` until `vacate_each` or `give_back`. Does not allocate.
    pub fn take_for_run(&mut self, node: NodeId, count: usize)
        requires node { node < node_count self.old.layout }
        requires room { length self.old.vacated + count ≤ self.old.room }
        requires populated { AllByRecursion (IsPopulated self.old.frames)
            (take count (free_on self.old node)) }
        ensures taken { self.new
            ≡ record (self.old) {
              free = slice_set self.old.free node (drop count (free_on self.old node));
              vacated = self.old.vacated ++ take count (free_on self.old node);
            } }
        ensures whole { HasAllFrames self.old }
    {
        let parts = &mut *self.parts;
        parts.nodes.take_many(node, count, &mut parts.vacated);
    }

    /// Puts the frames taken for these moves back at the front of the list of the node that they came from.
    pub fn give_back(&mut self, node: NodeId, moves: &[PageMove])
        requires node { node < node_count self.old.layout }
        requires can { CanReturn (pool_of self.old) node (frames_taken moves.now) }
        ensures given { self.new
            ≡ record (self.old) {
              free = slice_set self.old.free node
                  (frames_taken moves.now ++ free_on self.old node);
              vacated = [];
            } }
        ensures whole { HasAllFrames self.old }
    {
        let parts = &mut *self.parts;
        parts.vacated.clear();
        return_tos(&mut parts.nodes, node, moves);
    }

    /// Makes `vacated` the frames that the pages of these moves leave. They become free when the run ends.
    pub fn vacate_each(&mut self, moves: &[PageMove])
        requires room { length moves.now ≤ self.old.room }
        requires populated { AllByRecursion (IsPopulated self.old.frames) (frames_left moves.now) }
        ensures vacated { self.new ≡ record (self.old) { vacated = frames_left moves.now } }
        ensures populated { AllByRecursion (IsPopulated self.old.frames) self.old.vacated }
        ensures whole { HasAllFrames self.old }
    {
        let parts = &mut *self.parts;
        parts.vacated.clear();
        push_left(&mut parts.vacated, moves);
    }

    /// Frees the frames that the pages of this run have left, in order, each at the end of its own node's list, and
    /// returns how many they are. This waits for the end of the run, since pages are copied from these frames until then
    /// and no access in flight may take one. Each list has room for all frames of its node, so this does not allocate.
    pub fn free_vacated(&mut self) -> usize
        requires { CanFree (pool_of self.old) self.old.vacated }
        ensures freed { self.new ≡ all_freed self.old }
        ensures count { result ≡ length self.old.vacated }
    {
        let parts = &mut *self.parts;
        let count = parts.vacated.len();
        free_frames(&mut parts.nodes, parts.vacated.as_slice());
        parts.vacated.clear();
        count
    }

    /// Frees a frame, at the end of its own node's list.
    pub fn free(&mut self, frame: FrameId)
        requires { CanFree (pool_of self.old) (frame ∷ []) }
        ensures { self.new ≡ record (self.old) { free = (with_back (pool_of self.old) frame).lists } }
    {
        let parts = &mut *self.parts;
        parts.nodes.append(frame);
    }

    /// Frees a frame, at the front of its own node's list. Does not allocate.
    pub fn free_first(&mut self, frame: FrameId)
        requires { CanFree (pool_of self.old) (frame ∷ []) }
        ensures { self.new ≡ record (self.old) { free = (with_front (pool_of self.old) frame).lists } }
    {
        let parts = &mut *self.parts;
        parts.nodes.prepend(frame);
    }

    /// Whether each frame is in exactly one place: its own node's list, or the places of pages.
    pub fn audit(&self, alloc: A, places: &[FrameId]) -> Result<bool, AllocError>
        ensures { IfOk result
            (λ b. b ≡ is_audited self.now.layout (with_numbers 0 self.now.free) places.now) }
    {
        let parts = &*self.parts;
        let free = audit::free_frames(alloc, &parts.nodes, self.node_count())?;
        audit::is_each_once(alloc, &parts.geometry, free.as_slice(), places)
    }

    /// Takes the bytes of both frames of each move out, as jobs in the order of the moves, numbered from 0. Does not
    /// allocate: the list of the jobs is the one that has had room reserved for them.
    pub fn take_out(self, moves: &[PageMove]) -> (FramesInFlight<A>, Vec<CopyJob<A>, A>)
        requires can { CanCopy self.frames moves.now }
        requires populated { AllByRecursion (HasBoth self.frames) moves.now }
        requires few { length moves.now ≤ self.room }

        // Afterwards
        ensures frames { result.0
            ≡ record (self) {
              frames = without_moves self.frames moves.now;
              room = result.0.room;
            } }
        ensures jobs { result.1.items ≡ jobs_of 0 self.frames moves.now }
        ensures room { self.room ≡ min result.0.room (vec_capacity result.1) }

        // Before
        ensures whole { HasAllFrames self }
        ensures vacated { AllByRecursion (IsPopulated self.frames) self.vacated }
    {
        let FramePool {
            mut parts,
            mut jobs,
        } = self;
        take_out_each(&mut parts.frames, moves, &mut jobs);
        (FramesInFlight { parts }, jobs)
    }
}

/// Gives a frame its bytes in memory, unless it has them, and then those behind it, as far as the host has memory: frames
/// that are used together so have their bytes together. An error means that the host is out of memory, and that the frame
/// did not have its bytes.
fn populate<A: Allocator + Copy>(
    frames: &mut FrameStore<A>,
    alloc: A,
    frame: FrameId,
) -> Result<(), AllocError>
    requires frame { frame < length (in_memory frames.old) }
    requires home { (f : ℕ) → f < length (in_memory frames.old) → IsHome (in_memory frames.old) f }
    ensures kept { KeepsBytes (in_memory frames.old) (in_memory frames.new) }
    ensures populated { OnOk result (IsPopulated (in_memory frames.new) frame) }
    ensures absent { OnErr result (IsPopulated (in_memory frames.old) frame → ⊥) }
{
    if !frames.has_buffer(frame) {
        frames.populate(alloc, frame)?;
        populate_behind(frames, alloc, frame);
    }
    Ok(())
}

/// Gives the frames behind a frame their bytes in memory, as many as are populated together, unless the host is out of
/// memory.
fn populate_behind<A: Allocator + Copy>(frames: &mut FrameStore<A>, alloc: A, frame: FrameId)
    requires { (f : ℕ) → f < length (in_memory frames.old) → IsHome (in_memory frames.old) f }
    ensures { KeepsBytes (in_memory frames.old) (in_memory frames.new) }
{
    for step in 1..POPULATED_TOGETHER {
        let next = FrameId::new(frame.number().saturating_add(step));
        if next.index() >= frames.frame_count() {
            return;
        }
        let Ok(()) = frames.populate(alloc, next) else {
            return;
        };
    }
}

/// Gives the frames that pages of moves take their bytes in memory, as far as they lack them. An error means that the host
/// is out of memory, and that one of them did not have its bytes.
fn populate_each<A: Allocator + Copy>(
    frames: &mut FrameStore<A>,
    alloc: A,
    moves: &[PageMove],
) -> Result<(), AllocError>
    requires frames { AllByRecursion (λ frame. frame < length (in_memory frames.old)) (frames_taken moves.now) }
    requires home { (f : ℕ) → f < length (in_memory frames.old) → IsHome (in_memory frames.old) f }
    ensures kept { KeepsBytes (in_memory frames.old) (in_memory frames.new) }
    ensures populated { OnOk result (AllByRecursion (IsPopulated (in_memory frames.new)) (frames_taken moves.now)) }
    ensures allocates { OnErr result (0 < length moves.now) }
    ensures absent { OnErr result
        (AllByRecursion (IsPopulated (in_memory frames.old)) (frames_taken moves.now) → ⊥) }
{
    for taken in moves {
        populate(frames, alloc, taken.to)?;
    }
    Ok(())
}

/// Puts the frames taken for these moves back at the front of the node's list.
fn return_tos<A: Allocator + Copy>(nodes: &mut NodePool<A>, node: NodeId, moves: &[PageMove])
    requires node { node < length nodes.old.lists }
    requires can { CanReturn nodes.old node (frames_taken moves.now) }
    ensures { nodes.new ≡ with_list nodes.old node (frames_taken moves.now ++ list_of nodes.old node) }
{
    let mut left = moves.len();
    while left > 0 {
        left -= 1;
        nodes.prepend(moves[left].to);
    }
}

/// Appends the frames that the pages of these moves leave to a list that has room for them.
fn push_left<A: Allocator + Copy>(vacated: &mut Vec<FrameId, A>, moves: &[PageMove])
    requires { vec_len vacated.old + length moves.now ≤ vec_capacity vacated.old }
    ensures items { vacated.new.items ≡ vacated.old.items ++ frames_left moves.now }
    ensures room { vec_capacity vacated.new ≡ vec_capacity vacated.old }
{
    for taken in moves {
        vacated.push_reserved(taken.from);
    }
}

/// Appends frames to their own nodes' lists, one after another.
fn free_frames<A: Allocator + Copy>(nodes: &mut NodePool<A>, frames: &[FrameId])
    requires { CanFree nodes.old frames.now }
    ensures { nodes.new ≡ with_freed nodes.old frames.now }
{
    for frame in frames {
        nodes.append(*frame);
    }
}

/// The first `count` free frames of a node, which has at least as many: borrowed where they lie in one piece, else as a
/// list. One frame is always borrowed.
fn front_in_place<'a, A: Allocator + Copy>(
    alloc: A,
    nodes: &'a NodePool<A>,
    node: NodeId,
    count: usize,
) -> Result<CowSlice<'a, FrameId, A>, AllocError>
    requires node { node < length nodes.now.lists }
    requires count { count ≤ length (list_of nodes.now node) }
    ensures frames { IfOk result
        (λ frames. cow_slice_items frames ≡ take count (list_of nodes.now node)) }
    ensures allocates { OnErr result (1 < count) }
{
    let (piece, _) = nodes.as_slices(node);
    if count <= piece.len() {
        return Ok(CowSlice::Borrowed(&piece[..count]));
    }
    let frames = front_of(alloc, nodes, node, count)?;
    Ok(CowSlice::Owned(frames))
}

/// The first `count` free frames of a node, which has at least as many.
fn front_of<A: Allocator + Copy>(
    alloc: A,
    nodes: &NodePool<A>,
    node: NodeId,
    count: usize,
) -> Result<Vec<FrameId, A>, AllocError>
    requires node { node < length nodes.now.lists }
    requires count { count ≤ length (list_of nodes.now node) }
    ensures frames { IfOk result (λ frames. frames.items ≡ take count (list_of nodes.now node)) }
    ensures allocates { OnErr result (0 < count) }
{
    let mut frames = Vec::with_capacity(alloc, count)?;
    for k in 0..count {
        let Some(frame) = nodes.nth(node, k) else {
            unreachable!()
        };
        frames.push_reserved(frame);
    }
    Ok(frames)
}

/// Appends `len` bytes of a frame, from index `at` on, to a list that has room for them.
fn copy_bytes<A: Allocator + Copy>(
    frames: &FrameStore<A>,
    frame: FrameId,
    at: usize,
    len: usize,
    bytes: &mut Vec<u8, A>,
)
    requires frame { IsHome (in_memory frames.now) frame }
    requires inside { at + len ≤ 4096 }
    requires room { vec_len bytes.old + len ≤ vec_capacity bytes.old }
    ensures { bytes.new.items ≡ bytes.old.items ++ stretch_of (bytes_of (in_memory frames.now) frame) at len }
{
    for k in at..at + len {
        bytes.push_reserved(frames.byte(frame, k));
    }
}
