//! The free frames of all nodes.

ghost use Rattle.std.specs.Prelude.{◌≡◌, ◌<◌, ◌≤◌, ◌+◌, ◌++◌, ◌↔◌, false, length, sum, take, drop, slice_get, vec_len, vec_capacity, IfOk};
ghost use Rattle.nm_types.specs.Layout.{owner};
ghost use Rattle.nm_types.specs.Nodes.{is_in};
ghost use Rattle.nm_model.specs.definitions.Frames.{Pool, IsPool, list_of, new_pool, with_list, without_front, with_back, with_front};
ghost use Rattle.nm_nodes.specs.Lists.{sizes_of};

use crate::list::FreeList;
use nm_types::{FrameId, Geometry, NodeId};
use std::alloc::{AllocError, Allocator};
use std::marker::Model;

/// Each node's free frames, front first. Contracts see how many frames each node owns, and the lists.
#[derive(Debug, Drop)]
pub struct NodePool<A: Allocator + Copy> {
    lists: Vec<FreeList<A>, A>,
}

impl<A: Allocator + Copy> Model for NodePool<A> {
    ghost use Rattle.nm_model.specs.definitions.Frames.{Pool, IsPool};
    ghost use Rattle.nm_nodes.specs.Lists.{pool_of_lists};

    ghost Value = { Pool };

    ghost view = { λ p. pool_of_lists p.lists.items };

    ghost invariant = { λ p. IsPool (pool_of_lists p.lists.items) };
}

impl<A: Allocator + Copy> NodePool<A> {
    /// Makes the pool of a new machine: every frame is free, and each node's list has its frames in ascending order.
    /// Allocates room for every frame; no other call allocates.
    pub fn new(alloc: A, geometry: &Geometry<A>) -> Result<Self, AllocError>
        ensures { IfOk result (λ pool. pool ≡ new_pool geometry.now.sizes) }
    {
        let mut lists = Vec::with_capacity(alloc, geometry.node_count())?;
        let mut first = 0;
        for node in 0..geometry.node_count() {
            let size = geometry.size(NodeId::new(node as u32));
            let list = FreeList::upwards(alloc, first, size)?;
            lists.push(list)?;
            first += size;
        }
        Ok(NodePool { lists })
    }

    /// How many free frames a node of the machine has.
    pub fn free_count(&self, node: NodeId) -> usize
        requires { node < length self.now.lists }
        ensures count { result ≡ length (list_of self.now node) }
        ensures pool { IsPool self.now }
    {
        self.lists[node.index()].len()
    }

    /// The k-th free frame of a node of the machine, counted from 0 at the front. None past the end.
    pub fn nth(&self, node: NodeId, k: usize) -> Option<FrameId>
        requires { node < length self.now.lists }
        ensures { result ≡ slice_get (list_of self.now node) k }
    {
        self.lists[node.index()].nth(k)
    }

    /// The free frames of a node of the machine, front first, as the two parts in which they lie in memory. The first is
    /// empty only if there are none.
    pub fn as_slices(&self, node: NodeId) -> (&[FrameId], &[FrameId])
        requires { node < length self.now.lists }
        ensures parts { result.0.now ++ result.1.now ≡ list_of self.now node }
        ensures first { (0 < length result.0.now) ↔ (0 < length (list_of self.now node)) }
    {
        self.lists[node.index()].as_slices()
    }

    /// Takes the front frame of a node of the machine. None if its list is empty. Does not allocate.
    pub fn take_front(&mut self, node: NodeId) -> Option<FrameId>
        requires { node < length self.old.lists }
        ensures front { result ≡ slice_get (list_of self.old node) 0 }
        ensures rest { self.new ≡ without_front self.old node }
    {
        self.lists[node.index()].take_front()
    }

    /// Takes `count` frames from the front of the list of a node of the machine, or all if there are fewer, and appends
    /// them in order to a list that has room for them. Does not allocate.
    pub fn take_many(&mut self, node: NodeId, count: usize, taken: &mut Vec<FrameId, A>)
        requires node { node < length self.old.lists }
        requires room { vec_len taken.old + count ≤ vec_capacity taken.old }

        // Frames move from the node to the list
        ensures taken { taken.new.items ≡ taken.old.items ++ take count (list_of self.old node) }
        ensures rest { self.new ≡ with_list self.old node (drop count (list_of self.old node)) }

        // The list keeps its capacity
        ensures room { vec_capacity taken.new ≡ vec_capacity taken.old }
    {
        self.lists[node.index()].take_many(count, taken);
    }

    /// Puts a frame of the machine that is not free at the end of its own node's list. Does not allocate.
    pub fn append(&mut self, frame: FrameId)
        requires frame { frame < sum self.old.sizes }
        requires taken { is_in (list_of self.old (owner self.old.sizes frame)) frame ≡ false }
        ensures { self.new ≡ with_back self.old frame }
    {
        let node = owner_of(self.lists.as_slice(), frame);
        self.lists[node].append(frame);
    }

    /// Puts a frame of the machine that is not free at the front of its own node's list. Does not allocate.
    pub fn prepend(&mut self, frame: FrameId)
        requires frame { frame < sum self.old.sizes }
        requires taken { is_in (list_of self.old (owner self.old.sizes frame)) frame ≡ false }
        ensures { self.new ≡ with_front self.old frame }
    {
        let node = owner_of(self.lists.as_slice(), frame);
        self.lists[node].prepend(frame);
    }
}

/// The node that owns a frame, found by the sizes of the lists.
fn owner_of<A: Allocator + Copy>(lists: &[FreeList<A>], frame: FrameId) -> usize
    requires { frame < sum (sizes_of lists.now) }
    ensures node { result ≡ owner (sizes_of lists.now) frame }
    ensures below { result < length lists.now }
{
    let mut rest = u32::from(frame.number());
    for (node, list) in lists.iter().enumerate() {
        if rest < list.size() {
            return node;
        }
        rest -= list.size();
    }
    unreachable!()
}
