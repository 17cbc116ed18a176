//! A machine's nodes, their frames and distances.

ghost use Rattle.std.specs.Prelude.{◌≡◌, ◌<◌, ◌≤◌, ◌≢◌, map, slice_index, sum};
ghost use Rattle.std.specs.Option.{SomeIff};
ghost use Rattle.nm_types.specs.Layout.{IsMachine, Owns, node_count, frame_count, node_of, distance, is_distance, is_row, are_rows};
ghost use Rattle.nm_types.specs.Refusal.{refusal, Opens};

use crate::limits::{MAX_FRAMES, MAX_NODES};
use crate::numbers::{FrameId, NodeId};
use std::alloc::{AllocError, Allocator};
use std::marker::Model;
use thiserror::Error;

/// Why sizes and distances do not describe a machine. If several apply, the first in this order is reported.
#[derive(Clone, Copy, Debug, PartialEq, Eq, Error)]
pub enum GeometryError {
    /// There is no node.
    #[error("no nodes")]
    NoNodes,
    /// There are more than 64 nodes.
    #[error("more than 64 nodes")]
    TooManyNodes,
    /// A node has no frame.
    #[error("a node without frames")]
    EmptyNode,
    /// The nodes own more than 16,384 frames in total.
    #[error("more than 16384 frames")]
    TooManyFrames,
    /// The distances are not a row for each node with a distance to each node, or a node's distance to itself is not
    /// 10, or a distance to another node is below 11.
    #[error("bad distances")]
    BadDistance,
}

/// How many frames each node owns, and the distances between nodes as in a firmware's SLIT. Contracts see it as a
/// layout.
#[derive(Debug, Drop)]
pub struct Geometry<A: Allocator + Copy> {
    sizes: Vec<u32, A>,
    distances: Vec<Vec<u8, A>, A>,
}

impl<A: Allocator + Copy> Model for Geometry<A> {
    ghost use Rattle.std.specs.Prelude.{map};
    ghost use Rattle.nm_types.specs.Layout.{Layout, IsMachine};

    ghost Value = { Layout };

    ghost view = { λ g. record { sizes = g.sizes.items; distances = map (λ row. row.items) g.distances.items } };

    ghost invariant = { λ g. IsMachine (record { sizes = g.sizes.items; distances = map (λ row. row.items) g.distances.items }) };
}

/// Returns the same layout in memory of its own. Fails only if the host is out of memory.
impl<A: Allocator + Copy> Clone for Geometry<A> {
    ghost is_clone = { λ g h. h ≡ g };

    fn clone(&self) -> Result<Geometry<A>, AllocError> {
        Ok(Geometry {
            sizes: self.sizes.clone()?,
            distances: self.distances.clone()?,
        })
    }
}

/// Whether a distance from one node to another is valid: 10 to itself, at least 11 otherwise.
fn is_distance(own: usize, to: usize, distance: u8) -> bool
    ensures { result ≡ is_distance own to distance }
{
    if to == own {
        distance == 10
    } else {
        distance >= 11
    }
}

/// Whether a node's row has a valid distance to each of the `count` nodes.
fn is_row(count: usize, own: usize, row: &[u8]) -> bool
    ensures { result ≡ is_row count own row.now }
{
    if row.len() != count {
        return false;
    }
    for (to, distance) in row.iter().enumerate() {
        if !is_distance(own, to, *distance) {
            return false;
        }
    }
    true
}

/// Whether these are valid rows of the nodes, from node 0 on.
fn are_rows<A: Allocator + Copy>(count: usize, rows: &[Vec<u8, A>]) -> bool
    ensures { result ≡ are_rows count 0 (map (λ row. row.items) rows.now) }
{
    for (own, row) in rows.iter().enumerate() {
        if !is_row(count, own, row.as_slice()) {
            return false;
        }
    }
    true
}

/// How many frames the nodes own in total, or None if that is more than a machine may have.
fn few_frames(sizes: &[u32]) -> Option<u64>
    ensures { SomeIff result (sum sizes.now ≤ 16384) (sum sizes.now) }
{
    let mut frames = 0u64;
    for size in sizes {
        frames += u64::from(*size);
        if frames > MAX_FRAMES {
            return None;
        }
    }
    Some(frames)
}

/// The first fault of sizes and distances, in the order of `GeometryError`.
fn fault_of<A: Allocator + Copy>(sizes: &[u32], distances: &[Vec<u8, A>]) -> Option<GeometryError>
    ensures { result
        ≡ refusal (record { sizes = sizes.now; distances = map (λ row. row.items) distances.now }) }
{
    if sizes.is_empty() {
        Some(GeometryError::NoNodes)
    } else if sizes.len() > MAX_NODES {
        Some(GeometryError::TooManyNodes)
    } else if sizes.contains(&0) {
        Some(GeometryError::EmptyNode)
    } else if few_frames(sizes).is_none() {
        Some(GeometryError::TooManyFrames)
    } else if distances.len() == sizes.len() && are_rows(sizes.len(), distances) {
        None
    } else {
        Some(GeometryError::BadDistance)
    }
}

impl<A: Allocator + Copy> Geometry<A> {
    /// Makes a geometry of nodes that own these numbers of frames, with a row of distances for each node. Takes over
    /// both lists, and does not allocate. If several errors apply, it returns the one that `GeometryError` lists first.
    pub fn new(sizes: Vec<u32, A>, distances: Vec<Vec<u8, A>, A>) -> Result<Self, GeometryError>
        ensures { Opens
            (record {
              sizes = sizes.items;
              distances = map (λ row. row.items) distances.items;
            }) result }
    {
        match fault_of(sizes.as_slice(), distances.as_slice()) {
            None => Ok(Geometry { sizes, distances }),
            Some(fault) => Err(fault),
        }
    }

    /// How many nodes there are: 1 to 64.
    pub fn node_count(&self) -> usize
        ensures count { result ≡ node_count self.now }
        ensures machine { IsMachine self.now }
    {
        self.sizes.len()
    }

    /// How many frames the nodes own in total: at most 16,384.
    pub fn frame_count(&self) -> usize
        ensures { result ≡ frame_count self.now }
    {
        let mut frames = 0;
        for size in &self.sizes {
            frames += *size as usize;
        }
        frames
    }

    /// The node that owns a frame of the machine.
    pub fn node_of(&self, frame: FrameId) -> NodeId
        requires { frame < frame_count self.now }
        ensures node { result ≡ node_of self.now frame }
        ensures below { result < node_count self.now }
        ensures stretch { Owns self.now result frame }
    {
        let mut rest = u32::from(frame.number());
        for (node, size) in self.sizes.iter().enumerate() {
            if rest < *size {
                return NodeId::new(node as u32);
            }
            rest -= *size;
        }
        unreachable!()
    }

    /// How many frames a node of the machine owns: at least 1.
    pub fn size(&self, node: NodeId) -> u32
        requires { node < node_count self.now }
        ensures { result ≡ slice_index self.now.sizes node }
    {
        self.sizes[node.index()]
    }

    /// The distance from one node of the machine to another: 10 to itself, otherwise 11 to 255.
    pub fn distance(&self, from: NodeId, to: NodeId) -> u8
        requires from { from < node_count self.now }
        requires to { to < node_count self.now }

        // In any case
        ensures distance { result ≡ distance self.now from to }

        // To itself
        ensures own { from ≡ to → result ≡ 10 }

        // To another node
        ensures other { from ≢ to → 11 ≤ result }
    {
        self.distances[from.index()][to.index()]
    }
}
