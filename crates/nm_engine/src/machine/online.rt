//! Putting nodes online and taking them offline, and the pages on them.

ghost use Rattle.std.specs.Prelude.{All, IfOk, OnErr, if◌then◌else◌, length, ◌<◌, ◌==◌, ◌≡◌, ◌≤◌};
ghost use Rattle.nm_types.specs.Layout.{frame_count, node_count, node_of};
ghost use Rattle.std.specs.BTreeSet.{insert_key};
ghost use Rattle.std.specs.List.{filter};
ghost use Rattle.std.specs.Map.{keys_of};
ghost use Rattle.std.specs.Ordering.{nat_cmp};
ghost use Rattle.nm_model.specs.definitions.Effect.{set_online};
ghost use Rattle.nm_model.specs.definitions.Seen.{placed_on};
ghost use Rattle.nm_types.specs.Nodes.{IsNodeSet, without_node};

use crate::machine::Machine;
use nm_types::{FrameId, Geometry, NodeId, NodeMask, Page};
use std::alloc::{AllocError, Allocator};

impl<A: Allocator + Copy + Send + Sync> Machine<A> {
    /// Puts a node of the machine online or takes it offline, whatever it was before. Pages stay where they are, and so
    /// do free frames. Does not allocate.
    pub fn set_online(&mut self, node: NodeId, online: bool)
        requires { node < node_count self.old.layout }
        ensures { self.new ≡ set_online self.old node online }
    {
        prove!(self.frames.geometry().node_count() <= 64);
        self.online = with_or_without(self.online, node, online);
    }

    /// The pages on a node, by segment and index: at most 16,384. Empty if there is no such node. An error means that
    /// the host is out of memory, and there is a page that has a frame.
    pub fn pages_on(&self, node: NodeId) -> Result<Vec<Page, A>, AllocError>
        ensures list { IfOk result (λ pages. pages.items ≡ placed_on self.now node) }
        ensures few { IfOk result (λ pages. length pages.items ≤ 16384) }
        ensures allocates { OnErr result (0 < length self.now.place) }
    {
        let placed = self.spaces.areas().placed()?;
        let geometry = self.frames.geometry();
        prove!(geometry.node_count() <= 64);
        let pages = pages_among(self.alloc, geometry, placed.as_slice(), node)?;
        Ok(pages)
    }
}

/// A set with this node, or without it.
fn with_or_without(nodes: NodeMask, node: NodeId, is_in: bool) -> NodeMask
    requires { node < 64 }
    ensures nodes { result
        ≡ (if is_in then insert_key nat_cmp nodes node else without_node nodes node) }
    ensures set { IsNodeSet result }
{
    let mut changed = nodes;
    if is_in {
        changed.insert(node);
    } else {
        changed.remove(node);
    }
    prove!(changed.len() <= 64);
    changed
}

/// The pages on a node, from a list of pages with their frames.
fn pages_among<A: Allocator + Copy>(
    alloc: A,
    geometry: &Geometry<A>,
    placed: &[(Page, FrameId)],
    node: NodeId,
) -> Result<Vec<Page, A>, AllocError>
    requires { All (λ e. e.1 < frame_count geometry.now) placed.now }
    ensures pages { IfOk result
        (λ pages. pages.items ≡ keys_of (filter (λ e. node_of geometry.now e.1 == node) placed.now)) }
    ensures allocates { OnErr result (0 < length placed.now) }
{
    let mut pages = Vec::new(alloc);
    for (page, frame) in placed {
        if geometry.node_of(*frame) == node {
            pages.push(*page)?;
        }
    }
    Ok(pages)
}
