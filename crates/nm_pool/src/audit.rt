//! Auditing all frames.

ghost use Rattle.std.specs.Prelude.{◌≡◌, ◌<◌, ◌≤◌, ◌==◌, ℕ, ◌+◌, ◌++◌, true, length, map, nat_lt, IfOk, OnOk, OnErr, slice_index_or};
ghost use Rattle.std.specs.List.{list_all};
ghost use Rattle.nm_model.specs.definitions.Frames.{list_of};
ghost use Rattle.nm_model.specs.definitions.Sound.{times};
ghost use Rattle.nm_model.specs.definitions.Sound.{is_on_its_node, is_audited, with_numbers};

use nm_nodes::NodePool;
use nm_types::{FrameId, Geometry, NodeId};
use std::alloc::{AllocError, Allocator};

/// Whether each frame belongs to the machine, and to the node that it is paired with.
fn are_own<A: Allocator + Copy>(geometry: &Geometry<A>, free: &[(NodeId, FrameId)]) -> bool
    ensures { result ≡ list_all (is_on_its_node geometry.now) free.now }
{
    let count = geometry.frame_count();
    for (node, frame) in free {
        if frame.index() >= count || geometry.node_of(*frame) != *node {
            return false;
        }
    }
    true
}

/// Whether each frame is below a count.
fn are_below(count: usize, frames: &[FrameId]) -> bool
    ensures { result ≡ list_all (λ frame. nat_lt frame count) frames.now }
{
    frames.iter().all(|frame| frame.index() < count)
}

/// How many times each number below a count is among the frames.
fn tally<A: Allocator + Copy>(
    alloc: A,
    count: usize,
    frames: &[FrameId],
) -> Result<Vec<u64, A>, AllocError>
    ensures length { IfOk result (λ v. length v.items ≡ count) }
    ensures times { IfOk result
        (λ v. (k : ℕ) → k < count → slice_index_or v.items k 0 ≡ times k frames.now) }
{
    let mut counts = vec![in alloc; 0u64; count]?;
    for frame in frames {
        if frame.index() < count {
            counts[frame.index()] += 1;
        }
    }
    Ok(counts)
}

/// Whether each number is 1.
fn are_ones(counts: &[u64]) -> bool
    ensures { result ≡ list_all (λ n. n == 1) counts.now }
{
    counts.iter().all(|count| *count == 1)
}

/// The free frames, followed by the frames of pages.
fn all_of<A: Allocator + Copy>(
    alloc: A,
    free: &[(NodeId, FrameId)],
    placed: &[FrameId],
) -> Result<Vec<FrameId, A>, AllocError>
    ensures items { IfOk result (λ v. v.items ≡ map (λ f. f.1) free.now ++ placed.now) }
    ensures allocates { OnErr result (0 < length free.now + length placed.now) }
{
    let mut frames = Vec::new(alloc);
    for (_, frame) in free {
        frames.push(*frame)?;
    }
    frames.extend_from_slice(placed)?;
    Ok(frames)
}

/// Whether each frame of the machine is exactly once among the free frames, each paired with its own node, and the
/// frames of pages, and no other frame is there.
pub(crate) fn is_each_once<A: Allocator + Copy>(
    alloc: A,
    geometry: &Geometry<A>,
    free: &[(NodeId, FrameId)],
    placed: &[FrameId],
) -> Result<bool, AllocError>
    ensures audited { IfOk result (λ b. b ≡ is_audited geometry.now free.now placed.now) }
    ensures own { OnErr result (list_all (is_on_its_node geometry.now) free.now ≡ true) }
{
    if !are_own(geometry, free) {
        return Ok(false);
    }
    let count = geometry.frame_count();
    if !are_below(count, placed) {
        return Ok(false);
    }
    let frames = all_of(alloc, free, placed)?;
    let counts = tally(alloc, count, frames.as_slice())?;
    Ok(are_ones(counts.as_slice()))
}

/// Appends the free frames of a node, each paired with the node, to a list.
fn push_list<A: Allocator + Copy>(
    nodes: &NodePool<A>,
    node: NodeId,
    free: &mut Vec<(NodeId, FrameId), A>,
) -> Result<(), AllocError>
    requires { node < length nodes.now.lists }
    ensures items { OnOk result
        (free.new.items ≡ free.old.items ++ map (λ frame. (node, frame)) (list_of nodes.now node)) }
    ensures allocates { OnErr result (0 < length (list_of nodes.now node)) }
{
    for k in 0..nodes.free_count(node) {
        let Some(frame) = nodes.nth(node, k) else {
            unreachable!()
        };
        free.push((node, frame))?;
    }
    Ok(())
}

/// The free frames of all `count` nodes, each paired with its node.
pub(crate) fn free_frames<A: Allocator + Copy>(
    alloc: A,
    nodes: &NodePool<A>,
    count: usize,
) -> Result<Vec<(NodeId, FrameId), A>, AllocError>
    requires count { count ≡ length nodes.now.lists }
    requires few { count ≤ 64 }
    ensures { IfOk result (λ free. free.items ≡ with_numbers 0 nodes.now.lists) }
{
    let mut free = Vec::new(alloc);
    for node in 0..count {
        push_list(nodes, NodeId::new(node as u32), &mut free)?;
    }
    Ok(free)
}
