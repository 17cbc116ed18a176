//! Where new pages are placed.

ghost use Rattle.std.specs.Prelude.{◌≡◌, ℕ, List, ◌&&◌, ◌<◌, length, IfOk, OnErr, find};
ghost use Rattle.std.specs.List.{filter};
ghost use Rattle.nm_types.specs.Layout.{Layout};
ghost use Rattle.nm_types.specs.Nodes.{is_in};
ghost use Rattle.nm_model.specs.definitions.Order.{first_touch_order, zonelist, follows, turn, nearer_of};

use crate::zones::{distance, zonelist};
use nm_types::{Geometry, NodeId, NodeMask, Policy};
use std::alloc::{AllocError, Allocator};

/// The node of a set whose turn it is at an index: the nodes take turns in ascending order. Node 0 if the set is empty.
pub(crate) fn turn(nodes: NodeMask, index: u64) -> NodeId
    ensures { result ≡ turn nodes index }
{
    let count = nodes.len() as u64;
    if count == 0 {
        return NodeId::new(0);
    }
    match nodes.nth((index % count) as usize) {
        Some(node) => node,
        None => unreachable!(),
    }
}

/// The node from which distances are measured, and the nodes that may be used: those of the policy, or else those of
/// the process.
fn way(home: NodeId, allowed: NodeMask, policy: Policy, index: u64) -> (NodeId, NodeMask)
    ensures { (layout : Layout) (online : List ℕ) →
        filter (is_in result.1) (zonelist layout online result.0)
        ≡ first_touch_order layout online home allowed policy index }
{
    match policy {
        Policy::Default => (home, allowed),
        Policy::Preferred(node) => (node, allowed),
        Policy::Bind(nodes) => (home, nodes),
        Policy::Interleave(nodes) => (turn(nodes, index), allowed),
        Policy::Local => (home, allowed),
    }
}

/// The nodes that a new page may take a frame from, first choice first. `index` is the page's index in its segment,
/// `home` and `allowed` are the touching process's, and the policy is that of its area. DEFAULT and LOCAL go by
/// distance from home, PREFERRED by distance from its node, and INTERLEAVE by distance from the node of its set whose
/// turn it is, number (`index` mod the size of the set), counted from 0; all three use the allowed nodes only. BIND
/// uses its own nodes only, by distance from home. This follows set_mempolicy(2) and mbind(2); the orders are this
/// project's own. An error means that the host is out of memory; if no node is online, it needs none.
pub fn first_touch_order<A: Allocator + Copy>(
    alloc: A,
    geometry: &Geometry<A>,
    online: NodeMask,
    home: NodeId,
    allowed: NodeMask,
    policy: Policy,
    index: u64,
) -> Result<Vec<NodeId, A>, AllocError>
    ensures order { IfOk result
        (λ order. order.items ≡ first_touch_order geometry.now online home allowed policy index) }
    ensures allocates { OnErr result (0 < length online) }
{
    let (from, kept) = way(home, allowed, policy, index);
    let mut order = zonelist(alloc, geometry, online, from)?;
    order.retain(|node| kept.contains(*node));
    Ok(order)
}

/// The nearer of the node found so far, if any, and another node, if that is in both sets. The former if both are
/// equally near.
fn nearer_of<A: Allocator + Copy>(
    geometry: &Geometry<A>,
    from: NodeId,
    kept: NodeMask,
    free: NodeMask,
    found: Option<NodeId>,
    node: NodeId,
) -> Option<NodeId>
    ensures { result ≡ nearer_of geometry.now from (λ n. is_in kept n && is_in free n) found node }
{
    if !kept.contains(node) || !free.contains(node) {
        return found;
    }
    match found {
        None => Some(node),
        Some(other) => {
            if distance(geometry, from, node) < distance(geometry, from, other) {
                Some(node)
            } else {
                Some(other)
            }
        }
    }
}

/// The node that a new page takes a frame from: the first in the order of `first_touch_order` that is in `free`, the
/// nodes with a free frame. None if there is none. Does not allocate, and looks at each online node once.
pub fn first_touch_node<A: Allocator + Copy>(
    geometry: &Geometry<A>,
    online: NodeMask,
    free: NodeMask,
    home: NodeId,
    allowed: NodeMask,
    policy: Policy,
    index: u64,
) -> Option<NodeId>
    ensures { result
        ≡ find (is_in free) (first_touch_order geometry.now online home allowed policy index) }
{
    let (from, kept) = way(home, allowed, policy, index);
    nearest(geometry, online, from, kept, free)
}

/// The nearest online node, by distance from a node, that is in both sets. The lowest of those equally near.
fn nearest<A: Allocator + Copy>(
    geometry: &Geometry<A>,
    online: NodeMask,
    from: NodeId,
    kept: NodeMask,
    free: NodeMask,
) -> Option<NodeId>
    ensures { result ≡ find (is_in free) (filter (is_in kept) (zonelist geometry.now online from)) }
{
    let mut found = None;
    let mut rest = online;
    while let Some(node) = rest.take_first() {
        found = nearer_of(geometry, from, kept, free, found, node);
    }
    found
}

/// Whether a page on this node is where the policy wants it. BIND and INTERLEAVE want their nodes, PREFERRED its node,
/// and DEFAULT and LOCAL any node.
pub fn follows(policy: Policy, node: NodeId) -> bool
    ensures { result ≡ follows policy node }
{
    match policy {
        Policy::Default => true,
        Policy::Preferred(wanted) => node == wanted,
        Policy::Bind(nodes) => nodes.contains(node),
        Policy::Interleave(nodes) => nodes.contains(node),
        Policy::Local => true,
    }
}
