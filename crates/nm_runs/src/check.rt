//! Whether the pages of a batch may go to the nodes that it names.

ghost use Rattle.std.specs.Prelude.{◌<◌, EachIndex, OnOk, slice_index};
ghost use Rattle.nm_runs.specs.Targets.{node_refusal, first_refusal, Checks};

use nm_types::{Errno, NodeId, NodeMask};

/// Whether a page may go to a node: ENODEV or EACCES if not.
fn check_node(count: usize, online: NodeMask, allowed: NodeMask, node: NodeId) -> Result<(), Errno>
    ensures node { OnOk result (node < count) }
    ensures exact { Checks result (node_refusal count online allowed node) }
{
    if node.index() >= count || !online.contains(node) {
        return Err(Errno::Enodev);
    }
    if !allowed.contains(node) {
        return Err(Errno::Eacces);
    }
    Ok(())
}

/// Whether the pages of a process that may use the allowed nodes may go to these nodes, on a machine of `count` nodes
/// of which `online` are online, as in move_pages(2). The first entry that is refused gives the error: ENODEV if its
/// node does not exist or is offline, or else EACCES if it is not allowed. Does not allocate.
pub fn check_batch(
    count: usize,
    online: NodeMask,
    allowed: NodeMask,
    nodes: &[u32],
) -> Result<(), Errno>
    ensures nodes { OnOk result (EachIndex nodes.now (λ k. slice_index nodes.now k < count)) }
    ensures exact { Checks result (first_refusal count online allowed nodes.now) }
{
    for node in nodes {
        check_node(count, online, allowed, NodeId::new(*node))?;
    }
    Ok(())
}
