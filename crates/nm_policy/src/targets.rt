//! Where the pages of one pass of mbind(2) go.

ghost use Rattle.std.specs.Prelude.{◌≡◌, ◌<◌, ◌==◌, ◌++◌, map, length, IfOk, OnOk, OnErr};
ghost use Rattle.nm_policy.specs.definitions.Turns.{with_turn, sent_to, by_turns};

use nm_types::{LocatedPage, NodeId, NodeMask, Vpn};
use std::alloc::{AllocError, Allocator};

/// A page that is to go to a node.
#[derive(Clone, Copy, Debug, PartialEq, Eq)]
pub struct Destination {
    /// A page number at which a process sees it: below 2^35.
    pub vpn: Vpn,
    /// The number of the node: below 64.
    pub to: NodeId,
}

/// The nodes of a set, in ascending order. An error means that the host is out of memory; an empty set needs none.
fn nodes_of<A: Allocator + Copy>(alloc: A, set: NodeMask) -> Result<Vec<NodeId, A>, AllocError>
    ensures nodes { IfOk result (λ nodes. nodes.items ≡ set) }
    ensures allocates { OnErr result (0 < length set) }
{
    let mut nodes = Vec::with_capacity(alloc, set.len())?;
    let mut rest = set;
    while let Some(node) = rest.take_first() {
        nodes.push(node)?;
    }
    Ok(nodes)
}

/// Each page of a list with the node whose turn it is, in the order of the list. An error means that the host is out of
/// memory; an empty list needs none.
fn pages_with_turns<A: Allocator + Copy>(
    alloc: A,
    nodes: &[NodeId],
    pages: &[LocatedPage],
) -> Result<Vec<Destination, A>, AllocError>
    requires { 0 < length nodes.now }
    ensures dealt { IfOk result (λ dealt. dealt.items ≡ map (with_turn nodes.now) pages.now) }
    ensures allocates { OnErr result (0 < length pages.now) }
{
    let count = nodes.len() as u64;
    let mut dealt = Vec::with_capacity(alloc, pages.len())?;
    for found in pages {
        let turn = found.page.index % count;
        dealt.push(Destination {
            vpn: found.vpn,
            to: nodes[turn as usize],
        })?;
    }
    Ok(dealt)
}

/// Appends the pages that go to a node to a list. An error means that the host is out of memory; if there is no page, it
/// needs none.
fn append_for<A: Allocator + Copy>(
    node: NodeId,
    dealt: &[Destination],
    targets: &mut Vec<Destination, A>,
) -> Result<(), AllocError>
    ensures ok { OnOk result (targets.new.items ≡ targets.old.items ++ sent_to dealt.now node) }
    ensures allocates { OnErr result (0 < length dealt.now) }
    ensures some { OnErr result (0 < length (sent_to dealt.now node)) }
{
    for sent in dealt {
        if sent.to == node {
            targets.push(*sent)?;
        }
    }
    Ok(())
}

/// Which node of a set each page of a list goes to, and the order in which they go: the nodes take turns in ascending
/// order by the page's index in its segment, as MPOL_INTERLEAVE wants, and the pages go in the order of nodes and then
/// of the list. A set of one node takes all pages in the order of the list, as MPOL_PREFERRED and each pass of
/// MPOL_BIND want. If the set is empty, no page goes anywhere. An error means that the host is out of memory; if the
/// set or the list is empty, it needs none.
pub fn mbind_targets<A: Allocator + Copy>(
    alloc: A,
    nodes: NodeMask,
    pages: &[LocatedPage],
) -> Result<Vec<Destination, A>, AllocError>
    ensures targets { IfOk result (λ targets. targets.items ≡ by_turns nodes pages.now) }
    ensures allocates { OnErr result ((0 < length nodes) × (0 < length pages.now)) }
{
    if nodes.is_empty() || pages.is_empty() {
        return Ok(Vec::new(alloc));
    }
    let mut targets = Vec::with_capacity(alloc, pages.len())?;
    let order = nodes_of(alloc, nodes)?;
    let dealt = pages_with_turns(alloc, order.as_slice(), pages)?;
    for node in &order {
        append_for(*node, dealt.as_slice(), &mut targets)?;
    }
    Ok(targets)
}
