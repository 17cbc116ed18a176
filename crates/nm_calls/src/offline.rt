//! Taking nodes offline: what is refused, which pages move, and their runs.

ghost use Rattle.std.specs.Prelude.{◌≡◌, ◌<◌, ◌≤◌, ◌&&◌, All, IfOk, OnOk, length, map, true};
ghost use Rattle.std.specs.List.{list_any};
ghost use Rattle.nm_types.specs.Layout.{node_count};
ghost use Rattle.nm_types.specs.Nodes.{is_in, without_node};
ghost use Rattle.nm_types.specs.declared.request.Wanted.TheVariants.{Whole};
ghost use Rattle.nm_runs.specs.Targets.{Checks};
ghost use Rattle.nm_passes.specs.definitions.Listing.{is_on};
ghost use Rattle.nm_calls.specs.views.Ends.{Empties};
ghost use Rattle.nm_calls.specs.definitions.Offline.{offline_refusal, offline_runs, refuges};

use nm_engine::{Machine, RunCrew};
use nm_passes::{CallError, make_passes};
use nm_policy::zonelist;
use nm_runs::Wanted;
use nm_types::{Errno, NodeId, NodeMask, Page};
use std::alloc::{AllocError, Allocator};

/// The other online nodes.
fn others<A: Allocator + Copy + Send + Sync>(machine: &Machine<A>, node: NodeId) -> NodeMask
    ensures { result ≡ without_node machine.now.online node }
{
    let mut others = machine.online();
    others.remove(node);
    others
}

/// Whether a node may go offline, if its pages can leave it. Errors, in order: EINVAL (no such node); EBUSY (no other
/// node is online).
pub(crate) fn check_offline<A: Allocator + Copy + Send + Sync>(
    machine: &Machine<A>,
    node: NodeId,
) -> Result<(), Errno>
    ensures exact { Checks result (offline_refusal machine.now node) }
    ensures node { OnOk result (node < node_count (machine.now.layout)) }
{
    if node.index() >= machine.geometry().node_count() {
        return Err(Errno::Einval);
    }
    if machine.online().contains(node) && others(machine, node).len() == 0 {
        return Err(Errno::Ebusy);
    }
    Ok(())
}

/// The other online nodes, by their distance from a node.
fn refuges<A: Allocator + Copy + Send + Sync>(
    alloc: A,
    machine: &Machine<A>,
    node: NodeId,
) -> Result<Vec<NodeId, A>, AllocError>
    ensures order { IfOk result (λ order. order.items ≡ refuges machine.now node) }
    ensures few { IfOk result (λ order. length order.items ≤ 64) }
    ensures below { IfOk result
        (λ order. All (λ n. n < node_count (machine.now.layout)) order.items) }
{
    let others = others(machine, node);
    prove!(others.len() <= 64);
    let order = zonelist(alloc, machine.geometry(), others, node)?;
    Ok(order)
}

/// The request for a page, whoever sees it.
fn whole(page: &Page) -> Wanted
    ensures { result ≡ Whole page.now }
{
    Wanted::Whole(*page)
}

/// The same for several pages.
fn wholes<A: Allocator + Copy>(alloc: A, pages: &[Page]) -> Result<Vec<Wanted, A>, AllocError>
    ensures { IfOk result (λ wanted. wanted.items ≡ map Whole pages.now) }
{
    pages.iter().map(|page| whole(page)).collect(alloc)
}

/// Whether a page is on a node.
fn is_on<A: Allocator + Copy + Send + Sync>(
    machine: &Machine<A>,
    node: &NodeId,
    page: &Page,
) -> bool
    ensures { result ≡ is_on machine.now node.now page.now }
{
    match machine.spaces().areas().page_frame(*page) {
        Some(frame) => machine.geometry().node_of(frame) == *node,
        None => false,
    }
}

/// Whether one of these pages is on a node.
fn some_on<A: Allocator + Copy + Send + Sync>(
    machine: &Machine<A>,
    node: &NodeId,
    pages: &[Page],
) -> bool
    ensures { result ≡ list_any (is_on machine.now node.now) pages.now }
{
    pages.iter().any(|page| is_on(machine, node, page))
}

/// Moves the pages of an online node to the others, in passes by their distance from it, and takes the node offline.
/// All pages are listed before the first moves. EBUSY if a page is still on the node: the node is online, and the moves
/// remain. If the host runs out of memory, the first runs remain, and the node is online.
pub(crate) fn empty_node<A: Allocator + Copy + Send + Sync, C: RunCrew<A>>(
    crew: &C,
    alloc: A,
    machine: &mut Machine<A>,
    node: NodeId,
    limit: usize,
) -> Result<(), CallError>
    requires some { 0 < limit }
    requires node { node < node_count (machine.old.layout) }
    requires online { is_in machine.old.online node ≡ true }
    ensures { Empties result machine.old machine.new node (offline_runs limit machine.old node) }
{
    let pages = machine.pages_on(node)?;
    let nodes = refuges(alloc, machine, node)?;
    let wanted = wholes(alloc, pages.as_slice())?;
    if let Err(error) = make_passes(crew, alloc, machine, nodes.as_slice(), wanted, false, limit) {
        return Err(error);
    }
    if some_on(machine, &node, pages.as_slice()) {
        return Err(CallError::Refused(Errno::Ebusy));
    }
    machine.set_online(node, false);
    Ok(())
}
