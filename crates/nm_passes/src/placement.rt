//! How pages move to where a policy wants them: in passes over nodes, or each to the node whose turn it is.

ghost use Rattle.std.specs.Prelude.{◌≡◌, ℕ, ◌+◌, ◌-◌, ◌^◌, ◌<◌, ◌≤◌, IfOk, OnErr, length, true};
ghost use Rattle.std.specs.List.{AllByRecursion, filter};
ghost use Rattle.nm_types.specs.Layout.{node_count};
ghost use Rattle.nm_types.specs.Nodes.{is_in};
ghost use Rattle.nm_model.specs.definitions.Order.{zonelist};
ghost use Rattle.nm_types.specs.declared.request.Wanted.TheVariants.{At};
ghost use Rattle.nm_model.specs.definitions.Areas.{Mapping};
ghost use Rattle.nm_model.specs.definitions.Effect.{with_areas_of};
ghost use Rattle.nm_passes.specs.definitions.Placement.{requests_at, runs_by, nodes_tried};
ghost use Rattle.nm_passes.specs.views.Runs.{runs_in, CanGo, nodes_named, MakesRuns};

use crate::binding::Binding;
use crate::call_error::CallError;
use crate::passes::{later, make_passes};
use crate::turns::make_turns;
use nm_engine::{Machine, RunCrew};
use nm_policy::{Destination, first_touch_order, mbind_targets};
use nm_runs::Wanted;
use nm_types::{LocatedPage, NodeId, NodeMask, Pid, Policy, Vpn};
use std::alloc::{AllocError, Allocator};

/// How pages move.
#[derive(Drop)]
pub enum Placement<A: Allocator + Copy> {
    /// All go to the first of these nodes that has a free frame: one pass for each node.
    Passes {
        /// The nodes, in the order in which they are tried.
        nodes: Vec<NodeId, A>,
        /// The request for each page.
        wanted: Vec<Wanted, A>,
    },
    /// Each goes to a node of its own.
    Turns {
        /// The process that sees the pages.
        pid: Pid,
        /// Whether pages move even if other processes see them.
        all: bool,
        /// The pages, each with its node.
        sent: Vec<Destination, A>,
    },
}

/// The request for a page, at the page number at which a process sees it.
fn spot(pid: Pid, all: bool, vpn: Vpn) -> Wanted
    ensures { result ≡ At pid vpn all }
{
    Wanted::At { pid, vpn, all }
}

/// Requests for pages, each at the page number at which a process sees it.
fn spots<A: Allocator + Copy>(
    alloc: A,
    pid: Pid,
    all: bool,
    pages: &[LocatedPage],
) -> Result<Vec<Wanted, A>, AllocError>
    ensures { IfOk result (λ wanted. wanted.items ≡ requests_at pid all pages.now) }
{
    pages
        .iter()
        .map(|page| spot(pid, all, page.vpn))
        .collect(alloc)
}

/// The online nodes of a set, by their distance from a node.
fn by_distance<A: Allocator + Copy + Send + Sync>(
    alloc: A,
    machine: &Machine<A>,
    home: NodeId,
    nodes: NodeMask,
) -> Result<Vec<NodeId, A>, AllocError>
    ensures order { IfOk result
        (λ order. order.items
        ≡ filter (is_in nodes) (zonelist (machine.now.layout) machine.now.online home)) }
    ensures few { IfOk result (λ order. length order.items ≤ 64) }
{
    let online = machine.online();
    let policy = Policy::Bind(nodes);
    prove!(online.len() <= 64);
    let order = first_touch_order(alloc, machine.geometry(), online, home, nodes, policy, 0)?;
    Ok(order)
}

/// The nodes that a policy tries one after another for all pages: that of MPOL_PREFERRED, and those of MPOL_BIND by
/// their distance from a process's home node.
fn nodes_tried<A: Allocator + Copy + Send + Sync>(
    alloc: A,
    machine: &Machine<A>,
    home: NodeId,
    policy: Policy,
) -> Result<Vec<NodeId, A>, AllocError>
    ensures order { IfOk result (λ nodes. nodes.items ≡ nodes_tried machine.now home policy) }
    ensures few { IfOk result (λ nodes. length nodes.items ≤ 64) }
{
    match policy {
        Policy::Preferred(node) => {
            let mut nodes = Vec::new(alloc);
            nodes.push(node)?;
            Ok(nodes)
        }
        Policy::Bind(nodes) => by_distance(alloc, machine, home, nodes),
        Policy::Default => Ok(Vec::new(alloc)),
        Policy::Interleave(_) => Ok(Vec::new(alloc)),
        Policy::Local => Ok(Vec::new(alloc)),
    }
}

/// How pages move to where a policy wants them. An error means that the host is out of memory; without pages it needs
/// none.
pub fn way_of<A: Allocator + Copy + Send + Sync>(
    alloc: A,
    machine: &Machine<A>,
    home: NodeId,
    binding: &Binding,
    all: bool,
    pages: &[LocatedPage],
) -> Result<Placement<A>, AllocError>
    requires nodes { AllByRecursion (λ n. n < node_count (machine.now.layout))
        (nodes_named binding.now.policy) }
    requires few { length pages.now ≤ 2 ^ 52 }

    // On success
    ensures runs { IfOk result (λ way. (limit : ℕ) (m : Mapping) → runs_in limit (with_areas_of machine.now m) way
        ≡ runs_by limit (with_areas_of machine.now m) binding.now.policy home binding.now.pid all pages.now) }
    ensures can_go { IfOk result (CanGo (node_count (machine.now.layout))) }

    // Without memory
    ensures allocates { OnErr result (0 < length pages.now) }
{
    let pid = binding.pid;
    if pages.is_empty() {
        return Ok(Placement::Turns {
            pid,
            all,
            sent: Vec::new(alloc),
        });
    }
    if let Policy::Interleave(nodes) = binding.policy {
        return Ok(Placement::Turns {
            pid,
            all,
            sent: mbind_targets(alloc, nodes, pages)?,
        });
    }
    Ok(Placement::Passes {
        nodes: nodes_tried(alloc, machine, home, binding.policy)?,
        wanted: spots(alloc, pid, all, pages)?,
    })
}

/// Makes the runs of `way`, one after another, each of at most `limit` requests. It is no error if a page stays. The
/// only error is `HostMemory { runs, policy_set: true }`, since the policy is set before its pages move: the host ran
/// out of memory before the last run was made, and the machine is as the first `runs` runs left it.
pub fn make_moves<A: Allocator + Copy + Send + Sync, C: RunCrew<A>>(
    crew: &C,
    alloc: A,
    machine: &mut Machine<A>,
    way: Placement<A>,
    limit: usize,
) -> Result<(), CallError>
    requires some { 0 < limit }
    requires can_go { CanGo (node_count (machine.old.layout)) way }
    ensures { MakesRuns true result machine.old machine.new (runs_in limit machine.old way) }
{
    match way {
        Placement::Passes { nodes, wanted } => {
            make_passes(crew, alloc, machine, nodes.as_slice(), wanted, true, limit)
        }
        Placement::Turns { pid, all, sent } => {
            if sent.is_empty() {
                return Ok(());
            }
            match make_turns(crew, alloc, machine, pid, all, sent.as_slice(), limit) {
                Ok(_) => Ok(()),
                Err(error) => Err(later(error, 0, true)),
            }
        }
    }
}
