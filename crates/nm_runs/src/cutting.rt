//! Cutting a batch of requests into runs.

ghost use Rattle.std.specs.Prelude.{◌≡◌, ◌<◌, ◌≤◌, ◌==◌, ◌/◌, IfOk, OnErr, length, map, slice_index};
ghost use Rattle.std.specs.List.{take_while};
ghost use Rattle.nm_model.specs.definitions.Cut.{wanted_of, same_front, IsFirst};
ghost use Rattle.nm_runs.specs.Stretches.{stretches_of};
ghost use Rattle.nm_model.specs.definitions.Cut.{cut_within, requests_of, run_count};
ghost use Rattle.nm_types.specs.declared.request.Wanted.TheVariants.{At};

use crate::{Request, Run, Wanted};
use nm_types::{NodeId, Pid, Vpn};
use std::alloc::{AllocError, Allocator};

/// How many requests at the front are for the same node as the first.
fn same_front(requests: &[Request]) -> usize
    requires { 0 < length requests.now }
    ensures front { result ≡ same_front requests.now }
    ensures some { 0 < result }
    ensures within { result ≤ length requests.now }
{
    let first = requests[0].target;
    requests
        .iter()
        .take_while(|request| request.target == first)
        .count()
}

/// What requests ask to move. An error means that the host is out of memory.
fn wanted_of<A: Allocator + Copy>(
    alloc: A,
    requests: &[Request],
) -> Result<Vec<Wanted, A>, AllocError>
    ensures { IfOk result (λ wanted. wanted.items ≡ wanted_of requests.now) }
{
    let mut wanted = Vec::with_capacity(alloc, requests.len())?;
    for request in requests {
        wanted.push_reserved(request.wanted);
    }
    Ok(wanted)
}

/// The run at the front of a batch: its longest stretch for one target.
fn first_run<A: Allocator + Copy>(alloc: A, requests: &[Request]) -> Result<Run<A>, AllocError>
    requires { 0 < length requests.now }

    // On success
    ensures some { IfOk result (λ run. 0 < length run.wanted.items) }
    ensures within { IfOk result (λ run. length run.wanted.items ≤ length requests.now) }
    ensures first { IfOk result (λ run. IsFirst requests.now run.target run.wanted.items) }
{
    let count = same_front(requests);
    Ok(Run {
        target: requests[0].target,
        wanted: wanted_of(alloc, &requests[..count])?,
    })
}

/// The runs of a batch under a limit of at least 1, in order: its longest stretches of requests for one node, each cut
/// from its front into runs of at most `limit` requests. A batch without requests has no runs. The caller has all runs
/// before it starts the first, so memory for the list of a later run cannot be refused after pages have moved. An error
/// means that the host is out of memory; a batch without requests needs none.
pub fn cut<A: Allocator + Copy>(
    alloc: A,
    requests: &[Request],
    limit: usize,
) -> Result<Vec<Run<A>, A>, AllocError>
    requires { 0 < limit }
    ensures runs { IfOk result (λ runs. stretches_of runs.items ≡ cut_within limit requests.now) }
    ensures allocates { OnErr result (0 < length requests.now) }
{
    let mut runs = Vec::new(alloc);
    let mut at = 0;
    while at < requests.len() {
        let (_, rest) = requests.split_at(at);
        let room = rest.len().min(limit);
        let run = first_run(alloc, &rest[..room])?;
        at += run.wanted.len();
        runs.push(run)?;
    }
    Ok(runs)
}

/// How many nodes at the front are the same as the first.
fn same_nodes(nodes: &[u32]) -> usize
    requires { 0 < length nodes.now }
    ensures front { result ≡ length (take_while (λ node. node == slice_index nodes.now 0) nodes.now) }
    ensures some { 0 < result }
    ensures within { result ≤ length nodes.now }
{
    let first = nodes[0];
    nodes.iter().take_while(|node| **node == first).count()
}

/// How many runs a batch of requests for these nodes has under a limit of at least 1. Does not allocate.
pub fn run_count(nodes: &[u32], limit: usize) -> usize
    requires { 0 < limit }
    ensures count { result ≡ run_count limit nodes.now }
    ensures few { result ≤ length nodes.now }
{
    let mut count = 0;
    let mut at = 0;
    while at < nodes.len() {
        let (_, rest) = nodes.split_at(at);
        let most = rest.len().min(limit);
        at += same_nodes(&rest[..most]);
        count += 1;
    }
    count
}

/// What is asked of the pages at these addresses of a process. An error means that the host is out of memory.
fn wanted_at<A: Allocator + Copy>(
    alloc: A,
    pid: Pid,
    all: bool,
    addresses: &[u64],
) -> Result<Vec<Wanted, A>, AllocError>
    ensures { IfOk result (λ wanted. wanted.items ≡ map (λ a. At pid (a / 4096) all) addresses.now) }
{
    let mut wanted = Vec::with_capacity(alloc, addresses.len())?;
    for address in addresses {
        wanted.push_reserved(Wanted::At {
            pid,
            vpn: Vpn::of_address(*address),
            all,
        });
    }
    Ok(wanted)
}

/// The run at the front of a batch of pages, each with the node at the same index: its longest stretch for one node.
fn first_pages<A: Allocator + Copy>(
    alloc: A,
    pid: Pid,
    all: bool,
    pages: &[u64],
    nodes: &[u32],
) -> Result<Run<A>, AllocError>
    requires paired { length pages.now ≡ length nodes.now }
    requires some { 0 < length nodes.now }

    // On success
    ensures some { IfOk result (λ run. 0 < length run.wanted.items) }
    ensures within { IfOk result (λ run. length run.wanted.items ≤ length nodes.now) }
    ensures first { IfOk result
        (λ run. IsFirst (requests_of pid all pages.now nodes.now) run.target run.wanted.items) }
{
    let count = same_nodes(nodes);
    Ok(Run {
        target: NodeId::new(nodes[0]),
        wanted: wanted_at(alloc, pid, all, &pages[..count])?,
    })
}

/// The runs of a batch of pages of a process under a limit of at least 1, as `cut` cuts their requests. The pages
/// are named by an address in each, and each goes to the node at the same index. An error means that the host is out of
/// memory; without pages it needs none.
pub fn cut_pages<A: Allocator + Copy>(
    alloc: A,
    pid: Pid,
    all: bool,
    pages: &[u64],
    nodes: &[u32],
    limit: usize,
) -> Result<Vec<Run<A>, A>, AllocError>
    requires paired { length pages.now ≡ length nodes.now }
    requires some { 0 < limit }
    ensures runs { IfOk result
        (λ runs. stretches_of runs.items ≡ cut_within limit (requests_of pid all pages.now nodes.now)) }
    ensures allocates { OnErr result (0 < length nodes.now) }
{
    let mut cut = Vec::new(alloc);
    let mut done = 0;
    while done < nodes.len() {
        let (_, targets) = nodes.split_at(done);
        let (_, addresses) = pages.split_at(done);
        let most = targets.len().min(limit);
        let next = first_pages(alloc, pid, all, &addresses[..most], &targets[..most])?;
        done += next.wanted.len();
        cut.push(next)?;
    }
    Ok(cut)
}
