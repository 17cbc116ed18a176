//! The runs of pages that each go to a node of their own.

ghost use Rattle.std.specs.Prelude.{◌≡◌, ◌<◌, ◌≤◌, IfOk, OnErr, length, map};
ghost use Rattle.std.specs.List.{AllByRecursion};
ghost use Rattle.nm_types.specs.Layout.{node_count};
ghost use Rattle.nm_types.specs.declared.request.Wanted.TheVariants.{At};
ghost use Rattle.nm_model.specs.definitions.Cut.{IsFirst, cut_within};
ghost use Rattle.nm_runs.specs.Stretches.{stretches_of};
ghost use Rattle.nm_passes.specs.definitions.Placement.{each_to};
ghost use Rattle.nm_passes.specs.views.Runs.{Batches};
ghost use Rattle.nm_passes.specs.views.Turns.{same_node};

use crate::call_error::CallError;
use crate::passes::make_runs;
use nm_engine::{Machine, RunCrew};
use nm_policy::Destination;
use nm_runs::{Run, Wanted};
use nm_types::Pid;
use std::alloc::{AllocError, Allocator};

/// How many pages at the front go to the same node as the first.
fn same_node(sent: &[Destination]) -> usize
    requires { 0 < length sent.now }
    ensures front { result ≡ same_node sent.now }
    ensures some { 0 < result }
    ensures within { result ≤ length sent.now }
{
    let first = sent[0].to;
    sent.iter().take_while(|page| page.to == first).count()
}

/// What is asked of a page at the page number at which a process sees it.
fn wanted_for(pid: Pid, all: bool, page: &Destination) -> Wanted
    ensures { result ≡ At pid page.now.vpn all }
{
    Wanted::At {
        pid,
        vpn: page.vpn,
        all,
    }
}

/// The same of several pages.
fn all_asked<A: Allocator + Copy>(
    alloc: A,
    pid: Pid,
    all: bool,
    sent: &[Destination],
) -> Result<Vec<Wanted, A>, AllocError>
    ensures { IfOk result (λ wanted. wanted.items ≡ map (λ page. At pid page.vpn all) sent.now) }
{
    sent.iter()
        .map(|page| wanted_for(pid, all, page))
        .collect(alloc)
}

/// The run at the front: the longest stretch of pages for one node.
fn first_run<A: Allocator + Copy>(
    alloc: A,
    pid: Pid,
    all: bool,
    sent: &[Destination],
) -> Result<Run<A>, AllocError>
    requires { 0 < length sent.now }

    // On success
    ensures some { IfOk result (λ run. 0 < length run.wanted.items) }
    ensures within { IfOk result (λ run. length run.wanted.items ≤ length sent.now) }
    ensures first { IfOk result
        (λ run. IsFirst (each_to pid all sent.now) run.target run.wanted.items) }
{
    let count = same_node(sent);
    Ok(Run {
        target: sent[0].to,
        wanted: all_asked(alloc, pid, all, &sent[..count])?,
    })
}

/// The runs of pages of a process that each go to a node of their own, under a limit of at least 1: the longest
/// stretches of pages for one node, each cut from its front into runs of at most `limit` pages. An error means that the
/// host is out of memory; without pages it needs none.
fn cut_sent<A: Allocator + Copy>(
    alloc: A,
    pid: Pid,
    all: bool,
    sent: &[Destination],
    limit: usize,
) -> Result<Vec<Run<A>, A>, AllocError>
    requires { 0 < limit }
    ensures runs { IfOk result
        (λ runs. stretches_of runs.items ≡ cut_within limit (each_to pid all sent.now)) }
    ensures allocates { OnErr result (0 < length sent.now) }
{
    let mut runs = Vec::new(alloc);
    let mut at = 0;
    while at < sent.len() {
        let (_, rest) = sent.split_at(at);
        let room = rest.len().min(limit);
        let run = first_run(alloc, pid, all, &rest[..room])?;
        at += run.wanted.len();
        runs.push(run)?;
    }
    Ok(runs)
}

/// Moves pages of a process, each to a node of its own, in runs of at most `limit` pages, and returns the status of
/// each page, in order. An error means that the host is out of memory; without pages it needs none.
pub(crate) fn make_turns<A: Allocator + Copy + Send + Sync, C: RunCrew<A>>(
    crew: &C,
    alloc: A,
    machine: &mut Machine<A>,
    pid: Pid,
    all: bool,
    sent: &[Destination],
    limit: usize,
) -> Result<Vec<i32, A>, CallError>
    requires some { 0 < limit }
    requires nodes { AllByRecursion (λ page. page.to < node_count (machine.old.layout)) sent.now }
    ensures made { Batches result machine.old machine.new limit (each_to pid all sent.now)
        (λ statuses ran. statuses.items ≡ ran.statuses) }
    ensures allocates { OnErr result (0 < length sent.now) }
{
    let runs = cut_sent(alloc, pid, all, sent, limit)?;
    make_runs(crew, alloc, machine, runs.as_slice(), sent.len())
}
