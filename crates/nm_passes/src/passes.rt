//! Batches and passes: all requests go to one node after another, until they have found a free frame.

#![tactic(auto, using(crate::proofs::Trails::first_state))]

ghost use Rattle.std.specs.Prelude.{◌≡◌, ◌^◌, ◌<◌, ◌≤◌, ℕ, false, true, All, Any, [], IfOk, OnErr, IfNone, IfSome, Some, length, vec_capacity};
ghost use Rattle.std.specs.List.{AllByRecursion, sum_by};
ghost use Rattle.std.specs.Ordering.{int_eq};
ghost use Rattle.nm_types.specs.declared.errno.Errno.TheVariants.{Enomem};
ghost use Rattle.nm_types.specs.Layout.{node_count};
ghost use Rattle.nm_types.specs.State.{free_list};
ghost use Rattle.nm_runs.specs.Stretches.{stretches_of};
ghost use Rattle.nm_model.specs.definitions.Cut.{all_to};
ghost use Rattle.nm_model.specs.definitions.Cut.{cut_within};
ghost use Rattle.nm_model.specs.definitions.Status.{code};
ghost use Rattle.nm_model.specs.definitions.Run.{HasOneAll};
ghost use Rattle.nm_model.specs.definitions.Touch.{has_free};
ghost use Rattle.nm_passes.specs.definitions.Passes.{passes, short_of_frames};
ghost use Rattle.nm_passes.specs.laws.Full.{StandsOn, AreStanding, WouldMove};
ghost use Rattle.nm_passes.specs.views.Runs.{Batches, RunsGive, MakesRuns, later, IsCounted, IsLeft};

use crate::batch::move_runs;
use crate::call_error::CallError;
use nm_engine::{Machine, RunCrew};
use nm_requests::InFlight;
use nm_runs::{Run, Wanted};
use nm_types::{Errno, NodeId, NodeMask, PageView, Seen};
use std::alloc::{AllocError, Allocator};

/// Makes runs, one after another, and returns the status of each request, in order. `count` is how many requests they
/// have. Allocates before the first run starts, except for what a run itself needs. An error means that the host is out
/// of memory; without runs it needs none.
pub(crate) fn make_runs<A: Allocator + Copy + Send + Sync, C: RunCrew<A>>(
    crew: &C,
    alloc: A,
    machine: &mut Machine<A>,
    runs: &[Run<A>],
    count: usize,
) -> Result<Vec<i32, A>, CallError>
    requires targets { All (λ run. run.target < node_count machine.old.layout) runs.now }
    requires alike { All (λ run. HasOneAll run.wanted.items) runs.now }
    requires count { sum_by (λ run. length run.wanted.items) runs.now ≡ count }
    ensures made { RunsGive result machine.old machine.new (stretches_of runs.now)
        (λ statuses ran. statuses.items ≡ ran.statuses) }
    ensures allocates { OnErr result (0 < length runs.now) }
{
    let statuses = Vec::with_capacity(alloc, count)?;
    let none: [InFlight<A>; 0] = [];
    let moved = move_runs(crew, alloc, machine, runs, none.as_slice(), statuses)?;
    Ok(moved.statuses)
}

/// The result of a pass.
#[derive(Drop)]
struct Pass<A: Allocator + Copy> {
    /// How many runs it had.
    runs: usize,
    /// The requests that found no free frame.
    left: Vec<Wanted, A>,
}

/// Whether a status is that of a page that found no free frame.
fn is_short(status: &i32) -> bool
    ensures { result ≡ int_eq status.now (code Enomem) }
{
    *status == -Errno::Enomem.number()
}

/// Appends the requests that found no free frame to an empty list that has room for them.
fn put_without_frame<A: Allocator + Copy>(
    wanted: &[Wanted],
    statuses: &[i32],
    left: &mut Vec<Wanted, A>,
)
    requires paired { length wanted.now ≡ length statuses.now }
    requires empty { left.old.items ≡ [] }
    requires room { length wanted.now ≤ vec_capacity left.old }
    ensures { left.new.items ≡ short_of_frames wanted.now statuses.now }
{
    for (k, page) in wanted.iter().enumerate() {
        if is_short(&statuses[k]) {
            left.push_reserved(*page);
        }
    }
}

/// The runs of a pass, whose requests all go to one node, under a limit of at least 1: as `cut` of nm_runs cuts them,
/// without a list of requests that each name the node. An error means that the host is out of memory; no requests take
/// none.
fn runs_to<A: Allocator + Copy>(
    alloc: A,
    target: NodeId,
    wanted: &[Wanted],
    limit: usize,
) -> Result<Vec<Run<A>, A>, AllocError>
    requires { 0 < limit }
    ensures runs { IfOk result
        (λ runs. stretches_of runs.items ≡ cut_within limit (all_to target wanted.now)) }
    ensures allocates { OnErr result (0 < length wanted.now) }
{
    let mut made = Vec::new(alloc);
    for piece in wanted.chunks(limit) {
        let wanted = Vec::from_slice(alloc, piece)?;
        made.push(Run { target, wanted })?;
    }
    Ok(made)
}

/// Makes a pass: all requests go to one node. Allocates before its first run starts, except for what a run itself
/// needs.
fn make_pass<A: Allocator + Copy + Send + Sync, C: RunCrew<A>>(
    crew: &C,
    alloc: A,
    machine: &mut Machine<A>,
    node: NodeId,
    wanted: &[Wanted],
    limit: usize,
) -> Result<Pass<A>, CallError>
    requires some { 0 < limit }
    requires node { node < node_count (machine.old.layout) }
    requires alike { HasOneAll wanted.now }
    ensures { Batches result machine.old machine.new limit (all_to node wanted.now)
        (λ pass ran. (pass.runs ≡ length (cut_within limit (all_to node wanted.now)))
        × (pass.left.items ≡ short_of_frames wanted.now ran.statuses)) }
{
    let runs = runs_to(alloc, node, wanted, limit)?;
    let mut left = Vec::with_capacity(alloc, wanted.len())?;
    let statuses = make_runs(crew, alloc, machine, runs.as_slice(), wanted.len())?;
    put_without_frame(wanted, statuses.as_slice(), &mut left);
    Ok(Pass {
        runs: runs.len(),
        left,
    })
}

/// The requests that are left.
#[derive(Drop)]
pub(crate) struct Left<A: Allocator + Copy> {
    /// What they ask for.
    pub(crate) wanted: Vec<Wanted, A>,
    /// Whether a pass has found no free frame for any of them.
    pub(crate) tried: bool,
    /// The nodes that their pages are on, if they were looked up since the last pass.
    pub(crate) standing: Option<NodeMask>,
}

/// The node that the requested page is on, if it has a frame.
fn place_of<A: Allocator + Copy + Send + Sync>(
    machine: &Machine<A>,
    wanted: &Wanted,
) -> Option<NodeId>
    ensures there { (node : ℕ) → StandsOn machine.now node wanted.now → result ≡ Some node }
    ensures node { IfSome result (λ node. StandsOn machine.now node wanted.now) }
{
    match wanted {
        Wanted::At { pid, vpn, .. } => match machine.spaces().seen(*pid, *vpn) {
            Seen::At { frame, .. } => Some(machine.geometry().node_of(frame)),
            Seen::NoArea => None,
            Seen::Absent => None,
            Seen::Zero => None,
        },
        Wanted::Whole(page) => match machine.spaces().placed(*page) {
            Some(place) => Some(machine.geometry().node_of(place.0)),
            None => None,
        },
    }
}

/// The nodes below 64 that these pages are on.
fn standing<A: Allocator + Copy + Send + Sync>(machine: &Machine<A>, wanted: &[Wanted]) -> NodeMask
    ensures { AreStanding machine.now result wanted.now }
{
    let mut nodes = NodeMask::new();
    for page in wanted {
        if let Some(node) = place_of(machine, page) {
            if node.index() < 64 {
                nodes.insert(node);
            }
        }
    }
    nodes
}

/// The nodes that the pages left are on, if a pass over a node would find a free frame for none of them: the node has
/// no free frame, and none of these pages is on it. None if no pass has been made, the node has a free frame, or one of
/// these pages is on it.
fn lost_on<A: Allocator + Copy + Send + Sync>(
    machine: &Machine<A>,
    node: NodeId,
    left: &Left<A>,
) -> Option<NodeMask>
    requires node { node < node_count (machine.now.layout) }
    requires left { IsLeft machine.now left.now }

    // If there are such nodes
    ensures full { IfSome result (λ nodes. free_list machine.now node ≡ []) }
    ensures lost { IfSome result
        (λ nodes. AllByRecursion (WouldMove machine.now node) left.now.wanted.items) }
    ensures standing { IfSome result (λ nodes. AreStanding machine.now nodes left.now.wanted.items) }
    ensures none { IfNone result
        (left.now.tried ≡ true →
        has_free machine.now.free node ≡ false →
        Any (StandsOn machine.now node) left.now.wanted.items) }
{
    if !left.tried || machine.has_free(node) {
        return None;
    }
    prove!(machine.geometry().node_count() <= 64);
    let nodes = match left.standing {
        Some(nodes) => nodes,
        None => standing(machine, left.wanted.as_slice()),
    };
    if nodes.contains(node) {
        return None;
    }
    Some(nodes)
}

/// The result of the next pass.
#[derive(Drop)]
struct Next<A: Allocator + Copy> {
    /// How many runs it had.
    runs: usize,
    /// The requests that are left.
    left: Left<A>,
}

/// Makes the next pass. If the node has no free frame, nothing that an earlier pass left is looked at: all of it fails.
fn next_pass<A: Allocator + Copy + Send + Sync, C: RunCrew<A>>(
    crew: &C,
    alloc: A,
    machine: &mut Machine<A>,
    node: NodeId,
    left: Left<A>,
    limit: usize,
) -> Result<Next<A>, CallError>
    requires some { 0 < limit }
    requires node { node < node_count (machine.old.layout) }
    requires alike { HasOneAll left.wanted.items }
    requires pages { 0 < length left.wanted.items }
    requires left { IsLeft machine.old left }

    // In any case
    ensures runs { Batches result machine.old machine.new limit (all_to node left.wanted.items)
        (λ next ran. (next.runs ≡ length (cut_within limit (all_to node left.wanted.items)))
        × (next.left.wanted.items ≡ short_of_frames left.wanted.items ran.statuses)) }
    // On success
    ensures left { IfOk result (λ next. IsLeft machine.new next.left) }
    ensures tried { IfOk result (λ next. next.left.tried ≡ true) }
{
    if let Some(nodes) = lost_on(machine, node, &left) {
        let count = left.wanted.len();
        machine.count_failures(count);
        return Ok(Next {
            runs: count.div_ceil(limit),
            left: Left {
                wanted: left.wanted,
                tried: true,
                standing: Some(nodes),
            },
        });
    }
    let wanted = left.wanted.as_slice();
    let pass = make_pass(crew, alloc, machine, node, wanted, limit)?;
    Ok(Next {
        runs: pass.runs,
        left: Left {
            wanted: pass.left,
            tried: true,
            standing: None,
        },
    })
}

/// The same error after `made` more runs, with the policy set or not. A refusal is unchanged.
pub(crate) fn later(error: CallError, made: usize, policy_set: bool) -> CallError
    requires { IsCounted error made }
    ensures { result ≡ later error made policy_set }
{
    match error {
        CallError::Refused(errno) => CallError::Refused(errno),
        CallError::HostMemory { runs, .. } => CallError::HostMemory {
            runs: made + runs,
            policy_set,
        },
    }
}

/// Makes a pass over each node in turn, until every request has found a free frame or failed for another reason.
/// `policy_set` says whether the call has set a policy, and is passed on in an error.
pub fn make_passes<A: Allocator + Copy + Send + Sync, C: RunCrew<A>>(
    crew: &C,
    alloc: A,
    machine: &mut Machine<A>,
    nodes: &[NodeId],
    wanted: Vec<Wanted, A>,
    policy_set: bool,
    limit: usize,
) -> Result<(), CallError>
    requires some { 0 < limit }
    requires nodes { All (λ n. n < node_count (machine.old.layout)) nodes.now }
    requires passes { length nodes.now ≤ 64 }
    requires alike { HasOneAll wanted.items }
    requires pages { length wanted.items ≤ 2 ^ 52 }
    ensures runs { MakesRuns policy_set result machine.old machine.new
        (passes limit machine.old nodes.now wanted.items) }
    ensures allocates { OnErr result (0 < length wanted.items) }
{
    let mut left = Left {
        wanted,
        tried: false,
        standing: None,
    };
    let mut made = 0;
    for node in nodes {
        if left.wanted.is_empty() {
            return Ok(());
        }
        let next = match next_pass(crew, alloc, machine, *node, left, limit) {
            Ok(next) => next,
            Err(error) => return Err(later(error, made, policy_set)),
        };
        made += next.runs;
        left = next.left;
    }
    Ok(())
}
