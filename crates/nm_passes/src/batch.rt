//! A batch of pages to move: whether they may go to their nodes, and its runs, one after another, with the accesses
//! during them.

#![tactic(auto, using(crate::proofs::Trails::first_state))]

ghost use Rattle.std.specs.Prelude.{◌≡◌, ◌+◌, ◌<◌, ◌≤◌, [], All, EachIndex, IfOk, OnErr, OnOk, length, slice_index, vec_capacity, map};
ghost use Rattle.std.specs.List.{sum_by};
ghost use Rattle.nm_types.specs.Layout.{node_count};
ghost use Rattle.nm_runs.specs.Stretches.{stretches_of};
ghost use Rattle.nm_model.specs.definitions.Cut.{requests_of, run_count};
ghost use Rattle.nm_runs.specs.Targets.{first_refusal, Checks};
ghost use Rattle.nm_model.specs.definitions.Run.{HasOneAll};
ghost use Rattle.nm_passes.specs.definitions.Moves.{Moves, MovesRuns};
ghost use Rattle.nm_requests.specs.Views.{shown_during};
ghost use Rattle.std.specs.Map.{keys_of};
ghost use Rattle.nm_passes.specs.definitions.Batch.{answers_in_order, left_shown, AreByRun};
ghost use Rattle.nm_model.specs.views.Asked.{access_shown};
ghost use Rattle.nm_pool.specs.views.Accesses.{answer_shown};

use crate::call_error::CallError;
use crate::moved::Moved;
use crate::permission::Permit;
use nm_engine::{AccessAnswer, Machine, RunCrew};
use nm_requests::{Batch, InFlight, MoveRequest};
use nm_runs::{Run, check_batch, cut_pages};
use nm_types::{Access, Errno, NodeMask};
use std::alloc::{AllocError, Allocator};
use std::vec;

/// Whether the pages of a process that may use the allowed nodes may go to these nodes. If not, returns the refusal of
/// the first entry that is refused: ENODEV if its node does not exist or is offline, or else EACCES if it is not
/// allowed.
pub fn check_targets<A: Allocator + Copy + Send + Sync>(
    machine: &Machine<A>,
    allowed: NodeMask,
    nodes: &[u32],
) -> Result<(), Errno>
    ensures nodes { OnOk result
        (EachIndex nodes.now (λ k. slice_index nodes.now k < node_count (machine.now.layout))) }
    ensures exact { Checks result
        (first_refusal (node_count (machine.now.layout)) machine.now.online allowed nodes.now) }
{
    let count = machine.geometry().node_count();
    check_batch(count, machine.online(), allowed, nodes)
}

/// How many runs a batch of pages for these nodes has under a limit of at least 1 entry in each run. Does not allocate.
pub fn run_count(nodes: &[u32], limit: usize) -> usize
    requires { 0 < limit }
    ensures { result ≡ run_count limit nodes.now }
{
    nm_runs::run_count(nodes, limit)
}

/// Makes runs one after another, with a crew that copies their pages, and puts the statuses into a list that has room
/// for them. Each access is made during the run with its number. Allocates before the first run starts, except for what
/// a run itself needs. An error means that the host is out of memory, and says after how many runs; without runs and
/// accesses there is no error.
pub fn move_runs<A: Allocator + Copy + Send + Sync, C: RunCrew<A>>(
    crew: &C,
    alloc: A,
    machine: &mut Machine<A>,
    runs: &[Run<A>],
    during: &[InFlight<A>],
    mut statuses: Vec<i32, A>,
) -> Result<Moved<A>, CallError>
    requires targets { All (λ run. run.target < node_count machine.old.layout) runs.now }
    requires alike { All (λ run. HasOneAll run.wanted.items) runs.now }
    requires empty { statuses.items ≡ [] }
    requires room { sum_by (λ run. length run.wanted.items) runs.now ≤ vec_capacity statuses }
    ensures moves { MovesRuns result machine.old machine.new (stretches_of runs.now)
        (shown_during during.now) }
    ensures allocates { OnErr result (0 < length runs.now + length during.now) }
{
    let accesses = by_run(alloc, during, runs.len())?;
    let mut answers_left = Vec::with_capacity(alloc, runs.len())?;
    let answers = Vec::with_capacity(alloc, during.len())?;
    let mut failed = 0;
    for (k, run) in runs.iter().enumerate() {
        let Ok(landed) = machine.run_flight(crew, run, accesses[k].as_slice()) else {
            return Err(CallError::HostMemory {
                runs: k,
                policy_set: false,
            });
        };
        statuses
            .extend_from_slice(landed.statuses.as_slice())
            .unwrap();
        failed += landed.failed;
        answers_left.push_reserved(landed.answers.into_iter());
    }
    Ok(Moved {
        failed,
        statuses,
        answers: in_order(during, answers_left, answers),
    })
}

/// Moves the pages of a request, whose batch goes to nodes of the machine, run after run, with at most `limit` requests
/// in each run. The runs and lists are made before the first run starts, so that memory for them cannot be refused
/// halfway. An error means that the host is out of memory, and says after how many runs; a batch of no pages and no
/// accesses needs none.
pub fn move_batch<A: Allocator + Copy + Send + Sync, C: RunCrew<A>>(
    crew: &C,
    alloc: A,
    machine: &mut Machine<A>,
    permit: &Permit,
    request: &MoveRequest<A>,
    limit: usize,
) -> Result<Moved<A>, CallError>
    requires some { 0 < limit }
    requires nodes { EachIndex request.now.batch.nodes.items
        (λ k. slice_index request.now.batch.nodes.items k < node_count machine.old.layout) }
    ensures moves { Moves result machine.old machine.new limit
        (requests_of permit.now.pid permit.now.all request.now.batch.pages.items request.now.batch.nodes.items)
        (shown_during request.now.during.items) }
    ensures allocates { OnErr result
        (0 < length request.now.batch.pages.items + length request.now.during.items) }
{
    let MoveRequest { batch, during, .. } = request;
    let Batch { pages, nodes } = batch;
    let pages = pages.as_slice();
    let nodes = nodes.as_slice();
    let during = during.as_slice();
    if pages.is_empty() && during.is_empty() {
        return Ok(Moved {
            failed: 0,
            statuses: Vec::new(alloc),
            answers: Vec::new(alloc),
        });
    }
    let runs = cut_pages(alloc, permit.pid, permit.all, pages, nodes, limit)?;
    let statuses = Vec::with_capacity(alloc, pages.len())?;
    let runs = runs.as_slice();
    move_runs(crew, alloc, machine, runs, during, statuses)
}

/// The accesses of each of the first `count` runs, each run's in order. An error means that the host is out of memory;
/// without runs it needs none.
pub(crate) fn by_run<'d, A: Allocator + Copy + Send + Sync>(
    alloc: A,
    during: &'d [InFlight<A>],
    count: usize,
) -> Result<Vec<Vec<&'d Access<A>, A>, A>, AllocError>
    ensures lists { IfOk result
        (λ lists. AreByRun (map (λ list. map (λ a. access_shown a.now) list.items) lists.items) count
        (shown_during during.now)) }
    ensures allocates { OnErr result (0 < count) }
{
    let mut lists = Vec::with_capacity(alloc, count)?;
    for _ in 0..count {
        lists.push(Vec::new(alloc))?;
    }
    for asked in during {
        if let Some(list) = lists.get_mut(asked.run) {
            list.push(&asked.access)?;
        }
    }
    Ok(lists)
}

/// Puts the answers to accesses, which come in the order of the runs, into a list that has room for them, in the order
/// of the accesses.
pub(crate) fn in_order<A: Allocator + Copy + Send + Sync>(
    during: &[InFlight<A>],
    mut answers_left: Vec<vec::IntoIter<AccessAnswer<A>, A>, A>,
    mut answers: Vec<AccessAnswer<A>, A>,
) -> Vec<AccessAnswer<A>, A>
    requires empty { answers.items ≡ [] }
    requires room { length during.now ≤ vec_capacity answers }
    ensures { map answer_shown result.items
        ≡ answers_in_order (keys_of (shown_during during.now)) (map left_shown answers_left.items) }
{
    for asked in during {
        if let Some(left) = answers_left.get_mut(asked.run) {
            if let Some(answer) = left.next() {
                answers.push_reserved(answer);
            }
        }
    }
    answers
}
