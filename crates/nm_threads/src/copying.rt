//! Copying by a crew of workers.

ghost use Rattle.std.specs.Prelude.{◌≡◌, ◌⊎◌, ◌+◌, ◌<◌, ◌≤◌, ℕ, length, map, vec_len};
ghost use Rattle.std.specs.Thread.{IsSync, IsSend};
ghost use Rattle.nm_frames.specs.Job.{job_after_copy};
ghost use Rattle.nm_board.specs.Shown.{all_shares};
ghost use Rattle.nm_board.specs.Tickets.{InTicketOrder};
ghost use Rattle.nm_threads.specs.Named.{identity_of};
ghost use Rattle.nm_threads.specs.Hands.{IsReady, HasNoJob};
ghost use Rattle.nm_threads.specs.Others.{others_of, IsSizeOfAll};

use crate::gate::Gate;
use crate::room::Room;
use crate::worker::{Worker, work_off};
use nm_board::{Board, Hand};
use nm_frames::CopyJob;
use std::alloc::Allocator;
use std::marker::{Brand, PhantomData};
use std::sync::Wait;
use std::thread;
use std::thread::{Scope, Threads};

/// Copies the jobs, and calls `work` as well. The jobs' tickets must count up from 0 in the list's order. The caller is
/// worker 0: it starts the others, calls `work` once, copies with them, and returns when their threads have ended. If
/// there are fewer bytes to copy than the gate's `worth_from`, it copies alone. Returns every job, copied, in the order of
/// its ticket, and what `work` returned. If the host is out of memory or starts no thread, the remaining workers do all
/// the copying.
pub fn copy_while<
    R: Threads + Wait,
    A: Allocator + Copy + Send + Sync,
    G: Gate + Sync,
    T,
    W: FnOnce() -> T,
>(
    rt: &R,
    alloc: A,
    jobs: Vec<CopyJob<A>, A>,
    workers: usize,
    gate: &G,
    work: W,
) -> (Vec<CopyJob<A>, A>, T)
    requires tickets { InTicketOrder jobs.items }
    requires workers { (0 < workers) × (workers ≤ 64) }
    requires work { W.pre work }
    ensures jobs { result.0.items ≡ map job_after_copy jobs.items }
    ensures work { W.post work result.1 }
{
    let others = others(jobs.as_slice(), gate.worth_from(), workers);
    if others == 0 {
        return copy_alone(jobs, gate, work);
    }
    match Board::lay(alloc, jobs) {
        Ok((board, hand)) => {
            copy_by::<R, A, Brand, G, T, W>(rt, alloc, board, hand, others, gate, work)
        }
        Err(jobs) => copy_alone(jobs, gate, work),
    }
}

/// How many workers to use besides the caller to copy these jobs: none if there are fewer than `worth_from` bytes to
/// copy, and never more than there are jobs.
fn others<A: Allocator + Copy>(jobs: &[CopyJob<A>], worth_from: usize, workers: usize) -> usize
    requires { 0 < workers }
    ensures { (size : ℕ) × IsSizeOfAll jobs.now size
        × (result ≡ others_of size worth_from (length jobs.now) workers) }
{
    if size_of(jobs) < worth_from {
        0
    } else {
        (workers - 1).min(jobs.len())
    }
}

/// How many bytes there are to copy, or the greatest `usize` if they are more.
fn size_of<A: Allocator + Copy>(jobs: &[CopyJob<A>]) -> usize
    ensures { IsSizeOfAll jobs.now result }
{
    let mut size = 0usize;
    for job in jobs {
        size = size.saturating_add(job.size());
    }
    size
}

/// Calls `work` and copies the jobs, all on the calling thread.
fn copy_alone<A: Allocator + Copy, G: Gate, T, W: FnOnce() -> T>(
    mut jobs: Vec<CopyJob<A>, A>,
    gate: &G,
    work: W,
) -> (Vec<CopyJob<A>, A>, T)
    requires { W.pre work }
    ensures jobs { result.0.items ≡ map job_after_copy jobs.items }
    ensures work { W.post work result.1 }
{
    let answer = work();
    copy_each(jobs.as_mut_slice(), gate);
    (jobs, answer)
}

/// Copies each job in turn.
fn copy_each<A: Allocator + Copy, G: Gate>(jobs: &mut [CopyJob<A>], gate: &G)
    ensures { jobs.new ≡ map job_after_copy jobs.old }
{
    for job in jobs {
        gate.pass(0, job.ticket);
        job.copy();
    }
}

/// Copies a board's jobs with up to `others` workers besides the caller.
fn copy_by<
    R: Threads + Wait,
    A: Allocator + Copy + Send + Sync,
    B: Room + Send + Sync,
    G: Gate + Sync,
    T,
    W: FnOnce() -> T,
>(
    rt: &R,
    alloc: A,
    board: Board<A>,
    mut own: Hand<A>,
    others: usize,
    gate: &G,
    work: W,
) -> (Vec<CopyJob<A>, A>, T)
    requires room { identity_of board ≡ B.board }
    requires own { own ≡ all_shares board }
    requires others { others < 64 }
    requires work { W.pre work }
    ensures jobs { result.0.items ≡ map job_after_copy board.jobs }
    ensures work { W.post work result.1 }
{
    let workers = hire::<A, B>(alloc, &board, &mut own, others);
    let (mut own, answer, workers) = work_beside(rt, &board, workers, own, gate, work);
    gather(&board, &mut own, workers);
    match board.clear(own) {
        Ok(jobs) => (jobs, answer),
        Err(_) => unreachable!(),
    }
}

/// Makes `others` workers, each with one share of the hand, or none if there is no memory for their list.
fn hire<A: Allocator + Copy, B: Room>(
    alloc: A,
    board: &Board<A>,
    own: &mut Hand<A>,
    others: usize,
) -> Vec<Worker<A, B>, A>
    requires room { identity_of board.now ≡ B.board }
    requires ready { IsReady board.now own.old }
    requires others { others < own.old.shares }
    ensures ready { IsReady board.now own.new }
    ensures shares { own.new.shares + vec_len result ≡ own.old.shares }
    ensures all { (vec_len result ≡ others) ⊎ (vec_len result ≡ 0) }
{
    let mut workers = Vec::new(alloc);
    if workers.reserve(others).is_err() {
        return workers;
    }
    for _ in 0..others {
        let worker = new_worker(board, own);
        workers.push_reserved(worker);
    }
    workers
}

/// Makes a worker with one share of the hand.
fn new_worker<A: Allocator + Copy, B: Room>(board: &Board<A>, own: &mut Hand<A>) -> Worker<A, B>
    requires room { identity_of board.now ≡ B.board }
    requires ready { IsReady board.now own.old }
    requires shares { 1 < own.old.shares }
    ensures ready { IsReady board.now own.new }
    ensures shares { own.new.shares + 1 ≡ own.old.shares }
{
    Worker {
        hand: own.split(board, 1),
        room: PhantomData,
    }
}

/// Lends each worker to a thread of its own, calls `work`, works as worker 0, and waits for the threads.
fn work_beside<
    'x,
    R: Threads + Wait,
    A: Allocator + Copy + Send + Sync,
    B: Room + Send + Sync,
    G: Gate + Sync,
    T,
    W: FnOnce() -> T,
>(
    rt: &R,
    board: &'x Board<A>,
    mut workers: Vec<Worker<A, B>, A>,
    own: Hand<A>,
    gate: &'x G,
    work: W,
) -> (Hand<A>, T, Vec<Worker<A, B>, A>)
    requires room { identity_of board.now ≡ B.board }
    requires ready { IsReady board.now own }
    requires work { W.pre work }
    ensures over { HasNoJob board.now own.shares result.0 }
    ensures work { W.post work result.1 }
    ensures workers { vec_len result.2 ≡ vec_len workers }
{
    let all = workers.as_mut_slice();
    let (own, answer) = thread::scope(
        thread::scope_env(),
        rt,
        |scope| -> (Hand<A>, T)
            requires { (identity_of board.now ≡ B.board) × IsReady board.now own × W.pre work
                × IsSync G.row × IsSync B.row × IsSend B.row × IsSync A.row × IsSend A.row }
            ensures { HasNoJob board.entry.now own.shares result.0 × W.post work result.1 }
        {
            start_each(scope, all, board, gate);
            let answer = work();
            let mut own = own;
            work_off(board, &mut own, gate, 0);
            (own, answer)
        },
    );
    (own, answer, workers)
}

/// Starts a thread for each worker. If the host does not start one, the others do its work.
fn start_each<'s, E, A: Allocator + Copy + Send + Sync, B: Room + Send + Sync, G: Gate + Sync>(
    scope: &Scope<'s, E>,
    workers: &'s mut [Worker<A, B>],
    board: &'s Board<A>,
    gate: &'s G,
)
    requires { identity_of board.now ≡ B.board }
{
    for (index, worker) in workers.iter_mut().enumerate() {
        let number = index + 1;
        let started = gate.builder(number).spawn_scoped(
            scope,
            move ||
                requires { identity_of board.now ≡ B.board }
            { worker.run(board, gate, number) },
        );
        drop(started);
    }
}

/// Joins all workers' hands into one.
fn gather<A: Allocator + Copy, B: Room>(
    board: &Board<A>,
    own: &mut Hand<A>,
    mut workers: Vec<Worker<A, B>, A>,
)
    requires room { identity_of board.now ≡ B.board }
    requires over { HasNoJob board.now own.old.shares own.old }
    ensures { HasNoJob board.now (own.old.shares + vec_len workers) own.new }
{
    while let Some(worker) = workers.pop() {
        let Worker { hand, .. } = worker;
        own.join(board, hand);
    }
}
