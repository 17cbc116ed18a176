ghost use Rattle.std.specs.Prelude.{◌<◌, ◌≤◌};

use crate::machine::three_nodes;
use crate::meeting::{Meeting, NONE, far_run};
use crate::work::{are_jobs, jobs};
use nm_crew::Crew;
use nm_refusing_alloc::Refusing;
use nm_runs::Class;
use nm_threads::{Gate, Hired, OpenGate, classify, copy_while};
use nm_types::Geometry;
use std::alloc::{AllocError, Global};
use std::sync::Wait;
use std::sync::atomic::{AtomicBool, AtomicU64, Ordering};
use std::test::Fail;
use std::thread::{Threads, yield_now};

/// Whether this many jobs come back copied, with the answer of the work beside them, while the allocation with this
/// number is refused; 0 refuses none.
fn copies<G: Gate + Sync>(
    rt: &(impl Threads + Wait + Sync),
    heap: &Refusing<Global>,
    count: u8,
    workers: usize,
    gate: &G,
    number: u64,
) -> Result<bool, AllocError>
    requires { (0 < workers) × (workers ≤ 64) }
{
    heap.refuse(0);
    let jobs = jobs(heap, count)?;
    heap.refuse(number);
    let (jobs, answer) = copy_while(rt, heap, jobs, workers, gate, || 7);
    Ok(answer == 7 && are_jobs(jobs.as_slice(), count as usize, true))
}

/// Whether these workers meet, one bit each, and no other copies one of four jobs, which all come back copied. The host
/// refuses the thread of worker `refused`.
fn meet(
    rt: &(impl Threads + Wait + Sync),
    heap: &Refusing<Global>,
    workers: usize,
    refused: usize,
    all: u64,
) -> Result<bool, AllocError>
    requires { (0 < workers) × (workers ≤ 64) }
{
    let gate = Meeting::of(all, refused);
    Ok(copies(rt, heap, 4, workers, &gate, 0)? && gate.came() == all)
}

/// Two workers meet at the gate: code that copies on one thread never gets both there. Four workers meet: code that
/// starts only some of them never gets all there. Workers 0 and 2 meet if the host refuses the thread of worker 1: code
/// that starts no thread after a refusal never gets both there.
#[test]
fn workers_meet(rt: HostRuntime) -> Result<(), Fail> {
    let heap = Refusing::new(rt.alloc());
    assert!(rt; meet(&rt, &heap, 2, NONE, 0b11)?);
    assert!(rt; meet(&rt, &heap, 4, NONE, 0b1111)?);
    assert!(rt; meet(&rt, &heap, 3, 1, 0b101)?);
    Ok(())
}

/// If threads are not started, each in turn and then all, the others copy the jobs.
#[test]
fn refused_threads(rt: HostRuntime) -> Result<(), Fail> {
    let heap = Refusing::new(rt.alloc());
    for refused in [1, 2, 3, 0] {
        let gate = Meeting::of(0, refused);
        assert!(rt; copies(&rt, &heap, 8, 4, &gate, 0)?, "without {refused}");
        let right = if refused == 0 {
            gate.came() == 1
        } else {
            gate.came() & (1 << refused) == 0
        };
        assert!(rt; right, "without {refused}");
    }
    Ok(())
}

/// Holds worker 1's first call until another has called so often, and the other's first call until worker 1 has called,
/// each for at most 2^24 turns.
#[derive(Drop)]
struct Turns {
    /// How often worker 1 and the other called.
    one: AtomicU64,
    other: AtomicU64,
    missed: AtomicBool,
    /// The number of the other, and how often it is to call.
    number: usize,
    least: u64,
}

impl Turns {
    /// Makes the turns of worker 1 and another.
    fn of(number: usize, least: u64) -> Turns {
        Turns {
            one: AtomicU64::new(0),
            other: AtomicU64::new(0),
            missed: AtomicBool::new(false),
            number,
            least,
        }
    }

    /// Waits until so many calls were counted.
    fn hold(&self, calls: &AtomicU64, least: u64) {
        for _ in 0..1u64 << 24 {
            if calls.load(Ordering::SeqCst) >= least {
                return;
            }
            yield_now();
        }
        self.missed.store(true, Ordering::SeqCst);
    }

    /// How often worker 1 and the other called, or 0 twice if one of them waited in vain.
    fn calls(&self) -> (u64, u64) {
        if self.missed.load(Ordering::SeqCst) {
            (0, 0)
        } else {
            (
                self.one.load(Ordering::SeqCst),
                self.other.load(Ordering::SeqCst),
            )
        }
    }
}

impl Gate for Turns {
    fn pass(&self, worker: usize, _ticket: u64) {
        if worker == 1 {
            if self.one.fetch_add(1, Ordering::SeqCst) == 0 {
                self.hold(&self.other, self.least);
            }
        } else if worker == self.number && self.other.fetch_add(1, Ordering::SeqCst) == 0 {
            self.hold(&self.one, 1);
        }
    }
}

/// One worker copies three of four jobs while the other holds one: with fixed shares that cannot happen.
#[test]
fn shares_are_not_fixed(rt: HostRuntime) -> Result<(), Fail> {
    let heap = Refusing::new(rt.alloc());
    let gate = Turns::of(0, 3);
    assert!(rt; copies(&rt, &heap, 4, 2, &gate, 0)? && gate.calls() == (1, 3));
    Ok(())
}

/// `work` and worker 1 wait for each other: code that runs `work` before starting or after joining the threads never
/// lets them meet.
#[test]
fn work_runs_beside_the_workers(rt: HostRuntime) -> Result<(), Fail> {
    let gate = Turns::of(NONE, 1);
    let jobs = jobs(rt.alloc(), 2)?;
    let (jobs, answer) = copy_while(&rt, rt.alloc(), jobs, 2, &gate, || {
        gate.pass(NONE, 0);
        7
    });
    let (one, work) = gate.calls();
    assert!(rt; one > 0 && work == 1 && answer == 7 && are_jobs(jobs.as_slice(), 2, true));
    Ok(())
}

/// Any number of workers copies any number of jobs.
#[test]
fn all_jobs_are_copied(rt: HostRuntime) -> Result<(), Fail> {
    let heap = Refusing::new(rt.alloc());
    let gate = Meeting::of(0, NONE);
    for count in [0, 3, 100] {
        for workers in [1, 2, 3, 64] {
            assert!(rt;
                copies(&rt, &heap, count, workers, &gate, 0)?,
                "{count} jobs, {workers} workers"
            );
        }
    }
    Ok(())
}

/// A crew of threads copies each job and calls `work`.
#[test]
fn hired_workers_copy(rt: HostRuntime) -> Result<(), Fail> {
    let crew = Hired::new(&rt, 2);
    let (jobs, answer) = crew.copy_while(jobs(rt.alloc(), 3)?, || 7);
    assert!(rt; answer == 7 && are_jobs(jobs.as_slice(), 3, true));
    Ok(())
}

/// An open gate lets a second worker start only from 8 MiB on, so two jobs are copied without allocating.
#[test]
fn no_memory_for_two_jobs(rt: HostRuntime) -> Result<(), Fail> {
    let heap = Refusing::new(rt.alloc());
    let gate = Meeting::of(0, NONE);
    assert!(rt; [OpenGate.worth_from(), gate.worth_from()] == [8_388_608, 0]);
    assert!(rt; copies(&rt, &heap, 2, 2, &OpenGate, 1)? && heap.asked_since(1) == 0);
    Ok(())
}

/// Whether three jobs are copied while the host refuses one allocation, and by the caller alone if that allocation was
/// reached; and whether it was.
fn copied_without(
    rt: &(impl Threads + Wait + Sync),
    heap: &Refusing<Global>,
    number: u64,
) -> Result<(bool, bool), AllocError> {
    let gate = Meeting::of(0, NONE);
    let copied = copies(rt, heap, 3, 2, &gate, number)?;
    let met = heap.asked_since(number) >= number;
    Ok((copied && (!met || gate.came() == 1), met))
}

/// If memory is refused, each allocation in turn until none is left, all jobs come back copied: first the board's
/// memory is refused, then that of the list of hands. The caller copies alone.
#[test]
fn refused_memory(rt: HostRuntime) -> Result<(), Fail> {
    let heap = Refusing::new(rt.alloc());
    for number in 1..6u64 {
        let copied = copied_without(&rt, &heap, number)?;
        assert!(rt; copied == (true, number < 5), "without allocation {number}");
    }
    Ok(())
}

/// Has two workers look at a run of 10,001 requests, which is long enough for both, while the allocation with this
/// number is refused. Returns whether they found its classes, or no memory, and whether the allocation was refused.
fn looked_without<'h>(
    rt: &(impl Threads + Wait + Sync),
    heap: &'h Refusing<Global>,
    geometry: &Geometry<&'h Refusing<Global>>,
    number: u64,
) -> Result<(bool, bool), AllocError> {
    heap.refuse(0);
    let run = far_run(heap, 10_000)?;
    let view = Meeting::of(0, NONE);
    heap.refuse(number);
    let found = classify(rt, 2, heap, geometry, &view, &run);
    let met = heap.asked_since(number) >= number;
    let right = match found {
        Ok(classes) => {
            classes.len() == 10_001 && classes.iter().all(|class| *class == Class::Status(-14))
        }
        Err(_) => met,
    };
    Ok((right, met))
}

/// If memory is refused, each allocation in turn until none is left, either the classes are right or there is no
/// memory. With memory the classes are right.
#[test]
fn refused_memory_for_classes(rt: HostRuntime) -> Result<(), Fail> {
    let heap = Refusing::new(rt.alloc());
    let geometry = three_nodes(&heap)?;
    let mut refused = 0u64;
    for number in 1..100u64 {
        let (right, met) = looked_without(&rt, &heap, &geometry, number)?;
        assert!(rt; right, "without allocation {number}");
        if !met {
            break;
        }
        refused = number;
    }
    assert!(rt; refused > 3, "{refused} refusals");
    Ok(())
}
