//! Gates that see which workers of a machine call them, and how often.

ghost use Rattle.std.specs.Prelude.{◌<◌, ◌≤◌};

use crate::crews::Gated;
use crate::texts::{TWO_NODES, trace_text};
use crate::traces::Heap;
use nm_frames::CopyJob;
use nm_refusing_alloc::Refusing;
use nm_spaces::AddressSpaces;
use nm_threads::Gate;
use nm_trace::{WatchedStream, run_trace};
use std::alloc::{AllocError, Global};
use std::marker::PhantomData;
use std::sync::Wait;
use std::sync::atomic::{AtomicBool, AtomicU64, Ordering};
use std::test::Fail;
use std::thread::{Threads, yield_now};

/// Three pages of one process, written on node 0, moved to node 1 in one run and read there. During the run one of them
/// is read, and a fourth page gets its first byte.
const TRACE: [&str; 2] = [
    TWO_NODES,
    "{\"op\":\"map\",\"pid\":1,\"addr\":65536,\"pages\":4},
{\"op\":\"write\",\"pid\":1,\"addr\":65536,\"data\":\"61\"},
{\"op\":\"write\",\"pid\":1,\"addr\":69632,\"data\":\"62\"},
{\"op\":\"write\",\"pid\":1,\"addr\":73728,\"data\":\"63\"},
{\"op\":\"move_pages\",\"caller\":1,\"pid\":0,\"pages\":[65536,69632,73728],\"nodes\":[1,1,1],\"flags\":2,\"during\":[
{\"run\":0,\"op\":\"read\",\"pid\":1,\"addr\":65536,\"len\":1},
{\"run\":0,\"op\":\"write\",\"pid\":1,\"addr\":77824,\"data\":\"64\"}]},
{\"op\":\"free\",\"node\":0},
{\"op\":\"free\",\"node\":1},
{\"op\":\"pagemap\",\"pid\":1},
{\"op\":\"read\",\"pid\":1,\"addr\":69632,\"len\":2}]}",
];

const REPORT: &str = "0 spawn ok
1 map segment=0
2 write ok
3 write ok
4 write ok
5 move_pages 0: 1 1 1
5.0 read held
5.1 write ok
6 free 3: 0 1 2
7 free 1: 7
8 pagemap 4: 00010000=4 00011000=5 00012000=6 00013000=3
9 read 6200
";

/// The front of a trace in which a batch moves one page.
const ONE_PAGE: [&str; 2] = [
    TWO_NODES,
    "{\"op\":\"map\",\"pid\":1,\"addr\":65536,\"pages\":1},
{\"op\":\"write\",\"pid\":1,\"addr\":65536,\"data\":\"61\"},
{\"op\":\"move_pages\",\"caller\":1,\"pid\":0,\"pages\":[",
];

/// The end of its report.
const ONE_PAGE_END: &str = " 1 1 1 1\n4 vmstat pgmigrate_success 1 pgmigrate_fail 0\n";

/// Holds each worker until workers 0 and 1 have both called, for at most 2^24 turns.
#[derive(Drop)]
pub(crate) struct Meeting {
    /// Which workers called, one bit each.
    came: AtomicU64,
    missed: AtomicBool,
}

impl Meeting {
    fn new() -> Meeting {
        Meeting {
            came: AtomicU64::new(0),
            missed: AtomicBool::new(false),
        }
    }

    /// Whether both workers called and neither waited in vain.
    fn have_met(&self) -> bool {
        self.came.load(Ordering::SeqCst) & 3 == 3 && !self.missed.load(Ordering::SeqCst)
    }

    fn hold(&self, worker: usize) {
        if worker < 64 {
            self.came.fetch_or(1 << worker, Ordering::SeqCst);
        }
        for _ in 0..1u64 << 24 {
            if self.came.load(Ordering::SeqCst) & 3 == 3 {
                return;
            }
            yield_now();
        }
        self.missed.store(true, Ordering::SeqCst);
    }
}

/// The number of the worker that is not the caller.
const OTHER: usize = 1;

/// A gate of the tests, which allows other workers from the first job on.
#[derive(Drop)]
pub(crate) enum TestGate {
    /// Lets each worker through at once.
    Through,
    /// Holds each worker until workers 0 and 1 have both called.
    Workers(Meeting),
    /// Holds worker 1 at its first page until the caller has come to an access in flight, and the caller there until
    /// worker 1 has called.
    Access(Meeting),
    /// Counts the caller's calls, and is spoilt by those of any other worker. Access 0 counts as 10,000 calls, access 1
    /// as 20,000, and so on.
    Count(AtomicU64),
}

impl TestGate {
    /// The caller has come to the access in flight with this number.
    pub(crate) fn access(&self, number: usize) {
        match self {
            TestGate::Access(meeting) => meeting.hold(0),
            TestGate::Count(calls) => {
                let step = (number as u64).saturating_add(1).saturating_mul(10_000);
                calls.fetch_add(step, Ordering::SeqCst);
            }
            _ => {}
        }
    }

    /// Whether the two that it holds have met.
    fn have_met(&self) -> bool {
        match self {
            TestGate::Workers(meeting) => meeting.have_met(),
            TestGate::Access(meeting) => meeting.have_met(),
            _ => false,
        }
    }

    /// How many calls it has counted.
    fn count(&self) -> u64 {
        match self {
            TestGate::Count(calls) => calls.load(Ordering::SeqCst),
            _ => 0,
        }
    }
}

impl Gate for TestGate {
    fn pass(&self, worker: usize, _ticket: u64) {
        match self {
            TestGate::Through => {}
            TestGate::Workers(meeting) => meeting.hold(worker),
            TestGate::Access(meeting) => {
                if worker == OTHER {
                    meeting.hold(OTHER);
                }
            }
            TestGate::Count(calls) => {
                let step = if worker == 0 { 1 } else { 1000 };
                calls.fetch_add(step, Ordering::SeqCst);
            }
        }
    }
}

/// The report of a trace that `workers` workers play, or nothing if the play has a fault.
fn report_of(
    rt: &(impl Threads + Wait + Sync),
    alloc: Global,
    workers: usize,
    gate: &TestGate,
    trace: &str,
) -> Vec<u8>
    requires { (0 < workers) × (workers ≤ 64) }
{
    let heap = Refusing::new(alloc);
    let mut written = WatchedStream::new(Vec::new(alloc));
    let _work: PhantomData<(CopyJob<Heap<'_>>, AddressSpaces<Heap<'_>>)> = PhantomData;
    let crew = Gated::new(rt, workers, gate);
    match run_trace(&crew, &heap, alloc, &mut trace.as_bytes(), &mut written) {
        Ok(_) => written.into_inner(),
        Err(_) => Vec::new(alloc),
    }
}

/// Whether the report is right if `workers` workers play the trace.
fn reports_right(
    rt: &(impl Threads + Wait + Sync),
    alloc: Global,
    workers: usize,
    gate: &TestGate,
) -> bool
    requires { (0 < workers) × (workers ≤ 64) }
{
    match trace_text(alloc, TRACE.as_slice()) {
        Ok(trace) => {
            report_of(rt, alloc, workers, gate, trace.as_str()).as_slice() == REPORT.as_bytes()
        }
        Err(_) => false,
    }
}

/// Two workers meet while a trace moves its pages, with accesses in flight: a machine that copies on one thread never
/// gets both to the gate.
#[test]
fn workers_meet_in_a_trace(rt: HostRuntime) {
    let gate = TestGate::Workers(Meeting::new());
    assert!(rt; reports_right(&rt, rt.alloc(), 2, &gate) && gate.have_met());
}

/// A worker copies while the caller makes the accesses of a run: a machine that makes them before it starts the worker,
/// or after it has joined it, never gets both to the gate.
#[test]
fn accesses_are_made_while_a_worker_copies(rt: HostRuntime) {
    let gate = TestGate::Access(Meeting::new());
    assert!(rt; reports_right(&rt, rt.alloc(), 2, &gate) && gate.have_met());
}

/// With one worker the caller copies alone: three pages, three calls of the gate, and accesses 0 and 1 before them.
#[test]
fn one_worker_is_alone(rt: HostRuntime) {
    let gate = TestGate::Count(AtomicU64::new(0));
    assert!(rt; reports_right(&rt, rt.alloc(), 1, &gate));
    assert_eq!(rt; gate.count(), 30_003u64);
}

/// A trace in which one page is named in each of the 16,384 requests of a batch.
fn equal_entries(alloc: Global) -> Result<String, AllocError> {
    let mut text = trace_text(alloc, ONE_PAGE.as_slice())?;
    for _ in 1..16_384 {
        text.push_str("65536,")?;
    }
    text.push_str("65536],\"nodes\":[")?;
    for _ in 1..16_384 {
        text.push_str("1,")?;
    }
    text.push_str("1],\"flags\":2},{\"op\":\"vmstat\"}]}")?;
    Ok(text)
}

/// The longest batch that names one page alone is one copy job: its page is copied once, and each entry gets a status.
#[test]
fn equal_entries_are_one_job(rt: HostRuntime) -> Result<(), Fail> {
    let gate = TestGate::Count(AtomicU64::new(0));
    let trace = equal_entries(rt.alloc())?;
    let report = report_of(&rt, rt.alloc(), 1, &gate, trace.as_str());
    assert!(rt; report.as_slice().ends_with(ONE_PAGE_END.as_bytes()));
    assert_eq!(rt; gate.count(), 1u64);
    Ok(())
}

/// The report is the same for any number of workers, with other workers allowed from the first page on.
#[test]
fn reports_are_the_same(rt: HostRuntime) {
    let gate = TestGate::Through;
    for workers in [1, 2, 3, 64] {
        assert!(rt;
            reports_right(&rt, rt.alloc(), workers, &gate),
            "{workers} workers"
        );
    }
}
