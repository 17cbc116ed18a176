//! Traces whose memory is refused.

use crate::texts::{THREE_PAGES, TWO_NODES, trace_text};
use nm_frames::CopyJob;
use nm_refusing_alloc::Refusing;
use nm_spaces::AddressSpaces;
use nm_threads::Hired;
use nm_trace::{RunCrew, Summary, TraceError, WatchedStream, run_trace};
use std::alloc::Global;
use std::marker::PhantomData;
use std::sync::Wait;
use std::test::Fail;
use std::thread::Threads;

pub(crate) type Heap<'a> = &'a Refusing<Global>;

/// Three pages of one process, written on node 0, two of which are moved to node 1.
const TRACE: [&str; 3] = [
    TWO_NODES,
    THREE_PAGES,
    "{\"op\":\"move_pages\",\"caller\":1,\"pid\":0,\"pages\":[65536,69632,73728],\"nodes\":[1,0,1],\"flags\":2},
{\"op\":\"free\",\"node\":0},
{\"op\":\"pagemap\",\"pid\":1},
{\"op\":\"read\",\"pid\":1,\"addr\":69632,\"len\":2}]}",
];

const REPORT: &str = "0 spawn ok
1 map segment=0
2 write ok
3 write ok
4 write ok
5 move_pages 0: 1 0 1
6 free 3: 3 0 2
7 pagemap 3: 00010000=4 00011000=1 00012000=5
8 read 6200
";

/// Whether these are the first `lines` lines of the report.
fn is_front(written: &[u8], lines: usize) -> bool {
    let ends = written.iter().filter(|byte| **byte == b'\n').count();
    REPORT.as_bytes().starts_with(written)
        && ends == lines
        && (written.is_empty() || written.ends_with(b"\n"))
}

/// Whether a play that met a refusal wrote the lines of the steps that it reports. A step that only looks may have
/// managed with less memory, and then the report is whole.
fn is_fine(played: Result<Summary, TraceError>, written: &[u8]) -> bool {
    match played {
        Ok(_) => written == REPORT.as_bytes(),
        Err(TraceError::HostMemory(steps)) => is_front(written, steps),
        Err(_) => false,
    }
}

/// Runs the trace while the allocation with this number is refused. Returns whether it reached that allocation, and
/// whether its answer and output are right.
fn run_refused<'a, C: RunCrew<Heap<'a>>>(
    crew: &C,
    heap: Heap<'a>,
    global: Global,
    trace: &str,
    number: u64,
) -> (bool, bool) {
    let mut written = WatchedStream::new(Vec::new(global));
    heap.refuse(number);
    let played = run_trace(crew, heap, global, &mut trace.as_bytes(), &mut written);
    let met = heap.asked_since(number) >= number;
    heap.refuse(0);
    (met, is_fine(played, written.get_ref().as_slice()))
}

/// Refuses each allocation of a run in turn, until none is left or a run is not right. Returns how many were refused,
/// and whether all runs were right.
fn refuse_runs<'a, C: RunCrew<Heap<'a>>>(
    crew: &C,
    heap: Heap<'a>,
    global: Global,
    trace: &str,
) -> (u64, bool) {
    for number in 1..10_000u64 {
        let (met, fine) = run_refused(crew, heap, global, trace, number);
        if !met || !fine {
            return (number - 1, fine);
        }
    }
    (10_000, false)
}

/// Does so with four workers.
fn refuse_four(rt: &(impl Threads + Wait + Sync), global: Global, trace: &str) -> (u64, bool) {
    let _work: PhantomData<(CopyJob<Heap<'_>>, AddressSpaces<Heap<'_>>)> = PhantomData;
    let heap = Refusing::new(global);
    let crew = Hired::new(rt, 4);
    refuse_runs(&crew, &heap, global, trace)
}

/// Each allocation of a run that goes through the borrowed allocator is refused in turn.
#[test]
fn refused_runs_write_a_front(rt: HostRuntime) -> Result<(), Fail> {
    let trace = trace_text(rt.alloc(), TRACE.as_slice())?;
    let (refused, fine) = refuse_four(&rt, rt.alloc(), trace.as_str());
    assert!(rt; fine && refused > 30, "{refused} refusals");
    Ok(())
}
