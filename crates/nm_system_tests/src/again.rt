//! Every call, with each of its allocations refused in turn and the call then made again: a refusal loses nothing.
//!
//! If a call that was refused memory is made again, it and all that follows must have the same answers as with memory;
//! so the refusal left the system as it was.

use crate::attempts::{Probe, attempt, refuse_each};
use crate::crews::Gated;
use crate::gates::TestGate;
use crate::traces::Heap;
use nm_frames::CopyJob;
use nm_refusing_alloc::Refusing;
use nm_spaces::AddressSpaces;
use nm_trace::{RunCrew, Trace, read_trace};
use std::alloc::{AllocError, Global};
use std::marker::PhantomData;
use std::sync::Wait;
use std::test::Fail;
use std::thread::Threads;

/// What a call reports if it was refused memory before it changed anything, and the system is sound.
const REFUSED: &str = "| HostMemory { runs: 0, policy_set: false } | true\n";

/// Puts the two texts that a call and those after it may return: that of a call with memory, and the same after the
/// line of a refusal.
fn put_both(outcomes: &mut String, text: &str) -> Result<(), AllocError> {
    outcomes.clear();
    outcomes.push_str(text)?;
    outcomes.push_str("\n\n")?;
    outcomes.push_str(REFUSED)?;
    outcomes.push_str(text)
}

/// Refuses each allocation of the call with this number in turn, until none is left: the answers from there on are the
/// same as with memory. Returns how many were refused, and whether all answers were these; `text` has the last ones.
fn refuse_call<'a, C: RunCrew<Heap<'a>>>(
    crew: &C,
    heap: Heap<'a>,
    trace: &Trace<Heap<'a>>,
    call: usize,
    outcomes: &mut String,
    text: &mut String,
) -> Result<(u64, bool), AllocError> {
    let probe = Probe {
        call,
        looks: usize::MAX,
    };
    attempt(crew, heap, trace, probe, 0, text)?;
    put_both(outcomes, text.as_str())?;
    let (refused, seen) = refuse_each(crew, heap, trace, probe, outcomes.as_str(), text)?;
    Ok((refused, seen != 0))
}

/// Refuses each allocation of each call of a trace in turn, the last call first. Returns how many were refused, and
/// whether all answers were those with memory; `text` has the last ones, which are then those of all calls.
fn refuse_all<'a, C: RunCrew<Heap<'a>>>(
    crew: &C,
    heap: Heap<'a>,
    trace: &Trace<Heap<'a>>,
    text: &mut String,
    outcomes: &mut String,
) -> Result<(u64, bool), AllocError> {
    let mut refused = 0u64;
    for call in (0..trace.calls.len()).rev() {
        let (more, fine) = refuse_call(crew, heap, trace, call, outcomes, text)?;
        if !fine {
            return Ok((more, false));
        }
        refused = refused.saturating_add(more);
    }
    Ok((refused, true))
}

/// Every kind of call. Process 1 has pages A to C at 0x10000, of which it writes two and reads the third, and D at
/// 0x20000, which process 2 also sees. A has a pin while B moves to node 1, and then follows it; D moves when node 0 is
/// emptied, and stays when process 1 exits.
const EVERY_CALL: &str =
    "{\"version\":1,\"machine\":{\"nodes\":[4,4],\"distance\":[[10,20],[20,10]]},\"steps\":[
{\"op\":\"spawn\",\"pid\":1,\"uid\":100,\"home\":0,\"allowed\":[0,1]},
{\"op\":\"spawn\",\"pid\":2,\"uid\":100,\"home\":1,\"allowed\":[0,1]},
{\"op\":\"map\",\"pid\":1,\"addr\":65536,\"pages\":3},
{\"op\":\"write\",\"pid\":1,\"addr\":65536,\"data\":\"61\"},
{\"op\":\"write\",\"pid\":1,\"addr\":69632,\"data\":\"62\"},
{\"op\":\"read\",\"pid\":1,\"addr\":73728,\"len\":1},
{\"op\":\"map\",\"pid\":1,\"addr\":131072,\"pages\":2,\"shared\":true},
{\"op\":\"write\",\"pid\":1,\"addr\":131072,\"data\":\"63\"},
{\"op\":\"attach\",\"pid\":2,\"addr\":196608,\"segment\":1,\"offset\":0,\"pages\":2},
{\"op\":\"read\",\"pid\":2,\"addr\":196608,\"len\":1},
{\"op\":\"mbind\",\"caller\":1,\"addr\":69632,\"len\":4096,\"mode\":1,\"nodes\":[1],\"flags\":0},
{\"op\":\"pin\",\"pid\":1,\"addr\":65536},
{\"op\":\"move_pages\",\"caller\":1,\"pid\":0,\"pages\":[65536,69632,73728],\"nodes\":[1,1,1],\"flags\":2},
{\"op\":\"unpin\",\"pid\":1,\"addr\":65536},
{\"op\":\"migrate_pages\",\"caller\":1,\"pid\":0,\"old\":[0],\"new\":[1]},
{\"op\":\"query\",\"caller\":1,\"pid\":0,\"pages\":[65536,69632,73728,131072,327680],\"flags\":2},
{\"op\":\"numa_maps\",\"pid\":1},
{\"op\":\"offline\",\"node\":0},
{\"op\":\"online\",\"node\":0},
{\"op\":\"pagemap\",\"pid\":1},
{\"op\":\"unmap\",\"pid\":1,\"addr\":69632,\"pages\":2},
{\"op\":\"exit\",\"pid\":1},
{\"op\":\"read\",\"pid\":2,\"addr\":196608,\"len\":1},
{\"op\":\"vmstat\"},
{\"op\":\"free\",\"node\":0},
{\"op\":\"free\",\"node\":1},
{\"op\":\"pagemap\",\"pid\":2}]}";

const EVERY_CALL_ANSWERS: &str =
    "| | | | | | [0] | | | | [99] | 0 | | 1: [-16, 1, -14] | | 0 | 0: [1, 1, -14, 0, -14] | 00010000 default anon=1 N1=1 kernelpagesize_kB=4 00011000 prefer:1 anon=1 N1=1 kernelpagesize_kB=4 00012000 default 00020000 default anon=1 mapmax=2 N0=1 kernelpagesize_kB=4 | | | 5 4 zero 6 | | | [99] | 3 1 | 3 1 0 2 | 7 4 5 | 6 | true";

/// Does so with two workers.
fn refuse_two<'a>(
    rt: &(impl Threads + Wait + Sync),
    heap: Heap<'a>,
    trace: &Trace<Heap<'a>>,
    text: &mut String,
    outcomes: &mut String,
) -> Result<(u64, bool), AllocError> {
    let _work: PhantomData<(CopyJob<Heap<'a>>, AddressSpaces<Heap<'a>>)> = PhantomData;
    let gate = TestGate::Through;
    let crew = Gated::new(rt, 2, &gate);
    refuse_all(&crew, heap, trace, text, outcomes)
}

/// Reads a trace, and refuses each allocation of each of its calls in turn.
fn refuse(
    rt: &(impl Threads + Wait + Sync),
    alloc: Global,
    trace: &str,
    text: &mut String,
) -> Result<(u64, bool), AllocError> {
    let heap = Refusing::new(alloc);
    let Ok(trace) = read_trace(&heap, alloc, trace.as_bytes()) else {
        return Err(AllocError);
    };
    let mut outcomes = String::new(alloc);
    refuse_two(rt, &heap, &trace, text, &mut outcomes)
}

/// Each allocation of each call is refused in turn, and the call made again: the answers are the same as with memory.
#[test]
fn no_refusal_loses_anything(rt: HostRuntime) -> Result<(), Fail> {
    let mut text = String::new(rt.alloc());
    let (refused, fine) = refuse(&rt, rt.alloc(), EVERY_CALL, &mut text)?;
    let same = fine && text.as_str() == EVERY_CALL_ANSWERS;
    assert!(rt; same, "{}", text.as_str());
    assert!(rt; refused > 40, "{refused} refusals");
    Ok(())
}
