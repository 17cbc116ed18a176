//! Calls that move pages while their memory is refused: each reports how many runs it made and whether it set its
//! policy, the state is the one after these, and the same call with memory does the rest.

use crate::attempts::{Probe, refuse_each};
use crate::crews::Gated;
use crate::gates::TestGate;
use crate::texts::{
    FOUR_OF_FIVE_PAGES, LOOK_AT_THREE, LOOK_AT_TWO, PAGE_OF_TWO, THREE_NODES, THREE_PAGES,
    TWO_NODES, TWO_PAGES, trace_text,
};
use crate::traces::Heap;
use nm_crew::Alone;
use nm_frames::CopyJob;
use nm_refusing_alloc::Refusing;
use nm_spaces::AddressSpaces;
use nm_trace::{RunCrew, Trace, read_trace};
use std::alloc::{AllocError, Global};
use std::marker::PhantomData;
use std::sync::Wait;
use std::test::Fail;
use std::thread::Threads;

/// A call of a trace, and what it may return.
#[derive(Clone, Copy)]
struct Trail<'t> {
    /// The parts of the trace: the machine and process 1, its pages, the call, looks at the system, and what is read then.
    trace: [&'t str; 5],
    /// The number of the call, from 0. The calls after it look at the system.
    call: usize,
    /// The texts that occur if its allocations are refused in turn, with an empty line between two. The first is that
    /// of a call with memory.
    outcomes: &'t str,
}

/// The bits of all texts that empty lines separate.
fn bits_of(texts: &str) -> u32 {
    let mut bits = 0u32;
    for _ in texts.split("\n\n") {
        bits = bits.saturating_mul(2).saturating_add(1);
    }
    bits
}

/// Reads a trace of these parts.
fn read<'a>(heap: Heap<'a>, alloc: Global, parts: &[&str]) -> Result<Trace<Heap<'a>>, AllocError> {
    let text = trace_text(alloc, parts)?;
    read_trace(heap, alloc, text.as_bytes()).map_err(|_| AllocError)
}

/// Reads a trace and refuses each allocation of its call in turn. Returns whether the texts of its trail
/// occurred, each of them and no other; `text` has the last one.
fn refuse<'a, C: RunCrew<Heap<'a>>>(
    crew: &C,
    heap: Heap<'a>,
    alloc: Global,
    trail: Trail<'_>,
    text: &mut String,
) -> Result<bool, AllocError> {
    let trace = read(heap, alloc, trail.trace.as_slice())?;
    let probe = Probe {
        call: trail.call,
        looks: trail.call.saturating_add(1),
    };
    let (_, seen) = refuse_each(crew, heap, &trace, probe, trail.outcomes, text)?;
    Ok(seen == bits_of(trail.outcomes))
}

/// Three pages on node 0, which go to node 1 in one run.
///
/// A call of one run is refused before the run.
const THREE: Trail<'static> = Trail {
    trace: [
        TWO_NODES,
        THREE_PAGES,
        "{\"op\":\"move_pages\",\"caller\":1,\"pid\":0,\"pages\":[65536,69632,73728],\"nodes\":[1,1,1],\"flags\":2}",
        LOOK_AT_TWO,
        "{\"op\":\"read\",\"pid\":1,\"addr\":65536,\"len\":1},
{\"op\":\"read\",\"pid\":1,\"addr\":69632,\"len\":2},
{\"op\":\"read\",\"pid\":1,\"addr\":73728,\"len\":1}]}",
    ],
    call: 5,
    outcomes: "| 0: [1, 1, 1] | 4 5 6 | 3 0 1 2 | 7 | 3 0 | [97] | [98, 0] | [99] | true

| HostMemory { runs: 0, policy_set: false } | 0 1 2 | 3 | 4 5 6 7 | 0 0 | [97] | [98, 0] | [99] | true
| 0: [1, 1, 1] | 4 5 6 | 3 0 1 2 | 7 | 3 0 | [97] | [98, 0] | [99] | true",
};

/// A page that two processes see stays: one of them asks to move it, and to have it where it is, and then a privileged
/// caller asks to move it, without MPOL_MF_MOVE_ALL.
const SHARED: [&str; 5] = [
    TWO_NODES,
    PAGE_OF_TWO,
    "{\"op\":\"move_pages\",\"caller\":1,\"pid\":0,\"pages\":[131072],\"nodes\":[1],\"flags\":2},
{\"op\":\"move_pages\",\"caller\":1,\"pid\":0,\"pages\":[131072],\"nodes\":[0],\"flags\":2},
{\"op\":\"move_pages\",\"caller\":3,\"pid\":1,\"pages\":[131072],\"nodes\":[1],\"flags\":2}",
    LOOK_AT_TWO,
    "{\"op\":\"pagemap\",\"pid\":2},
{\"op\":\"read\",\"pid\":2,\"addr\":196608,\"len\":1}]}",
];

/// A call that moves nothing also allocates: one of the two asks.
const SHARED_ASKED: Trail<'static> = Trail {
    trace: SHARED,
    call: 7,
    outcomes: "| 0: [-13] | 0: [0] | 0: [-13] | 0 | 1 2 3 | 4 5 6 7 | 0 0 | 0 | [97] | true

| HostMemory { runs: 0, policy_set: false } | 0: [0] | 0: [-13] | 0 | 1 2 3 | 4 5 6 7 | 0 0 | 0 | [97] | true
| 0: [-13] | 0: [0] | 0: [-13] | 0 | 1 2 3 | 4 5 6 7 | 0 0 | 0 | [97] | true",
};

/// The page is there already.
const SHARED_THERE: Trail<'static> = Trail {
    trace: SHARED,
    call: 8,
    outcomes: "| 0: [0] | 0: [-13] | 0 | 1 2 3 | 4 5 6 7 | 0 0 | 0 | [97] | true

| HostMemory { runs: 0, policy_set: false } | 0: [-13] | 0 | 1 2 3 | 4 5 6 7 | 0 0 | 0 | [97] | true
| 0: [0] | 0: [-13] | 0 | 1 2 3 | 4 5 6 7 | 0 0 | 0 | [97] | true",
};

/// A privileged caller asks without MPOL_MF_MOVE_ALL.
const SHARED_UNASKED: Trail<'static> = Trail {
    trace: SHARED,
    call: 9,
    outcomes: "| 0: [-13] | 0 | 1 2 3 | 4 5 6 7 | 0 0 | 0 | [97] | true

| HostMemory { runs: 0, policy_set: false } | 0 | 1 2 3 | 4 5 6 7 | 0 0 | 0 | [97] | true
| 0: [-13] | 0 | 1 2 3 | 4 5 6 7 | 0 0 | 0 | [97] | true",
};

/// The same page, which a third process may move.
///
/// If the run was refused, the page is where it was, for both processes.
const SHARED_BY_ALL: Trail<'static> = Trail {
    trace: [
        TWO_NODES,
        PAGE_OF_TWO,
        "{\"op\":\"move_pages\",\"caller\":3,\"pid\":1,\"pages\":[131072],\"nodes\":[1],\"flags\":4}",
        LOOK_AT_TWO,
        "{\"op\":\"pagemap\",\"pid\":2},
{\"op\":\"read\",\"pid\":2,\"addr\":196608,\"len\":1}]}",
    ],
    call: 7,
    outcomes: "| 0: [1] | 4 | 1 2 3 0 | 5 6 7 | 1 0 | 4 | [97] | true

| HostMemory { runs: 0, policy_set: false } | 0 | 1 2 3 | 4 5 6 7 | 0 0 | 0 | [97] | true
| 0: [1] | 4 | 1 2 3 0 | 5 6 7 | 1 0 | 4 | [97] | true",
};

/// A page that goes to node 1 and, in a second run, back to node 0.
///
/// A call of two runs is refused before the first or between the two.
const THERE_AND_BACK: Trail<'static> = Trail {
    trace: [
        TWO_NODES,
        THREE_PAGES,
        "{\"op\":\"move_pages\",\"caller\":1,\"pid\":0,\"pages\":[65536,65536],\"nodes\":[1,0],\"flags\":2}",
        LOOK_AT_TWO,
        "{\"op\":\"read\",\"pid\":1,\"addr\":65536,\"len\":1}]}",
    ],
    call: 5,
    outcomes: "| 0: [1, 0] | 3 1 2 | 0 | 5 6 7 4 | 2 0 | [97] | true

| HostMemory { runs: 0, policy_set: false } | 0 1 2 | 3 | 4 5 6 7 | 0 0 | [97] | true
| 0: [1, 0] | 3 1 2 | 0 | 5 6 7 4 | 2 0 | [97] | true

| HostMemory { runs: 1, policy_set: false } | 4 1 2 | 3 0 | 5 6 7 | 1 0 | [97] | true
| 0: [1, 0] | 3 1 2 | 0 | 5 6 7 4 | 2 0 | [97] | true",
};

/// Two pages, on nodes 0 and 1, go to nodes 1 and 2: the second goes first, and the first then moves to the node that
/// it left.
///
/// A move of two runs from nodes to nodes is refused before the first or between the two.
const FROM_NODES: Trail<'static> = Trail {
    trace: [
        "{\"version\":1,\"machine\":{\"nodes\":[4,4,4],\"distance\":[[10,20,20],[20,10,20],[20,20,10]]},\"steps\":[
{\"op\":\"spawn\",\"pid\":1,\"uid\":100,\"home\":0,\"allowed\":[0,1,2]}",
        TWO_PAGES,
        "{\"op\":\"move_pages\",\"caller\":1,\"pid\":0,\"pages\":[69632],\"nodes\":[1],\"flags\":2},
{\"op\":\"migrate_pages\",\"caller\":1,\"pid\":0,\"old\":[0,1],\"new\":[1,2]}",
        LOOK_AT_THREE,
        "{\"op\":\"read\",\"pid\":1,\"addr\":65536,\"len\":1},
{\"op\":\"read\",\"pid\":1,\"addr\":69632,\"len\":1}]}",
    ],
    call: 5,
    outcomes: "| 0 | 5 8 | 2 3 1 0 | 6 7 4 | 9 10 11 | 3 0 | [97] | [98] | true

| HostMemory { runs: 0, policy_set: false } | 0 4 | 2 3 1 | 5 6 7 | 8 9 10 11 | 1 0 | [97] | [98] | true
| 0 | 5 8 | 2 3 1 0 | 6 7 4 | 9 10 11 | 3 0 | [97] | [98] | true

| HostMemory { runs: 1, policy_set: false } | 0 8 | 2 3 1 | 5 6 7 4 | 9 10 11 | 2 0 | [97] | [98] | true
| 0 | 5 8 | 2 3 1 0 | 6 7 4 | 9 10 11 | 3 0 | [97] | [98] | true",
};

/// Two pages that are bound to nodes 1 and 2, the first of which has one frame.
///
/// A call that sets a policy and makes two runs is refused before the policy is set, before the first run, or between
/// the two.
const BOUND: Trail<'static> = Trail {
    trace: [
        THREE_NODES,
        TWO_PAGES,
        "{\"op\":\"mbind\",\"caller\":1,\"addr\":65536,\"len\":8192,\"mode\":2,\"nodes\":[1,2],\"flags\":2}",
        LOOK_AT_THREE,
        "{\"op\":\"numa_maps\",\"pid\":1},
{\"op\":\"read\",\"pid\":1,\"addr\":65536,\"len\":1},
{\"op\":\"read\",\"pid\":1,\"addr\":69632,\"len\":1}]}",
    ],
    call: 4,
    outcomes: "| 0 | 4 5 | 2 3 0 1 | | 6 7 8 | 2 1 | 00010000 bind:1-2 anon=2 N1=1 N2=1 kernelpagesize_kB=4 | [97] | [98] | true

| HostMemory { runs: 0, policy_set: false } | 0 1 | 2 3 | 4 | 5 6 7 8 | 0 0 | 00010000 default anon=2 N0=2 kernelpagesize_kB=4 | [97] | [98] | true
| 0 | 4 5 | 2 3 0 1 | | 6 7 8 | 2 1 | 00010000 bind:1-2 anon=2 N1=1 N2=1 kernelpagesize_kB=4 | [97] | [98] | true

| HostMemory { runs: 0, policy_set: true } | 0 1 | 2 3 | 4 | 5 6 7 8 | 0 0 | 00010000 bind:1-2 anon=2 N0=2 kernelpagesize_kB=4 | [97] | [98] | true
| 0 | 4 5 | 2 3 0 1 | | 6 7 8 | 2 1 | 00010000 bind:1-2 anon=2 N1=1 N2=1 kernelpagesize_kB=4 | [97] | [98] | true

| HostMemory { runs: 1, policy_set: true } | 4 1 | 2 3 0 | | 5 6 7 8 | 1 1 | 00010000 bind:1-2 anon=2 N0=1 N1=1 kernelpagesize_kB=4 | [97] | [98] | true
| 0 | 4 5 | 2 3 0 1 | | 6 7 8 | 2 2 | 00010000 bind:1-2 anon=2 N1=1 N2=1 kernelpagesize_kB=4 | [97] | [98] | true",
};

/// Three pages on a node that is to go offline go to a node of one frame and then to another. The second page has a
/// pin, so the node stays online, and a batch may name it.
///
/// The node is online if a run was refused, and a page that was tried before fails again.
const EMPTIED: Trail<'static> = Trail {
    trace: [
        THREE_NODES,
        THREE_PAGES,
        "{\"op\":\"pin\",\"pid\":1,\"addr\":69632},
{\"op\":\"offline\",\"node\":0}",
        LOOK_AT_THREE,
        "{\"op\":\"read\",\"pid\":1,\"addr\":65536,\"len\":1},
{\"op\":\"read\",\"pid\":1,\"addr\":73728,\"len\":1},
{\"op\":\"move_pages\",\"caller\":1,\"pid\":0,\"pages\":[69632],\"nodes\":[0],\"flags\":2}]}",
    ],
    call: 6,
    outcomes: "| Refused(Ebusy) | 4 1 5 | 3 0 2 | | 6 7 8 | 2 2 | [97] | [99] | 0: [0] | true

| HostMemory { runs: 0, policy_set: false } | 0 1 2 | 3 | 4 | 5 6 7 8 | 0 0 | [97] | [99] | 0: [0] | true
| Refused(Ebusy) | 4 1 5 | 3 0 2 | | 6 7 8 | 2 2 | [97] | [99] | 0: [0] | true

| HostMemory { runs: 1, policy_set: false } | 4 1 2 | 3 0 | | 5 6 7 8 | 1 2 | [97] | [99] | 0: [0] | true
| Refused(Ebusy) | 4 1 5 | 3 0 2 | | 6 7 8 | 2 4 | [97] | [99] | 0: [0] | true",
};

/// The same pages without a pin: the node goes offline, and a batch may not name it then.
///
/// The node is online if a run was refused, and offline after the others are made.
const GONE: Trail<'static> = Trail {
    trace: [
        THREE_NODES,
        THREE_PAGES,
        "{\"op\":\"offline\",\"node\":0}",
        LOOK_AT_THREE,
        "{\"op\":\"read\",\"pid\":1,\"addr\":69632,\"len\":1},
{\"op\":\"move_pages\",\"caller\":1,\"pid\":0,\"pages\":[69632],\"nodes\":[0],\"flags\":2}]}",
    ],
    call: 5,
    outcomes: "| | 4 5 6 | 3 0 1 2 | | 7 8 | 3 2 | [98] | Refused(Enodev) | true

| HostMemory { runs: 0, policy_set: false } | 0 1 2 | 3 | 4 | 5 6 7 8 | 0 0 | [98] | 0: [0] | true
| | 4 5 6 | 3 0 1 2 | | 7 8 | 3 2 | [98] | Refused(Enodev) | true

| HostMemory { runs: 1, policy_set: false } | 4 1 2 | 3 0 | | 5 6 7 8 | 1 2 | [98] | 0: [0] | true
| | 4 5 6 | 3 0 1 2 | | 7 8 | 3 4 | [98] | Refused(Enodev) | true",
};

/// A page goes to node 1; during its run it is read, the second page is read, and the fifth, which has no frame yet, is
/// written.
///
/// The page that an access was to fill has no frame if the run was refused, and no free frame is lost or out of its
/// place.
const IN_FLIGHT: Trail<'static> = Trail {
    trace: [
        TWO_NODES,
        FOUR_OF_FIVE_PAGES,
        "{\"op\":\"move_pages\",\"caller\":1,\"pid\":0,\"pages\":[65536],\"nodes\":[1],\"flags\":2,\"during\":[
{\"run\":0,\"op\":\"read\",\"pid\":1,\"addr\":65536,\"len\":1},
{\"run\":0,\"op\":\"read\",\"pid\":1,\"addr\":69632,\"len\":1},
{\"run\":0,\"op\":\"write\",\"pid\":1,\"addr\":81920,\"data\":\"65\"}]}",
        LOOK_AT_TWO,
        "{\"op\":\"read\",\"pid\":1,\"addr\":65536,\"len\":1},
{\"op\":\"read\",\"pid\":1,\"addr\":69632,\"len\":1}]}",
    ],
    call: 6,
    outcomes: "| 0: [1] held [98] done | 4 1 2 3 5 | 0 | 6 7 | 1 0 | [97] | [98] | true

| HostMemory { runs: 0, policy_set: false } | 0 1 2 3 | | 4 5 6 7 | 0 0 | [97] | [98] | true
| 0: [1] held [98] done | 4 1 2 3 5 | 0 | 6 7 | 1 0 | [97] | [98] | true",
};

/// A page goes to node 1, and during its run it is read through an area that does not show it yet.
///
/// The area through which the page was read has no entry for it if the run was refused.
const HELD: Trail<'static> = Trail {
    trace: [
        TWO_NODES,
        "{\"op\":\"map\",\"pid\":1,\"addr\":131072,\"pages\":1,\"shared\":true},
{\"op\":\"attach\",\"pid\":1,\"addr\":196608,\"segment\":0,\"offset\":0,\"pages\":1},
{\"op\":\"write\",\"pid\":1,\"addr\":131072,\"data\":\"61\"}",
        "{\"op\":\"move_pages\",\"caller\":1,\"pid\":0,\"pages\":[131072],\"nodes\":[1],\"flags\":2,\"during\":[
{\"run\":0,\"op\":\"read\",\"pid\":1,\"addr\":196608,\"len\":1}]}",
        LOOK_AT_TWO,
        "{\"op\":\"read\",\"pid\":1,\"addr\":131072,\"len\":1}]}",
    ],
    call: 4,
    outcomes: "| 0: [1] held | 4 | 1 2 3 0 | 5 6 7 | 1 0 | [97] | true

| HostMemory { runs: 0, policy_set: false } | 0 | 1 2 3 | 4 5 6 7 | 0 0 | [97] | true
| 0: [1] held | 4 | 1 2 3 0 | 5 6 7 | 1 0 | [97] | true",
};

/// Two pages go to node 1, each in a run of its own, and in the second run the fifth page is written.
///
/// An access of the second run is made with that run, even if the first was made before.
const IN_THE_SECOND: Trail<'static> = Trail {
    trace: [
        "{\"version\":2,\"run_limit\":1,\"machine\":{\"nodes\":[4,4],\"distance\":[[10,20],[20,10]]},\"steps\":[
{\"op\":\"spawn\",\"pid\":1,\"uid\":100,\"home\":0,\"allowed\":[0,1]}",
        FOUR_OF_FIVE_PAGES,
        "{\"op\":\"move_pages\",\"caller\":1,\"pid\":0,\"pages\":[65536,69632],\"nodes\":[1,1],\"flags\":2,\"during\":[
{\"run\":1,\"op\":\"write\",\"pid\":1,\"addr\":81920,\"data\":\"65\"}]}",
        LOOK_AT_TWO,
        "{\"op\":\"read\",\"pid\":1,\"addr\":65536,\"len\":1},
{\"op\":\"read\",\"pid\":1,\"addr\":69632,\"len\":1}]}",
    ],
    call: 6,
    outcomes: "| 0: [1, 1] done | 4 5 2 3 0 | 1 | 6 7 | 2 0 | [97] | [98] | true

| HostMemory { runs: 0, policy_set: false } | 0 1 2 3 | | 4 5 6 7 | 0 0 | [97] | [98] | true
| 0: [1, 1] done | 4 5 2 3 0 | 1 | 6 7 | 2 0 | [97] | [98] | true

| HostMemory { runs: 1, policy_set: false } | 4 1 2 3 | 0 | 5 6 7 | 1 0 | [97] | [98] | true
| 0: [1, 1] done | 4 5 2 3 0 | 1 | 6 7 | 2 0 | [97] | [98] | true",
};

const TRAILS: [Trail; 13] = [
    THREE,
    SHARED_ASKED,
    SHARED_THERE,
    SHARED_UNASKED,
    SHARED_BY_ALL,
    THERE_AND_BACK,
    FROM_NODES,
    BOUND,
    EMPTIED,
    GONE,
    IN_FLIGHT,
    HELD,
    IN_THE_SECOND,
];

/// Does so with two workers.
fn refuse_two(
    rt: &(impl Threads + Wait + Sync),
    alloc: Global,
    trail: Trail<'_>,
    text: &mut String,
) -> Result<bool, AllocError> {
    let _work: PhantomData<(CopyJob<Heap<'_>>, AddressSpaces<Heap<'_>>)> = PhantomData;
    let heap = Refusing::new(alloc);
    let gate = TestGate::Through;
    let crew = Gated::new(rt, 2, &gate);
    refuse(&crew, &heap, alloc, trail, text)
}

/// Each allocation of each of these calls is refused in turn.
#[test]
fn refused_calls_go_on(rt: HostRuntime) -> Result<(), Fail> {
    let mut text = String::new(rt.alloc());
    for trail in TRAILS {
        let fine = refuse_two(&rt, rt.alloc(), trail, &mut text)?;
        assert!(rt; fine, "{}\nin place of\n{}", text.as_str(), trail.outcomes);
    }
    Ok(())
}

/// The caller alone, without a runtime, makes a call as two workers do.
#[test]
fn caller_alone_goes_on(rt: HostRuntime) -> Result<(), Fail> {
    let _work: PhantomData<(CopyJob<Heap<'_>>, AddressSpaces<Heap<'_>>)> = PhantomData;
    let heap = Refusing::new(rt.alloc());
    let mut text = String::new(rt.alloc());
    assert!(rt; refuse(&Alone, &heap, rt.alloc(), THREE, &mut text)?);
    Ok(())
}
