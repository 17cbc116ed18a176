ghost use Rattle.std.specs.Prelude.{◌≡◌, ◌<◌};
ghost use Rattle.nm_types.specs.Layout.{frame_count};

use crate::machine::three_nodes;
use crate::meeting::{Meeting, NONE, far_run, wanted_at};
use nm_refusing_alloc::Refusing;
use nm_runs::{Class, Request, Run, Wanted, classes_of, classify, cut, cut_pages};
use nm_types::{FrameId, Geometry, NodeId, Page, PageView, Pid, Seen, Vpn};
use std::alloc::{AllocError, Global};
use std::test::Fail;
use std::thread::Threads;

/// A page of the first segment.
fn page(index: u64) -> Page
    ensures { result ≡ record { segment = 0; index = index } }
{
    Page { segment: 0, index }
}

/// Requests for the first pages of a segment, one page for each of these nodes.
fn requests(alloc: Global, targets: &[u32]) -> Result<Vec<Request>, AllocError> {
    let mut requests = Vec::new(alloc);
    for (target, index) in targets.iter().zip(0u64..) {
        requests.push(Request {
            target: NodeId::new(*target),
            wanted: Wanted::Whole(page(index)),
        })?;
    }
    Ok(requests)
}

/// Whether runs have these nodes and numbers of requests.
fn are(runs: &[Run<Global>], want: &[(u32, usize)]) -> bool {
    runs.iter()
        .map(|run| (run.target.number(), run.wanted.len()))
        .eq(want.iter().copied())
}

/// Whether a batch for these nodes is cut into these runs under a limit, each given as a node and a number of requests.
fn is_cut(
    alloc: Global,
    targets: &[u32],
    limit: usize,
    want: &[(u32, usize)],
) -> Result<bool, AllocError>
    requires { 0 < limit }
{
    let requests = requests(alloc, targets)?;
    let runs = cut(alloc, requests.as_slice(), limit)?;
    Ok(are(runs.as_slice(), want))
}

/// A batch is cut where its node changes, and where a run would be too long. So are lists of addresses and nodes.
#[test]
fn batches_are_cut(rt: HostRuntime) -> Result<(), Fail> {
    let want = [(1u32, 2usize), (1, 1), (0, 1)];
    assert!(rt; is_cut(rt.alloc(), &[1, 1, 1, 0], 2, want.as_slice())?);
    let pages = [0x1000u64, 0x2fff, 0x3000, 0x1000];
    let nodes = [1u32, 1, 1, 0];
    let pid = Pid::new(7);
    let runs = cut_pages(rt.alloc(), pid, true, pages.as_slice(), nodes.as_slice(), 2)?;
    assert!(rt; are(runs.as_slice(), want.as_slice()));
    Ok(())
}

/// Six page numbers that every process sees alike, and no pages by name.
struct Row;

impl PageView for Row {
    ghost use Rattle.std.specs.Prelude.{None};
    ghost use Rattle.nm_runs.specs.ShownRows.{row_seen};

    ghost seen_at = { λ row pid v. row_seen v };

    ghost placed_at = { λ row p. None };

    fn seen(&self, _pid: Pid, vpn: Vpn) -> Seen {
        match vpn.number() {
            16 => Seen::Zero,
            17 => Seen::Absent,
            18 => Seen::At {
                page: page(2),
                frame: FrameId::new(0),
                processes: 1,
                pinned: true,
            },
            19 => Seen::At {
                page: page(3),
                frame: FrameId::new(1),
                processes: 1,
                pinned: false,
            },
            20 => Seen::At {
                page: page(4),
                frame: FrameId::new(2),
                processes: 2,
                pinned: false,
            },
            21 => Seen::At {
                page: page(5),
                frame: FrameId::new(4),
                processes: 2,
                pinned: true,
            },
            _ => Seen::NoArea,
        }
    }

    fn placed(&self, _page: Page) -> Option<(FrameId, bool)> {
        None
    }
}

/// The class of a page that is to move.
fn moves(index: u64, from: u16) -> Class {
    Class::Move {
        page: page(index),
        from: FrameId::new(from),
    }
}

/// Whether requests for node 1 have each class in a state of its own: no area, nothing seen, the page of zeros, a pin,
/// other processes, a page that is where it is to go, and pages that move.
fn has_each_class<'h>(
    heap: &'h Refusing<Global>,
    geometry: &Geometry<&'h Refusing<Global>>,
) -> Result<bool, AllocError>
    requires { frame_count geometry.now ≡ 9 }
{
    for (number, all, class) in [
        (80, false, Class::Status(-14)),
        (16, false, Class::Status(-14)),
        (17, false, Class::Status(-2)),
        (18, false, Class::Status(-16)),
        (19, false, moves(3, 1)),
        (20, false, Class::Status(-13)),
        (20, true, moves(4, 2)),
        (21, false, Class::Status(1)),
    ] {
        let wanted = [wanted_at(number, all)];
        let found = classes_of(heap, geometry, &Row, NodeId::new(1), wanted.as_slice())?;
        if found.as_slice() != [class].as_slice() {
            return Ok(false);
        }
    }
    Ok(true)
}

#[test]
fn classes_by_a_view(rt: HostRuntime) -> Result<(), Fail> {
    let heap = Refusing::new(rt.alloc());
    let geometry = three_nodes(&heap)?;
    assert!(rt; has_each_class(&heap, &geometry)?);
    Ok(())
}

/// Whether two threads, one at each end of a run, meet while they look.
fn meet<'h>(
    rt: &(impl Threads + Sync),
    heap: &'h Refusing<Global>,
    geometry: &Geometry<&'h Refusing<Global>>,
    count: u64,
) -> Result<bool, AllocError> {
    let run = far_run(heap, count)?;
    let view = Meeting::of(0b11, NONE);
    let classes = classify(rt, 2, heap, geometry, &view, &run)?;
    let right = classes.iter().all(|class| *class == Class::Status(-14));
    Ok(right && view.came() == 0b11)
}

/// Two threads look at a run of 8,192 requests at once: one thread never meets another.
#[test]
fn two_threads_look_at_a_run(rt: HostRuntime) -> Result<(), Fail> {
    let heap = Refusing::new(rt.alloc());
    let geometry = three_nodes(&heap)?;
    assert!(rt; meet(&rt, &heap, &geometry, 8191)?);
    Ok(())
}
