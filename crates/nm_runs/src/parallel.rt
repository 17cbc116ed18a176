//! What to do with each request of a run, found by several threads.

ghost use Rattle.std.specs.Prelude.{◌≡◌, ◌<◌, ◌^◌, length, map, flat_map, IfOk, OnErr};
ghost use Rattle.nm_runs.specs.Shown.{class_shown, ShowsItsFrames};

use crate::{Class, Run, Wanted, classes_of};
use nm_types::{Geometry, NodeId, PageView, Pid};
use rayon::prelude::*;
use std::alloc::{AllocError, Allocator};
use std::thread::Threads;

/// The fewest requests that are worth starting a thread for.
const PIECE: usize = 4096;

/// What to do with each request of a run, in order, from a look at what it names. Up to `workers` threads each look at a
/// piece of the run, if it is long enough for two pieces of 4,096 requests or more. A shorter run is looked at by the
/// calling thread, and so is one whose first and last pages are as close as those of one array, since looks at pages close
/// together cost less than threads. The view must show frames of this machine only. An error means that the host is out of
/// memory; a run without requests needs none. The target's number is also used as a status, so it must be below 2^31.
pub fn classify<R: Threads + Sync, A: Allocator + Copy + Send + Sync, V: PageView + Sync>(
    rt: &R,
    workers: usize,
    alloc: A,
    geometry: &Geometry<A>,
    view: &V,
    run: &Run<A>,
) -> Result<Vec<Class, A>, AllocError>
    requires target { run.now.target < 2 ^ 31 }
    requires frames { ShowsItsFrames geometry.now (V.seen_at view.now) (V.placed_at view.now) }
    ensures classes { IfOk result
        (λ classes. classes.items
        ≡ map
        (class_shown geometry.now (V.seen_at view.now) (V.placed_at view.now) run.now.target)
        run.now.wanted.items) }
    ensures allocates { OnErr result (0 < length run.now.wanted.items) }
{
    let wanted = run.wanted.as_slice();
    let pieces = (wanted.len() / PIECE).min(workers);
    if pieces < 2 || are_close(wanted) {
        return classes_of(alloc, geometry, view, run.target, wanted);
    }
    let size = wanted.len() / pieces;
    let pieces = classes_of_pieces(rt, alloc, geometry, view, run.target, wanted, size)??;
    join_parts(alloc, pieces.as_slice(), wanted.len())
}

/// A run's pages are close together if the first and the last are fewer page numbers apart than this many for each
/// request: an eighth of those of one leaf of a page table.
const CLOSE: u64 = 64;

/// Whether the first request and the last are for page numbers of one process, close together for so many requests. It is
/// a guess about those between, and changes no class.
fn are_close(wanted: &[Wanted]) -> bool {
    let (Some(first), Some(last)) = (page_number(wanted.first()), page_number(wanted.last())) else {
        return false;
    };
    first.0 == last.0 && first.1.abs_diff(last.1) / CLOSE < wanted.len() as u64
}

/// The process and the page number that a request is for, if it is not for a page by its name.
fn page_number(wanted: Option<&Wanted>) -> Option<(Pid, u64)> {
    let Some(request) = wanted else {
        return None;
    };
    match request {
        Wanted::At { pid, vpn, .. } => Some((*pid, vpn.number())),
        Wanted::Whole(_) => None,
    }
}

/// What to do with the requests of each piece of so many requests, found by threads. A last piece of fewer requests goes to
/// the thread of the piece before.
fn classes_of_pieces<R: Threads + Sync, A: Allocator + Copy + Send + Sync, V: PageView + Sync>(
    rt: &R,
    alloc: A,
    geometry: &Geometry<A>,
    view: &V,
    target: NodeId,
    wanted: &[Wanted],
    size: usize,
) -> Result<Result<Vec<Vec<Class, A>, A>, AllocError>, AllocError>
    requires target { target < 2 ^ 31 }
    requires frames { ShowsItsFrames geometry.now (V.seen_at view.now) (V.placed_at view.now) }
    requires size { 0 < size }
    ensures { IfOk result
        (λ found. IfOk found
        (λ pieces. flat_map (λ piece. piece.items) pieces.items
        ≡ map
        (class_shown geometry.now (V.seen_at view.now) (V.placed_at view.now) target)
        wanted.now)) }
{
    wanted
        .par_chunks(size)
        .map(
            |piece: &[Wanted]| -> Result<Vec<Class, A>, AllocError>
                requires target { target < 2 ^ 31 }
                requires frames { ShowsItsFrames geometry.now (V.seen_at view.now) (V.placed_at view.now) }
                ensures { IfOk result
                    (λ classes. classes.items
                    ≡ map
                    (class_shown geometry.entry.now (V.seen_at view.entry.now) (V.placed_at view.entry.now) target)
                    piece.now) }
            { classes_of(alloc, geometry, view, target, piece) },
        )
        .collect(rt, alloc)
}

/// The pieces of a list, one behind the other. They have `length` elements in total.
fn join_parts<T: Copy, A: Allocator + Copy>(
    alloc: A,
    pieces: &[Vec<T, A>],
    length: usize,
) -> Result<Vec<T, A>, AllocError>
    ensures { IfOk result
        (λ list. list.items ≡ flat_map (λ piece. piece.items) pieces.now) }
{
    let mut list = Vec::with_capacity(alloc, length)?;
    for piece in pieces {
        list.extend_from_slice(piece.as_slice())?;
    }
    Ok(list)
}
