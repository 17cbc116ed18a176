//! What to do with each request of a run, from a look at what it names.

ghost use Rattle.std.specs.Prelude.{◌≡◌, ◌<◌, ◌^◌, length, map, IfOk, IfSome, OnErr};
ghost use Rattle.nm_types.specs.Layout.{frame_count};
ghost use Rattle.nm_model.specs.definitions.Status.{class_of_look};
ghost use Rattle.nm_types.specs.declared.request.Class.{Class};
ghost use Rattle.nm_runs.specs.Shown.{class_of_place, class_shown, HasFrameBelow, ShowsItsFrames};

use crate::{Class, Wanted};
use nm_types::{Errno, FrameId, Geometry, NodeId, Page, PageView, Seen};
use std::alloc::{AllocError, Allocator};

/// What to do with a request for what is seen here. A page that several processes see moves only if `all` is set.
fn class_of_look<A: Allocator + Copy>(
    geometry: &Geometry<A>,
    target: NodeId,
    all: bool,
    seen: Seen,
) -> Class
    requires target { target < 2 ^ 31 }
    requires frame { HasFrameBelow (frame_count geometry.now) seen }
    ensures { result ≡ class_of_look geometry.now target all seen }
{
    match seen {
        Seen::NoArea => Class::Status(-Errno::Efault.number()),
        Seen::Absent => Class::Status(-Errno::Enoent.number()),
        Seen::Zero => Class::Status(-Errno::Efault.number()),
        Seen::At {
            page,
            frame,
            processes,
            pinned,
        } => {
            if geometry.node_of(frame) == target {
                Class::Status(target.number() as i32)
            } else if processes > 1 && !all {
                Class::Status(-Errno::Eacces.number())
            } else if pinned {
                Class::Status(-Errno::Ebusy.number())
            } else {
                Class::Move { page, from: frame }
            }
        }
    }
}

/// What to do with a request for a page, which moves whoever sees it, from its frame and whether it has a pin.
fn class_of_place<A: Allocator + Copy>(
    geometry: &Geometry<A>,
    target: NodeId,
    page: Page,
    placed: Option<(FrameId, bool)>,
) -> Class
    requires target { target < 2 ^ 31 }
    requires frame { IfSome placed (λ place. place.0 < frame_count geometry.now) }
    ensures { result ≡ class_of_place geometry.now target page placed }
{
    let Some((frame, pinned)) = placed else {
        return Class::Status(-Errno::Enoent.number());
    };
    if geometry.node_of(frame) == target {
        Class::Status(target.number() as i32)
    } else if pinned {
        Class::Status(-Errno::Ebusy.number())
    } else {
        Class::Move { page, from: frame }
    }
}

/// What to do with a request, from a look at what it names.
fn class_of<A: Allocator + Copy, V: PageView>(
    geometry: &Geometry<A>,
    view: &V,
    target: NodeId,
    wanted: Wanted,
) -> Class
    requires target { target < 2 ^ 31 }
    requires frames { ShowsItsFrames geometry.now (V.seen_at view.now) (V.placed_at view.now) }
    ensures { result
        ≡ class_shown geometry.now (V.seen_at view.now) (V.placed_at view.now) target wanted }
{
    match wanted {
        Wanted::At { pid, vpn, all } => class_of_look(geometry, target, all, view.seen(pid, vpn)),
        Wanted::Whole(page) => class_of_place(geometry, target, page, view.placed(page)),
    }
}

/// A request, and what to do with it. `last` is the request before it, and what to do with that: if the two are equal,
/// nothing is looked up.
fn classify_next<A: Allocator + Copy, V: PageView>(
    geometry: &Geometry<A>,
    view: &V,
    target: NodeId,
    wanted: &Wanted,
    last: &Option<(Wanted, Class)>,
) -> (Wanted, Class)
    requires target { target < 2 ^ 31 }
    requires frames { ShowsItsFrames geometry.now (V.seen_at view.now) (V.placed_at view.now) }
    requires last { IfSome last.now
        (λ l. l.1
        ≡ class_shown geometry.now (V.seen_at view.now) (V.placed_at view.now) target l.0) }
    ensures wanted { result.0 ≡ wanted.now }
    ensures class { result.1
        ≡ class_shown geometry.now (V.seen_at view.now) (V.placed_at view.now) target wanted.now }
{
    match last {
        Some((request, class)) if request == wanted => (*wanted, *class),
        _ => (*wanted, class_of(geometry, view, target, *wanted)),
    }
}

/// What to do with each request, in order, from a look at what it names, by the calling thread. The view must show frames
/// of this machine only. An error means that the host is out of memory; without requests it needs none. The target's
/// number is also used as a status, so it must be below 2^31.
pub fn classes_of<A: Allocator + Copy, V: PageView>(
    alloc: A,
    geometry: &Geometry<A>,
    view: &V,
    target: NodeId,
    wanted: &[Wanted],
) -> Result<Vec<Class, A>, AllocError>
    requires target { target < 2 ^ 31 }
    requires frames { ShowsItsFrames geometry.now (V.seen_at view.now) (V.placed_at view.now) }
    ensures classes { IfOk result
        (λ classes. classes.items
        ≡ map
        (class_shown geometry.now (V.seen_at view.now) (V.placed_at view.now) target)
        wanted.now) }
    ensures allocates { OnErr result (0 < length wanted.now) }
{
    let mut classes = Vec::with_capacity(alloc, wanted.len())?;
    let mut last = None;
    for request in wanted {
        let found = classify_next(geometry, view, target, request, &last);
        classes.push_reserved(found.1);
        last = Some(found);
    }
    Ok(classes)
}
