//! Making the plan of a run.

ghost use Rattle.std.specs.Prelude.{◌≡◌, ◌<◌, ◌≤◌, ◌+◌, ◌^◌, ◌++◌, drop, length, position, vec_len, vec_capacity, IfOk, OnOk, OnErr};
ghost use Rattle.std.specs.List.{zip};
ghost use Rattle.nm_model.specs.definitions.Decide.{choose, is_short, plan_run};
ghost use Rattle.nm_plan.specs.Found.{Finds};

use crate::PageMove;
use crate::outcome::Plan;
use crate::search::Search;
use nm_runs::Class;
use nm_types::{Errno, FrameId, NodeId};
use std::alloc::{AllocError, Allocator};

/// Decides one request after these moves: a page that moves takes the first frame that none of them has taken. The
/// number of moves so far is the index of that frame in `free_front`, so no free list changes before the plan is
/// complete. An error means that the host is out of memory, which happens only after at least eight moves, and only if
/// the request moves a page.
fn choose<A: Allocator + Copy>(
    class: Class,
    free_front: &[FrameId],
    target: NodeId,
    moves: &mut Vec<PageMove, A>,
    search: &mut Search<A>,
) -> Result<i32, AllocError>
    requires target { target < 2 ^ 31 }
    requires found { Finds search.old moves.old.items }
    requires room { vec_len moves.old < vec_capacity moves.old }

    // On success
    ensures status { IfOk result
        (λ status. status
        ≡ (choose class moves.old.items
        (drop (length moves.old.items) free_front.now) target).status) }
    ensures moves { OnOk result
        (moves.new.items
        ≡ moves.old.items
        ++ (choose class moves.old.items
        (drop (length moves.old.items) free_front.now) target).taken) }
    ensures front { OnOk result
        (drop (length moves.new.items) free_front.now
        ≡ (choose class moves.old.items
        (drop (length moves.old.items) free_front.now) target).front) }
    ensures found { OnOk result (Finds search.new moves.new.items) }
    ensures capacity { OnOk result (vec_capacity moves.new ≡ vec_capacity moves.old) }

    // Without memory
    ensures allocates { OnErr result (8 ≤ length moves.old.items) }
    ensures moving { OnErr result
        (0
        < length
        (choose class moves.old.items
        (drop (length moves.old.items) free_front.now) target).taken) }
{
    let Class::Move { page, from } = class else {
        let Class::Status(status) = class else {
            unreachable!()
        };
        return Ok(status);
    };
    if search.has(moves.as_slice(), page) {
        return Ok(target.number() as i32);
    }
    let Some(to) = free_front.get(moves.len()) else {
        return Ok(-Errno::Enomem.number());
    };
    search.add(moves.as_slice(), page)?;
    moves.push_reserved(PageMove {
        page,
        from,
        to: *to,
    });
    Ok(target.number() as i32)
}

/// Whether a page was to move and found no free frame.
fn is_short(class: Class, status: i32) -> bool
    ensures { result ≡ is_short (class, status) }
{
    match class {
        Class::Status(_) => false,
        Class::Move { .. } => status == -Errno::Enomem.number(),
    }
}

/// The index of the first request whose page found no free frame.
fn shortage_of(classes: &[Class], statuses: &[i32]) -> Option<usize>
    ensures { result ≡ position is_short (zip classes.now statuses.now) }
{
    classes
        .iter()
        .zip(statuses)
        .position(|(class, status)| is_short(*class, *status))
}

/// The plan of a run with these classes, where the target has these free frames, front first. The requests are decided
/// one after another, since each depends on those before it: a page that is to move takes the first frame that no page
/// has taken yet, or gets -12 (ENOMEM) if there is none; a page that is named again stays where it went. An error means
/// that the host is out of memory; a run without requests needs none.
pub fn plan<A: Allocator + Copy>(
    alloc: A,
    classes: &[Class],
    free_front: &[FrameId],
    target: NodeId,
) -> Result<Plan<A>, AllocError>
    requires { target < 2 ^ 31 }
    ensures plan { IfOk result (λ plan. plan ≡ plan_run classes.now free_front.now target) }
    ensures allocates { OnErr result (0 < length classes.now) }
{
    let mut moves = Vec::with_capacity(alloc, classes.len())?;
    let mut statuses = Vec::with_capacity(alloc, classes.len())?;
    let mut search = Search::new(alloc);
    for class in classes {
        let status = choose(*class, free_front, target, &mut moves, &mut search)?;
        statuses.push_reserved(status);
    }
    let shortage = shortage_of(classes, statuses.as_slice());
    Ok(Plan {
        moves,
        statuses,
        shortage,
    })
}
