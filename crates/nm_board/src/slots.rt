//! Moving jobs into the slots of a table and out of them.

ghost use Rattle.std.specs.Prelude.{◌≡◌, ◌<◌, ◌≤◌, length, map, vec_len, vec_capacity, List, IfOk, OnErr, Some};
ghost use Rattle.std.specs.Mem.Slots.{slots_items, slots_len, IsFull};
ghost use Rattle.nm_frames.specs.declared.job.CopyJob.{CopyJob};

use crate::rule::Slot;
use atomic_table::Closed;
use nm_frames::CopyJob;
use std::alloc::{AllocError, Allocator};
use std::snapshot::Snapshot;

/// Moves the jobs into a list of slots, in order. The list that they came in keeps its capacity. An error means that
/// the host is out of memory; a list without jobs needs none.
pub(crate) fn into_slots<A: Allocator + Copy>(
    alloc: A,
    room: &mut Vec<CopyJob<A>, A>,
) -> Result<Vec<Slot<A>, A>, AllocError>
    ensures ok { IfOk result
        (λ slots. (slots.items ≡ map Some room.old.items) × (vec_len room.new ≡ 0)) }
    ensures err { OnErr result (room.new.items ≡ room.old.items) }
    ensures allocates { OnErr result (0 < length room.old.items) }
    ensures room { vec_capacity room.new ≡ vec_capacity room.old }
{
    let mut slots = Vec::with_capacity(alloc, room.len())?;
    while let Some(job) = room.pop() {
        slots.push_reserved(Some(job));
    }
    slots.reverse();
    Ok(slots)
}

/// Moves the jobs back out of their slots.
pub(crate) fn refill<A: Allocator + Copy>(
    room: &mut Vec<CopyJob<A>, A>,
    mut slots: Vec<Slot<A>, A>,
    laid: &Snapshot<Vec<CopyJob<A>, A>>,
)
    requires slots { slots.items ≡ map Some laid.now.value.items }
    requires room { (vec_len room.old ≡ 0) × (vec_len laid.now.value ≤ vec_capacity room.old) }
    ensures { room.new.items ≡ laid.now.value.items }
{
    slots.reverse();
    while let Some(slot) = slots.pop() {
        match slot {
            Some(job) => room.push_reserved(job),
            None => unreachable!(),
        }
    }
}

/// Moves the jobs out of the slots of a closed table, in order.
pub(crate) fn take_all<A: Allocator + Copy>(
    mut closed: Closed<Slot<A>, A>,
    room: &mut Vec<CopyJob<A>, A>,
)
    requires full { IsFull closed.slots }
    requires jobs { (jobs : List (CopyJob A)) × (slots_items closed.slots ≡ map Some jobs) }
    requires room { (vec_len room.old ≡ 0) × (slots_len closed.slots ≤ vec_capacity room.old) }
    ensures { map Some room.new.items ≡ slots_items closed.slots }
{
    let mut i = 0;
    while i < closed.slot_count() {
        match closed.take(i) {
            Some(job) => room.push_reserved(job),
            None => unreachable!(),
        }
        i += 1;
    }
    closed.free();
}
