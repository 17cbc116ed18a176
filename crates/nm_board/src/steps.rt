//! Steps that a hand's seat makes at the table.

ghost use Rattle.std.specs.Prelude.{◌≡◌, ◌<◌, [], ◌∷◌, Option, Some, None};
ghost use Rattle.nm_frames.specs.declared.job.CopyJob.{CopyJob};
ghost use Rattle.atomic_table.specs.Table.{rest};
ghost use Rattle.nm_board.specs.Steps.{less, part};

use crate::rule::{Amount, Cut, Shelf, Slot};
use crate::view::View;
use atomic_table::Seat;
use nm_frames::CopyJob;
use std::alloc::Allocator;

/// Takes the job out of the slot that the seat took last.
pub(crate) fn take_out<A: Allocator + Copy>(
    shelf: &Shelf<A>,
    seat: &mut Seat<Slot<A>, View<A>>,
    slot: usize,
) -> Option<CopyJob<A>>
    requires own { seat.old.table_id ≡ shelf.now.table_id }
    requires last { (job : CopyJob A) × (seat.old.me.1 ≡ (slot, Some job) ∷ rest seat.old.me.1) }
    ensures job { seat.old.me.1 ≡ (slot, result) ∷ rest seat.old.me.1 }
    ensures seat { (seat.new.table_id ≡ seat.old.table_id) × (seat.new.id ≡ seat.old.id)
        × (seat.new.me ≡ (seat.old.me.0, (slot, None) ∷ rest seat.old.me.1)) }
{
    shelf.exchange(seat, slot, None)
}

/// Puts a job into the slot that the seat took last, which is empty.
pub(crate) fn put_in<A: Allocator + Copy>(
    shelf: &Shelf<A>,
    seat: &mut Seat<Slot<A>, View<A>>,
    slot: usize,
    job: CopyJob<A>,
)
    requires own { seat.old.table_id ≡ shelf.now.table_id }
    requires last { (old : Option (CopyJob A)) × (seat.old.me.1 ≡ (slot, old) ∷ rest seat.old.me.1) }
    ensures { (seat.new.table_id ≡ seat.old.table_id) × (seat.new.id ≡ seat.old.id)
        × (seat.new.me ≡ (seat.old.me.0, (slot, Some job) ∷ rest seat.old.me.1)) }
{
    shelf.exchange(seat, slot, Some(job));
}

/// Splits a seat with `shares` shares off another.
pub(crate) fn cut<N: Amount, A: Allocator + Copy>(
    shelf: &Shelf<A>,
    seat: &mut Seat<Slot<A>, View<A>>,
    shares: u64,
) -> Seat<Slot<A>, View<A>>
    requires amount { shares ≡ N.amount }
    requires table { (seat.old.table_id ≡ shelf.now.table_id) × (shelf.now.table_id.words ≡ 9) }
    requires shares { (0 < shares) × (shares < seat.old.me.0.shares) }

    // Both are of this table
    ensures table { (seat.new.table_id ≡ seat.old.table_id) × (result.table_id ≡ seat.old.table_id) }

    // What each knows
    ensures left { seat.new.me ≡ (less shares seat.old.me.0, seat.old.me.1) }
    ensures part { result.me ≡ (part shares seat.old.me.0, []) }
{
    shelf.split_seat::<Cut<N>>(seat)
}
