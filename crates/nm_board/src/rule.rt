//! The board's rule, and what a hand learns from each step that it makes. These types are for proofs only.

ghost use Rattle.std.specs.Prelude.{ℕ};
ghost use Rattle.nm_board.specs.Rule.{IsBoardRule, first_view, spent_view};
ghost use Rattle.nm_board.specs.Steps.{Draws, GivesBack, Counts, LooksAtBoard, less, part, both};

use crate::view::View;
use atomic_table::{Join, Play, Shared, Split, TableRule};
use nm_frames::CopyJob;
use std::alloc::Allocator;
use std::marker::{Brand, PhantomData};
use std::snapshot::Snapshot;

/// The content of a slot of the table: a job, or none while its job is out.
pub(crate) type Slot<A> = Option<CopyJob<A>>;

/// The words and slots of a board, as threads share them.
pub(crate) type Shelf<A> = Shared<Slot<A>, View<A>, Snapshot<Vec<CopyJob<A>, A>>, Tickets>;

/// The rule of a board.
pub struct Tickets;

impl<A: Allocator + Copy> TableRule<Slot<A>, View<A>, Snapshot<Vec<CopyJob<A>, A>>> for Tickets {
    ghost holds = { λ laid state. IsBoardRule laid.value.items state };

    ghost first = { λ laid. first_view laid.value.items };
}

/// Drawing a ticket.
pub struct Drawing;

impl<A: Allocator + Copy> Play<Slot<A>, View<A>> for Drawing {
    ghost then = { Draws };
}

/// Giving a ticket back.
pub struct Giving;

impl<A: Allocator + Copy> Play<Slot<A>, View<A>> for Giving {
    ghost then = { GivesBack };
}

/// Counting the tickets that were given back.
pub struct Counting;

impl<A: Allocator + Copy> Play<Slot<A>, View<A>> for Counting {
    ghost then = { Counts };
}

/// A look that changes nothing.
pub struct Looking;

impl<A: Allocator + Copy> Play<Slot<A>, View<A>> for Looking {
    ghost then = { LooksAtBoard };
}

/// A number of shares to split off.
pub trait Amount {
    ghost amount: { ℕ };
}

impl Amount for Brand {
    ghost amount = { 1 };
}

/// Splitting `N.amount` shares off a hand.
pub struct Cut<N> {
    amount: PhantomData<N>,
}

impl<A: Allocator + Copy, N: Amount> Split<View<A>> for Cut<N> {
    ghost left = { less N.amount };

    ghost right = { part N.amount };
}

/// Joining two hands.
pub struct Both;

impl<A: Allocator + Copy> Join<View<A>> for Both {
    ghost both = { both };

    ghost spent = { spent_view };
}
