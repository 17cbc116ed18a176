//! The hands that draw from a board.

ghost use Rattle.std.specs.Prelude.{◌≡◌, ◌<◌, [], true};
ghost use Rattle.nm_board.specs.Shown.{drop_ticket, split_off, both_holdings, HasEach, HasNoneTwice};

use crate::board::{Board, GIVEN};
use crate::rule::{Both, Looking, Slot};
use crate::steps::cut;
use crate::view::View;
use atomic_table::Seat;
use std::alloc::Allocator;
use std::marker::{Brand, Model};

/// The right to draw from a board, with some of its 64 shares. Contracts see its board, its shares, whether it is past
/// the end, the tickets that it drew, those that it gave back, and those that it has out.
#[derive(Drop)]
pub struct Hand<A: Allocator + Copy> {
    pub(crate) seat: Seat<Slot<A>, View<A>>,
    pub(crate) shares: u64,
    pub(crate) past_end: bool,
}

impl<A: Allocator + Copy> Model for Hand<A> {
    ghost use Rattle.nm_board.specs.Shown.{Holding, Fits, holding_of};

    ghost Value = { Holding A };

    ghost view = { λ h. holding_of h.seat.table_id h.seat.me h.shares h.past_end };

    ghost invariant = { λ h. Fits h.seat.me h.shares h.past_end };
}

impl<A: Allocator + Copy> Hand<A> {
    /// Splits off a new hand with `shares` of this hand's shares: at least 1, and fewer than it has. The new hand has
    /// drawn nothing, and is past the end if this one is.
    pub fn split(&mut self, board: &Board<A>, shares: u64) -> Hand<A>
        requires own { self.old.board ≡ board.now }
        requires some { 0 < shares }
        requires fewer { shares < self.old.shares }
        ensures left { self.new ≡ drop_ticket self.old shares }
        ensures new { result ≡ split_off self.old shares }
    {
        let past_end = self.past_end;
        let seat = cut::<Brand, A>(&board.table.shared, &mut self.seat, shares);
        self.shares -= shares;
        Hand {
            seat,
            shares,
            past_end,
        }
    }

    /// Joins another hand into this one, with its shares and tickets. Both must have given back all that they drew. A
    /// hand that then has all shares, and any part of which was past the end, has drawn each ticket once.
    pub fn join(&mut self, board: &Board<A>, other: Hand<A>)
        requires own { (self.old.board ≡ board.now) × (other.board ≡ board.now) }
        requires given { (self.old.out ≡ []) × (other.out ≡ []) }

        // In any case
        ensures both { self.new ≡ both_holdings self.old other }
        ensures once { HasNoneTwice self.new }

        // With all shares
        ensures each { self.new.past_end ≡ true → self.new.shares ≡ 64 → HasEach self.new }
    {
        let Hand {
            seat,
            shares,
            past_end,
        } = other;
        board.table.shared.join_seat::<Both>(&mut self.seat, seat);
        board.table.shared.load::<Looking>(&mut self.seat, GIVEN);
        self.shares += shares;
        self.past_end |= past_end;
    }
}
