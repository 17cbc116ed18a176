//! The workers, and what each of them does.

ghost use Rattle.std.specs.Prelude.{◌≡◌, [], true};
ghost use Rattle.nm_threads.specs.Named.{identity_of};
ghost use Rattle.nm_threads.specs.Hands.{IsReady, HasNoJob};

use crate::gate::Gate;
use crate::room::Room;
use nm_board::{Board, Hand};
use std::alloc::Allocator;
use std::marker::PhantomData;

/// A hand with one share of the board that `B` names, which has given back all that it drew. It is lent to a thread and
/// remains the caller's.
#[derive(Drop)]
pub(crate) struct Worker<A: Allocator + Copy, B: Room> {
    pub(crate) hand: Hand<A>,
    pub(crate) room: PhantomData<B>,
    pub(crate) ghost own: { identity_of hand.board ≡ B.board },
    pub(crate) ghost one: { hand.shares ≡ 1 },
    pub(crate) ghost back: { hand.out ≡ [] },
}

impl<A: Allocator + Copy, B: Room> Worker<A, B> {
    /// Works until no job is left to draw.
    pub(crate) fn run<G: Gate>(&mut self, board: &Board<A>, gate: &G, number: usize)
        requires { identity_of board.now ≡ B.board }
        ensures { self.new.hand.past_end ≡ true }
    {
        if !self.hand.past_end() {
            work_off(board, &mut self.hand, gate, number);
        }
    }
}

/// Draws, copies and gives back until no job is left to draw.
pub(crate) fn work_off<A: Allocator + Copy, G: Gate>(
    board: &Board<A>,
    hand: &mut Hand<A>,
    gate: &G,
    worker: usize,
)
    requires { IsReady board.now hand.old }
    ensures { HasNoJob board.now hand.old.shares hand.new }
{
    while let Some(mut job) = board.draw(hand) {
        gate.pass(worker, job.ticket);
        job.copy();
        board.give(hand, job);
    }
}
