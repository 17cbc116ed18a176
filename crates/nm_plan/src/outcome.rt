//! The plan of a run.

ghost use Rattle.std.specs.Prelude.{◌≡◌};

use crate::PageMove;
use std::alloc::Allocator;
use std::marker::Model;

/// Which page of a run takes which frame, and the status of each request. Contracts see both lists, and the index of
/// the first request that found no free frame.
#[derive(Debug, Drop)]
pub struct Plan<A: Allocator + Copy> {
    pub(crate) moves: Vec<PageMove, A>,
    pub(crate) statuses: Vec<i32, A>,
    pub(crate) shortage: Option<usize>,
}

impl<A: Allocator + Copy> Model for Plan<A> {
    ghost use Rattle.nm_model.specs.definitions.Decide.{RunPlan};

    ghost Value = { RunPlan };

    ghost view = { λ p. record { statuses = p.statuses.items; taken = p.moves.items; shortage = p.shortage } };
}

impl<A: Allocator + Copy> Plan<A> {
    /// The pages that move, in order, each once, with the frame that it leaves and the frame that it takes.
    pub fn moves(&self) -> &[PageMove]
        ensures { result.now ≡ self.now.taken }
    {
        self.moves.as_slice()
    }

    /// The status of each request: the target's number, or an error's number with a minus sign.
    pub fn statuses(&self) -> &[i32]
        ensures { result.now ≡ self.now.statuses }
    {
        self.statuses.as_slice()
    }

    /// The index, from 0, of the first request whose page found no free frame. None if every page found one.
    pub fn shortage(&self) -> Option<usize>
        ensures { result ≡ self.now.shortage }
    {
        self.shortage
    }

    /// The statuses alone.
    pub fn into_statuses(self) -> Vec<i32, A>
        ensures { result.items ≡ self.statuses }
    {
        let Plan { statuses, .. } = self;
        statuses
    }
}
