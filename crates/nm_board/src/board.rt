//! The board.

ghost use Rattle.std.specs.Prelude.{◌≡◌, ◌<◌, false, true, length, map, slice_get, Some, IfOk, IfErr, IfSome, IfNone};
ghost use Rattle.nm_frames.specs.Job.{job_after_copy};
ghost use Rattle.nm_board.specs.Tickets.{InTicketOrder};
ghost use Rattle.nm_board.specs.Shown.{all_shares, without_ticket, Drew, HasEach, IsShort};

use crate::hand::Hand;
use crate::rule::{Counting, Drawing, Giving, Slot, Tickets};
use crate::slots::{into_slots, refill, take_all};
use crate::steps::{put_in, take_out};
use crate::view::View;
use atomic_table::{Refused, Table};
use nm_frames::CopyJob;
use std::alloc::Allocator;
use std::marker::Model;
use std::snapshot::Snapshot;

/// The word that counts the draws.
pub(crate) const NEXT: usize = 0;

/// The word that counts the jobs given back.
pub(crate) const GIVEN: usize = 8;

/// The words of a new board. There are 64 bytes between the two that count, so that threads that draw and threads that
/// give back do not contend for one cache line.
const WORDS: [u64; 9] = [0; 9];

/// How many shares a board has, over all its hands.
pub(crate) const SHARES: u64 = 64;

/// Copy jobs laid out for threads. Contracts see the jobs as they were when the board was made, and the board's
/// identity.
#[derive(Drop)]
pub struct Board<A: Allocator + Copy> {
    pub(crate) table: Table<Slot<A>, View<A>, Snapshot<Vec<CopyJob<A>, A>>, Tickets, A>,
    /// The list that the jobs came in: empty, with room to return them in.
    room: Vec<CopyJob<A>, A>,
}

impl<A: Allocator + Copy> Model for Board<A> {
    ghost use Rattle.std.specs.Prelude.{vec_len, vec_capacity};
    ghost use Rattle.nm_board.specs.Shown.{Laying, IsBoard};

    ghost Value = { Laying A };

    ghost view = { λ b. record { id = b.table.shared.table_id; jobs = b.table.shared.key.value.items } };

    ghost invariant = { λ b. IsBoard (record { id = b.table.shared.table_id; jobs = b.table.shared.key.value.items }) (vec_len b.room) (vec_capacity b.room) };
}

/// Some ticket was not given back. The board and the hand are returned unchanged.
#[derive(Drop)]
pub struct Short<A: Allocator + Copy> {
    /// The board.
    pub board: Board<A>,
    /// The hand.
    pub hand: Hand<A>,
}

impl<A: Allocator + Copy> Board<A> {
    /// Makes a board of jobs whose tickets count up from 0, and a hand with all 64 shares. Returns the jobs if the host
    /// is out of memory.
    pub fn lay(
        alloc: A,
        jobs: Vec<CopyJob<A>, A>,
    ) -> Result<(Board<A>, Hand<A>), Vec<CopyJob<A>, A>>
        requires { InTicketOrder jobs.items }

        // On success
        ensures jobs { IfOk result (λ r. r.0.jobs ≡ jobs.items) }
        ensures hand { IfOk result (λ r. r.1 ≡ all_shares r.0) }

        // Without memory
        ensures refused { IfErr result (λ back. back.items ≡ jobs.items) }
    {
        let laid = Snapshot::of(&jobs);
        let mut room = jobs;
        let Ok(slots) = into_slots(alloc, &mut room) else {
            return Err(room);
        };
        match Table::new(alloc, &WORDS, slots, &laid) {
            Ok((table, seat)) => Ok((
                Board { table, room },
                Hand {
                    seat,
                    shares: SHARES,
                    past_end: false,
                },
            )),
            Err(Refused { slots }) => {
                refill(&mut room, slots, &laid);
                Err(room)
            }
        }
    }

    /// Draws the job of the next ticket, which is above each ticket that the hand drew before. Returns None if no job
    /// is left; the hand is then past the end. The hand must be one of this board and not past the end. A draw waits
    /// for no other thread and does not allocate.
    pub fn draw(&self, hand: &mut Hand<A>) -> Option<CopyJob<A>>
        requires own { hand.old.board ≡ self.now }
        requires open { hand.old.past_end ≡ false }

        // If a job is left
        ensures job { IfSome result (λ job. Drew hand.old hand.new job) }

        // If none is left
        ensures none { IfNone result (hand.new ≡ record hand.old { past_end = true }) }
        ensures each { IfNone result (hand.new.shares ≡ 64 → HasEach hand.new) }
    {
        let ticket = self
            .table
            .shared
            .fetch_add::<Drawing>(&mut hand.seat, NEXT, 1);
        if ticket >= self.table.slot_count() as u64 {
            hand.past_end = true;
            return None;
        }
        take_out(&self.table.shared, &mut hand.seat, ticket as usize)
    }

    /// Gives back the job of the last ticket that the hand drew and still has out: as it was drawn, and copied. Waits
    /// for no other thread and does not allocate.
    pub fn give(&self, hand: &mut Hand<A>, job: CopyJob<A>)
        requires own { hand.old.board ≡ self.now }
        requires last { slice_get hand.old.out 0 ≡ Some job.ticket }
        requires job { slice_get (map job_after_copy self.now.jobs) job.ticket ≡ Some job }
        ensures { hand.new ≡ without_ticket hand.old job.ticket }
    {
        let slot = job.ticket as usize;
        put_in(&self.table.shared, &mut hand.seat, slot, job);
        self.table
            .shared
            .fetch_add::<Giving>(&mut hand.seat, GIVEN, 1);
    }

    /// Returns all jobs in the order of their tickets, each as it was when the board was made, and copied. If some
    /// ticket was not given back, returns the board and the hand instead; if the hand has all shares, that ticket is
    /// still out with it. A hand that has given back every ticket itself never gets this answer.
    pub fn clear(self, mut hand: Hand<A>) -> Result<Vec<CopyJob<A>, A>, Short<A>>
        requires own { hand.board ≡ self }
        requires past_end { hand.past_end ≡ true }

        // On success
        ensures all { IfOk result (λ jobs. jobs.items ≡ map job_after_copy self.jobs) }

        // If a ticket was not given back
        ensures back { IfErr result (λ short. (short.board ≡ self) × (short.hand ≡ hand)) }
        ensures short { IfErr result (λ short. hand.shares ≡ 64 → IsShort hand) }
        ensures fewer { IfErr result (λ short. length hand.done < length self.jobs) }
    {
        let given = self.table.shared.load::<Counting>(&mut hand.seat, GIVEN);
        if given != self.table.slot_count() as u64 {
            return Err(Short { board: self, hand });
        }
        let Board { table, mut room } = self;
        let Hand { seat, .. } = hand;
        take_all(table.close_with(seat), &mut room);
        Ok(room)
    }
}
