ghost use Rattle.std.specs.Prelude.{◌≡◌, [], false, true, slice_get, Some, IfOk};
ghost use Rattle.nm_board.specs.Shown.{all_shares, without_ticket};

use crate::work::{are_jobs, jobs};
use nm_board::{Board, Hand};
use nm_frames::CopyJob;
use nm_refusing_alloc::Refusing;
use std::alloc::{AllocError, Global};
use std::test::Fail;
use std::thread;

/// A board of the jobs of `jobs`, and its hand.
fn lay_jobs(alloc: Global, count: u8) -> Result<(Board<Global>, Hand<Global>), AllocError>
    ensures { IfOk result (λ laid. laid.1 ≡ all_shares laid.0) }
{
    match Board::lay(alloc, jobs(alloc, count)?) {
        Ok(laid) => Ok(laid),
        Err(_) => Err(AllocError),
    }
}

/// Copies a job, and gives it back.
fn give_copied(board: &Board<Global>, hand: &mut Hand<Global>, mut job: CopyJob<Global>)
    requires own { hand.old.board ≡ board.now }
    requires last { slice_get hand.old.out 0 ≡ Some job.ticket }
    requires laid { slice_get board.now.jobs job.ticket ≡ Some job }
    ensures { hand.new ≡ without_ticket hand.old job.ticket }
{
    job.copy();
    board.give(hand, job);
}

/// Whether a board returns this many jobs, those of `jobs` in order and copied.
fn comes_back(board: Board<Global>, hand: Hand<Global>, count: usize) -> bool
    requires own { hand.board ≡ board }
    requires past_end { hand.past_end ≡ true }
{
    match board.clear(hand) {
        Ok(jobs) => are_jobs(jobs.as_slice(), count, true),
        Err(_) => false,
    }
}

/// What a hand drew: the number of tickets, and a bit for each.
#[derive(Drop)]
struct Drawn {
    count: u32,
    tickets: u128,
}

/// Draws, copies and gives back until no job is left.
fn work_off(board: &Board<Global>, mut hand: Hand<Global>) -> (Hand<Global>, Drawn)
    requires own { hand.board ≡ board.now }
    requires ready { (hand.out ≡ []) × (hand.past_end ≡ false) }
    ensures own { result.0.board ≡ board.now }
    ensures back { (result.0.out ≡ []) × (result.0.shares ≡ hand.shares) }
{
    let mut drawn = Drawn {
        count: 0,
        tickets: 0,
    };
    for _ in 0..101 {
        let Some(job) = board.draw(&mut hand) else {
            break;
        };
        drawn.count = drawn.count.wrapping_add(1);
        if job.ticket < 128 {
            drawn.tickets |= 1u128 << job.ticket;
        }
        give_copied(board, &mut hand, job);
    }
    (hand, drawn)
}

/// Whether two hands drew each of 100 tickets between them, and none twice.
fn share_hundred(one: &Drawn, two: &Drawn) -> bool {
    one.count.wrapping_add(two.count) == 100
        && one.tickets & two.tickets == 0
        && one.tickets | two.tickets == (1u128 << 100) - 1
}

/// Two threads with 32 shares each draw 100 different tickets, and all jobs come back in order.
#[test]
fn two_threads(rt: HostRuntime) -> Result<(), Fail> {
    let (board, mut hand) = lay_jobs(rt.alloc(), 100)?;
    let other = hand.split(&board, 32);
    assert!(rt; hand.shares() == 32 && other.shares() == 32 && !other.past_end());
    let shared = &board;
    let ((mut hand, one), (other, two)) = thread::join(
        &rt,
        move || -> (Hand<Global>, Drawn)
            requires { (hand.board ≡ shared.now) × (hand.out ≡ []) × (hand.past_end ≡ false) }
            ensures { (result.0.board ≡ shared.entry.now) × (result.0.out ≡ [])
                × (result.0.shares ≡ hand.shares) }
        { work_off(shared, hand) },
        move || -> (Hand<Global>, Drawn)
            requires { (other.board ≡ shared.now) × (other.out ≡ []) × (other.past_end ≡ false) }
            ensures { (result.0.board ≡ shared.entry.now) × (result.0.out ≡ [])
                × (result.0.shares ≡ other.shares) }
        { work_off(shared, other) },
    );
    assert!(rt; share_hundred(&one, &two) && hand.past_end() && other.past_end());
    hand.join(&board, other);
    assert!(rt; hand.shares() == 64 && hand.past_end());
    assert!(rt; comes_back(board, hand, 100));
    Ok(())
}

/// Whether three jobs come back as they were because no board is laid while the allocation with this number is refused.
fn come_back_without(heap: &Refusing<Global>, number: u64) -> Result<bool, AllocError> {
    heap.refuse(0);
    let jobs = jobs(heap, 3)?;
    heap.refuse(number);
    match Board::lay(heap, jobs) {
        Ok(_) => Ok(false),
        Err(back) => Ok(are_jobs(back.as_slice(), 3, false)),
    }
}

/// If memory is refused, each of a board's three allocations in turn, the jobs come back as they were.
#[test]
fn refused_memory(rt: HostRuntime) -> Result<(), Fail> {
    let heap = Refusing::new(rt.alloc());
    for number in 1..5 {
        let back = come_back_without(&heap, number)?;
        assert!(rt; back == (number < 4), "without allocation {number}");
    }
    Ok(())
}
