//! Jobs for workers to copy.

ghost use Rattle.std.specs.Prelude.{◌≡◌, IfOk};
ghost use Rattle.nm_board.specs.Tickets.{InTicketOrder};

use nm_frames::{CopyJob, FrameStore};
use nm_types::FrameId;
use std::alloc::{AllocError, Allocator};

/// A job whose source begins with this byte.
fn job<A: Allocator + Copy>(alloc: A, ticket: u64, byte: u8) -> Result<CopyJob<A>, AllocError>
    ensures { IfOk result (λ job. job.ticket ≡ ticket) }
{
    let mut store = FrameStore::new(alloc, 2)?;
    let first = FrameId::new(0);
    let second = FrameId::new(1);
    store.write(first, 0, [byte].as_slice());
    Ok(CopyJob {
        source: store.take_out(first),
        target: store.take_out(second),
        ticket,
    })
}

/// Jobs whose sources begin with 1, 2 and so on.
pub(crate) fn jobs<A: Allocator + Copy>(
    alloc: A,
    count: u8,
) -> Result<Vec<CopyJob<A>, A>, AllocError>
    ensures { IfOk result (λ jobs. InTicketOrder jobs.items) }
{
    let mut jobs = Vec::with_capacity(alloc, count as usize)?;
    for ticket in 0..count {
        let job = job(alloc, ticket as u64, ticket.wrapping_add(1))?;
        jobs.push_reserved(job);
    }
    Ok(jobs)
}

/// Whether this is the job of `jobs` with this ticket, copied or not.
fn is_job<A: Allocator + Copy>(job: &CopyJob<A>, ticket: u8, copied: bool) -> bool {
    let byte = ticket.wrapping_add(1);
    let target = if copied { byte } else { 0 };
    job.ticket == ticket as u64 && job.source.bytes()[0] == byte && job.target.bytes()[0] == target
}

/// Whether these are the first `count` of the jobs of `jobs` in order, all copied or none copied.
pub(crate) fn are_jobs<A: Allocator + Copy>(
    jobs: &[CopyJob<A>],
    count: usize,
    copied: bool,
) -> bool {
    let mut next = 0u8;
    for job in jobs {
        if !is_job(job, next, copied) {
            return false;
        }
        next = next.wrapping_add(1);
    }
    jobs.len() == count
}
