//! Where the pages are that a process sees, as move_pages(2) without nodes reports it.

ghost use Rattle.std.specs.Prelude.{◌≡◌, ◌<◌, IfOk, OnErr, length};
ghost use Rattle.nm_model.specs.definitions.Status.{node_status};
ghost use Rattle.nm_calls.specs.definitions.Outcome.{statuses_of};

use nm_engine::Machine;
use nm_types::{Errno, PageView, Pid, Seen, Vpn};
use std::alloc::{AllocError, Allocator};

/// Where the page is that a process sees at a page number: its node's number, or an error's number with a minus sign:
/// -14 (EFAULT) if there is no area, or only the page of zeros; -2 (ENOENT) if nothing was touched.
pub(crate) fn node_status<A: Allocator + Copy + Send + Sync>(
    machine: &Machine<A>,
    pid: Pid,
    vpn: Vpn,
) -> i32
    ensures { result ≡ node_status machine.now pid vpn }
{
    let geometry = machine.geometry();
    prove!(geometry.node_count() <= 64);
    match machine.spaces().seen(pid, vpn) {
        Seen::NoArea | Seen::Zero => -Errno::Efault.number(),
        Seen::Absent => -Errno::Enoent.number(),
        Seen::At { frame, .. } => geometry.node_of(frame).number() as i32,
    }
}

/// Where the pages at some addresses of a process are. An error means that the host is out of memory; no addresses take
/// none.
pub(crate) fn statuses_of<A: Allocator + Copy + Send + Sync>(
    alloc: A,
    machine: &Machine<A>,
    pid: Pid,
    pages: &[u64],
) -> Result<Vec<i32, A>, AllocError>
    ensures list { IfOk result
        (λ statuses. statuses.items ≡ statuses_of machine.now pid pages.now) }
    ensures allocates { OnErr result (0 < length pages.now) }
{
    let mut statuses = Vec::with_capacity(alloc, pages.len())?;
    for address in pages {
        let status = node_status(machine, pid, Vpn::of_address(*address));
        statuses.push(status)?;
    }
    Ok(statuses)
}
