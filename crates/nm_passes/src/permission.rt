//! Who may act on a process's pages.

ghost use Rattle.std.specs.Prelude.{◌≡◌, IfOk, Some};
ghost use Rattle.nm_runs.specs.Targets.{Checks};
ghost use Rattle.nm_passes.specs.definitions.Permission.{flags_refusal, has_move_all, owner_of, allowed_at, query_refusal, right_refusal};
ghost use Rattle.nm_passes.specs.definitions.Permission.{names_missing_node, usable};

use nm_engine::Machine;
use nm_types::{Errno, MoveFlags, NodeMask, Pid, ProcessInfo};
use std::alloc::Allocator;

/// What a caller may do with a process's pages.
#[derive(Clone, Copy)]
pub struct Permit {
    /// The process's number.
    pub pid: Pid,
    /// The nodes that it may use.
    pub allowed: NodeMask,
    /// Whether pages move even if other processes see them.
    pub all: bool,
}

/// Whether the flags ask for pages that other processes also see. Errors, in order: EINVAL for an unknown flag; EPERM
/// if they do so without privilege.
fn asks_all(flags: u32, privileged: bool) -> Result<bool, Errno>
    ensures exact { Checks result (flags_refusal privileged flags) }
    ensures all { IfOk result (λ all. all ≡ has_move_all flags) }
{
    let known = MoveFlags::from_bits(flags).ok_or(Errno::Einval)?;
    if known.is_strict() {
        return Err(Errno::Einval);
    }
    let all = known.moves_all();
    if all && !privileged {
        return Err(Errno::Eperm);
    }
    Ok(all)
}

/// The process whose pages a call names. Pid 0 means the caller.
pub fn owner_of(caller: Pid, pid: Pid) -> Pid
    ensures { result ≡ owner_of caller pid }
{
    if pid.number() == 0 { caller } else { pid }
}

/// What `spawn` fixed of a process, if another may act on its pages. Errors, in order: ESRCH (no such process); EPERM
/// (it has another user, and the caller is not privileged).
pub fn acted_on(caller: ProcessInfo, owner: Option<ProcessInfo>) -> Result<ProcessInfo, Errno>
    ensures exact { Checks result (right_refusal caller owner) }
    ensures info { IfOk result (λ info. owner ≡ Some info) }
{
    let ProcessInfo {
        uid,
        privileged,
        ..
    } = caller;
    let Some(owner) = owner else {
        return Err(Errno::Esrch);
    };
    if uid != owner.uid && !privileged {
        return Err(Errno::Eperm);
    }
    Ok(owner)
}

/// Whether a set has a node that the machine does not have.
pub fn names_missing_node<A: Allocator + Copy + Send + Sync>(
    machine: &Machine<A>,
    nodes: NodeMask,
) -> bool
    ensures { result ≡ names_missing_node machine.now nodes }
{
    nodes.has_beyond(machine.geometry().node_count())
}

/// The nodes of a set that are online and that a process may use.
#[tactic(auto, using(crate::proofs::Policies::NamedNodes::usable_is))]
pub fn usable<A: Allocator + Copy + Send + Sync>(
    machine: &Machine<A>,
    allowed: NodeMask,
    nodes: NodeMask,
) -> NodeMask
    ensures { result ≡ usable machine.now allowed nodes }
{
    nodes.intersection(machine.online()).intersection(allowed)
}

/// What a caller may do with a process's pages. Pid 0 means the caller. Errors, in order: ESRCH (no such caller);
/// EINVAL (an unknown flag); EPERM (MPOL_MF_MOVE_ALL without privilege); ESRCH (no such process); EPERM (a process of
/// another user, without privilege).
pub fn permit_of<A: Allocator + Copy + Send + Sync>(
    machine: &Machine<A>,
    caller: Pid,
    pid: Pid,
    flags: u32,
) -> Result<Permit, Errno>
    // In any case
    ensures exact { Checks result (query_refusal machine.now caller pid flags) }

    // On success
    ensures pid { IfOk result (λ permit. permit.pid ≡ owner_of caller pid) }
    ensures all { IfOk result (λ permit. permit.all ≡ has_move_all flags) }
    ensures allowed { IfOk result
        (λ permit. allowed_at machine.now (owner_of caller pid) ≡ Some permit.allowed) }
{
    let Some(caller_info) = machine.spaces().info(caller) else {
        return Err(Errno::Esrch);
    };
    let all = asks_all(flags, caller_info.privileged)?;
    let owner = owner_of(caller, pid);
    let info = acted_on(caller_info, machine.spaces().info(owner))?;
    Ok(Permit {
        pid: owner,
        allowed: info.allowed,
        all,
    })
}
