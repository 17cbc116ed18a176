//! Moving pages from nodes to nodes, as migrate_pages(2) does: whether it is allowed, and its runs.

ghost use Rattle.std.specs.Prelude.{◌≡◌, ◌<◌, [], IfOk, IsSome, Some};
ghost use Rattle.std.specs.List.{AllByRecursion};
ghost use Rattle.nm_types.specs.Layout.{node_count};
ghost use Rattle.nm_policy.specs.definitions.Pairs.{pairs};
ghost use Rattle.nm_runs.specs.Targets.{Checks};
ghost use Rattle.nm_passes.specs.definitions.Moves.{Moves};
ghost use Rattle.nm_passes.specs.definitions.Permission.{info_at};
ghost use Rattle.nm_passes.specs.definitions.Permission.{usable};
ghost use Rattle.nm_calls.specs.definitions.Migrate.{new_refusal, migrate_refusal, migration};
ghost use Rattle.nm_passes.specs.definitions.Listing.{migrate_list};

use nm_engine::{Machine, RunCrew};
use nm_passes::{
    CallError, Moved, acted_on, migrate_list, move_runs, names_missing_node, owner_of, usable,
};
use nm_policy::pairs;
use nm_requests::{InFlight, MigrateRequest};
use nm_runs::cut;
use nm_types::{Errno, NodeMask, Pid, ProcessInfo};
use std::alloc::Allocator;

/// What a caller may move.
#[derive(Clone, Copy)]
pub(crate) struct Migration {
    /// The number of the process whose pages move.
    pub(crate) pid: Pid,
    /// Whether pages move even if other processes see them.
    pub(crate) all: bool,
    /// The nodes that they go to: those named that are online and that the process may use.
    pub(crate) targets: NodeMask,
}

/// Which of the nodes that a caller names the pages of a process may go to. Errors, in order: EPERM (a node that the
/// process may not use, without privilege); EINVAL (no node that is online and allowed).
#[tactic(auto, using(nm_passes::proofs::Policies::NamedNodes::none_is))]
fn targets_of<A: Allocator + Copy + Send + Sync>(
    machine: &Machine<A>,
    privileged: bool,
    new: NodeMask,
    asked: ProcessInfo,
) -> Result<NodeMask, Errno>
    ensures exact { Checks result (new_refusal machine.now privileged new asked) }
    ensures targets { IfOk result (λ targets. targets ≡ usable machine.now asked.allowed new) }
{
    if !new.is_subset(asked.allowed) && !privileged {
        return Err(Errno::Eperm);
    }
    let targets = usable(machine, asked.allowed, new);
    if targets.is_empty() {
        return Err(Errno::Einval);
    }
    Ok(targets)
}

/// What a caller may move of a process to some nodes. Pid 0 means the caller. Errors, in order: ESRCH (no such caller);
/// EINVAL (a node that the machine does not have); ESRCH (no such process); EPERM (a process of another user, without
/// privilege); EPERM (a new node that the process may not use, without privilege); EINVAL (no new node that is online
/// and allowed).
pub(crate) fn migration_of<A: Allocator + Copy + Send + Sync>(
    machine: &Machine<A>,
    request: &MigrateRequest,
) -> Result<Migration, Errno>
    // In any case
    ensures exact { Checks result
        (migrate_refusal machine.now request.now.caller request.now.pid request.now.old request.now.new) }

    // On success
    ensures list { IfOk result
        (λ m. migration machine.now request.now.caller request.now.pid request.now.old request.now.new
        ≡ migrate_list machine.now m.pid m.all (pairs request.now.old m.targets)) }
    ensures there { IfOk result (λ m. IsSome (info_at machine.now m.pid)) }
    ensures nodes { IfOk result
        (λ m. AllByRecursion (λ n. n < node_count (machine.now.layout)) m.targets) }
{
    let MigrateRequest {
        caller,
        pid,
        old,
        new,
    } = *request;
    let Some(asking) = machine.spaces().info(caller) else {
        return Err(Errno::Esrch);
    };
    if names_missing_node(machine, old) || names_missing_node(machine, new) {
        return Err(Errno::Einval);
    }
    let owner = owner_of(caller, pid);
    let privileged = asking.privileged;
    let asked = acted_on(asking, machine.spaces().info(owner))?;
    let targets = targets_of(machine, privileged, new, asked)?;
    Ok(Migration {
        pid: owner,
        all: privileged,
        targets,
    })
}

/// Moves a process's pages from nodes to nodes, run after run, with at most `limit` requests in each run. The list of
/// pages and all runs are made before the first run starts. An error means that the host is out of memory, and says
/// after how many runs.
#[tactic(auto, using(nm_passes::proofs::Trails::first_state))]
pub(crate) fn migrate<A: Allocator + Copy + Send + Sync, C: RunCrew<A>>(
    crew: &C,
    alloc: A,
    machine: &mut Machine<A>,
    what: Migration,
    old: NodeMask,
    limit: usize,
) -> Result<Moved<A>, CallError>
    requires some { 0 < limit }
    requires there { IsSome (info_at machine.old what.pid) }
    requires nodes { AllByRecursion (λ n. n < node_count machine.old.layout) what.targets }
    ensures { Moves result machine.old machine.new limit
        (migrate_list machine.old what.pid what.all (pairs old what.targets)) [] }
{
    let pairs = pairs(alloc, old, what.targets)?;
    let requests = migrate_list(alloc, machine, what.pid, what.all, pairs.as_slice())?;
    let runs = cut(alloc, requests.as_slice(), limit)?;
    let statuses = Vec::with_capacity(alloc, requests.len())?;
    let none: [InFlight<A>; 0] = [];
    move_runs(
        crew,
        alloc,
        machine,
        runs.as_slice(),
        none.as_slice(),
        statuses,
    )
}
