//! The policy of a range, as mbind(2) sets it: what is refused, and what is done in which order.

ghost use Rattle.std.specs.Prelude.{Bool, Err, IfNone, IfOk, IfSome, OnErr, false, length, not, true, ℕ, ◌&&◌, ◌-◌, ◌*◌, ◌<◌, ◌≡◌, ◌≤◌, ◌⊎◌, ◌^◌};
ghost use Rattle.std.specs.List.{AllByRecursion, list_any};
ghost use Rattle.nm_types.specs.Layout.{node_count};
ghost use Rattle.nm_areas.specs.Splits.{HasSplit};
ghost use Rattle.nm_runs.specs.Targets.{Checks};
ghost use Rattle.nm_model.specs.definitions.Effect.{set_range_policy};
ghost use Rattle.nm_passes.specs.declared.call_error.CallError.TheVariants.{HostMemory};
ghost use Rattle.nm_passes.specs.definitions.Permission.{info_at};
ghost use Rattle.nm_passes.specs.definitions.Permission.{usable};
ghost use Rattle.nm_calls.specs.definitions.Mbind.{preferred_policy, policy_of, policy_asked, is_misfit, is_bad_set, has_move, mode_refusal, range_of, binding_refusal, home_of, is_strict, pages_to_bind, mbind_runs, mbind_refusal, binding};
ghost use Rattle.nm_passes.specs.definitions.Placement.{is_stray};
ghost use Rattle.nm_passes.specs.views.Runs.{nodes_named};
ghost use Rattle.nm_calls.specs.views.Ends.{Binds};

use nm_areas::PageRange;
use nm_engine::{Machine, RunCrew};
use nm_passes::{
    Binding, CallError, astray, make_moves, names_missing_node, some_stray, stray_from, usable,
    way_of,
};
use nm_requests::MbindRequest;
use nm_types::{Errno, LocatedPage, MoveFlags, NodeId, NodeMask, Policy, ProcessInfo};
use std::alloc::{AllocError, Allocator};

// The modes of mbind(2), by their numbers.
const MPOL_DEFAULT: u32 = 0;

const MPOL_PREFERRED: u32 = 1;

const MPOL_BIND: u32 = 2;

const MPOL_INTERLEAVE: u32 = 3;

const MPOL_LOCAL: u32 = 4;

/// The lowest node is preferred, or the nearest if there is none.
fn preferred_policy(nodes: NodeMask) -> Policy
    ensures { result ≡ preferred_policy nodes }
{
    match nodes.nth(0) {
        Some(node) => Policy::Preferred(node),
        None => Policy::Local,
    }
}

/// The policy of a mode and a set of nodes.
fn policy_of(mode: u32, nodes: NodeMask) -> Policy
    ensures { result ≡ policy_of mode nodes }
{
    if mode == MPOL_PREFERRED {
        preferred_policy(nodes)
    } else if mode == MPOL_BIND {
        Policy::Bind(nodes)
    } else if mode == MPOL_INTERLEAVE {
        Policy::Interleave(nodes)
    } else if mode == MPOL_LOCAL {
        Policy::Local
    } else {
        Policy::Default
    }
}

/// Whether a mode takes this set of nodes: MPOL_DEFAULT and MPOL_LOCAL take none, MPOL_BIND and MPOL_INTERLEAVE need at
/// least one.
fn fits(mode: u32, nodes: NodeMask) -> bool
    ensures { result ≡ not (is_misfit mode nodes) }
{
    if nodes.is_empty() {
        mode != MPOL_BIND && mode != MPOL_INTERLEAVE
    } else {
        mode != MPOL_DEFAULT && mode != MPOL_LOCAL
    }
}

/// What a caller asks for with a mode, a set of nodes and flags.
#[derive(Clone, Copy)]
pub(crate) struct Asked {
    /// The policy, with the nodes that it keeps: those that are online and that the caller may use.
    pub(crate) policy: Policy,
    /// The caller's home node.
    pub(crate) home: NodeId,
    /// The flags.
    pub(crate) flags: MoveFlags,
}

/// The nodes of a set that the policy of a mode keeps: those that are online and allowed. None if the mode is unknown,
/// nodes do not fit it, one of them is not in the machine, or none of them is online and allowed.
fn kept_nodes<A: Allocator + Copy + Send + Sync>(
    machine: &Machine<A>,
    allowed: NodeMask,
    mode: u32,
    nodes: NodeMask,
) -> Option<NodeMask>
    // If there are such nodes
    ensures some { IfSome result (λ kept. is_bad_set machine.now allowed mode nodes ≡ false) }
    ensures kept { IfSome result (λ kept. kept ≡ usable machine.now allowed nodes) }

    // If not
    ensures bad { IfNone result (is_bad_set machine.now allowed mode nodes ≡ true) }
{
    if mode > MPOL_LOCAL || !fits(mode, nodes) || names_missing_node(machine, nodes) {
        return None;
    }
    let kept = usable(machine, allowed, nodes);
    if nodes.len() != 0 && kept.len() == 0 {
        return None;
    }
    Some(kept)
}

/// What a request asks for. Errors, in order: ESRCH (no such caller); EINVAL (an unknown flag or mode, nodes that do
/// not fit the mode, a node that the machine does not have, no node that is online and allowed); EPERM
/// (MPOL_MF_MOVE_ALL without privilege).
fn asked_of<A: Allocator + Copy + Send + Sync>(
    machine: &Machine<A>,
    request: &MbindRequest,
) -> Result<Asked, Errno>
    // In any case
    ensures exact { Checks result
        (mode_refusal machine.now (info_at machine.now request.now.caller) request.now.mode request.now.nodes request.now.flags) }

    // On success
    ensures policy { IfOk result
        (λ asked. asked.policy ≡ policy_asked machine.now request.now.caller request.now.mode request.now.nodes) }
    ensures home { IfOk result
        (λ asked. asked.home ≡ home_of (info_at machine.now request.now.caller)) }
    ensures flags { IfOk result (λ asked. asked.flags ≡ request.now.flags) }
    ensures nodes { IfOk result
        (λ asked. AllByRecursion (λ n. n < node_count (machine.now.layout))
        (nodes_named asked.policy)) }
{
    let MbindRequest {
        caller,
        mode,
        nodes,
        flags,
        ..
    } = *request;
    let Some(asking) = machine.spaces().info(caller) else {
        return Err(Errno::Esrch);
    };
    let ProcessInfo {
        allowed,
        home,
        privileged,
        ..
    } = asking;
    let flags = MoveFlags::from_bits(flags).ok_or(Errno::Einval)?;
    let Some(kept) = kept_nodes(machine, allowed, mode, nodes) else {
        return Err(Errno::Einval);
    };
    if flags.moves_all() && !privileged {
        return Err(Errno::Eperm);
    }
    Ok(Asked {
        policy: policy_of(mode, kept),
        home,
        flags,
    })
}

/// Whether flags ask for moves.
fn wants_moves(flags: MoveFlags) -> bool
    ensures { result ≡ has_move flags }
{
    flags.moves() || flags.moves_all()
}

/// The range of a policy. Errors, in order: EINVAL and EFAULT as for `Machine::check_policy`; EIO (MPOL_MF_STRICT
/// without a flag to move, and a page that the caller sees in the range is not where the policy wants it).
fn binding_of<A: Allocator + Copy + Send + Sync>(
    machine: &Machine<A>,
    request: &MbindRequest,
    policy: Policy,
    flags: MoveFlags,
) -> Result<Binding, Errno>
    ensures exact { Checks result
        (binding_refusal machine.now request.now.caller request.now.addr request.now.len policy flags) }
    ensures range { IfOk result
        (λ b. b ≡ range_of request.now.caller request.now.addr request.now.len policy) }
    ensures few { IfOk result (λ b. b.end - b.first ≤ 2 ^ 52) }
{
    let MbindRequest {
        caller,
        addr,
        len,
        ..
    } = *request;
    let PageRange { first, end } = machine.check_policy(caller, addr, len)?;
    if flags.is_strict()
        && !wants_moves(flags)
        && stray_from(machine, caller, first, end, &policy).is_some()
    {
        return Err(Errno::Eio);
    }
    Ok(Binding {
        pid: caller,
        first,
        end,
        policy,
    })
}

/// What a call asks for, and the range of its policy. Returns the errors of `asked_of`, then those of `binding_of`.
pub(crate) fn check_binding<A: Allocator + Copy + Send + Sync>(
    machine: &Machine<A>,
    request: &MbindRequest,
) -> Result<(Asked, Binding), Errno>
    // In any case
    ensures exact { Checks result
        (mbind_refusal machine.now request.now.caller request.now.addr request.now.len request.now.mode request.now.nodes request.now.flags) }

    // On success
    ensures binding { IfOk result
        (λ r. r.1 ≡ binding machine.now request.now.caller request.now.addr request.now.len request.now.mode request.now.nodes) }
    ensures home { IfOk result (λ r. r.0.home ≡ home_of (info_at machine.now request.now.caller)) }
    ensures flags { IfOk result (λ r. r.0.flags ≡ request.now.flags) }
    ensures nodes { IfOk result
        (λ r. AllByRecursion (λ n. n < node_count (machine.now.layout)) (nodes_named r.1.policy)) }
    ensures few { IfOk result (λ r. r.1.end - r.1.first ≤ 2 ^ 52) }
{
    let asked = asked_of(machine, request)?;
    let Asked { policy, flags, .. } = asked;
    let binding = binding_of(machine, request, policy, flags)?;
    Ok((asked, binding))
}

/// The pages to move: none without a flag to move, and then it does not allocate.
fn pages_to_bind<A: Allocator + Copy + Send + Sync>(
    alloc: A,
    machine: &Machine<A>,
    binding: &Binding,
    flags: MoveFlags,
) -> Result<Vec<LocatedPage, A>, AllocError>
    ensures list { IfOk result (λ pages. pages.items ≡ pages_to_bind machine.now binding.now flags) }
    ensures few { IfOk result (λ pages. length pages.items ≤ binding.now.end - binding.now.first) }
    ensures allocates { OnErr result (has_move flags ≡ true) }
{
    if wants_moves(flags) {
        return astray(alloc, machine, *binding);
    }
    Ok(Vec::new(alloc))
}

/// Whether MPOL_MF_STRICT asks for an error because one of these pages is not where a policy wants it.
fn is_late<A: Allocator + Copy + Send + Sync>(
    machine: &Machine<A>,
    policy: &Policy,
    pages: &[LocatedPage],
    flags: MoveFlags,
) -> bool
    ensures { result ≡ (is_strict flags && list_any (is_stray machine.now policy.now) pages.now) }
{
    flags.is_strict() && some_stray(machine, policy, pages)
}

/// Sets a policy and, if the flags ask for it, moves the pages of its range that are not where it wants them. The list
/// of pages and their moves are prepared before the policy is set, so that memory for them cannot be refused after it.
/// EIO if MPOL_MF_STRICT and a flag to move are given, and a page is not where the policy wants it after the moves,
/// which remain. Allocates only if the flags ask for moves, or an area is split.
pub(crate) fn bind<A: Allocator + Copy + Send + Sync, C: RunCrew<A>>(
    crew: &C,
    alloc: A,
    machine: &mut Machine<A>,
    binding: &Binding,
    asked: Asked,
    limit: usize,
) -> Result<(), CallError>
    requires some { 0 < limit }
    requires nodes { AllByRecursion (λ n. n < node_count (machine.old.layout))
        (nodes_named binding.now.policy) }
    requires home { asked.home ≡ home_of (info_at machine.old binding.now.pid) }
    requires few { binding.now.end - binding.now.first ≤ 2 ^ 52 }
    ensures bound { let set = set_range_policy machine.old binding.now.pid binding.now.first binding.now.end binding.now.policy in
        Binds result machine.old set machine.new binding.now
        (mbind_runs limit set binding.now asked.flags) asked.flags }
    ensures allocates { (runs : ℕ) (policy_set : Bool) →
        result ≡ Err (HostMemory runs policy_set) →
        (has_move asked.flags ≡ true)
        ⊎ HasSplit machine.old.areas binding.now.pid binding.now.first
        ⊎ HasSplit machine.old.areas binding.now.pid binding.now.end }
{
    let Asked { home, flags, .. } = asked;
    let all = flags.moves_all();
    let pages = pages_to_bind(alloc, machine, binding, flags)?;
    let way = way_of(alloc, machine, home, binding, all, pages.as_slice())?;
    let range = PageRange {
        first: binding.first,
        end: binding.end,
    };
    machine.set_range_policy(binding.pid, range, binding.policy)?;
    if let Err(error) = make_moves(crew, alloc, machine, way, limit) {
        return Err(error);
    }
    if is_late(machine, &binding.policy, pages.as_slice(), flags) {
        return Err(CallError::Refused(Errno::Eio));
    }
    Ok(())
}
