//! The pages of a range that are not where its policy wants them.

ghost use Rattle.std.specs.Prelude.{ℕ, false, ◌≡◌, ◌+◌, ◌-◌, ◌<◌, ◌≤◌, not, true, [], ◌∷◌, IfOk, IfSome, IfNone, OnErr, None, length};
ghost use Rattle.std.specs.List.{IsAllAdjacentAnswer, filter, list_any};
ghost use Rattle.std.specs.Ordering.{is_lt};
ghost use Rattle.nm_model.specs.definitions.Order.{follows};
ghost use Rattle.nm_types.specs.Map.{page_cmp, same_page};
ghost use Rattle.nm_passes.specs.definitions.Placement.{strays_between, stray_pages, is_stray};
ghost use Rattle.nm_passes.specs.definitions.Listing.{once};

use crate::binding::Binding;
use nm_engine::Machine;
use nm_policy::follows;
use nm_types::{LocatedPage, Pid, Policy, Vpn};
use std::alloc::{AllocError, Allocator};
use std::collections::BTreeSet;

/// Whether a page is not where a policy wants it.
fn is_astray(policy: &Policy, page: &LocatedPage) -> bool
    ensures { result ≡ not (follows policy.now page.now.node) }
{
    !follows(*policy, page.node)
}

/// Whether a policy can want pages elsewhere: MPOL_DEFAULT and MPOL_LOCAL leave them where they are.
fn wants_nodes(policy: &Policy) -> bool
    ensures { result ≡ false → (node : ℕ) → follows policy.now node ≡ true }
{
    match policy {
        Policy::Default => false,
        Policy::Local => false,
        _ => true,
    }
}

/// The first page that a process sees from one page number up to another that is not where a policy wants it. Does not
/// allocate.
pub fn stray_from<A: Allocator + Copy + Send + Sync>(
    machine: &Machine<A>,
    pid: Pid,
    first: Vpn,
    end: Vpn,
    policy: &Policy,
) -> Option<LocatedPage>
    ensures some { IfSome result
        (λ e. strays_between machine.now pid first end policy.now
        ≡ e ∷ strays_between machine.now pid (e.vpn + 1) end policy.now) }
    ensures none { IfNone result (strays_between machine.now pid first end policy.now ≡ []) }
    ensures range { IfSome result (λ e. (first ≤ e.vpn) × (e.vpn < end)) }
{
    if !wants_nodes(policy) {
        return None;
    }
    let mut at = first.number();
    let mut last = None;
    while let Some(page) = machine
        .spaces()
        .page_from(machine.geometry(), pid, Vpn::new(at), end, &mut last)
    {
        if is_astray(policy, &page) {
            return Some(page);
        }
        at = page.vpn.number() + 1;
    }
    None
}

/// Those of these pages that are not where a policy wants them.
fn strays_among<A: Allocator + Copy>(
    alloc: A,
    policy: &Policy,
    pages: &[LocatedPage],
) -> Result<Vec<LocatedPage, A>, AllocError>
    ensures { IfOk result
        (λ strays. strays.items
        ≡ filter (λ (page : LocatedPage). not (follows policy.now page.node)) pages.now) }
{
    pages
        .iter()
        .filter(|page| is_astray(policy, page))
        .copied()
        .collect(alloc)
}

/// Whether a page comes before another.
fn is_before(page: &LocatedPage, next: &LocatedPage) -> bool
    ensures { result ≡ is_lt (page_cmp page.now.page next.now.page) }
{
    page.page < next.page
}

/// Whether each of these pages comes before the next. Then none is there twice.
fn are_ascending(pages: &[LocatedPage]) -> bool
    ensures once { result ≡ true → once (λ l m. same_page l.page m.page) pages.now ≡ pages.now }
    ensures answer { IsAllAdjacentAnswer (λ l m b. b ≡ is_lt (page_cmp l.page m.page)) pages.now result }
{
    pages.is_sorted_by(is_before)
}

/// The pages without repetition, each at its first place. An error means that the host is out of memory; no pages take
/// none.
fn once<A: Allocator + Copy>(
    alloc: A,
    pages: &[LocatedPage],
) -> Result<Vec<LocatedPage, A>, AllocError>
    ensures list { IfOk result
        (λ all. all.items ≡ once (λ l m. same_page l.page m.page) pages.now) }
    ensures few { IfOk result (λ all. length all.items ≤ length pages.now) }
    ensures allocates { OnErr result (0 < length pages.now) }
{
    let mut seen = BTreeSet::new(alloc);
    let mut all = Vec::new(alloc);
    for page in pages {
        if seen.insert(page.page)? {
            all.push(*page)?;
        }
    }
    Ok(all)
}

/// The pages that a process sees in a range that are not where the policy wants them, in address order, each at its
/// lowest address. Walks once over what the process has in the range.
pub fn astray<A: Allocator + Copy + Send + Sync>(
    alloc: A,
    machine: &Machine<A>,
    binding: Binding,
) -> Result<Vec<LocatedPage, A>, AllocError>
    ensures list { IfOk result (λ pages. pages.items ≡ stray_pages machine.now binding) }
    ensures few { IfOk result (λ pages. length pages.items ≤ binding.end - binding.first) }
{
    let Binding {
        pid,
        first,
        end,
        policy,
    } = binding;
    if !wants_nodes(&policy) {
        return Ok(Vec::new(alloc));
    }
    let found = machine
        .spaces()
        .pages_between(alloc, machine.geometry(), pid, first, end)?;
    let strays = strays_among(alloc, &policy, found.as_slice())?;
    if are_ascending(strays.as_slice()) {
        return Ok(strays);
    }
    once(alloc, strays.as_slice())
}

/// Whether a page is not where a policy wants it, wherever it has moved since it was found.
fn strays_now<A: Allocator + Copy + Send + Sync>(
    machine: &Machine<A>,
    policy: &Policy,
    found: &LocatedPage,
) -> bool
    ensures { result ≡ is_stray machine.now policy.now found.now }
{
    match machine.spaces().areas().page_frame(found.page) {
        Some(frame) => !follows(*policy, machine.geometry().node_of(frame)),
        None => false,
    }
}

/// Whether one of these pages is not where a policy wants it.
pub fn some_stray<A: Allocator + Copy + Send + Sync>(
    machine: &Machine<A>,
    policy: &Policy,
    pages: &[LocatedPage],
) -> bool
    ensures { result ≡ list_any (is_stray machine.now policy.now) pages.now }
{
    pages.iter().any(|found| strays_now(machine, policy, found))
}
