//! A process's areas as text.

ghost use Rattle.std.specs.Prelude.{◌≡◌, ℕ, ◌+◌, ◌++◌, ◌∷◌, ◌<◌, ◌≤◌, ◌^◌, All, Some, true, IfOk, OnErr, OnOk, length, map, string_bytes, slice_index, count_by, ◌==◌};
ghost use Rattle.nm_types.specs.Layout.{node_count};
ghost use Rattle.nm_types.specs.Map.{get, page_cmp};
ghost use Rattle.nm_calls.specs.definitions.Maps.{stretches, stretch_text, set_text, policy_text, most_users, lines_shown};
ghost use Rattle.nm_calls.specs.views.Tally.{comma, line_text, pages_of, node_count_text, nodes_text, tally_text};

use crate::number_text::{push_address, push_number};
use nm_areas::Area;
use nm_engine::Machine;
use nm_types::{LocatedPage, NodeId, NodeMask, Pid, Policy, Vpn};
use std::alloc::{AllocError, Allocator};

/// Removes from `rest` the nodes that follow `first` without a gap, and returns the last of them, or `first` if there
/// is none.
fn take_stretch(first: NodeId, rest: &mut NodeMask) -> NodeId
    ensures { stretches (first ∷ rest.old) ≡ (first, result) ∷ stretches rest.new }
{
    let mut last = first;
    while let Some(next) = rest.nth(0) {
        if u64::from(last.number()) + 1 != u64::from(next.number()) {
            return last;
        }
        rest.take_first();
        last = next;
    }
    last
}

/// Appends a comma, if it is wanted. Allocates only then.
fn push_comma<A: Allocator>(line: &mut String<A>, wanted: bool) -> Result<(), AllocError>
    ensures text { OnOk result (string_bytes line.new ≡ string_bytes line.old ++ comma wanted) }
    ensures allocates { OnErr result (wanted ≡ true) }
{
    if wanted { line.push_str(",") } else { Ok(()) }
}

/// Appends a single node, or the first and last of several, after a comma, if it is wanted.
fn push_stretch<A: Allocator>(
    line: &mut String<A>,
    behind: bool,
    first: NodeId,
    last: NodeId,
) -> Result<(), AllocError>
    ensures { OnOk result
        (string_bytes line.new
        ≡ string_bytes line.old ++ (comma behind ++ stretch_text (first, last))) }
{
    push_comma(line, behind)?;
    push_number(line, "", u64::from(first.number()))?;
    if first == last {
        return Ok(());
    }
    push_number(line, "-", u64::from(last.number()))
}

/// Appends a set of nodes. An empty set takes no memory.
fn push_set<A: Allocator>(line: &mut String<A>, nodes: NodeMask) -> Result<(), AllocError>
    ensures text { OnOk result (string_bytes line.new ≡ string_bytes line.old ++ set_text nodes) }
    ensures allocates { OnErr result (0 < length nodes) }
{
    let mut rest = nodes;
    let mut behind = false;
    while let Some(first) = rest.take_first() {
        let last = take_stretch(first, &mut rest);
        push_stretch(line, behind, first, last)?;
        behind = true;
    }
    Ok(())
}

/// Appends a word and a set of nodes.
fn push_list<A: Allocator>(
    line: &mut String<A>,
    word: &str,
    nodes: NodeMask,
) -> Result<(), AllocError>
    ensures { OnOk result
        (string_bytes line.new ≡ string_bytes line.old ++ (word.now ++ set_text nodes)) }
{
    line.push_str(word)?;
    push_set(line, nodes)
}

/// Appends a policy.
#[tactic(auto, unfolding(crate::specs::definitions::Maps::policy_text))]
fn push_policy<A: Allocator>(line: &mut String<A>, policy: Policy) -> Result<(), AllocError>
    ensures { OnOk result (string_bytes line.new ≡ string_bytes line.old ++ policy_text policy) }
{
    match policy {
        Policy::Default => line.push_str("default"),
        Policy::Preferred(node) => push_number(line, "prefer:", u64::from(node.number())),
        Policy::Bind(nodes) => push_list(line, "bind:", nodes),
        Policy::Interleave(nodes) => push_list(line, "interleave:", nodes),
        Policy::Local => line.push_str("local"),
    }
}

/// The counts of the pages that a process sees in an area.
#[derive(Clone, Copy)]
struct Tally {
    /// How many pages there are.
    pages: u64,
    /// The greatest number of processes that see one of the pages.
    most: usize,
    /// How many pages are on each node.
    on: [u64; 64],
}

/// Counts pages that processes see.
fn tally_of<A: Allocator + Copy + Send + Sync>(machine: &Machine<A>, pages: &[LocatedPage]) -> Tally
    requires placed { All
        (λ (page : LocatedPage). get page_cmp machine.now.place page.page ≡ Some page.frame) pages.now }
    requires nodes { All (λ (page : LocatedPage). page.node < node_count machine.now.layout) pages.now }
    ensures pages { result.pages ≡ length pages.now }
    ensures most { result.most ≡ most_users machine.now pages.now }
    ensures on { (node : ℕ) → node < 64 →
        slice_index result.on node ≡ count_by (λ p. p.node == node) pages.now }
{
    let mut count = 0;
    let mut most = 0;
    let mut on = [0u64; 64];
    for page in pages {
        let users = machine.spaces().users_in(page.frame);
        let node = page.node.index();
        prove!(machine.geometry().node_count() <= 64);
        count += 1;
        most = most.max(users);
        on[node] += 1;
    }
    Tally {
        pages: count,
        most,
        on,
    }
}

/// Counts the pages that a process sees in an area. Walks once over what the process has there.
fn count_pages<A: Allocator + Copy + Send + Sync>(
    alloc: A,
    machine: &Machine<A>,
    pid: Pid,
    area: &Area,
) -> Result<Tally, AllocError>
    requires { area.now.first + area.now.pages < 2 ^ 64 }

    // On success
    ensures pages { IfOk result (λ tally. tally.pages ≡ length (pages_of machine.now pid area.now)) }
    ensures most { IfOk result
        (λ tally. tally.most ≡ most_users machine.now (pages_of machine.now pid area.now)) }
    ensures on { IfOk result
        (λ tally. (node : ℕ) →
        node < 64 →
        slice_index tally.on node ≡ count_by (λ p. p.node == node) (pages_of machine.now pid area.now)) }
{
    let first = area.first.number();
    let end = Vpn::new(first + area.pages);
    let pages = machine
        .spaces()
        .pages_between(alloc, machine.geometry(), pid, area.first, end)?;
    Ok(tally_of(machine, pages.as_slice()))
}

/// Appends how many pages are on a node, if any are. Allocates only then.
fn push_node<A: Allocator>(line: &mut String<A>, node: usize, pages: u64) -> Result<(), AllocError>
    ensures text { OnOk result
        (string_bytes line.new ≡ string_bytes line.old ++ node_count_text node pages) }
    ensures allocates { OnErr result (0 < pages) }
{
    if pages == 0 {
        return Ok(());
    }
    push_number(line, " N", node as u64)?;
    push_number(line, "=", pages)
}

/// Appends how many pages are on each node that has any. No nodes take no memory.
fn push_nodes<A: Allocator>(
    line: &mut String<A>,
    on: &[u64; 64],
    count: usize,
) -> Result<(), AllocError>
    requires { count ≤ 64 }
    ensures text { OnOk result
        (string_bytes line.new ≡ string_bytes line.old ++ nodes_text on.now count) }
    ensures allocates { OnErr result (0 < count) }
{
    for node in 0..count {
        push_node(line, node, on[node])?;
    }
    Ok(())
}

/// Appends the counts, if there are pages. Allocates only then.
fn push_tally<A: Allocator>(
    line: &mut String<A>,
    tally: &Tally,
    nodes: usize,
) -> Result<(), AllocError>
    requires { nodes ≤ 64 }
    ensures text { OnOk result
        (string_bytes line.new ≡ string_bytes line.old ++ tally_text tally.now nodes) }
    ensures allocates { OnErr result (0 < tally.now.pages) }
{
    if tally.pages == 0 {
        return Ok(());
    }
    push_number(line, " anon=", tally.pages)?;
    if tally.most > 1 {
        push_number(line, " mapmax=", tally.most as u64)?;
    }
    push_nodes(line, &tally.on, nodes)?;
    line.push_str(" kernelpagesize_kB=4")
}

/// Room for the text of an area. Most are shorter, and a longer one asks for more.
const LINE_BYTES: usize = 64;

/// An area as text.
fn area_text<A: Allocator + Copy + Send + Sync>(
    alloc: A,
    machine: &Machine<A>,
    pid: Pid,
    area: &Area,
) -> Result<String<A>, AllocError>
    requires { area.now.first + area.now.pages < 2 ^ 64 }
    ensures { IfOk result (λ line. string_bytes line ≡ line_text machine.now pid area.now) }
{
    let mut line = String::with_capacity(alloc, LINE_BYTES)?;
    push_address(&mut line, area.first)?;
    line.push_str(" ")?;
    push_policy(&mut line, area.policy)?;
    let tally = count_pages(alloc, machine, pid, area)?;
    push_tally(&mut line, &tally, machine.geometry().node_count())?;
    Ok(line)
}

/// A process's areas as text. An error means that the host is out of memory; without areas it needs none.
pub(crate) fn areas_text<A: Allocator + Copy + Send + Sync>(
    alloc: A,
    machine: &Machine<A>,
    pid: Pid,
    areas: &[Area],
) -> Result<Vec<String<A>, A>, AllocError>
    requires { All (λ (area : Area). area.first + area.pages < 2 ^ 64) areas.now }
    ensures list { IfOk result
        (λ lines. lines_shown lines.items ≡ map (line_text machine.now pid) areas.now) }
    ensures allocates { OnErr result (0 < length areas.now) }
{
    let mut lines = Vec::with_capacity(alloc, areas.len())?;
    for area in areas {
        lines.push(area_text(alloc, machine, pid, area)?)?;
    }
    Ok(lines)
}
