//! Which nodes' pages go to which nodes.

ghost use Rattle.std.specs.Prelude.{◌≡◌, ◌<◌, length, IfOk, OnOk, OnErr};
ghost use Rattle.nm_policy.specs.definitions.Pairs.{stays, pairs_that_move, next_pair, pairs};
ghost use Rattle.nm_policy.specs.laws.Pairs.{PairsAreInOrder};

use crate::first_touch::turn;
use nm_types::{NodeId, NodeMask};
use std::alloc::{AllocError, Allocator};

/// A node that pages leave, and the node that they go to.
#[derive(Clone, Copy, Debug, PartialEq, Eq)]
pub struct Pair {
    /// The number of the node that they leave: below 64.
    pub from: NodeId,
    /// The number of the node that they go to: below 64.
    pub to: NodeId,
}

/// Whether a node of `old` keeps its pages: it is its own target, or the sets differ in size and it is in `new`.
fn stays(old: NodeMask, new: NodeMask, from: NodeId, to: NodeId) -> bool
    ensures { result ≡ stays old new (record { from = from; to = to }) }
{
    from == to || (old.len() != new.len() && new.contains(from))
}

/// The pairs whose pages move, by the node that they leave. An error means that the host is out of memory.
fn moving<A: Allocator + Copy>(
    alloc: A,
    old: NodeMask,
    new: NodeMask,
) -> Result<Vec<Pair, A>, AllocError>
    ensures value { IfOk result (λ found. found.items ≡ pairs_that_move old new) }
    ensures allocates { OnErr result (0 < length old) }
{
    let mut pairs = Vec::with_capacity(alloc, old.len())?;
    if new.is_empty() {
        return Ok(pairs);
    }
    let mut rest = old;
    let mut index = 0;
    while let Some(from) = rest.take_first() {
        let to = turn(new, index);
        if !stays(old, new, from, to) {
            pairs.push(Pair { from, to })?;
        }
        index += 1;
    }
    Ok(pairs)
}

/// The first pair whose target is not still to be emptied, or else the last pair. None if there is no pair.
fn next_pair(pairs: &[Pair], remaining: NodeMask) -> Option<Pair>
    ensures { result ≡ next_pair remaining pairs.now }
{
    for pair in pairs {
        if !remaining.contains(pair.to) {
            return Some(*pair);
        }
    }
    pairs.last().copied()
}

/// Which nodes' pages go where when pages move from the nodes of `old` to those of `new`, in the order in which they
/// go, as in migrate_pages(2). Each node of `old` is paired with one of `new`, which take turns in ascending order. A
/// node keeps its pages, and has no pair, if it is its own target, or if the sets differ in size and it is in `new`.
///
/// At first every node of `old` is still to be emptied, even one that keeps its pages. Of the pairs left, in ascending
/// order of source, the next is the first whose target is not still to be emptied, or the last pair if there is none;
/// its source is then emptied. So a chain of nodes is emptied from its end. There are no pairs if either set is empty.
/// An error means that the host is out of memory; if `old` is empty, it needs none.
pub fn pairs<A: Allocator + Copy>(
    alloc: A,
    old: NodeMask,
    new: NodeMask,
) -> Result<Vec<Pair, A>, AllocError>
    ensures value { IfOk result (λ found. found.items ≡ pairs old new) }
    ensures order { OnOk result (PairsAreInOrder old new) }
    ensures allocates { OnErr result (0 < length old) }
{
    let mut left = moving(alloc, old, new)?;
    let mut pairs = Vec::with_capacity(alloc, old.len())?;
    let mut remaining = old;
    while let Some(pair) = next_pair(left.as_slice(), remaining) {
        remaining.remove(pair.from);
        left.retain(|other| other.from != pair.from);
        pairs.push(pair)?;
    }
    Ok(pairs)
}
