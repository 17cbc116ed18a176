//! Finding a page among the moves of a run.

ghost use Rattle.std.specs.Prelude.{◌≡◌, ◌≤◌, ◌∷◌, ◌++◌, [], length, OnOk, OnErr};
ghost use Rattle.std.specs.Bool.{OnTrue, OnFalse};
ghost use Rattle.nm_model.specs.definitions.Decide.{has_moved};
ghost use Rattle.nm_plan.specs.Found.{Ascends, IsPast, Finds};

use crate::PageMove;
use nm_types::Page;
use std::alloc::{AllocError, Allocator};
use std::collections::BTreeSet;

/// How many moves after the ascending ones are searched one by one, so that a short run allocates no set.
const FEW: usize = 8;

/// Whether one of these moves is the page's.
fn is_among(moves: &[PageMove], page: Page) -> bool
    ensures { result ≡ has_moved moves.now page }
{
    moves.iter().any(|taken| page.cmp(&taken.page).is_eq())
}

/// Whether a page comes after that of the last of these moves, or there are none.
fn is_past(moves: &[PageMove], page: Page) -> bool
    ensures past { OnTrue result (IsPast moves.now page) }
    ensures no { OnFalse result (IsPast moves.now page → ⊥) }
{
    moves.last().is_none_or(|last| last.page.cmp(&page).is_lt())
}

/// Whether one of these moves, whose pages ascend, is the page's. Most runs name their pages in ascending order, so most
/// pages come after all that have moved, which the last one shows.
fn is_among_ascending(moves: &[PageMove], page: Page) -> bool
    requires { Ascends moves.now }
    ensures { result ≡ has_moved moves.now page }
{
    if is_past(moves, page) {
        return false;
    }
    moves
        .binary_search_by(|taken| taken.page.cmp(&page))
        .is_ok()
}

/// How the moves of a run are searched. The pages of the first moves ascend and are found by binary search, as most
/// runs name their pages in that order; the next few moves are searched one by one; the pages of all others are in a
/// set.
#[derive(Drop)]
pub(crate) struct Search<A: Allocator + Copy> {
    ascending: usize,
    later: BTreeSet<Page, A>,
}

impl<A: Allocator + Copy> Search<A> {
    /// Makes a search over no moves. Does not allocate.
    pub(crate) fn new(alloc: A) -> Self
        ensures { Finds result [] }
    {
        Self {
            ascending: 0,
            later: BTreeSet::new(alloc),
        }
    }

    /// Whether one of these moves is the page's.
    pub(crate) fn has(&self, moves: &[PageMove], page: Page) -> bool
        requires { Finds self.now moves.now }
        ensures { result ≡ has_moved moves.now page }
    {
        let (ascending, rest) = moves.split_at(self.ascending);
        let few = rest.len().min(FEW);
        is_among_ascending(ascending, page)
            || is_among(&rest[..few], page)
            || self.later.contains(&page)
    }

    /// Notes a page that moves after these. An error means that the host is out of memory; after fewer than eight moves
    /// none is asked for.
    pub(crate) fn add(&mut self, moves: &[PageMove], page: Page) -> Result<(), AllocError>
        requires { Finds self.old moves.now }
        ensures finds { OnOk result
            ((taken : PageMove) → taken.page ≡ page → Finds self.new (moves.now ++ taken ∷ [])) }
        ensures allocates { OnErr result (8 ≤ length moves.now) }
    {
        let behind = moves.len() - self.ascending;
        if behind == 0 && is_past(moves, page) {
            self.ascending += 1;
        } else if behind >= FEW {
            self.later.insert(page)?;
        }
        Ok(())
    }
}
