//! Pages by their names.

ghost use Rattle.std.specs.Prelude.{◌≡◌};
ghost use Rattle.std.proofs.Common.{rules};
ghost use Rattle.std.specs.Cmp.{partial_order_from_own_ties};
ghost use Rattle.std.specs.Cmp.Rules.{comparing};
ghost use Rattle.std.specs.Ordering.{as_partial_cmp};
ghost use Rattle.nm_types.specs.Map.{page_cmp};

use std::cmp::Ordering;

/// A page: an index in a segment. It keeps its name and its bytes when it moves to another frame.
#[derive(Clone, Copy, Debug, PartialEq, Eq)]
pub struct Page {
    /// The segment's number, below 65,536.
    pub segment: u32,
    /// The page's index in the segment, in pages from 0: below the segment's length.
    pub index: u64,
}

impl Ord for Page {
    ghost cmp = { page_cmp };

    ghost total = { Prim.search (comparing, rules) };

    ghost matches_partial_cmp = { Prim.search (comparing, rules) };

    ghost matches_eq = { Prim.search (comparing, rules) };

    /// Compares by segment, then by index. This is written out rather than derived to make searches fast: most pages
    /// that a search passes are lower ones of the same segment, and two comparisons are enough for those.
    fn cmp(&self, other: &Page) -> Ordering {
        if self.segment == other.segment {
            if self.index > other.index {
                Ordering::Greater
            } else if self.index == other.index {
                Ordering::Equal
            } else {
                Ordering::Less
            }
        } else if self.segment > other.segment {
            Ordering::Greater
        } else {
            Ordering::Less
        }
    }
}

impl PartialOrd for Page {
    ghost partial_cmp = { as_partial_cmp page_cmp };

    ghost laws = { partial_order_from_own_ties (Prim.search (comparing, rules)) (Prim.search (comparing, rules)) };

    fn partial_cmp(&self, other: &Page) -> Option<Ordering> {
        Some(self.cmp(other))
    }
}
