//! Areas and segments: what a process may touch, and how its new pages are placed.

use crate::mask::NodeMask;
use crate::numbers::NodeId;
use crate::page::Page;

/// On which nodes an area's new pages are placed, as in mbind(2).
#[derive(Clone, Copy, Debug, PartialEq, Eq)]
pub enum Policy {
    /// MPOL_DEFAULT: by distance from the process's home node.
    Default,
    /// MPOL_PREFERRED: by distance from this node.
    Preferred(NodeId),
    /// MPOL_BIND: on these nodes alone, by distance from the home node.
    Bind(NodeMask),
    /// MPOL_INTERLEAVE: by distance from one of these nodes, which take turns. For the page at index i of its segment
    /// it is node number (i mod the size of the set) of the set, counted from 0 in ascending order.
    Interleave(NodeMask),
    /// MPOL_LOCAL: by distance from the process's home node.
    Local,
}

/// A range of a segment's pages that a process has at consecutive page numbers.
#[derive(Clone, Copy, Debug, PartialEq, Eq)]
pub struct Area {
    /// Its length in pages: at least 1, and at most 2^35 - its first page number.
    pub pages: u64,
    /// How its new pages are placed.
    pub policy: Policy,
    /// The page at its first page number. The pages after it follow in order.
    pub page: Page,
}

/// A stretch of pages that areas show.
#[derive(Clone, Copy, Debug, PartialEq, Eq)]
pub struct Segment {
    /// Its length in pages: at least 1, at most 2^35.
    pub pages: u64,
    /// Whether processes may attach it. A private segment is shown only by the area that its `map` made, or by what is
    /// left of that area after splits.
    pub shared: bool,
}
