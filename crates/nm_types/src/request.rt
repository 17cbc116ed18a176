//! Requests to move pages, and what to do with each.

use crate::{FrameId, NodeId, Page, Pid, Vpn};

/// What a request asks to move.
#[derive(Clone, Copy, Debug, PartialEq, Eq)]
pub enum Wanted {
    /// The page that a process sees at a page number.
    At {
        /// The process's number.
        pid: Pid,
        /// The page number: below 2^52 for any address.
        vpn: Vpn,
        /// Whether the page moves even if other processes see it, as with MPOL_MF_MOVE_ALL.
        all: bool,
    },
    /// A page by name, whoever sees it.
    Whole(Page),
}

/// A request of a batch.
#[derive(Clone, Copy, Debug, PartialEq, Eq)]
pub struct Request {
    /// The number of the node that the page is to go to.
    pub target: NodeId,
    /// What it asks to move.
    pub wanted: Wanted,
}

/// What to do with a request.
#[derive(Clone, Copy, Debug, PartialEq, Eq)]
pub enum Class {
    /// Nothing moves. The status is a node's number, or an error's number with a minus sign.
    Status(i32),
    /// The page is to move, if its target has a free frame.
    Move {
        /// The page.
        page: Page,
        /// The frame that it leaves.
        from: FrameId,
    },
}
