//! Pages with their frames and nodes.

use crate::{FrameId, NodeId, Page, Vpn};

/// A page that a process sees, and where it is.
#[derive(Clone, Copy, Debug, PartialEq, Eq)]
pub struct LocatedPage {
    /// The page number at which the process sees it: below 2^35.
    pub vpn: Vpn,
    /// The page.
    pub page: Page,
    /// The number of the page's frame: below 16,384.
    pub frame: FrameId,
    /// The number of the node that owns the frame: below 64.
    pub node: NodeId,
}
