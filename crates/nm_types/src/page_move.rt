//! Pages that move.

use crate::{FrameId, Page};

/// A page that moves.
#[derive(Clone, Copy, Debug, PartialEq, Eq)]
pub struct PageMove {
    /// The page.
    pub page: Page,
    /// The frame that it leaves: a number below 16,384.
    pub from: FrameId,
    /// The frame that it takes: a number below 16,384.
    pub to: FrameId,
}
