//! The answers to calls, as values.

use nm_engine::Totals;
use nm_passes::Moved;
use nm_types::{FrameId, Vpn};
use std::alloc::Allocator;

/// An entry of a process.
#[derive(Clone, Copy, Debug, PartialEq, Eq)]
pub struct PagemapEntry {
    /// The page number: below 2^35.
    pub vpn: Vpn,
    /// The number of the frame, below 16,384, or None for the page of zeros.
    pub frame: Option<FrameId>,
}

/// The answer of a call that is not refused.
#[derive(Debug, Drop)]
pub enum Answer<A: Allocator + Copy + Send + Sync> {
    /// Nothing to report.
    Done,
    /// The number of a new segment: below 65,536.
    Segment(u32),
    /// The bytes that were read.
    Bytes(Vec<u8, A>),
    /// The statuses of a batch, or of pages that were looked at, none of which count as failed.
    Statuses(Moved<A>),
    /// How many pages failed to move because of a pin or for lack of a free frame.
    Failed(usize),
    /// Frames, front first.
    Frames(Vec<FrameId, A>),
    /// The entries of a process, in address order.
    Entries(Vec<PagemapEntry, A>),
    /// How many pages have moved and how many entries have failed.
    Totals(Totals),
    /// Lines of text, without line feeds.
    Lines(Vec<String<A>, A>),
}
