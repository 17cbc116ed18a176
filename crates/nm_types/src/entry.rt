//! What a process's page table has at a page number.

use crate::FrameId;

/// An entry of a page table at a page number that is not absent.
#[derive(Clone, Copy, Debug, PartialEq, Eq)]
pub enum Entry {
    /// The page of zeros, which a read of private memory shows until the first write.
    Zero,
    /// A page in this frame.
    Frame(FrameId),
    /// A page that is on its way to this frame: every entry that shows a page which a run moves, from the run's
    /// beginning to its end. Between two calls no page table has one.
    Held(FrameId),
}
