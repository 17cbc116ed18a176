//! What runs report.

use nm_engine::AccessAnswer;
use std::alloc::Allocator;

/// The answer to a batch.
#[derive(Debug, Drop)]
pub struct Moved<A: Allocator + Copy + Send + Sync> {
    /// How many entries failed because of a pin or for lack of a free frame: those with status -16 or -12.
    pub failed: usize,
    /// The status of each entry, in order: the number of the node where its page is (0 to 63), or an error's number
    /// with a minus sign.
    pub statuses: Vec<i32, A>,
    /// The answers to the accesses made while pages moved, in the order of the accesses. An access of a run that the
    /// call does not make has none.
    pub answers: Vec<AccessAnswer<A>, A>,
}
