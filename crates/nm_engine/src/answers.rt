//! The results of runs.

use nm_pool::AccessAnswer;
use std::alloc::Allocator;

/// The result of a run.
#[derive(Debug, Drop)]
pub struct RunAnswer<A: Allocator + Copy> {
    /// The status of each request, in order: the number of the node where its page is (0 to 63), or an error's number
    /// with a minus sign.
    pub statuses: Vec<i32, A>,
    /// How many of the requests failed: the page has a pin (-16), or the target has no free frame (-12).
    pub failed: usize,
    /// The answer to each access, in the order of the accesses.
    pub answers: Vec<AccessAnswer<A>, A>,
}
