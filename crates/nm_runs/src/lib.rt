//! What a batch of requests asks for, run by run, and what to do with each request.
#![tactic(auto)]

mod check;
mod classes;
mod cutting;
pub mod laws;
mod parallel;

pub use check::check_batch;
pub use classes::classes_of;
pub use cutting::{cut, cut_pages, run_count};
use nm_types::NodeId;
pub use nm_types::{Class, Request, Wanted};
pub use parallel::classify;
use std::alloc::Allocator;

/// Consecutive requests for one target node. They are decided one after another, and the frames that their pages leave
/// become free when the run ends.
#[derive(Debug, Drop)]
pub struct Run<A: Allocator + Copy> {
    /// The number of the node that the pages are to go to: below the machine's number of nodes.
    pub target: NodeId,
    /// What each request asks to move, in order: at least one, and in a run of a trace at most 16,384.
    pub wanted: Vec<Wanted, A>,
}
