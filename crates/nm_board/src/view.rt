//! What a hand knows of its board.

use nm_frames::CopyJob;
use std::alloc::Allocator;
use std::collections::LinkedList;

/// What a hand knows, as the board's rule sees it. No program makes a value of this type.
pub struct View<A: Allocator + Copy> {
    /// How many of the board's 64 shares it has: 0 to 64.
    pub shares: u64,
    /// Whether a draw by it, or by a hand that it comes from or took in, found no job left.
    pub past_end: bool,
    /// The tickets that it drew, counted from 0.
    pub drawn: LinkedList<u64>,
    /// The tickets that it gave back.
    pub done: LinkedList<u64>,
    /// Whether it has counted that all jobs were given back.
    pub full: bool,
    /// The jobs that were laid, in the order of their tickets.
    pub jobs: LinkedList<CopyJob<A>>,
}
