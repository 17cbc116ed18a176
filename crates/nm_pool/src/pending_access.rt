//! What is left to do for an access in flight after its touch.

use crate::answers::AccessAnswer;
use nm_types::Page;
use std::alloc::Allocator;

/// What is left to do for an access after its touch. None of it allocates. The bytes that an access writes are
/// borrowed from it.
#[derive(Drop)]
pub enum PendingAccess<'d, A: Allocator + Copy> {
    /// Nothing: its answer is known.
    Known(AccessAnswer<A>),
    /// Reading `len` bytes of a page, from index `at` on, into a list that has room for them.
    Read {
        page: Page,
        at: usize,
        len: usize,
        bytes: Vec<u8, A>,
    },
    /// Writing these bytes to a page, from index `at` on.
    Write {
        page: Page,
        at: usize,
        bytes: &'d [u8],
    },
}
