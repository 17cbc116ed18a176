//! The answers to accesses in flight.

use nm_types::Errno;
use std::alloc::Allocator;

/// The answer to a read or a write that a process makes while pages of a run move.
#[derive(Debug, Drop)]
pub enum AccessAnswer<A: Allocator + Copy> {
    /// The bytes that were read.
    Bytes(Vec<u8, A>),
    /// The bytes were written.
    Done,
    /// The page moves in this run: nothing was read or written, and no frame was taken.
    Held,
    /// Refused with this error, as outside a run.
    Refused(Errno),
}
