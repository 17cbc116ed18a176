//! Reads and writes in a process's memory.

use crate::numbers::Pid;
use std::alloc::Allocator;

/// A read or a write of 1 to 4,096 bytes inside one page of a process.
#[derive(Debug, Drop)]
pub enum Access<A: Allocator + Copy> {
    /// Reads `len` bytes from an address on.
    Read {
        /// The process.
        pid: Pid,
        /// The address of the first byte, in bytes: below 2^47 inside areas.
        addr: u64,
        /// How many bytes to read: 1 to 4,096, and at most as many as the page has from `addr` on.
        len: u64,
    },
    /// Writes bytes from an address on.
    Write {
        /// The process.
        pid: Pid,
        /// The address of the first byte, in bytes: below 2^47 inside areas.
        addr: u64,
        /// The bytes to write: 1 to 4,096 of them, and at most as many as the page has from `addr` on.
        bytes: Vec<u8, A>,
    },
}
