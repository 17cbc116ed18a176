//! Why bytes were not read, or not written.

use thiserror::Error;

/// Why the bytes of a reader could not all be read.
#[derive(Clone, Copy, Debug, PartialEq, Eq, Error)]
pub enum ReadError {
    /// The reader failed, or gave more bytes than the limit.
    #[error("read fault")]
    Fault,
    /// The host was out of memory for the bytes.
    #[error("host memory refused")]
    HostMemory,
}

/// The writer failed, or took no byte.
#[derive(Clone, Copy, Debug, PartialEq, Eq, Error)]
#[error("write fault")]
pub struct WriteError;
