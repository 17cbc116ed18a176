//! The faults of a trace.

use thiserror::Error;

/// Why there is no report, or no whole one. `ReadFault` comes first, then `NotJson`, `BadMachine` and `BadStep`, all
/// before any step is made.
#[derive(Clone, Copy, Debug, PartialEq, Eq, Error)]
pub enum TraceError {
    /// The bytes are not JSON text in UTF-8.
    #[error("not JSON")]
    NotJson,
    /// The top is not an object with version 1, or version 2 and a limit on runs, a machine that can exist, and a list
    /// of steps.
    #[error("bad machine")]
    BadMachine,
    /// The step with this number has another form. Steps are numbered from 0, and this is the first such step.
    #[error("bad step {0}")]
    BadStep(usize),
    /// The reader failed, or gave more than 16,777,216 bytes.
    #[error("read fault")]
    ReadFault,
    /// The writer failed, or took no byte.
    #[error("write fault")]
    WriteFault,
    /// The host was out of memory after this many steps: 0 if for the words, the trace or the machine.
    #[error("host memory refused after {0} steps")]
    HostMemory(usize),
}
