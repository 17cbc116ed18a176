//! What the library's functions return.

ghost use Rattle.std.specs.Prelude.{◌≡◌};
ghost use Rattle.nm_library.specs.Statuses.{fault_status};

use nm_trace::TraceError;

/// Done.
pub const DONE: i32 = 0;

/// An argument is of no use: there is no session, or there is one already, or a trace is too long.
pub const BAD_ARGUMENT: i32 = 1;

/// The bytes are JSON, but no trace, no top of one, or no step.
pub const BAD_INPUT: i32 = 2;

/// The host is out of memory.
pub const NO_MEMORY: i32 = 3;

/// The bytes are no JSON.
pub const NOT_JSON: i32 = 4;

/// The room is too small for the text.
pub const SMALL_ROOM: i32 = 5;

/// The status for a fault. A writer to memory fails only where there is no memory, and a reader of memory only where a
/// trace is too long.
pub fn status_of(fault: TraceError) -> i32
    ensures { result ≡ fault_status fault }
{
    match fault {
        TraceError::NotJson => NOT_JSON,
        TraceError::BadMachine | TraceError::BadStep(_) => BAD_INPUT,
        TraceError::ReadFault => BAD_ARGUMENT,
        TraceError::WriteFault | TraceError::HostMemory(_) => NO_MEMORY,
    }
}
