//! Traces that are played: from bytes to the report on their calls.
#![tactic(auto)]

pub mod laws;
mod playing;
mod running;
mod session;
mod text;

pub use nm_calls::{FIXED_SEED, RunCrew};
pub use nm_steps::{Trace, TraceError, read_trace};
pub use nm_streams::{
    FlushingWriter, ReportingReader, ReportingWriter, WatchedStream, draw_seed, write_lines,
};
pub use playing::{Summary, play};
pub use running::{FinishedTrace, TRACE_LIMIT, run_on, run_trace};
pub use session::Session;
