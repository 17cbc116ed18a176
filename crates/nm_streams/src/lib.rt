//! Streams that report whether they have failed, reading them to their end, and text that waits to be written.
#![tactic(auto)]

mod block;
mod closed_writer;
mod reading;
mod reporting;
mod seed;
mod stream_error;
mod watched_stream;

pub use block::{Block, write_lines};
pub use closed_writer::ClosedWriter;
pub use reading::read_all;
pub use reporting::{FlushingWriter, ReportingReader, ReportingWriter};
pub use seed::draw_seed;
pub use stream_error::{ReadError, WriteError};
pub use watched_stream::WatchedStream;
