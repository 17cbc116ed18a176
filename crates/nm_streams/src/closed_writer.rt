//! A writer that takes nothing.

ghost use Rattle.std.specs.Prelude.{◌≡◌, ◌||◌, Some, [], true, is_err};
ghost use Rattle.std.specs.Io.{WritesAtMost};
ghost use Rattle.std.specs.Io.KnownBytes.{WriteAppends};

use crate::reporting::ReportingWriter;
use std::io;
use std::io::{ErrorKind, Write};

/// A writer whose every write fails.
#[derive(Drop)]
pub struct ClosedWriter {}

impl ClosedWriter {
    /// Makes such a writer.
    pub fn new() -> ClosedWriter {
        ClosedWriter {}
    }
}

impl Write for ClosedWriter {
    ghost contents = { λ _. Some [] };

    fn write(&mut self, _buf: &[u8]) -> io::Result<usize> {
        Err(io::Error::from(ErrorKind::WriteZero))
    }

    fn flush(&mut self) -> io::Result<()> {
        Ok(())
    }
}

impl ReportingWriter for ClosedWriter {
    ghost has_failed = { λ _. true };

    fn write_reporting(&mut self, buf: &[u8]) -> io::Result<usize> {
        self.write(buf)
    }
}
