//! A flag and a count beside a reader or a writer.

ghost use Rattle.std.specs.Prelude.{◌≡◌, ◌||◌, ◌+◌, ◌∷◌, [], ℕ, false, is_err, IfOk, OnErr};
ghost use Rattle.std.specs.Io.Buffered.{writer_buffer};
ghost use Rattle.std.specs.Io.{ReadsAtMost, WritesAtMost};
ghost use Rattle.std.specs.Io.Iter.{u64_saturate};
ghost use Rattle.std.specs.Io.KnownBytes.{Keeps, ReadConsumes, WriteAppends};
ghost use Rattle.nm_streams.specs.Counts.{is_failed_write, none_counted, more_counted};
ghost use Rattle.nm_streams.specs.Watched.{watched_failed, watched_given, watched_inner};

use crate::reporting::{FlushingWriter, ReportingReader, ReportingWriter};
use std::alloc::Allocator;
use std::io;
use std::io::{BufWriter, Read, Write};

/// A reader or a writer of any kind, with a flag that is set when a read, a write or a flush fails, and a count of the
/// bytes read.
#[derive(Drop)]
pub struct WatchedStream<T> {
    inner: T,
    has_failed: bool,
    given: u64,
}

impl<T> WatchedStream<T> {
    /// Watches a reader or a writer, from this call on.
    pub fn new(inner: T) -> WatchedStream<T>
        ensures inner { watched_inner result ≡ inner }
        ensures failed { watched_failed result ≡ false }
        ensures given { watched_given result ≡ 0 }
    {
        WatchedStream {
            inner,
            has_failed: false,
            given: 0,
        }
    }

    /// Whether a read, a write or a flush has failed. A write fails with an error, or if it takes no byte although there
    /// is one.
    pub fn has_failed(&self) -> bool
        ensures { result ≡ watched_failed self.now }
    {
        self.has_failed
    }

    /// How many bytes were read. The count stops at `u64::MAX`.
    pub fn bytes_given(&self) -> u64
        ensures { result ≡ watched_given self.now }
    {
        self.given
    }

    /// The watched reader or writer.
    pub fn get_ref(&self) -> &T
        ensures { result.now ≡ watched_inner self.now }
    {
        &self.inner
    }

    /// The reader or writer that was watched.
    pub fn into_inner(self) -> T
        ensures { result ≡ watched_inner self }
    {
        self.inner
    }
}

impl<R: Read> Read for WatchedStream<R> {
    ghost remaining = { λ w. R.remaining (watched_inner w) };

    fn read(&mut self, buf: &mut [u8]) -> io::Result<usize>
        // In any case
        ensures bound { ReadsAtMost result buf.new }
        ensures bytes { ReadConsumes (R.remaining (watched_inner self.old))
            (R.remaining (watched_inner self.new)) result buf.new }
        ensures failed { watched_failed self.new ≡ (is_err result || watched_failed self.old) }

        // On success
        ensures given { IfOk result
            (λ n. watched_given self.new ≡ u64_saturate (watched_given self.old + n)) }

        // On an error
        ensures none { OnErr result (watched_given self.new ≡ watched_given self.old) }
    {
        match self.inner.read(buf) {
            Ok(count) => {
                self.given = self.given.saturating_add(count as u64);
                Ok(count)
            }
            Err(error) => {
                self.has_failed = true;
                Err(error)
            }
        }
    }
}

impl<R: Read> ReportingReader for WatchedStream<R> {
    ghost has_failed = { λ w. watched_failed w };

    ghost gave = { λ v w n. u64_saturate (watched_given w) ≡ u64_saturate (watched_given v + n) };

    fn read_reporting(&mut self, buf: &mut [u8]) -> io::Result<usize> {
        self.read(buf)
    }

    ghost gave_none = { λ w. none_counted (watched_given w) };

    ghost gave_more = { λ u v w. more_counted (watched_given u) (watched_given v) (watched_given w) };
}

impl<W: Write> Write for WatchedStream<W> {
    ghost contents = { λ w. W.contents (watched_inner w) };

    fn write(&mut self, buf: &[u8]) -> io::Result<usize>
        ensures bound { WritesAtMost result buf.now }
        ensures bytes { WriteAppends (W.contents (watched_inner self.old))
            (W.contents (watched_inner self.new)) result buf.now }
        ensures failed { watched_failed self.new
            ≡ (is_failed_write result buf.now || watched_failed self.old) }
        ensures given { watched_given self.new ≡ watched_given self.old }
    {
        match self.inner.write(buf) {
            Ok(count) => {
                if count == 0 && !buf.is_empty() {
                    self.has_failed = true;
                }
                Ok(count)
            }
            Err(error) => {
                self.has_failed = true;
                Err(error)
            }
        }
    }

    fn flush(&mut self) -> io::Result<()>
        ensures bytes { Keeps (W.contents (watched_inner self.old))
            (W.contents (watched_inner self.new)) }
        ensures failed { watched_failed self.new ≡ (is_err result || watched_failed self.old) }
        ensures given { watched_given self.new ≡ watched_given self.old }
    {
        let flushed = self.inner.flush();
        self.has_failed = flushed.is_err() || self.has_failed;
        flushed
    }
}

impl<W: Write> ReportingWriter for WatchedStream<W> {
    ghost has_failed = { λ w. watched_failed w };

    fn write_reporting(&mut self, buf: &[u8]) -> io::Result<usize> {
        self.write(buf)
    }
}

impl<W: Write + Drop, A: Allocator> FlushingWriter for WatchedStream<BufWriter<W, A>> {
    ghost is_flushed = { λ w. writer_buffer (watched_inner w) ≡ [] };

    fn flush_reporting(&mut self) -> io::Result<()> {
        let emptied = self.inner.flush();
        self.has_failed = emptied.is_err() || self.has_failed;
        emptied
    }
}
