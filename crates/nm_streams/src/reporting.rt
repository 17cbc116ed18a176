//! Readers and writers that report whether they have failed.

ghost use Rattle.std.specs.Prelude.{◌≡◌, ◌||◌, ◌+◌, ℕ, Bool, false, length, is_err, MatchResult, OnOk, refl};
ghost use Rattle.std.specs.Io.{ReadsAtMost, WritesAtMost};
ghost use Rattle.std.specs.Io.Cursor.{cursor_position};
ghost use Rattle.std.specs.Io.KnownBytes.{Keeps, ReadConsumes, WriteAppends};
ghost use Rattle.nm_streams.specs.Counts.{is_failed_write, none_left, more_left, none_on, more_on, more_of_none};

use std::alloc::Allocator;
use std::collections::VecDeque;
use std::io;
use std::io::{AsBytes, Cursor, Empty, Read, Sink, Write};

/// A reader that reports whether it has failed, and how many bytes it gave.
pub trait ReportingReader: Read {
    /// A read has failed.
    ghost has_failed: { Self → Bool };

    /// It gave this many bytes between an earlier moment and a later one.
    ghost gave: { Self → Self → ℕ → Type 0 };

    /// Does what `read` does, and records how many bytes it gave and whether it failed.
    fn read_reporting(&mut self, buf: &mut [u8]) -> io::Result<usize>
        // What `read` does
        ensures bound { ReadsAtMost result buf.new }
        ensures bytes { ReadConsumes (Self.remaining self.old)
            (Self.remaining self.new) result buf.new }

        // What is reported
        ensures failed { has_failed self.new ≡ (is_err result || has_failed self.old) }
        ensures given { MatchResult result (gave self.old self.new) (λ _. gave self.old self.new 0) };

    /// Between a moment and itself it gave none.
    ghost gave_none: { (r : Self) → gave r r 0 };

    /// The numbers of bytes that it gave add up.
    ghost gave_more: { (r s t : Self) (m n : ℕ) → gave r s m → gave s t n → gave r t (m + n) };
}

/// A writer that reports whether it has failed.
pub trait ReportingWriter: Write {
    /// A write has failed: with an error, or it took no byte although there was one.
    ghost has_failed: { Self → Bool };

    /// Does what `write` does, and records whether it failed.
    fn write_reporting(&mut self, buf: &[u8]) -> io::Result<usize>
        ensures bound { WritesAtMost result buf.now }
        ensures bytes { WriteAppends (Self.contents self.old)
            (Self.contents self.new) result buf.now }
        ensures failed { has_failed self.new
            ≡ (is_failed_write result buf.now || has_failed self.old) };
}

/// A writer that keeps what it took until it is flushed, and reports whether it has failed.
pub trait FlushingWriter: ReportingWriter {
    /// Nothing that it took waits in it.
    ghost is_flushed: { Self → Type 0 };

    /// Does what `flush` does, and records whether it failed.
    fn flush_reporting(&mut self) -> io::Result<()>
        ensures bytes { Keeps (Self.contents self.old) (Self.contents self.new) }
        ensures flushed { OnOk result (is_flushed self.new) }
        ensures failed { Self.has_failed self.new ≡ (is_err result || Self.has_failed self.old) };
}

impl ReportingReader for &[u8] {
    ghost has_failed = { λ _. false };

    ghost gave = { λ r s n. length r.now ≡ n + length s.now };

    fn read_reporting(&mut self, buf: &mut [u8]) -> io::Result<usize> {
        self.read(buf)
    }

    ghost gave_none = { λ r. none_left (length r.now) };

    ghost gave_more = { λ r s t. more_left (length r.now) (length s.now) (length t.now) };
}

impl<A: Allocator> ReportingReader for VecDeque<u8, A> {
    ghost has_failed = { λ _. false };

    ghost gave = { λ r s n. length r.items ≡ n + length s.items };

    fn read_reporting(&mut self, buf: &mut [u8]) -> io::Result<usize> {
        self.read(buf)
    }

    ghost gave_none = { λ r. none_left (length r.items) };

    ghost gave_more = { λ r s t. more_left (length r.items) (length s.items) (length t.items) };
}

impl<T: AsBytes> ReportingReader for Cursor<T> {
    ghost has_failed = { λ _. false };

    ghost gave = { λ r s n. cursor_position s ≡ cursor_position r + n };

    fn read_reporting(&mut self, buf: &mut [u8]) -> io::Result<usize> {
        self.read(buf)
    }

    ghost gave_none = { λ r. none_on (cursor_position r) };

    ghost gave_more = { λ r s t. more_on (cursor_position r) (cursor_position s) (cursor_position t) };
}

impl ReportingReader for Empty {
    ghost has_failed = { λ _. false };

    ghost gave = { λ _ _ n. n ≡ 0 };

    fn read_reporting(&mut self, buf: &mut [u8]) -> io::Result<usize> {
        self.read(buf)
    }

    ghost gave_none = { λ _. refl };

    ghost gave_more = { λ _ _ _. more_of_none };
}

impl ReportingWriter for Sink {
    ghost has_failed = { λ _. false };

    fn write_reporting(&mut self, buf: &[u8]) -> io::Result<usize> {
        self.write(buf)
    }
}

impl ReportingWriter for Empty {
    ghost has_failed = { λ _. false };

    fn write_reporting(&mut self, buf: &[u8]) -> io::Result<usize> {
        self.write(buf)
    }
}
