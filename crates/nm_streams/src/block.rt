//! Text that waits to be written.

ghost use Rattle.std.specs.Prelude.{◌≡◌, ◌≤◌, ◌||◌, ◌++◌, ◌∷◌, [], length, false, if◌then◌else◌, OnOk, OnErr, is_err};
ghost use Rattle.std.specs.Io.KnownBytes.{Appends};
ghost use Rattle.nm_streams.specs.Waiting.{BreaksOff, Puts, block_broken, block_room, block_waiting};

use crate::reporting::ReportingWriter;
use crate::stream_error::WriteError;
use std::alloc::Allocator;

/// Writes all of the bytes; or, if the writer fails or takes no byte, writes a prefix of them and returns an error.
pub fn write_lines<W: ReportingWriter>(writer: &mut W, lines: &[u8]) -> Result<(), WriteError>
    ensures whole { OnOk result (Appends (W.contents writer.old) (W.contents writer.new) lines.now) }
    ensures broken { OnErr result
        (BreaksOff (W.contents writer.old) (W.contents writer.new) lines.now) }
    ensures failure { W.has_failed writer.new ≡ (is_err result || W.has_failed writer.old) }
{
    let mut at = 0;
    while at < lines.len() {
        let (_, rest) = lines.split_at(at);
        match writer.write_reporting(rest) {
            Ok(0) => return Err(WriteError),
            Ok(count) => at += count,
            Err(_) => return Err(WriteError),
        }
    }
    Ok(())
}

/// Writes what waits and a text after it, and then nothing waits.
#[inline(never)]
fn write_through<W: ReportingWriter, A: Allocator>(
    writer: &mut W,
    waiting: &mut Vec<u8, A>,
    text: &[u8],
) -> Result<(), WriteError>
    ensures whole { OnOk result
        (Appends (W.contents writer.old) (W.contents writer.new) (waiting.old.items ++ text.now)) }
    ensures empty { OnOk result (waiting.new.items ≡ []) }
    ensures within { length waiting.new.items ≤ length waiting.old.items }
    ensures broken { OnErr result
        (BreaksOff (W.contents writer.old) (W.contents writer.new) (waiting.old.items ++ text.now)) }
    ensures failure { W.has_failed writer.new ≡ (is_err result || W.has_failed writer.old) }
{
    let Ok(()) = write_lines(writer, waiting.as_slice()) else {
        return Err(WriteError);
    };
    waiting.clear();
    let Ok(()) = write_lines(writer, text) else {
        return Err(WriteError);
    };
    Ok(())
}

/// Appends a text to what waits, if so much may wait and the host has memory for it. Returns whether it did.
fn keep<A: Allocator>(waiting: &mut Vec<u8, A>, room: usize, text: &[u8]) -> bool
    ensures kept { waiting.new.items
        ≡ (if result then waiting.old.items ++ text.now else waiting.old.items) }
    ensures within { length waiting.old.items ≤ room → length waiting.new.items ≤ room }
{
    let left = room.saturating_sub(waiting.len());
    text.len() <= left && waiting.extend_from_slice(text).is_ok()
}

/// Appends a byte to what waits, if one more may wait and the host has memory for it. Returns whether it did.
fn keep_byte<A: Allocator>(waiting: &mut Vec<u8, A>, room: usize, byte: u8) -> bool
    ensures kept { waiting.new.items
        ≡ (if result then waiting.old.items ++ byte ∷ [] else waiting.old.items) }
    ensures within { length waiting.old.items ≤ room → length waiting.new.items ≤ room }
{
    waiting.len() < room && waiting.push(byte).is_ok()
}

/// Text that waits until there is so much that it is written. What finds no room, or no memory on the host, is written
/// at once. After a write that failed the block is broken, and takes no more.
#[derive(Drop)]
pub struct Block<A: Allocator> {
    waiting: Vec<u8, A>,
    room: usize,
    is_broken: bool,
}

impl<A: Allocator> Block<A> {
    /// A block in which so many bytes wait at most.
    pub fn new(alloc: A, room: usize) -> Block<A>
        ensures waiting { block_waiting result ≡ [] }
        ensures room { block_room result ≡ room }
        ensures whole { block_broken result ≡ false }
    {
        Block {
            waiting: Vec::new(alloc),
            room,
            is_broken: false,
        }
    }

    /// Whether a write has failed.
    pub fn is_broken(&self) -> bool
        ensures { result ≡ block_broken self.now }
    {
        self.is_broken
    }

    /// What waits.
    pub fn into_waiting(self) -> Vec<u8, A>
        ensures { result.items ≡ block_waiting self }
    {
        self.waiting
    }

    /// Appends bytes, which wait or are written.
    pub fn push<W: ReportingWriter>(&mut self, writer: &mut W, text: &[u8])
        ensures { Puts W.contents W.has_failed writer.old self.old writer.new self.new text.now }
    {
        if self.is_broken {
            return;
        }
        if keep(&mut self.waiting, self.room, text) {
            return;
        }
        self.is_broken = write_through(writer, &mut self.waiting, text).is_err();
    }

    /// Appends a byte, which waits or is written.
    pub fn push_byte<W: ReportingWriter>(&mut self, writer: &mut W, byte: u8)
        ensures { Puts W.contents W.has_failed writer.old self.old writer.new self.new (byte ∷ []) }
    {
        if self.is_broken {
            return;
        }
        if keep_byte(&mut self.waiting, self.room, byte) {
            return;
        }
        self.is_broken = write_through(writer, &mut self.waiting, &[byte]).is_err();
    }

    /// Appends a text, which waits or is written.
    pub fn push_str<W: ReportingWriter>(&mut self, writer: &mut W, text: &str)
        ensures { Puts W.contents W.has_failed writer.old self.old writer.new self.new text.now }
    {
        self.push(writer, text.as_bytes());
    }

    /// Writes what waits.
    pub fn finish<W: ReportingWriter>(&self, writer: &mut W) -> Result<(), WriteError>
        ensures whole { OnOk result
            (Appends (W.contents writer.old) (W.contents writer.new) (block_waiting self.now)) }
        ensures broken { OnErr result
            (BreaksOff (W.contents writer.old) (W.contents writer.new) (block_waiting self.now)) }
        ensures failure { W.has_failed writer.new ≡ (is_err result || W.has_failed writer.old) }
    {
        let Ok(()) = write_lines(writer, self.waiting.as_slice()) else {
            return Err(WriteError);
        };
        Ok(())
    }
}
