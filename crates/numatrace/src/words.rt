//! The program, for any words, reader and writers.

ghost use Rattle.std.specs.Prelude.{◌≡◌, ◌<◌, ◌≤◌, ℕ, [], OnOk, map, string_bytes};
ghost use Rattle.std.specs.Io.KnownBytes.{Appends};
ghost use Rattle.clap.specs.Words.{kind_of};
ghost use Rattle.numatrace.specs.Status.{status_of, words_status, words_text, refused_status, Ends, RunsTrace, PrintsRefusal};
ghost use Rattle.nm_words.specs.Words.{refusals_of};

use clap::Error;
use clap::error::ErrorKind;
use nm_frames::CopyJob;
use nm_spaces::AddressSpaces;
use nm_threads::Hired;
use nm_trace::{ReportingReader, ReportingWriter, RunCrew, TraceError, run_trace, write_lines};
use nm_words::read_words;
use std::alloc::{Allocator, Global};
use std::io;
use std::io::Write;
use std::marker::PhantomData;
use std::sync::Wait;
use std::thread::Threads;

/// The status after a whole report.
const DONE: u8 = 0;

/// The status for a bad trace, and for words that are refused.
const BAD_INPUT: u8 = 2;

/// The status if the host is out of memory.
const HOST_REFUSAL: u8 = 3;

/// The status if a reader or a writer failed.
const STREAM_FAULT: u8 = 4;

/// The exit status of a fault.
fn status_of(fault: TraceError) -> u8
    ensures { result ≡ status_of fault }
{
    match fault {
        TraceError::NotJson | TraceError::BadMachine | TraceError::BadStep(_) => BAD_INPUT,
        TraceError::HostMemory(_) => HOST_REFUSAL,
        TraceError::ReadFault | TraceError::WriteFault => STREAM_FAULT,
    }
}

/// The exit status for words that clap refuses: 3 if the host is out of memory, and 2 for any other cause, which may be
/// that they ask for help or the version.
fn refused_words(kind: ErrorKind) -> u8
    ensures { result ≡ refused_status kind }
{
    match kind {
        ErrorKind::OutOfMemory => HOST_REFUSAL,
        _ => BAD_INPUT,
    }
}

/// Writes why words were refused, in one line or in clap's own text. A fault of `err` is not reported.
fn print_refusal<E: ReportingWriter>(error: &Error, err: &mut E)
    ensures { PrintsRefusal (kind_of error.now) (E.contents err.old) (E.contents err.new) (E.has_failed err.new) }
{
    if matches!(error.kind(), ErrorKind::OutOfMemory) {
        let _ = write_lines(err, b"numatrace: host memory refused after 0 steps\n");
    } else {
        let _ = write!(err, "{error}");
    }
}

/// The line for words that could not be read.
fn words_text(kind: io::ErrorKind) -> &'static str
    ensures { result.now ≡ words_text kind }
{
    match kind {
        io::ErrorKind::OutOfMemory => "numatrace: host memory refused after 0 steps\n",
        _ => "numatrace: a word is not UTF-8\n",
    }
}

/// Writes in one line why the program's words could not be read.
fn print_unread<E: Write>(kind: io::ErrorKind, err: &mut E) -> io::Result<()>
    ensures { OnOk result (Appends (E.contents err.old) (E.contents err.new) (words_text kind)) }
{
    let text = words_text(kind);
    err.write_all(text.as_bytes())
}

/// Reports why the program's words could not be read, and returns the exit status: 3 if the host is out of memory, and
/// 2 for any other cause, such as a word that is not UTF-8.
pub(crate) fn unread_words<E: Write>(kind: io::ErrorKind, err: &mut E) -> u8
    ensures { result ≡ words_status kind }
{
    let _ = print_unread(kind, err);
    if matches!(kind, io::ErrorKind::OutOfMemory) {
        return HOST_REFUSAL;
    }
    BAD_INPUT
}

/// Runs the program: reads the words, then the trace from the reader, and writes the report to `out`. `--workers N`
/// sets how many workers copy and look, 1 to 64, and 4 if it is not given; it changes no byte of the report, and neither
/// does the seed, which keeps pids from being chosen so that they are slow to find (`Crew::hash_seed`). Returns the
/// exit status: 0 after a whole report; 2 for a bad trace, for words that are refused, and for `--help` and `--version`;
/// 3 if the host is out of memory; 4 for a read or write fault. A fault is reported on `err`, in one line or in clap's
/// own text, and a fault of `err` does not change the status.
pub fn run_words<T: Threads + Wait, R: ReportingReader, W: ReportingWriter, E: ReportingWriter>(
    rt: &T,
    seed: u64,
    heap: Global,
    words: &[String],
    reader: &mut R,
    out: &mut W,
    err: &mut E,
) -> u8
    ensures { Ends R.remaining R.has_failed R.gave W.contents W.has_failed E.contents E.has_failed
        (refusals_of (map string_bytes words.now)) result reader.old reader.new out.old out.new err.old err.new }
{
    // (the kit's borrow checker looks for what a crew works on among the types of this function)
    let _work: PhantomData<(CopyJob<Global>, AddressSpaces<Global>)> = PhantomData;
    let hire = |workers: usize| -> Hired<'_, T>
        requires { (0 < workers) × (workers ≤ 64) }
    { Hired::with_hash_seed(rt, workers, seed) };
    run_words_by(hire, heap, heap, words, reader, out, err)
}

/// Does the same, with the crew that `hire` makes of the number of workers that the words ask for. The words and the JSON
/// tree are in the memory of `heap`; everything else is in that of `alloc`.
pub(crate) fn run_words_by<
    C: RunCrew<A> + Drop,
    H: FnOnce(usize) -> C,
    A: Allocator + Copy + Send + Sync,
    R: ReportingReader,
    W: ReportingWriter,
    E: ReportingWriter,
>(hire: H, alloc: A, heap: Global, words: &[String], reader: &mut R, out: &mut W, err: &mut E) -> u8
    requires { (workers : ℕ) → 0 < workers → workers ≤ 64 → H.pre hire workers }
    ensures { Ends R.remaining R.has_failed R.gave W.contents W.has_failed E.contents E.has_failed
        (refusals_of (map string_bytes words.now)) result reader.old reader.new out.old out.new err.old err.new }
{
    let workers = match read_words(heap, words) {
        Ok(workers) => workers,
        Err(error) => {
            print_refusal(&error, err);
            return refused_words(error.kind());
        }
    };
    let crew = hire(workers);
    run_with(&crew, alloc, heap, reader, out, err)
}

/// Does the same after the words are read, with a crew.
fn run_with<
    A: Allocator + Copy + Send + Sync,
    C: RunCrew<A>,
    R: ReportingReader,
    W: ReportingWriter,
    E: ReportingWriter,
>(crew: &C, alloc: A, heap: Global, reader: &mut R, out: &mut W, err: &mut E) -> u8
    ensures { RunsTrace R.remaining R.has_failed R.gave W.contents W.has_failed
        [] result reader.old reader.new out.old out.new err.old err.new }
{
    match run_trace(crew, alloc, heap, reader, out) {
        Ok(_) => DONE,
        Err(fault) => {
            let _ = writeln!(err, "numatrace: {fault}");
            status_of(fault)
        }
    }
}
