//! Plays a trace step by step, as another program asks: the first line of standard input is the top of a trace, and each
//! further line is a step, as JSON. The reply to a step is its lines of the report and an empty line, on standard output;
//! it is written before the program waits for the next line.
//!
//! A line that is no step has the reply `fault: ` and what is wrong, and an empty line; the session is as before. Ends
//! with status 0 where the input ends, 2 where its first line is no top of a trace, 3 where the host is out of memory,
//! and 4 where a stream fails, with one line on standard error for the last three.
#![tactic(auto)]

ghost use Rattle.std.specs.Prelude.{◌≡◌, ◌⊎◌, ◌||◌, ◌++◌, [], length, nat_lt, true, false, Ok, OnOk, IfOk, IfErr, IfSome, is_err};
ghost use Rattle.std.specs.Io.{StopsAt};
ghost use Rattle.std.specs.Io.BufRead.{take_through, DropsThrough};
ghost use Rattle.std.specs.Io.KnownBytes.{Consumes, IsAtEnd, Keeps};
ghost use Rattle.std.specs.Io.Buffered.{reader_buffer, writer_buffer, writer_inner};
ghost use Rattle.nm_steps.specs.Memory.{IsSomeText};
ghost use Rattle.nm_steps.specs.declared.trace_error.TraceError.{TraceError};
ghost use Rattle.numatrace_session.specs.Ends.{status_of, end_unopened, unread, Begins, IsPrinted};
ghost use Rattle.numatrace_session.specs.Input.{has_read_failed, left_in};
ghost use Rattle.numatrace_session.specs.Replies.{bad_step_reply, has_line, EndsEarly, EndsFlushed, EndsTalk, ReachesEnd, Replies, RepliesToLines, Talks, RepliesFault, Writes};

use nm_crew::Alone;
use nm_frames::CopyJob;
use nm_spaces::AddressSpaces;
use nm_trace::{
    FlushingWriter, ReportingWriter, Session, TraceError, WatchedStream, draw_seed, write_lines,
};
use std::alloc::Global;
use std::io;
use std::io::{BufRead, BufReader, BufWriter, ErrorKind, Read, Write};
use std::marker::PhantomData;
use std::process::ExitCode;
use std::random::RandomSource;
use std::sync::Wait;

/// Why a session ends before its input does.
#[derive(Drop)]
enum End {
    /// The first line is no top of a trace.
    BadTop(TraceError),
    /// The host is out of memory.
    HostMemory,
    /// A stream failed.
    Stream,
}

/// Why a session ends where a line cannot be read, given the kind of the error and whether the reader has failed: if it
/// has not, memory for the line was refused.
fn unread(kind: ErrorKind, has_failed: bool) -> End
    ensures end { result ≡ unread kind has_failed }
    ensures err { (result ≡ End.HostMemory) ⊎ (result ≡ End.Stream) }
    ensures cause { result ≡ End.Stream → has_failed ≡ true }
{
    match kind {
        ErrorKind::OutOfMemory => End::HostMemory,
        _ if has_failed => End::Stream,
        _ => End::HostMemory,
    }
}

/// Reads the next line, with its end, in place of what is in the list. False where the input has ended.
fn next_line<R: Read>(
    input: &mut BufReader<WatchedStream<R>, Global>,
    line: &mut Vec<u8>,
) -> Result<bool, End>
    // On success
    ensures line { OnOk result (IfSome (left_in R.remaining input.old)
        (λ xs. line.new.items ≡ take_through 10 xs)) }
    ensures rest { OnOk result (DropsThrough (left_in R.remaining input.old) (left_in R.remaining input.new) 10) }
    ensures more { IfOk result (λ more. more ≡ nat_lt 0 (length line.new.items)) }
    ensures end { IfOk result (λ more. more ≡ false → IsAtEnd (left_in R.remaining input.old)) }

    // In any case
    ensures stops { StopsAt line.new.items 10 }
    ensures consumes { Consumes (left_in R.remaining input.old) (left_in R.remaining input.new) line.new.items }

    // On a fault
    ensures fault { IfErr result (λ e. (e ≡ End.HostMemory) ⊎ (e ≡ End.Stream)) }
    ensures cause { IfErr result (λ e. e ≡ End.Stream → has_read_failed input.new ≡ true) }
{
    line.clear();
    match input.read_until(b'\n', line) {
        Ok(count) => Ok(count > 0),
        Err(error) => {
            let has_failed = input.get_ref().has_failed();
            Err(unread(error.kind(), has_failed))
        }
    }
}

/// Writes bytes.
fn put<W: ReportingWriter>(out: &mut W, bytes: &[u8]) -> Result<(), End>
    ensures { Writes (W.contents out.old) (W.contents out.new)
        (W.has_failed out.old) (W.has_failed out.new) bytes.now result }
{
    let Ok(()) = write_lines(out, bytes) else {
        return Err(End::Stream);
    };
    Ok(())
}

/// Writes bytes, and then others.
fn put_both<W: ReportingWriter>(out: &mut W, first: &[u8], second: &[u8]) -> Result<(), End>
    ensures { Writes (W.contents out.old) (W.contents out.new)
        (W.has_failed out.old) (W.has_failed out.new) (first.now ++ second.now) result }
{
    put(out, first)?;
    put(out, second)
}

/// Writes that the step with this number is bad, and an empty line. Does not allocate.
fn put_bad_step<W: ReportingWriter>(out: &mut W, step: usize) -> Result<(), End>
    ensures { Writes (W.contents out.old) (W.contents out.new)
        (W.has_failed out.old) (W.has_failed out.new) (bad_step_reply step) result }
{
    let mut digits = itoa::Buffer::new();
    let number = digits.format(step as u64);
    put_both(out, b"fault: bad step ", number.as_bytes())?;
    put(out, b"\n\n")
}

/// Writes what is wrong with a line, and an empty line; nothing if its fault is lack of memory, which is returned.
#[tactic(auto, using(nm_streams::proofs::Known::appends_none))]
fn put_fault<W: ReportingWriter>(out: &mut W, fault: TraceError) -> Result<(), End>
    ensures { RepliesFault fault (W.contents out.old) (W.contents out.new)
        (W.has_failed out.old) (W.has_failed out.new) result }
{
    match fault {
        TraceError::HostMemory(_) => Err(End::HostMemory),
        TraceError::BadStep(step) => put_bad_step(out, step),
        _ => put(out, b"fault: not JSON\n\n"),
    }
}

/// Makes a step, and writes its reply.
fn reply<W: ReportingWriter>(
    heap: Global,
    session: &mut Session<Global>,
    step: &[u8],
    out: &mut W,
) -> Result<(), End>
    ensures replies { Replies session.old session.new step.now (W.contents out.old) (W.contents out.new)
        (W.has_failed out.old) (W.has_failed out.new) result }
    ensures allocates { result ≡ Err End.HostMemory → IsSomeText step.now }
{
    // (the kit's borrow checker looks for what a crew works on among the types of this function)
    let _work: PhantomData<(CopyJob<Global>, AddressSpaces<Global>)> = PhantomData;
    match session.step(&Alone, heap, step) {
        Ok(lines) => put_both(out, lines.as_slice(), b"\n"),
        Err(fault) => put_fault(out, fault),
    }
}

/// Writes the replies that wait, unless a further line is there already.
fn flush_unless_asked<R: Read, W: FlushingWriter>(
    input: &BufReader<WatchedStream<R>, Global>,
    out: &mut W,
) -> Result<(), End>
    // If a further line is there
    ensures line { has_line (reader_buffer input.now) ≡ true → (result ≡ Ok tt) × (out.new ≡ out.old) }

    // If none is
    ensures flushed { has_line (reader_buffer input.now) ≡ false → OnOk result (W.is_flushed out.new) }

    // In any case
    ensures kept { Keeps (W.contents out.old) (W.contents out.new) }
    ensures failure { W.has_failed out.new ≡ (is_err result || W.has_failed out.old) }
    ensures fault { IfErr result (λ e. e ≡ End.Stream) }
{
    if input.buffer().contains(&b'\n') {
        return Ok(());
    }
    let Ok(()) = out.flush_reporting() else {
        return Err(End::Stream);
    };
    Ok(())
}

/// Replies to each line until the input ends. Replies wait as long as further lines are there already.
fn reply_to_lines<T: Wait, R: Read, W: FlushingWriter>(
    rt: &T,
    heap: Global,
    session: &mut Session<Global>,
    input: &mut BufReader<WatchedStream<R>, Global>,
    out: &mut W,
) -> Result<(), End>
    // On success
    ensures lines { OnOk result (RepliesToLines session.old session.new
        (left_in R.remaining input.old) (left_in R.remaining input.new)
        (W.contents out.old) (W.contents out.new)) }
    ensures end { ReachesEnd result
        (left_in R.remaining input.old) (left_in R.remaining input.new) }
    ensures failure { OnOk result (W.has_failed out.new ≡ W.has_failed out.old) }

    // On a fault
    ensures fault { IfErr result (λ e. (e ≡ End.HostMemory) ⊎ (e ≡ End.Stream)) }
    ensures talks { IfErr result (λ e. EndsEarly e session.old
        (left_in R.remaining input.old) (left_in R.remaining input.new)
        (W.contents out.old) (W.contents out.new) (has_read_failed input.new) (W.has_failed out.old) (W.has_failed out.new)) }
{
    let mut line = Vec::new(heap);
    for _ in rt.forever() {
        if !next_line(input, &mut line)? {
            return Ok(());
        }
        reply(heap, session, line.as_slice(), out)?;
        flush_unless_asked(input, out)?;
    }
    unreachable!()
}

/// Why a session ends whose first line begins none, for this fault.
fn end_unopened(fault: TraceError) -> End
    ensures { result ≡ end_unopened fault }
{
    match fault {
        TraceError::HostMemory(_) => End::HostMemory,
        fault => End::BadTop(fault),
    }
}

/// The session that a first line begins. The error is never `Stream`.
fn begin(heap: Global, seed: u64, top: &[u8]) -> Result<Session<Global>, End>
    ensures { Begins result top.now }
{
    match Session::open_with_hash_seed(heap, heap, top, seed) {
        Ok(session) => Ok(session),
        Err(fault) => Err(end_unopened(fault)),
    }
}

/// Begins a session with the first line, and replies to each further one until the input ends.
fn talk<T: Wait, R: Read, W: FlushingWriter>(
    rt: &T,
    heap: Global,
    seed: u64,
    input: &mut BufReader<WatchedStream<R>, Global>,
    out: &mut W,
) -> Result<(), End>
    // On success
    ensures talk { OnOk result (Talks
        (left_in R.remaining input.old) (left_in R.remaining input.new)
        (W.contents out.old) (W.contents out.new)) }
    ensures end { ReachesEnd result
        (left_in R.remaining input.old) (left_in R.remaining input.new) }
    ensures failure { OnOk result (W.has_failed out.new ≡ W.has_failed out.old) }

    // On a fault
    ensures talks { IfErr result (λ e. EndsTalk e
        (left_in R.remaining input.old) (left_in R.remaining input.new)
        (W.contents out.old) (W.contents out.new) (has_read_failed input.new) (W.has_failed out.old) (W.has_failed out.new)) }
{
    let mut line = Vec::new(heap);
    next_line(input, &mut line)?;
    let mut session = begin(heap, seed, line.as_slice())?;
    reply_to_lines(rt, heap, &mut session, input, out)
}

/// Talks, and then writes the replies that wait, however that ends.
fn talk_to_end<T: Wait, R: Read, W: FlushingWriter>(
    rt: &T,
    heap: Global,
    seed: u64,
    input: &mut BufReader<WatchedStream<R>, Global>,
    out: &mut W,
) -> Result<(), End>
    // On success
    ensures talk { OnOk result (Talks
        (left_in R.remaining input.old) (left_in R.remaining input.new)
        (W.contents out.old) (W.contents out.new)) }
    ensures end { ReachesEnd result
        (left_in R.remaining input.old) (left_in R.remaining input.new) }
    ensures failure { OnOk result (W.has_failed out.new ≡ W.has_failed out.old) }

    // On a fault
    ensures ends { IfErr result (λ e. EndsFlushed e
        (left_in R.remaining input.old) (left_in R.remaining input.new)
        (W.contents out.old) (W.contents out.new) (has_read_failed input.new) (W.has_failed out.old) (W.has_failed out.new)) }

    // In any case
    ensures flushed { ((result ≡ Err End.Stream) × (W.has_failed out.new ≡ true))
        ⊎ W.is_flushed out.new }
{
    let ended = talk(rt, heap, seed, input, out);
    let Ok(()) = out.flush_reporting() else {
        return Err(End::Stream);
    };
    ended
}

/// A buffer before the output. The only error is `HostMemory`.
fn buffer_over<W: Write + Drop>(heap: Global, to: W) -> Result<BufWriter<W, Global>, End>
    ensures output { IfOk result (λ b. (writer_inner b ≡ to) × (writer_buffer b ≡ [])) }
    ensures fault { IfErr result (λ e. e ≡ End.HostMemory) }
{
    match BufWriter::new(heap, to) {
        Ok(out) => Ok(out),
        Err(_) => Err(End::HostMemory),
    }
}

/// A buffer behind the input. The only error is `HostMemory`.
fn buffered_input<R: Read + Drop>(
    heap: Global,
    from: R,
) -> Result<BufReader<WatchedStream<R>, Global>, End>
    ensures input { IfOk result (λ b. left_in R.remaining b ≡ R.remaining from) }
    ensures fault { IfErr result (λ e. e ≡ End.HostMemory) }
{
    let Ok(input) = BufReader::new(heap, WatchedStream::new(from)) else {
        return Err(End::HostMemory);
    };
    Ok(input)
}

/// The exit status of a session that ended so.
fn status_of(ended: &Result<(), End>) -> u8
    ensures { result ≡ status_of ended.now }
{
    match ended {
        Ok(()) => 0,
        Err(End::BadTop(_)) => 2,
        Err(End::HostMemory) => 3,
        Err(End::Stream) => 4,
    }
}

/// Writes in one line why a session ended before its input did.
fn print_end<E: Write>(end: &End, err: &mut E) -> io::Result<()>
    ensures { OnOk result (IsPrinted end.now (E.contents err.old) (E.contents err.new)) }
{
    match end {
        End::BadTop(fault) => writeln!(err, "numatrace_session: {fault}"),
        End::HostMemory => err.write_all(b"numatrace_session: host memory refused\n"),
        End::Stream => err.write_all(b"numatrace_session: a stream failed\n"),
    }
}

/// Talks on an input and an output, each through a buffer. A host that draws no seed is one whose input fails.
fn serve<T: Wait + RandomSource, R: Read + Drop, W: Write + Drop>(
    rt: &T,
    heap: Global,
    from: R,
    to: W,
) -> Result<(), End> {
    let Ok(seed) = draw_seed(rt) else {
        return Err(End::Stream);
    };
    let mut input = buffered_input(heap, from)?;
    let out = buffer_over(heap, to)?;
    talk_to_end(rt, heap, seed, &mut input, &mut WatchedStream::new(out))
}

fn main(rt: HostRuntime) -> ExitCode {
    let ended = serve(&rt, rt.alloc(), rt.stdin(), rt.stdout());
    if let Err(end) = &ended {
        let _ = print_end(end, &mut rt.stderr());
    }
    ExitCode::from(status_of(&ended))
}
