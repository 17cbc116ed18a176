//! From a reader's bytes to a writer's report.

ghost use Rattle.std.specs.Prelude.{◌≡◌, ◌⊎◌, ◌≤◌, ◌||◌, length, IfOk, OnOk, IfErr, IfSome, Err, Result};
ghost use Rattle.std.specs.Io.KnownBytes.{IsAtEnd};
ghost use Rattle.nm_steps.specs.Faults.{TraceContents, trace_limit};
ghost use Rattle.nm_trace.specs.definitions.Headline.{IsPlayed, PlaysWhole, Runs};
ghost use Rattle.nm_trace.specs.definitions.Played.{ComesTo};
ghost use Rattle.nm_trace.specs.definitions.Reporting.{GivesTrace, IsTraceOf, is_write_fault};

use crate::playing::{Summary, play_calls};
use nm_calls::{RunCrew, System};
use nm_steps::{Trace, TraceError, read_trace};
use nm_streams::{ReadError, ReportingReader, ReportingWriter, read_all};
use std::alloc::{Allocator, Global};

/// The most bytes that a trace may have.
pub const TRACE_LIMIT: usize = 16_777_216;

/// All bytes of a reader, if they are no more than a trace may have.
fn read_bytes<A: Allocator + Copy, R: ReportingReader>(
    alloc: A,
    reader: &mut R,
) -> Result<Vec<u8, A>, TraceError>
    // On success
    ensures bytes { IfOk result (λ v. IfSome (R.remaining reader.old) (λ xs. v.items ≡ xs)) }
    ensures within { IfOk result (λ v. length v.items ≤ trace_limit) }
    ensures given { IfOk result (λ v. R.gave reader.old reader.new (length v.items)) }
    ensures end { OnOk result (IsAtEnd (R.remaining reader.new)) }
    ensures kept { OnOk result (R.has_failed reader.new ≡ R.has_failed reader.old) }

    // On a fault
    ensures fault { IfErr result (λ e. (e ≡ TraceError.ReadFault) ⊎ (e ≡ TraceError.HostMemory 0)) }
    ensures trace { IfErr result (λ e. GivesTrace (R.remaining reader.old)
        (R.has_failed reader.old) (R.has_failed reader.new) (R.gave reader.old reader.new) (Err e)) }
{
    match read_all(alloc, reader, TRACE_LIMIT) {
        Ok(bytes) => Ok(bytes),
        Err(ReadError::Fault) => Err(TraceError::ReadFault),
        Err(ReadError::HostMemory) => Err(TraceError::HostMemory(0)),
    }
}

/// A trace that was played to its end.
#[derive(Drop)]
pub struct FinishedTrace<A: Allocator + Copy + Send + Sync> {
    /// The number of steps made.
    pub summary: Summary,
    /// The system that the steps left.
    pub system: System<A>,
}

/// Checks all bytes of a trace, and then plays it on a new system.
fn run_bytes<A: Allocator + Copy + Send + Sync, C: RunCrew<A>, W: ReportingWriter>(
    crew: &C,
    alloc: A,
    heap: Global,
    bytes: &[u8],
    writer: &mut W,
) -> Result<FinishedTrace<A>, TraceError>
    // The trace
    ensures runs { (trace : Result TraceContents TraceError) × IsTraceOf bytes.now trace
        × Runs (λ plan p. IsPlayed plan p.summary.steps p.system (W.contents writer.old) (W.contents writer.new))
        trace (W.contents writer.old) (W.contents writer.new) result
        × ComesTo trace (W.contents writer.old) (W.contents writer.new) result }

    // The writer
    ensures writes { W.has_failed writer.new ≡ (is_write_fault result || W.has_failed writer.old) }
{
    let trace = read_trace(alloc, heap, bytes)?;
    let Trace {
        geometry,
        run_limit,
        calls,
    } = trace;
    let seed = crew.hash_seed();
    let Ok(mut system) = System::with_hash_seed(alloc, geometry, run_limit, seed) else {
        return Err(TraceError::HostMemory(0));
    };
    let summary = play_calls(crew, alloc, &mut system, calls.as_slice(), writer)?;
    Ok(FinishedTrace { summary, system })
}

/// Reads a trace to its end, checks all of it, plays it on a new system with a crew, and writes the report. Also returns
/// the system, for callers that want to look at it or to go on.
///
/// It promises what `run_trace` does, of the system that it returns. With a fault, it also says how far the play got:
/// of the lines before those of the last step made, at most 65,536 bytes were not written, and a step that was refused
/// memory is one that may allocate.
pub fn run_on<
    A: Allocator + Copy + Send + Sync,
    C: RunCrew<A>,
    R: ReportingReader,
    W: ReportingWriter,
>(
    crew: &C,
    alloc: A,
    heap: Global,
    reader: &mut R,
    writer: &mut W,
) -> Result<FinishedTrace<A>, TraceError>
    // The reader gives a trace, which is played to the writer
    ensures runs { (trace : Result TraceContents TraceError)
        × GivesTrace (R.remaining reader.old) (R.has_failed reader.old) (R.has_failed reader.new) (R.gave reader.old reader.new) trace
        × Runs (λ plan p. IsPlayed plan p.summary.steps p.system (W.contents writer.old) (W.contents writer.new))
        trace (W.contents writer.old) (W.contents writer.new) result
        × ComesTo trace (W.contents writer.old) (W.contents writer.new) result }

    // Afterwards the writer has failed if the result is a write fault, or if it had failed before, and only then
    ensures writes { W.has_failed writer.new ≡ (is_write_fault result || W.has_failed writer.old) }
{
    let bytes = read_bytes(alloc, reader)?;
    run_bytes(crew, alloc, heap, bytes.as_slice(), writer)
}

/// Reads a trace to its end, checks all of it, plays it on a new system with a crew, and writes the report.
///
/// If it returns no fault, the report on the trace was written: on its calls, made one after another, each as one
/// request after another, with the frames that a run leaves free at its end; the system is in the state of these calls,
/// and its machine is sound; and no call except a write, and those that add or remove areas, changed a byte that a
/// process reads, except by its own writes in flight. Which crew it is, and how many workers it has, makes no difference
/// to any of this. The system, the bytes and the lines are in the memory of `alloc`, and the JSON tree in that of `heap`.
///
/// Faults, in order: `ReadFault` if the reader failed or gave more than 16,777,216 bytes; those of `read_trace`; those
/// of `play`. Nothing is written before the whole trace is checked.
pub fn run_trace<
    A: Allocator + Copy + Send + Sync,
    C: RunCrew<A>,
    R: ReportingReader,
    W: ReportingWriter,
>(crew: &C, alloc: A, heap: Global, reader: &mut R, writer: &mut W) -> Result<Summary, TraceError>
    // The reader gives a trace, which is played to the writer
    ensures runs { (trace : Result TraceContents TraceError)
        × GivesTrace (R.remaining reader.old) (R.has_failed reader.old) (R.has_failed reader.new) (R.gave reader.old reader.new) trace
        × Runs (PlaysWhole (W.contents writer.old) (W.contents writer.new)) trace (W.contents writer.old) (W.contents writer.new) result }

    // Afterwards the writer has failed if the result is a write fault, or if it had failed before, and only then
    ensures writes { W.has_failed writer.new ≡ (is_write_fault result || W.has_failed writer.old) }
{
    let played = run_on(crew, alloc, heap, reader, writer)?;
    Ok(played.summary)
}
