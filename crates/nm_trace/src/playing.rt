//! Playing a trace and writing its report.

ghost use Rattle.std.specs.Prelude.{◌≡◌, ◌||◌, OnErr, map};
ghost use Rattle.nm_calls.specs.definitions.Memory.{MayAllocate};
ghost use Rattle.nm_requests.specs.Views.{call_of};
ghost use Rattle.nm_trace.specs.definitions.Played.{Plays, PutsLines};
ghost use Rattle.nm_trace.specs.definitions.Reporting.{is_write_fault};

use crate::text::{push_refusal, push_text};
use nm_calls::{Call, CallError, RunCrew, System};
use nm_steps::{Trace, TraceError};
use nm_streams::{Block, ReportingWriter};
use std::alloc::{AllocError, Allocator};

/// Lines wait until there are this many bytes of them: writing each line to the system by itself would take longer than
/// making it.
const BLOCK_BYTES: usize = 65_536;

/// How many steps were made.
#[derive(Clone, Copy, Debug, PartialEq, Eq)]
pub struct Summary {
    /// The number of steps.
    pub steps: usize,
}

/// Makes the call of step k, and puts its lines, even if it is refused. An error means that the host was out of memory
/// for the call: then nothing was put.
pub(crate) fn make_step<A: Allocator + Copy + Send + Sync, C: RunCrew<A>, W: ReportingWriter>(
    crew: &C,
    system: &mut System<A>,
    k: usize,
    call: &Call<A>,
    block: &mut Block<A>,
    writer: &mut W,
) -> Result<(), AllocError>
    ensures lines { PutsLines W.contents W.has_failed k result system.old system.new
        (call_of call.now) writer.old block.old writer.new block.new }
    ensures allocates { OnErr result (MayAllocate system.old.state (call_of call.now)) }
{
    match system.call(crew, call) {
        Ok(answer) => {
            push_text(block, writer, k, call, &answer);
            Ok(())
        }
        Err(CallError::Refused(errno)) => {
            push_refusal(block, writer, k, call, errno);
            Ok(())
        }
        Err(CallError::HostMemory { .. }) => Err(AllocError),
    }
}

/// Makes calls, from step 0 on, and writes their lines a block at a time.
pub(crate) fn play_calls<A: Allocator + Copy + Send + Sync, C: RunCrew<A>, W: ReportingWriter>(
    crew: &C,
    alloc: A,
    system: &mut System<A>,
    calls: &[Call<A>],
    writer: &mut W,
) -> Result<Summary, TraceError>
    ensures plays { Plays system.old (map call_of calls.now) system.new (W.contents writer.old)
        (W.contents writer.new) result }
    ensures failure { W.has_failed writer.new ≡ (is_write_fault result || W.has_failed writer.old) }
{
    let mut block = Block::new(alloc, BLOCK_BYTES);
    for (k, call) in calls.iter().enumerate() {
        let Ok(()) = make_step(crew, system, k, call, &mut block, writer) else {
            let Ok(()) = block.finish(writer) else {
                return Err(TraceError::WriteFault);
            };
            return Err(TraceError::HostMemory(k));
        };
        if block.is_broken() {
            return Err(TraceError::WriteFault);
        }
    }
    let Ok(()) = block.finish(writer) else {
        return Err(TraceError::WriteFault);
    };
    Ok(Summary { steps: calls.len() })
}

/// Makes the calls of a trace on a system with the trace's limit on runs, and writes the report on them, some 64 KiB at
/// a time. Returns the number of steps.
///
/// `WriteFault` if the writer failed or took no byte: the steps up to some step were made, and the report on them
/// breaks off. `HostMemory(k)` if the host was out of memory in step k: the lines of the steps before it were written,
/// and step k was made as far as its call says. The lines themselves need no memory. The report and the system do not
/// depend on the crew.
pub fn play<A: Allocator + Copy + Send + Sync, C: RunCrew<A>, W: ReportingWriter>(
    crew: &C,
    alloc: A,
    system: &mut System<A>,
    trace: &Trace<A>,
    writer: &mut W,
) -> Result<Summary, TraceError>
    requires limit { system.old.run_limit ≡ trace.now.run_limit }
    ensures plays { Plays system.old (map call_of trace.now.calls.items) system.new
        (W.contents writer.old) (W.contents writer.new) result }
    ensures failure { W.has_failed writer.new ≡ (is_write_fault result || W.has_failed writer.old) }
{
    play_calls(crew, alloc, system, trace.calls.as_slice(), writer)
}
