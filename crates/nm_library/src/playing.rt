//! Traces and steps from bytes, by the caller alone.

ghost use Rattle.std.specs.Prelude.{◌≡◌, [], IfOk, IfErr, OnOk, Ok, Err};
ghost use Rattle.nm_library.specs.Statuses.{IsBad, IsReport, IsStep, LeavesStep, MakesSteps};
ghost use Rattle.nm_steps.specs.Faults.{trace_of};
ghost use Rattle.nm_trace.specs.definitions.Session.{session_of as session_of};

use crate::handle::OpenSession;
use crate::rooms::fill;
use crate::status;
use nm_crew::Alone;
use nm_trace::{Session, TraceError, WatchedStream, run_trace};
use std::alloc::Global;

/// The report on a trace.
pub fn report_on(alloc: Global, trace: &[u8]) -> Result<Vec<u8>, TraceError>
    ensures report { IfOk result (λ text. IsReport trace.now text.items) }
    ensures bad { IfErr result (λ fault. IsBad fault → trace_of trace.now ≡ Err fault) }
{
    let mut reader = trace;
    let mut writer = WatchedStream::new(Vec::new(alloc));
    run_trace(&Alone, alloc, alloc, &mut reader, &mut writer)?;
    Ok(writer.into_inner())
}

/// The session that the top of a trace begins.
pub fn open_session(alloc: Global, top: &[u8]) -> Result<Box<OpenSession>, TraceError>
    ensures session { IfOk result (λ kept. session_of top.now ≡ Ok kept.value.session) }
    ensures lines { IfOk result (λ kept. kept.value.lines.items ≡ []) }
    ensures bad { IfErr result (λ fault. IsBad fault → session_of top.now ≡ Err fault) }
{
    let session = Session::open(alloc, alloc, top)?;
    let lines = Vec::new(alloc);
    match Box::new(alloc, OpenSession { session, lines }) {
        Ok(kept) => Ok(kept),
        Err(_) => Err(TraceError::HostMemory(0)),
    }
}

/// Makes a step, and keeps its lines.
pub fn step(alloc: Global, kept: &mut OpenSession, step: &[u8]) -> Result<(), TraceError>
    ensures made { OnOk result (IsStep kept.old step.now kept.new) }
    ensures left { IfErr result (λ fault. LeavesStep fault kept.old step.now kept.new) }
    ensures kept { IfErr result (λ _. kept.new.lines ≡ kept.old.lines) }
{
    kept.lines = kept.session.step(&Alone, alloc, step)?;
    Ok(())
}

/// Makes a step, keeps its lines, and writes them.
pub fn write_step(
    alloc: Global,
    kept: &mut OpenSession,
    bytes: &[u8],
    lines: &mut [u8],
    needed: &mut usize,
) -> i32
    ensures { MakesSteps bytes.now lines.old lines.new needed.old needed.new result kept.old kept.new }
{
    match step(alloc, kept, bytes) {
        Ok(()) => fill(kept.lines.as_slice(), lines, needed),
        Err(fault) => status::status_of(fault),
    }
}
