//! The program to read first: a page moves by calls on a system, and a trace that is made as a value is played. Given a
//! trace on standard input, it plays that one alone.
#![tactic(auto)]

ghost use Rattle.std.specs.Prelude.{◌<◌, length};
ghost use Rattle.nm_steps.specs.Faults.{Gives, trace_of};
ghost use Rattle.nm_steps.specs.Plans.{contents_of};

mod making;
mod moving;
mod values;

use making::make_trace;
use moving::page_moved;
use nm_trace::{Trace, TraceError, WatchedStream};
use std::alloc::Global;
use std::io::{Read, Write};
use std::process::ExitCode;
use values::{play_new, read_value};

/// The trace in these bytes, or if there are none, one that is made here.
fn trace_to_play(heap: Global, bytes: &[u8]) -> Result<Trace<Global>, TraceError>
    ensures given { 0 < length bytes.now → Gives contents_of result (trace_of bytes.now) }
{
    if !bytes.is_empty() {
        return read_value(heap, bytes);
    }
    match make_trace(heap) {
        Ok(value) => Trace::from_value(heap, &value),
        Err(_) => Err(TraceError::HostMemory(0)),
    }
}

/// Moves a page by calls, and writes where it is then. Returns whether it did.
fn use_calls<W: Write, E: Write>(heap: Global, out: &mut W, err: &mut E) -> bool {
    match page_moved(heap) {
        Ok((statuses, bytes)) => writeln!(
            out,
            "its node: {:?}, its first byte: {:?}",
            statuses.as_slice(),
            bytes.as_slice()
        )
        .is_ok(),
        Err(error) => {
            let _ = writeln!(err, "nm_uses: {error}");
            false
        }
    }
}

fn main(rt: HostRuntime) -> ExitCode {
    let heap = rt.alloc();
    let mut bytes = Vec::new(heap);
    if rt.stdin().read_to_end(&mut bytes).is_err() {
        return ExitCode::FAILURE;
    }
    let mut out = WatchedStream::new(rt.stdout());
    if bytes.is_empty() && !use_calls(heap, &mut out, &mut rt.stderr()) {
        return ExitCode::FAILURE;
    }
    let played = match trace_to_play(heap, bytes.as_slice()) {
        Ok(trace) => play_new(heap, &trace, &mut out),
        Err(fault) => Err(fault),
    };
    match played {
        Ok(_) => ExitCode::SUCCESS,
        Err(fault) => {
            let _ = writeln!(rt.stderr(), "nm_uses: {fault}");
            ExitCode::FAILURE
        }
    }
}
