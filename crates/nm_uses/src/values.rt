//! Traces by way of serde_json's values: for programs that make or change them as such. One that is only to be played
//! is read faster by `read_trace`.

ghost use Rattle.std.specs.Prelude.{◌≡◌, ◌⊎◌, Err};
ghost use Rattle.nm_steps.specs.Faults.{Gives, trace_of};
ghost use Rattle.nm_steps.specs.Memory.{IsSomeText};
ghost use Rattle.nm_steps.specs.declared.trace_error.TraceError.TheVariants.{HostMemory};
ghost use Rattle.nm_steps.specs.Plans.{contents_of};
ghost use Rattle.nm_trace.specs.definitions.Played.{PlaysNew};

use nm_calls::System;
use nm_crew::Alone;
use nm_frames::CopyJob;
use nm_spaces::AddressSpaces;
use nm_trace::{ReportingWriter, Summary, Trace, TraceError, play};
use serde_json::Value;
use std::alloc::Global;
use std::marker::PhantomData;
use std::str::from_utf8;

/// The trace in these bytes, by way of a value, or their first fault: by contract what `read_trace` returns.
#[tactic(auto, unfolding(nm_steps::specs::Faults::trace_of))]
pub fn read_value(heap: Global, bytes: &[u8]) -> Result<Trace<Global>, TraceError>
    ensures trace { Gives contents_of result (trace_of bytes.now) }
    ensures allocates { result ≡ Err (HostMemory 0) → IsSomeText bytes.now }
{
    let Ok(text) = from_utf8(bytes) else {
        return Err(TraceError::NotJson);
    };
    let value = match Value::from_str(heap, text) {
        Ok(value) => value,
        Err(error) => {
            if error.is_memory() {
                return Err(TraceError::HostMemory(0));
            }
            return Err(TraceError::NotJson);
        }
    };
    Trace::from_value(heap, &value)
}

/// Plays a trace on a new system, on the calling thread; or the host has no memory for one, and nothing is written.
pub fn play_new<W: ReportingWriter>(
    heap: Global,
    trace: &Trace<Global>,
    out: &mut W,
) -> Result<Summary, TraceError>
    ensures plays { PlaysNew (contents_of trace.now) (W.contents out.old) (W.contents out.new) result
        ⊎ (result ≡ Err (HostMemory 0)) × (out.new ≡ out.old) }
{
    // (the kit's borrow checker looks for what a crew works on among the types of this function)
    let _work: PhantomData<(CopyJob<Global>, AddressSpaces<Global>)> = PhantomData;
    let Ok(geometry) = trace.geometry.clone() else {
        return Err(TraceError::HostMemory(0));
    };
    let Ok(mut system) = System::with_run_limit(heap, geometry, trace.run_limit) else {
        return Err(TraceError::HostMemory(0));
    };
    play(&Alone, heap, &mut system, trace, out)
}
