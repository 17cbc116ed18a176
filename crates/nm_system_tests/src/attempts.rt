//! The calls of a trace, one of which is refused an allocation and then made again.
//!
//! What a call and those after it return is a text of one line: the answer of each, and whether the system is sound. If
//! the call was broken off, a line before it has what it reported, the answers of the calls that then look at the
//! system, and whether it is sound.

use crate::answers::put_answer;
use crate::traces::Heap;
use nm_calls::{Call, System};
use nm_trace::{RunCrew, Trace};
use std::alloc::AllocError;

/// Which call of a trace is refused memory, and the first of the calls that look at the system if that call is broken
/// off. Both are numbers of calls, from 0.
#[derive(Clone, Copy)]
pub(crate) struct Probe {
    pub(crate) call: usize,
    pub(crate) looks: usize,
}

/// A system as a trace asks for it, on which no call has been made.
fn new_system<'a>(heap: Heap<'a>, trace: &Trace<Heap<'a>>) -> Result<System<Heap<'a>>, AllocError> {
    let geometry = trace.geometry.clone()?;
    System::with_run_limit(heap, geometry, trace.run_limit)
}

/// Makes a call by a crew, and appends its answer.
fn make<'a, C: RunCrew<Heap<'a>>>(
    crew: &C,
    system: &mut System<Heap<'a>>,
    call: &Call<Heap<'a>>,
    text: &mut String,
) -> Result<(), AllocError> {
    text.push_str("| ")?;
    match system.call(crew, call) {
        Ok(answer) => put_answer(text, &answer),
        Err(error) => write!(text, "{error:?} "),
    }
}

/// Makes `count` calls, from the one with number `from` on.
fn make_some<'a, C: RunCrew<Heap<'a>>>(
    crew: &C,
    system: &mut System<Heap<'a>>,
    calls: &[Call<Heap<'a>>],
    from: usize,
    count: usize,
    text: &mut String,
) -> Result<(), AllocError> {
    for call in calls.iter().skip(from).take(count) {
        make(crew, system, call, text)?;
    }
    Ok(())
}

/// Makes the calls from this number on, and appends whether the system is sound.
fn make_rest<'a, C: RunCrew<Heap<'a>>>(
    crew: &C,
    system: &mut System<Heap<'a>>,
    calls: &[Call<Heap<'a>>],
    from: usize,
    text: &mut String,
) -> Result<(), AllocError> {
    make_some(crew, system, calls, from, calls.len(), text)?;
    let sound = system.audit()?;
    write!(text, "| {sound}")
}

/// Makes the call with this number while one of its allocations is refused, by that one's number; 0 refuses none.
/// Returns whether it reached that allocation.
fn make_refused<'a, C: RunCrew<Heap<'a>>>(
    crew: &C,
    heap: Heap<'a>,
    system: &mut System<Heap<'a>>,
    calls: &[Call<Heap<'a>>],
    call: usize,
    number: u64,
    text: &mut String,
) -> Result<bool, AllocError> {
    heap.refuse(number);
    let made = make_some(crew, system, calls, call, 1, text);
    let met = heap.asked_since(number) >= number;
    heap.refuse(0);
    made?;
    Ok(met)
}

/// Looks at the system if the call was broken off, and makes the call again.
fn make_again<'a, C: RunCrew<Heap<'a>>>(
    crew: &C,
    system: &mut System<Heap<'a>>,
    calls: &[Call<Heap<'a>>],
    probe: Probe,
    text: &mut String,
) -> Result<(), AllocError> {
    if text.as_str().starts_with("| HostMemory") {
        make_rest(crew, system, calls, probe.looks, text)?;
        text.push_str("\n")?;
        make_some(crew, system, calls, probe.call, 1, text)?;
    }
    Ok(())
}

/// Makes all calls on a new system, one of which is refused the allocation with this number, and puts what that call
/// and those after it return. Returns whether it reached that allocation.
fn make_all<'a, C: RunCrew<Heap<'a>>>(
    crew: &C,
    heap: Heap<'a>,
    system: &mut System<Heap<'a>>,
    calls: &[Call<Heap<'a>>],
    probe: Probe,
    number: u64,
    text: &mut String,
) -> Result<bool, AllocError> {
    make_some(crew, system, calls, 0, probe.call, text)?;
    text.clear();
    let met = make_refused(crew, heap, system, calls, probe.call, number, text)?;
    make_again(crew, system, calls, probe, text)?;
    make_rest(crew, system, calls, probe.call.saturating_add(1), text)?;
    Ok(met)
}

/// Does so with the calls of a trace, on a system of its own.
pub(crate) fn attempt<'a, C: RunCrew<Heap<'a>>>(
    crew: &C,
    heap: Heap<'a>,
    trace: &Trace<Heap<'a>>,
    probe: Probe,
    number: u64,
    text: &mut String,
) -> Result<bool, AllocError> {
    let mut system = new_system(heap, trace)?;
    let calls = trace.calls.as_slice();
    make_all(crew, heap, &mut system, calls, probe, number, text)
}

/// The bit of a text among those that empty lines separate: 1 for the first, and twice as much for each further one. 0
/// if it is none of them.
fn bit_of(texts: &str, text: &str) -> u32 {
    let mut bit = 1u32;
    for one in texts.split("\n\n") {
        if one == text {
            return bit;
        }
        bit = bit.saturating_mul(2);
    }
    0
}

/// Refuses each allocation of a call in turn, until none is left. Returns how many were refused, and the bits of the
/// texts that were returned: 0 if `text` is none of them, or is not the first although no allocation was refused.
pub(crate) fn refuse_each<'a, C: RunCrew<Heap<'a>>>(
    crew: &C,
    heap: Heap<'a>,
    trace: &Trace<Heap<'a>>,
    probe: Probe,
    texts: &str,
    text: &mut String,
) -> Result<(u64, u32), AllocError> {
    let mut seen = 0u32;
    for number in 1..1000u64 {
        let met = attempt(crew, heap, trace, probe, number, text)?;
        let bit = bit_of(texts, text.as_str());
        if bit == 0 || bit != 1 && !met {
            return Ok((number, 0));
        }
        seen |= bit;
        if !met {
            return Ok((number - 1, seen));
        }
    }
    Err(AllocError)
}
