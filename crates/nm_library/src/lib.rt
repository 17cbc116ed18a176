//! The machine for programs in C: whole traces, and sessions, which play a trace step by step or make calls on numbers.
//! `include/numatrace.h` has what C sees of it.
#![tactic(auto)]

ghost use Rattle.std.specs.Prelude.{◌≡◌, None};
ghost use Rattle.nm_library.specs.Calls.{OfSession};
ghost use Rattle.nm_library.specs.Rooms.{FillsRoom};
ghost use Rattle.nm_library.specs.Statuses.{OpensSession, ReportsTrace, MakesSteps};

mod calls;
mod entry;
mod handle;
mod lists;
mod masks;
mod memory;
mod moves;
mod playing;
mod processes;
mod raw_box;
mod rooms;
mod status;

use handle::Handle;
use std::alloc::Global;

/// Plays the trace that the bytes are, and writes its report to the front of the room and its length to `needed`. Needs
/// as much memory as the trace and the report.
#[unsafe(no_mangle)]
pub extern "C" fn numatrace_run(
    alloc: Global,
    trace: &[u8],
    report: &mut [u8],
    needed: &mut usize,
) -> i32
    ensures { ReportsTrace trace.now result report.old report.new needed.old needed.new }
{
    match playing::report_on(alloc, trace) {
        Ok(text) => rooms::fill(text.as_slice(), report, needed),
        Err(fault) => status::status_of(fault),
    }
}

/// Opens a session with the top of a trace. One that is open stays.
#[unsafe(no_mangle)]
pub extern "C" fn numatrace_open(alloc: Global, session: &mut Handle, top: &[u8]) -> i32
    ensures { OpensSession top.now result session.old.value session.new.value }
{
    if let Some(kept) = session.take(alloc) {
        session.put(kept);
        return status::BAD_ARGUMENT;
    }
    match playing::open_session(alloc, top) {
        Ok(kept) => {
            session.put(kept);
            status::DONE
        }
        Err(fault) => status::status_of(fault),
    }
}

/// Makes the step that the bytes are, keeps its lines, and writes them to the front of the room and their length to
/// `needed`. Where the room is too small the step is made all the same.
#[unsafe(no_mangle)]
pub extern "C" fn numatrace_step(
    alloc: Global,
    session: &mut Handle,
    step: &[u8],
    lines: &mut [u8],
    needed: &mut usize,
) -> i32
    ensures made { OfSession (MakesSteps step.now lines.old lines.new needed.old needed.new) result
        session.old.value session.new.value }
    ensures unchanged { session.old.value ≡ None →
        (lines.new ≡ lines.old) × (needed.new ≡ needed.old) }
{
    let Some(mut kept) = session.take(alloc) else {
        return status::BAD_ARGUMENT;
    };
    let answer = playing::write_step(alloc, &mut kept, step, lines, needed);
    session.put(kept);
    answer
}

/// Writes the lines of the last step once more, none before the first. Does not allocate.
#[unsafe(no_mangle)]
pub extern "C" fn numatrace_lines(
    alloc: Global,
    session: &mut Handle,
    lines: &mut [u8],
    needed: &mut usize,
) -> i32
    ensures status { OfSession (λ status old new. (new ≡ old)
        × FillsRoom old.lines.items status lines.old lines.new needed.new) result
        session.old.value session.new.value }
    ensures unchanged { session.old.value ≡ None →
        (lines.new ≡ lines.old) × (needed.new ≡ needed.old) }
{
    let Some(kept) = session.take(alloc) else {
        return status::BAD_ARGUMENT;
    };
    let answer = rooms::fill(kept.lines.as_slice(), lines, needed);
    session.put(kept);
    answer
}

/// Closes a session, if one is open.
#[unsafe(no_mangle)]
pub extern "C" fn numatrace_close(alloc: Global, session: &mut Handle)
    ensures { session.new.value ≡ None }
{
    drop(session.take(alloc));
}
