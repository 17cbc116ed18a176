//! Processes, and their areas.

ghost use Rattle.std.specs.Prelude.{◌≡◌, pos};
ghost use Rattle.nm_types.specs.Nodes.{members};
ghost use Rattle.nm_requests.specs.Calls.{Spawn, Exit, MapPages, Attach, Unmap};
ghost use Rattle.nm_requests.specs.Views.{map_call};
ghost use Rattle.nm_library.specs.Calls.{Completes, Maps, OfSession};

use crate::calls::{make_on, status_for};
use crate::handle::{Handle, OpenSession};
use crate::masks::mask_of;
use crate::status;
use nm_calls::{Attachment, Call, NewArea, NewProcess};
use nm_types::{NodeId, Pid};
use std::alloc::Global;

/// Makes a process: `System::spawn`.
#[unsafe(no_mangle)]
pub extern "C" fn numatrace_spawn(
    alloc: Global,
    session: &mut Handle,
    pid: u32,
    uid: u32,
    home: u32,
    allowed: u64,
    privileged: bool,
) -> i32
    ensures { OfSession (Completes (Spawn pid uid home (members allowed) privileged)) result session.old.value session.new.value }
{
    let process = NewProcess {
        pid: Pid::new(pid),
        uid,
        home: NodeId::new(home),
        allowed: mask_of(allowed),
        privileged,
    };
    make_on(alloc, session, &Call::Spawn(process))
}

/// Ends a process: `System::exit`.
#[unsafe(no_mangle)]
pub extern "C" fn numatrace_exit(alloc: Global, session: &mut Handle, pid: u32) -> i32
    ensures { OfSession (Completes (Exit pid)) result session.old.value session.new.value }
{
    let call = Call::Exit { pid: Pid::new(pid) };
    make_on(alloc, session, &call)
}

/// Makes an area, and writes its segment's number.
fn map(kept: &mut OpenSession, area: &NewArea, segment: &mut u32) -> i32
    ensures { Maps (map_call area.now)
        segment.old segment.new result kept.old kept.new }
{
    match kept.session.map(area) {
        Ok(number) => {
            *segment = number;
            status::DONE
        }
        Err(error) => status_for(error),
    }
}

/// Makes an area over a new segment, and writes the segment's number: `System::map`.
#[unsafe(no_mangle)]
pub extern "C" fn numatrace_map(
    alloc: Global,
    session: &mut Handle,
    pid: u32,
    addr: u64,
    pages: u64,
    shared: bool,
    segment: &mut u32,
) -> i32
    ensures made { OfSession (Maps (MapPages pid addr pages shared) segment.old segment.new) result
        session.old.value session.new.value }
    ensures unchanged { result ≡ pos 1 → segment.new ≡ segment.old }
{
    let Some(mut kept) = session.take(alloc) else {
        return status::BAD_ARGUMENT;
    };
    let area = NewArea {
        pid: Pid::new(pid),
        addr,
        pages,
        shared,
    };
    let answer = map(&mut kept, &area, segment);
    session.put(kept);
    answer
}

/// Makes an area over a range of a shared segment: `System::attach`.
#[unsafe(no_mangle)]
pub extern "C" fn numatrace_attach(
    alloc: Global,
    session: &mut Handle,
    pid: u32,
    addr: u64,
    segment: u64,
    offset: u64,
    pages: u64,
) -> i32
    ensures { OfSession (Completes (Attach pid addr segment offset pages)) result session.old.value session.new.value }
{
    let area = Attachment {
        pid: Pid::new(pid),
        addr,
        segment,
        offset,
        pages,
    };
    make_on(alloc, session, &Call::Attach(area))
}

/// Unmaps pages: `System::unmap`.
#[unsafe(no_mangle)]
pub extern "C" fn numatrace_unmap(
    alloc: Global,
    session: &mut Handle,
    pid: u32,
    addr: u64,
    pages: u64,
) -> i32
    ensures { OfSession (Completes (Unmap pid addr pages)) result session.old.value session.new.value }
{
    let call = Call::Unmap {
        pid: Pid::new(pid),
        addr,
        pages,
    };
    make_on(alloc, session, &call)
}
