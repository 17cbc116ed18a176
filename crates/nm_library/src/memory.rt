//! Reads and writes, pins, and nodes that come and go.

ghost use Rattle.std.specs.Prelude.{◌≡◌, pos};
ghost use Rattle.nm_requests.specs.Calls.{Pin, Unpin, Offline, Online};
ghost use Rattle.nm_library.specs.Calls.{Completes, OfSession, Reads, WritesBytes};

use crate::calls::{make_on, status_for};
use crate::handle::{Handle, OpenSession};
use crate::rooms::put;
use crate::status;
use nm_calls::Call;
use nm_types::{NodeId, Pid};
use std::alloc::Global;

/// Reads bytes into a room.
fn read(kept: &mut OpenSession, pid: u32, addr: u64, room: &mut [u8]) -> i32
    ensures { Reads pid addr room.old room.new result kept.old kept.new }
{
    match kept.session.read(Pid::new(pid), addr, room.len() as u64) {
        Ok(bytes) => {
            put(bytes.as_slice(), room);
            status::DONE
        }
        Err(error) => status_for(error),
    }
}

/// Reads as many bytes as the room has: `System::read`.
#[unsafe(no_mangle)]
pub extern "C" fn numatrace_read(
    alloc: Global,
    session: &mut Handle,
    pid: u32,
    addr: u64,
    room: &mut [u8],
) -> i32
    ensures made { OfSession (Reads pid addr room.old room.new) result
        session.old.value session.new.value }
    ensures unchanged { result ≡ pos 1 → room.new ≡ room.old }
{
    let Some(mut kept) = session.take(alloc) else {
        return status::BAD_ARGUMENT;
    };
    let answer = read(&mut kept, pid, addr, room);
    session.put(kept);
    answer
}

/// Writes bytes.
fn write(kept: &mut OpenSession, pid: u32, addr: u64, bytes: &[u8]) -> i32
    ensures { WritesBytes pid addr bytes.now result kept.old kept.new }
{
    match kept.session.write(Pid::new(pid), addr, bytes) {
        Ok(()) => status::DONE,
        Err(error) => status_for(error),
    }
}

/// Writes bytes: `System::write`.
#[unsafe(no_mangle)]
pub extern "C" fn numatrace_write(
    alloc: Global,
    session: &mut Handle,
    pid: u32,
    addr: u64,
    bytes: &[u8],
) -> i32
    ensures { OfSession (WritesBytes pid addr bytes.now) result session.old.value session.new.value }
{
    let Some(mut kept) = session.take(alloc) else {
        return status::BAD_ARGUMENT;
    };
    let answer = write(&mut kept, pid, addr, bytes);
    session.put(kept);
    answer
}

/// Adds a pin to the page at an address: `System::pin`.
#[unsafe(no_mangle)]
pub extern "C" fn numatrace_pin(alloc: Global, session: &mut Handle, pid: u32, addr: u64) -> i32
    ensures { OfSession (Completes (Pin pid addr)) result session.old.value session.new.value }
{
    let call = Call::Pin {
        pid: Pid::new(pid),
        addr,
    };
    make_on(alloc, session, &call)
}

/// Removes a pin from the page at an address: `System::unpin`.
#[unsafe(no_mangle)]
pub extern "C" fn numatrace_unpin(alloc: Global, session: &mut Handle, pid: u32, addr: u64) -> i32
    ensures { OfSession (Completes (Unpin pid addr)) result session.old.value session.new.value }
{
    let call = Call::Unpin {
        pid: Pid::new(pid),
        addr,
    };
    make_on(alloc, session, &call)
}

/// Takes a node offline: `System::offline`.
#[unsafe(no_mangle)]
pub extern "C" fn numatrace_offline(alloc: Global, session: &mut Handle, node: u32) -> i32
    ensures { OfSession (Completes (Offline node)) result session.old.value session.new.value }
{
    let call = Call::Offline {
        node: NodeId::new(node),
    };
    make_on(alloc, session, &call)
}

/// Brings a node online: `System::online`.
#[unsafe(no_mangle)]
pub extern "C" fn numatrace_online(alloc: Global, session: &mut Handle, node: u32) -> i32
    ensures { OfSession (Completes (Online node)) result session.old.value session.new.value }
{
    let call = Call::Online {
        node: NodeId::new(node),
    };
    make_on(alloc, session, &call)
}
