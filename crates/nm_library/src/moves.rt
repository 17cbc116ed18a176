//! Pages that move, are asked for, or get a policy.

ghost use Rattle.std.specs.Prelude.{◌≡◌, ◌≢◌, ◌⊎◌, [], pos, length, IfOk};
ghost use Rattle.nm_types.specs.Nodes.{members};
ghost use Rattle.nm_requests.specs.Calls.{MovePages, MigratePages, Mbind, Query};
ghost use Rattle.nm_requests.specs.Views.{migrate_call, move_call};
ghost use Rattle.nm_library.specs.Calls.{Completes, LooksOnly, Migrates, MovesPages, MovesListed, OfSession, Queries};

use crate::calls::{make_on, status_for};
use crate::handle::{Handle, OpenSession};
use crate::masks::mask_of;
use crate::rooms::put;
use crate::status;
use nm_calls::{Batch, Call, MbindRequest, MigrateRequest, MoveRequest, Question};
use nm_crew::Alone;
use nm_frames::CopyJob;
use nm_spaces::AddressSpaces;
use nm_types::Pid;
use std::alloc::{AllocError, Global};
use std::marker::PhantomData;

/// Who asks for pages of which process, and how.
#[repr(C)]
pub struct Asking {
    /// The number of the calling process.
    pub caller: u32,
    /// The number of the process whose addresses are named. 0 means the caller.
    pub pid: u32,
    /// The flags by their bits, as in `MoveRequest`.
    pub flags: u32,
}

/// A range of a process's bytes, and the policy that it is to get, as in `MbindRequest`.
#[repr(C)]
pub struct Binding {
    /// The address at which the range begins.
    pub addr: u64,
    /// Its length in bytes.
    pub len: u64,
    /// The nodes of the policy, by their bits.
    pub nodes: u64,
    /// The number of the calling process.
    pub caller: u32,
    /// The mode's number.
    pub mode: u32,
    /// The flags by their bits.
    pub flags: u32,
}

/// A request for these pages and nodes.
fn request_of(
    alloc: Global,
    asking: &Asking,
    pages: &[u64],
    nodes: &[u32],
) -> Result<MoveRequest<Global>, AllocError>
    requires { length pages.now ≡ length nodes.now }
    ensures { IfOk result (λ r. (r.caller ≡ asking.now.caller) × (r.pid ≡ asking.now.pid)
        × (r.batch.pages.items ≡ pages.now) × (r.batch.nodes.items ≡ nodes.now)
        × (r.flags ≡ asking.now.flags) × (r.during.items ≡ [])) }
{
    let pages = Vec::from_slice(alloc, pages)?;
    let nodes = Vec::from_slice(alloc, nodes)?;
    Ok(MoveRequest {
        caller: Pid::new(asking.caller),
        pid: Pid::new(asking.pid),
        batch: Batch { pages, nodes },
        flags: asking.flags,
        during: Vec::new(alloc),
    })
}

/// Moves pages, and writes their statuses and how many of them failed.
fn move_pages(
    kept: &mut OpenSession,
    request: &MoveRequest<Global>,
    statuses: &mut [i32],
    failed: &mut usize,
) -> i32
    ensures { MovesPages (move_call request.now)
        statuses.old statuses.new failed.old failed.new result kept.old kept.new }
{
    // (the kit's borrow checker looks for what a crew works on among the types of this function)
    let _work: PhantomData<(CopyJob<Global>, AddressSpaces<Global>)> = PhantomData;
    match kept.session.move_pages(&Alone, request) {
        Ok(moved) => {
            put(moved.statuses.as_slice(), statuses);
            *failed = moved.failed;
            status::DONE
        }
        Err(error) => status_for(error),
    }
}

/// Moves pages that are given as slices.
fn move_listed(
    alloc: Global,
    kept: &mut OpenSession,
    asking: &Asking,
    pages: &[u64],
    nodes: &[u32],
    statuses: &mut [i32],
    failed: &mut usize,
) -> i32
    requires { length pages.now ≡ length nodes.now }
    ensures { MovesListed (MovePages asking.now.caller asking.now.pid pages.now nodes.now asking.now.flags [])
        statuses.old statuses.new failed.old failed.new result kept.old kept.new }
{
    let Ok(request) = request_of(alloc, asking, pages, nodes) else {
        return status::NO_MEMORY;
    };
    move_pages(kept, &request, statuses, failed)
}

/// Moves each page to the node at the same index, and writes the statuses, and how many failed: `System::move_pages`.
#[unsafe(no_mangle)]
pub extern "C" fn numatrace_move_pages(
    alloc: Global,
    session: &mut Handle,
    asking: &Asking,
    pages: &[u64],
    nodes: &[u32],
    statuses: &mut [i32],
    failed: &mut usize,
) -> i32
    ensures made { length pages.now ≡ length nodes.now → length pages.now ≡ length statuses.old →
        OfSession (MovesListed (MovePages asking.now.caller asking.now.pid pages.now nodes.now asking.now.flags [])
        statuses.old statuses.new failed.old failed.new) result
        session.old.value session.new.value }
    ensures nodes { length pages.now ≢ length nodes.now →
        (result ≡ pos 1) × (session.new.value ≡ session.old.value) }
    ensures statuses { length pages.now ≢ length statuses.old →
        (result ≡ pos 1) × (session.new.value ≡ session.old.value) }
    ensures unchanged { result ≡ pos 1 → (statuses.new ≡ statuses.old) × (failed.new ≡ failed.old) }
{
    if pages.len() != nodes.len() || pages.len() != statuses.len() {
        return status::BAD_ARGUMENT;
    }
    let Some(mut kept) = session.take(alloc) else {
        return status::BAD_ARGUMENT;
    };
    let answer = move_listed(alloc, &mut kept, asking, pages, nodes, statuses, failed);
    session.put(kept);
    answer
}

/// Asks where pages are.
fn query(
    alloc: Global,
    kept: &OpenSession,
    asking: &Asking,
    pages: &[u64],
    statuses: &mut [i32],
) -> i32
    ensures { Queries (Query asking.now.caller asking.now.pid pages.now asking.now.flags)
        statuses.old statuses.new result kept.now }
{
    let Ok(pages) = Vec::from_slice(alloc, pages) else {
        return status::NO_MEMORY;
    };
    let question = Question {
        caller: Pid::new(asking.caller),
        pid: Pid::new(asking.pid),
        pages,
        flags: asking.flags,
    };
    match kept.session.system().query(&question) {
        Ok(list) => {
            put(list.as_slice(), statuses);
            status::DONE
        }
        Err(error) => status_for(error),
    }
}

/// Writes where each page is: `System::query`.
#[unsafe(no_mangle)]
pub extern "C" fn numatrace_query(
    alloc: Global,
    session: &mut Handle,
    asking: &Asking,
    pages: &[u64],
    statuses: &mut [i32],
) -> i32
    ensures made { length pages.now ≡ length statuses.old →
        OfSession (LooksOnly (Queries (Query asking.now.caller asking.now.pid pages.now asking.now.flags)
        statuses.old statuses.new)) result
        session.old.value session.new.value }
    ensures statuses { length pages.now ≢ length statuses.old →
        (result ≡ pos 1) × (session.new.value ≡ session.old.value) }
    ensures unchanged { result ≡ pos 1 → statuses.new ≡ statuses.old }
{
    if pages.len() != statuses.len() {
        return status::BAD_ARGUMENT;
    }
    let Some(kept) = session.take(alloc) else {
        return status::BAD_ARGUMENT;
    };
    let answer = query(alloc, &kept, asking, pages, statuses);
    session.put(kept);
    answer
}

/// Moves pages from nodes to nodes, and writes how many failed.
fn migrate(kept: &mut OpenSession, request: &MigrateRequest, failed: &mut usize) -> i32
    ensures { Migrates (migrate_call request.now)
        failed.old failed.new result kept.old kept.new }
{
    // (the kit's borrow checker looks for what a crew works on among the types of this function)
    let _work: PhantomData<(CopyJob<Global>, AddressSpaces<Global>)> = PhantomData;
    match kept.session.migrate_pages(&Alone, request) {
        Ok(count) => {
            *failed = count;
            status::DONE
        }
        Err(error) => status_for(error),
    }
}

/// Moves pages from nodes to nodes, and writes how many failed: `System::migrate_pages`.
#[unsafe(no_mangle)]
pub extern "C" fn numatrace_migrate_pages(
    alloc: Global,
    session: &mut Handle,
    caller: u32,
    pid: u32,
    old_nodes: u64,
    new_nodes: u64,
    failed: &mut usize,
) -> i32
    ensures made { OfSession (Migrates (MigratePages caller pid (members old_nodes) (members new_nodes))
        failed.old failed.new) result
        session.old.value session.new.value }
    ensures unchanged { result ≡ pos 1 → failed.new ≡ failed.old }
{
    let Some(mut kept) = session.take(alloc) else {
        return status::BAD_ARGUMENT;
    };
    let request = MigrateRequest {
        caller: Pid::new(caller),
        pid: Pid::new(pid),
        old: mask_of(old_nodes),
        new: mask_of(new_nodes),
    };
    let answer = migrate(&mut kept, &request, failed);
    session.put(kept);
    answer
}

/// Sets the policy of a range: `System::mbind`.
#[unsafe(no_mangle)]
pub extern "C" fn numatrace_mbind(alloc: Global, session: &mut Handle, binding: &Binding) -> i32
    ensures { OfSession (Completes (Mbind binding.now.caller binding.now.addr binding.now.len binding.now.mode (members binding.now.nodes) binding.now.flags)) result session.old.value session.new.value }
{
    let request = MbindRequest {
        caller: Pid::new(binding.caller),
        addr: binding.addr,
        len: binding.len,
        mode: binding.mode,
        nodes: mask_of(binding.nodes),
        flags: binding.flags,
    };
    make_on(alloc, session, &Call::Mbind(request))
}
