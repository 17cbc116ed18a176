//! Steps in JSON: the call that each asks for.

ghost use Rattle.std.specs.Prelude.{◌≡◌, ◌<◌, ◌++◌, ◌∷◌, [], true, option_map, OnOk, IfErr, codes};
ghost use Rattle.nm_steps.specs.Lists.{items_seen, list_seen};
ghost use Rattle.nm_model.specs.views.Asked.{access_shown};
ghost use Rattle.nm_requests.specs.Calls as calls;
ghost use Rattle.nm_steps.specs.Form.{small_at, place_at};
ghost use Rattle.nm_steps.specs.Form as form;
ghost use Rattle.nm_requests.specs.Views.{call_of, shown_during};
ghost use Rattle.nm_steps.specs.Gives.{GivesStep};
ghost use Rattle.nm_steps.specs.Memory.{takes_memory, access_takes_memory, batch_starts, begins, begins_at, flight_allocates, move_takes_memory, names_run, query_takes_memory, write_has_pairs};
ghost use Rattle.nm_steps.specs.declared.step_error.StepError.TheVariants.{Bad, Memory};

use crate::json_value::{JsonList, JsonValue};
use crate::keys::{flag, hex, number, numbers, set, small_number, small_numbers, text};
use crate::step_error::StepError;
use nm_requests::{
    Attachment, Batch, Call, InFlight, MbindRequest, MigrateRequest, MoveRequest, NewArea,
    NewProcess, Question,
};
use nm_runs::run_count;
use nm_types::limits::MAX_BATCH;
use nm_types::{Access, NodeId, Pid};
use std::alloc::Allocator;

/// The read that these keys describe.
#[tactic(auto, unfolding(crate::specs::Form::read_access))]
fn read_access<A: Allocator + Copy + Send + Sync, V: JsonValue>(
    value: &V,
) -> Result<Access<A>, StepError>
    ensures access { GivesStep access_shown result (form.read_access (V.as_data value.now)) }
    ensures bad { IfErr result (λ e. e ≡ Bad) }
{
    Ok(Access::Read {
        pid: Pid::new(small_number(value, "pid")?),
        addr: number(value, "addr")?,
        len: number(value, "len")?,
    })
}

/// The write that these keys describe.
#[tactic(auto, unfolding(crate::specs::Form::write_access))]
fn write_access<A: Allocator + Copy + Send + Sync, V: JsonValue>(
    alloc: A,
    value: &V,
) -> Result<Access<A>, StepError>
    ensures access { GivesStep access_shown result (form.write_access (V.as_data value.now)) }
    ensures allocates { result ≡ Err Memory → write_has_pairs (V.as_data value.now) ≡ true }
{
    Ok(Access::Write {
        pid: Pid::new(small_number(value, "pid")?),
        addr: number(value, "addr")?,
        bytes: hex(alloc, value, "data")?,
    })
}

/// The access with this name.
#[tactic(auto, unfolding(crate::specs::Form::access_named))]
fn access_named<A: Allocator + Copy + Send + Sync, V: JsonValue>(
    alloc: A,
    op: &str,
    value: &V,
) -> Result<Access<A>, StepError>
    ensures access { GivesStep access_shown result (form.access_named op.now (V.as_data value.now)) }
    ensures allocates { result ≡ Err Memory → access_takes_memory op.now (V.as_data value.now) ≡ true }
{
    match op {
        "read" => read_access(value),
        "write" => write_access(alloc, value),
        _ => Err(StepError::Bad),
    }
}

/// An access in flight, whose run is below `runs`.
#[tactic(auto, unfolding(crate::specs::Form::during_of))]
fn in_flight<A: Allocator + Copy + Send + Sync, V: JsonValue>(
    alloc: A,
    value: &V,
    runs: usize,
) -> Result<InFlight<A>, StepError>
    ensures flight { GivesStep (λ d. (d.run, access_shown d.access)) result
        (form.during_of runs (V.as_data value.now)) }
    ensures allocates { result ≡ Err Memory →
        option_map (λ op. access_takes_memory op (V.as_data value.now))
        (form.text_at (codes "op") (V.as_data value.now))
        ≡ Some true }
    ensures run { result ≡ Err Memory → names_run runs (V.as_data value.now) ≡ true }
{
    let run = number(value, "run")?;
    if run >= runs as u64 {
        return Err(StepError::Bad);
    }
    let access = access_named(alloc, text(value, "op")?, value)?;
    Ok(InFlight {
        run: run as usize,
        access,
    })
}

/// Appends an access to a list.
fn put<A: Allocator + Copy + Send + Sync>(
    flights: &mut Vec<InFlight<A>, A>,
    flight: InFlight<A>,
) -> Result<(), StepError>
    ensures put { OnOk result (flights.new.items ≡ flights.old.items ++ flight ∷ []) }
    ensures memory { IfErr result (λ e. e ≡ Memory) }
{
    match flights.push(flight) {
        Ok(()) => Ok(()),
        Err(_) => Err(StepError::Memory),
    }
}

/// The accesses of a list, each of a run below `runs`.
fn flights_of<A: Allocator + Copy + Send + Sync, V: JsonValue>(
    alloc: A,
    values: &[V],
    runs: usize,
) -> Result<Vec<InFlight<A>, A>, StepError>
    ensures flights { GivesStep (λ v. shown_during v.items) result
        (form.each (form.during_of runs) (items_seen V.as_data values.now)) }
    ensures allocates { result ≡ Err Memory →
        begins (flight_allocates runs) (items_seen V.as_data values.now) ≡ true }
{
    let mut flights = Vec::new(alloc);
    for value in values {
        let flight = in_flight(alloc, value, runs)?;
        put(&mut flights, flight)?;
    }
    Ok(flights)
}

/// The accesses that a list has, each of a run below `runs`.
fn flights_in<A: Allocator + Copy + Send + Sync, V: JsonValue>(
    alloc: A,
    list: JsonList<'_, V>,
    runs: usize,
) -> Result<Vec<InFlight<A>, A>, StepError>
    ensures flights { GivesStep (λ v. shown_during v.items) result
        (form.each (form.during_of runs) (list_seen V.as_data list.entry)) }
    ensures allocates { result ≡ Err Memory →
        begins (flight_allocates runs) (list_seen V.as_data list.entry) ≡ true }
{
    match list {
        JsonList::Numbers(numbers) => flights_of(alloc, numbers, runs),
        JsonList::Values(values) => flights_of(alloc, values, runs),
    }
}

/// The accesses in flight of a step with this many runs. Empty if the key is missing.
fn flights_at<A: Allocator + Copy + Send + Sync, V: JsonValue>(
    alloc: A,
    value: &V,
    runs: usize,
) -> Result<Vec<InFlight<A>, A>, StepError>
    ensures flights { GivesStep (λ v. shown_during v.items) result
        (form.during_at runs (V.as_data value.now)) }
    ensures allocates { result ≡ Err Memory →
        begins_at (flight_allocates runs) (form.items_at (codes "during") (V.as_data value.now)) ≡ true }
{
    match value.get("during") {
        None => Ok(Vec::new(alloc)),
        Some(during) => {
            let list = during.as_list().ok_or(StepError::Bad)?;
            flights_in(alloc, list, runs)
        }
    }
}

#[tactic(auto, unfolding(crate::specs::Form::spawn_of))]
fn spawn<A: Allocator + Copy + Send + Sync, V: JsonValue>(value: &V) -> Result<Call<A>, StepError>
    ensures call { GivesStep call_of result (form.spawn_of (V.as_data value.now)) }
    ensures bad { IfErr result (λ e. e ≡ Bad) }
{
    Ok(Call::Spawn(NewProcess {
        pid: Pid::new(small_number(value, "pid")?),
        uid: small_number(value, "uid")?,
        home: NodeId::new(small_number(value, "home")?),
        allowed: set(value, "allowed")?,
        privileged: flag(value, "privileged")?,
    }))
}

#[tactic(auto, unfolding(crate::specs::Form::map_of))]
fn map<A: Allocator + Copy + Send + Sync, V: JsonValue>(value: &V) -> Result<Call<A>, StepError>
    ensures call { GivesStep call_of result (form.map_of (V.as_data value.now)) }
    ensures bad { IfErr result (λ e. e ≡ Bad) }
{
    Ok(Call::Map(NewArea {
        pid: Pid::new(small_number(value, "pid")?),
        addr: number(value, "addr")?,
        pages: number(value, "pages")?,
        shared: flag(value, "shared")?,
    }))
}

#[tactic(auto, unfolding(crate::specs::Form::attach_of))]
fn attach<A: Allocator + Copy + Send + Sync, V: JsonValue>(value: &V) -> Result<Call<A>, StepError>
    ensures call { GivesStep call_of result (form.attach_of (V.as_data value.now)) }
    ensures bad { IfErr result (λ e. e ≡ Bad) }
{
    Ok(Call::Attach(Attachment {
        pid: Pid::new(small_number(value, "pid")?),
        addr: number(value, "addr")?,
        segment: number(value, "segment")?,
        offset: number(value, "offset")?,
        pages: number(value, "pages")?,
    }))
}

#[tactic(auto, unfolding(crate::specs::Form::unmap_of))]
fn unmap<A: Allocator + Copy + Send + Sync, V: JsonValue>(value: &V) -> Result<Call<A>, StepError>
    ensures call { GivesStep call_of result (form.unmap_of (V.as_data value.now)) }
    ensures bad { IfErr result (λ e. e ≡ Bad) }
{
    Ok(Call::Unmap {
        pid: Pid::new(small_number(value, "pid")?),
        addr: number(value, "addr")?,
        pages: number(value, "pages")?,
    })
}

fn exit<A: Allocator + Copy + Send + Sync, V: JsonValue>(value: &V) -> Result<Call<A>, StepError>
    ensures call { GivesStep call_of result
        (option_map calls.Exit (small_at (codes "pid") (V.as_data value.now))) }
    ensures bad { IfErr result (λ e. e ≡ Bad) }
{
    Ok(Call::Exit {
        pid: Pid::new(small_number(value, "pid")?),
    })
}

fn pin<A: Allocator + Copy + Send + Sync, V: JsonValue>(value: &V) -> Result<Call<A>, StepError>
    ensures call { GivesStep call_of result
        (option_map (λ (pid, addr). calls.Pin pid addr) (place_at (V.as_data value.now))) }
    ensures bad { IfErr result (λ e. e ≡ Bad) }
{
    Ok(Call::Pin {
        pid: Pid::new(small_number(value, "pid")?),
        addr: number(value, "addr")?,
    })
}

fn unpin<A: Allocator + Copy + Send + Sync, V: JsonValue>(value: &V) -> Result<Call<A>, StepError>
    ensures call { GivesStep call_of result
        (option_map (λ (pid, addr). calls.Unpin pid addr) (place_at (V.as_data value.now))) }
    ensures bad { IfErr result (λ e. e ≡ Bad) }
{
    Ok(Call::Unpin {
        pid: Pid::new(small_number(value, "pid")?),
        addr: number(value, "addr")?,
    })
}

/// The step that makes an access.
fn access_step<A: Allocator + Copy + Send + Sync>(access: Access<A>) -> Call<A>
    ensures { call_of result ≡ form.access_step (access_shown access) }
{
    match access {
        Access::Read { pid, addr, len } => Call::Read { pid, addr, len },
        Access::Write { pid, addr, bytes } => Call::Write { pid, addr, bytes },
    }
}

fn read<A: Allocator + Copy + Send + Sync, V: JsonValue>(value: &V) -> Result<Call<A>, StepError>
    ensures call { GivesStep call_of result
        (option_map form.access_step (form.read_access (V.as_data value.now))) }
    ensures bad { IfErr result (λ e. e ≡ Bad) }
{
    Ok(access_step(read_access(value)?))
}

fn write<A: Allocator + Copy + Send + Sync, V: JsonValue>(
    alloc: A,
    value: &V,
) -> Result<Call<A>, StepError>
    ensures call { GivesStep call_of result
        (option_map form.access_step (form.write_access (V.as_data value.now))) }
    ensures allocates { result ≡ Err Memory → write_has_pairs (V.as_data value.now) ≡ true }
{
    Ok(access_step(write_access(alloc, value)?))
}

/// A batch of pages with a node for each, if they are equally many, and at most 16,384.
fn pages_with_nodes<A: Allocator + Copy + Send + Sync>(
    pages: Vec<u64, A>,
    nodes: Vec<u32, A>,
) -> Result<Batch<A>, StepError>
    ensures batch { GivesStep (λ batch. (batch.pages.items, batch.nodes.items)) result
        (form.pages_with_nodes pages.items nodes.items) }
    ensures bad { IfErr result (λ e. e ≡ Bad) }
{
    if pages.len() > MAX_BATCH || pages.len() != nodes.len() {
        return Err(StepError::Bad);
    }
    Ok(Batch { pages, nodes })
}

/// Pages with a node for each.
#[tactic(auto, unfolding(crate::specs::Form::batch_of))]
fn batch_of<A: Allocator + Copy + Send + Sync, V: JsonValue>(
    alloc: A,
    value: &V,
) -> Result<Batch<A>, StepError>
    ensures batch { GivesStep (λ batch. (batch.pages.items, batch.nodes.items)) result
        (form.batch_of (V.as_data value.now)) }
    ensures allocates { result ≡ Err Memory → batch_starts (V.as_data value.now) ≡ true }
{
    let pages = numbers(alloc, value, "pages")?;
    let nodes = small_numbers(alloc, value, "nodes")?;
    pages_with_nodes(pages, nodes)
}

#[tactic(auto, unfolding(crate::specs::Form::move_pages_of))]
fn move_pages<A: Allocator + Copy + Send + Sync, V: JsonValue>(
    alloc: A,
    value: &V,
    limit: usize,
) -> Result<Call<A>, StepError>
    requires { 0 < limit }
    ensures call { GivesStep call_of result (form.move_pages_of limit (V.as_data value.now)) }
    ensures allocates { result ≡ Err Memory → move_takes_memory (V.as_data value.now) ≡ true }
{
    let caller = small_number(value, "caller")?;
    let pid = small_number(value, "pid")?;
    let batch = batch_of(alloc, value)?;
    let flags = small_number(value, "flags")?;
    let runs = run_count(batch.nodes.as_slice(), limit);
    let during = flights_at(alloc, value, runs)?;
    Ok(Call::MovePages(MoveRequest {
        caller: Pid::new(caller),
        pid: Pid::new(pid),
        batch,
        flags,
        during,
    }))
}

#[tactic(auto, unfolding(crate::specs::Form::migrate_pages_of))]
fn migrate_pages<A: Allocator + Copy + Send + Sync, V: JsonValue>(
    value: &V,
) -> Result<Call<A>, StepError>
    ensures call { GivesStep call_of result (form.migrate_pages_of (V.as_data value.now)) }
    ensures bad { IfErr result (λ e. e ≡ Bad) }
{
    Ok(Call::MigratePages(MigrateRequest {
        caller: Pid::new(small_number(value, "caller")?),
        pid: Pid::new(small_number(value, "pid")?),
        old: set(value, "old")?,
        new: set(value, "new")?,
    }))
}

#[tactic(auto, unfolding(crate::specs::Form::mbind_of))]
fn mbind<A: Allocator + Copy + Send + Sync, V: JsonValue>(value: &V) -> Result<Call<A>, StepError>
    ensures call { GivesStep call_of result (form.mbind_of (V.as_data value.now)) }
    ensures bad { IfErr result (λ e. e ≡ Bad) }
{
    Ok(Call::Mbind(MbindRequest {
        caller: Pid::new(small_number(value, "caller")?),
        addr: number(value, "addr")?,
        len: number(value, "len")?,
        mode: small_number(value, "mode")?,
        nodes: set(value, "nodes")?,
        flags: small_number(value, "flags")?,
    }))
}

fn offline<A: Allocator + Copy + Send + Sync, V: JsonValue>(value: &V) -> Result<Call<A>, StepError>
    ensures call { GivesStep call_of result
        (option_map calls.Offline (small_at (codes "node") (V.as_data value.now))) }
    ensures bad { IfErr result (λ e. e ≡ Bad) }
{
    Ok(Call::Offline {
        node: NodeId::new(small_number(value, "node")?),
    })
}

fn online<A: Allocator + Copy + Send + Sync, V: JsonValue>(value: &V) -> Result<Call<A>, StepError>
    ensures call { GivesStep call_of result
        (option_map calls.Online (small_at (codes "node") (V.as_data value.now))) }
    ensures bad { IfErr result (λ e. e ≡ Bad) }
{
    Ok(Call::Online {
        node: NodeId::new(small_number(value, "node")?),
    })
}

/// A query of these pages, if they are at most 16,384.
fn question<A: Allocator + Copy + Send + Sync>(
    caller: Pid,
    pid: Pid,
    pages: Vec<u64, A>,
    flags: u32,
) -> Result<Call<A>, StepError>
    ensures call { GivesStep call_of result (form.question caller pid pages.items flags) }
    ensures bad { IfErr result (λ e. e ≡ Bad) }
{
    if pages.len() > MAX_BATCH {
        return Err(StepError::Bad);
    }
    Ok(Call::Query(Question {
        caller,
        pid,
        pages,
        flags,
    }))
}

#[tactic(auto, unfolding(crate::specs::Form::query_of))]
fn query<A: Allocator + Copy + Send + Sync, V: JsonValue>(
    alloc: A,
    value: &V,
) -> Result<Call<A>, StepError>
    ensures call { GivesStep call_of result (form.query_of (V.as_data value.now)) }
    ensures allocates { result ≡ Err Memory → query_takes_memory (V.as_data value.now) ≡ true }
{
    let caller = small_number(value, "caller")?;
    let pid = small_number(value, "pid")?;
    let pages = numbers(alloc, value, "pages")?;
    let given = small_number(value, "flags")?;
    question(Pid::new(caller), Pid::new(pid), pages, given)
}

fn free<A: Allocator + Copy + Send + Sync, V: JsonValue>(value: &V) -> Result<Call<A>, StepError>
    ensures call { GivesStep call_of result
        (option_map calls.FreeList (small_at (codes "node") (V.as_data value.now))) }
    ensures bad { IfErr result (λ e. e ≡ Bad) }
{
    Ok(Call::FreeList {
        node: NodeId::new(small_number(value, "node")?),
    })
}

fn pagemap<A: Allocator + Copy + Send + Sync, V: JsonValue>(value: &V) -> Result<Call<A>, StepError>
    ensures call { GivesStep call_of result
        (option_map calls.Pagemap (small_at (codes "pid") (V.as_data value.now))) }
    ensures bad { IfErr result (λ e. e ≡ Bad) }
{
    Ok(Call::Pagemap {
        pid: Pid::new(small_number(value, "pid")?),
    })
}

fn vmstat<A: Allocator + Copy + Send + Sync, V: JsonValue>(value: &V) -> Result<Call<A>, StepError>
    ensures call { GivesStep call_of result (Some calls.Vmstat) }
    ensures bad { IfErr result (λ e. e ≡ Bad) }
{
    Ok(Call::Vmstat)
}

fn numa_maps<A: Allocator + Copy + Send + Sync, V: JsonValue>(
    value: &V,
) -> Result<Call<A>, StepError>
    ensures call { GivesStep call_of result
        (option_map calls.NumaMaps (small_at (codes "pid") (V.as_data value.now))) }
    ensures bad { IfErr result (λ e. e ≡ Bad) }
{
    Ok(Call::NumaMaps {
        pid: Pid::new(small_number(value, "pid")?),
    })
}

#[tactic(auto, unfolding(crate::specs::Form::step_named))]
fn step_named<A: Allocator + Copy + Send + Sync, V: JsonValue>(
    alloc: A,
    op: &str,
    value: &V,
    limit: usize,
) -> Result<Call<A>, StepError>
    requires { 0 < limit }
    ensures call { GivesStep call_of result (form.step_named limit op.now (V.as_data value.now)) }
    ensures allocates { result ≡ Err Memory → takes_memory op.now (V.as_data value.now) ≡ true }
{
    match op {
        "spawn" => spawn(value),
        "map" => map(value),
        "attach" => attach(value),
        "unmap" => unmap(value),
        "exit" => exit(value),
        "pin" => pin(value),
        "unpin" => unpin(value),
        "read" => read(value),
        "write" => write(alloc, value),
        "move_pages" => move_pages(alloc, value, limit),
        "migrate_pages" => migrate_pages(value),
        "mbind" => mbind(value),
        "offline" => offline(value),
        "online" => online(value),
        "query" => query(alloc, value),
        "free" => free(value),
        "pagemap" => pagemap(value),
        "vmstat" => vmstat(value),
        "numa_maps" => numa_maps(value),
        _ => Err(StepError::Bad),
    }
}

/// The call that a step asks for, where a run has at most `limit` requests.
#[tactic(auto, unfolding(crate::specs::Form::step_of))]
pub fn step_of<A: Allocator + Copy + Send + Sync, V: JsonValue>(
    alloc: A,
    value: &V,
    limit: usize,
) -> Result<Call<A>, StepError>
    requires { 0 < limit }
    ensures call { GivesStep call_of result (form.step_of limit (V.as_data value.now)) }
    ensures allocates { result ≡ Err Memory →
        option_map (λ op. takes_memory op (V.as_data value.now))
        (form.text_at (codes "op") (V.as_data value.now))
        ≡ Some true }
{
    step_named(alloc, text(value, "op")?, value, limit)
}
