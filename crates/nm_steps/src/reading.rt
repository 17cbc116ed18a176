//! Reading a trace from bytes.

ghost use Rattle.std.specs.Prelude.{map, ◌≡◌, ◌⊎◌, ◌<◌, ◌≤◌, ◌^◌, [], ◌∷◌, ◌++◌, length, true, IfOk, OnOk, IfErr, codes};
ghost use Rattle.nm_requests.specs.Calls.{default_limit};
ghost use Rattle.nm_requests.specs.Views.{call_of};
ghost use Rattle.std.specs.Option.{ok_or};
ghost use Rattle.std.specs.Str.{is_utf8};
ghost use Rattle.json.specs.Scratch.{room};
ghost use Rattle.nm_steps.specs.Lists.{items_seen, list_seen};
ghost use Rattle.nm_steps.specs.Tree.{view};
ghost use Rattle.serde_json.specs.View as owned;
ghost use Rattle.nm_steps.specs.Form as form;
ghost use Rattle.nm_steps.specs.Faults as faults;
ghost use Rattle.nm_steps.specs.Faults.{Gives};
ghost use Rattle.nm_steps.specs.Plans.{contents_of};
ghost use Rattle.nm_steps.specs.declared.trace_error.TraceError.TheVariants.{NotJson, BadMachine, HostMemory};
ghost use Rattle.nm_steps.specs.declared.step_error.StepError.TheVariants.{Bad, Memory};
ghost use Rattle.nm_steps.specs.Gives as of_step;
ghost use Rattle.nm_steps.specs.Memory.{IsSomeText, NeedsMemory, begins, has_items, machine_takes_memory, row_allocates, starts, starts_at, step_allocates, steps_take_memory};
ghost use Rattle.serde_json.specs.Find.{as_array};

use crate::json_value::{JsonList, JsonValue};
use crate::keys::{list, number, small_numbers};
use crate::parsing::step_of;
use crate::step_error::StepError;
use crate::trace::Trace;
use crate::trace_error::TraceError;
use crate::tree::{self, Tree};
use json::Scratch;
use nm_requests::Call;
use nm_types::Geometry;
use nm_types::limits::MAX_BATCH;
use std::alloc::{Allocator, Global};
use std::str::from_utf8;

/// A distance: below 256.
fn distance_value<V: JsonValue>(value: &V) -> Result<u8, StepError>
    ensures value { of_step.GivesStep (λ n. n) result (form.number_below (2 ^ 8) (V.as_data value.now)) }
    ensures bad { IfErr result (λ e. e ≡ Bad) }
{
    let number = value.as_u64().ok_or(StepError::Bad)?;
    u8::try_from(number).map_err(|_| StepError::Bad)
}

/// The distances of a list.
fn distances_of<A: Allocator + Copy, V: JsonValue>(
    alloc: A,
    values: &[V],
) -> Result<Vec<u8, A>, StepError>
    ensures row { of_step.GivesStep (λ v. v.items) result
        (form.each (form.number_below (2 ^ 8)) (items_seen V.as_data values.now)) }
    ensures first { result ≡ Err Memory →
        starts (form.number_below (2 ^ 8)) (items_seen V.as_data values.now) ≡ true }
{
    let mut row = Vec::new(alloc);
    for value in values {
        let distance = distance_value(value)?;
        row.push(distance)?;
    }
    Ok(row)
}

/// The distances that a list has.
fn distances_in<A: Allocator + Copy, V: JsonValue>(
    alloc: A,
    list: JsonList<'_, V>,
) -> Result<Vec<u8, A>, StepError>
    ensures row { of_step.GivesStep (λ v. v.items) result
        (form.each (form.number_below (2 ^ 8)) (list_seen V.as_data list.entry)) }
    ensures first { result ≡ Err Memory →
        starts (form.number_below (2 ^ 8)) (list_seen V.as_data list.entry) ≡ true }
{
    match list {
        JsonList::Numbers(numbers) => distances_of(alloc, numbers),
        JsonList::Values(values) => distances_of(alloc, values),
    }
}

/// A row of distances.
fn row_of<A: Allocator + Copy, V: JsonValue>(alloc: A, value: &V) -> Result<Vec<u8, A>, StepError>
    ensures row { of_step.GivesStep (λ v. v.items) result (form.row_of (V.as_data value.now)) }
    ensures allocates { result ≡ Err Memory → has_items (as_array (V.as_data value.now)) ≡ true }
    ensures first { result ≡ Err Memory →
        starts_at (form.number_below (2 ^ 8)) (as_array (V.as_data value.now)) ≡ true }
{
    distances_in(alloc, value.as_list().ok_or(StepError::Bad)?)
}

/// The rows of a list.
fn rows_of<A: Allocator + Copy, V: JsonValue>(
    alloc: A,
    values: &[V],
) -> Result<Vec<Vec<u8, A>, A>, StepError>
    ensures rows { of_step.GivesStep (λ v. map (λ row. row.items) v.items) result
        (form.each form.row_of (items_seen V.as_data values.now)) }
    ensures first { result ≡ Err Memory →
        begins row_allocates (items_seen V.as_data values.now) ≡ true }
{
    let mut rows = Vec::new(alloc);
    for value in values {
        let row = row_of(alloc, value)?;
        rows.push(row)?;
    }
    Ok(rows)
}

/// The rows that a list has.
fn rows_in<A: Allocator + Copy, V: JsonValue>(
    alloc: A,
    list: JsonList<'_, V>,
) -> Result<Vec<Vec<u8, A>, A>, StepError>
    ensures rows { of_step.GivesStep (λ v. map (λ row. row.items) v.items) result
        (form.each form.row_of (list_seen V.as_data list.entry)) }
    ensures first { result ≡ Err Memory →
        begins row_allocates (list_seen V.as_data list.entry) ≡ true }
{
    match list {
        JsonList::Numbers(numbers) => rows_of(alloc, numbers),
        JsonList::Values(values) => rows_of(alloc, values),
    }
}

/// The machine at the top of a trace.
#[tactic(auto, unfolding(crate::specs::Form::machine_of))]
fn machine_of<A: Allocator + Copy, V: JsonValue>(
    alloc: A,
    value: &V,
) -> Result<Geometry<A>, StepError>
    ensures machine { of_step.GivesStep (λ g. g) result (form.machine_of (V.as_data value.now)) }
    ensures allocates { result ≡ Err Memory → machine_takes_memory (V.as_data value.now) ≡ true }
{
    let machine = value.get("machine").ok_or(StepError::Bad)?;
    let sizes = small_numbers(alloc, machine, "nodes")?;
    let distances = rows_in(alloc, list(machine, "distance")?)?;
    match Geometry::new(sizes, distances) {
        Ok(geometry) => Ok(geometry),
        Err(_) => Err(StepError::Bad),
    }
}

/// The most requests that a run may have: 16,384 in version 1, whatever the trace says, and what version 2 says.
#[tactic(auto, unfolding(crate::specs::Form::limit_of))]
fn limit_of<V: JsonValue>(value: &V) -> Result<usize, StepError>
    // In any case
    ensures limit { of_step.GivesStep (λ n. n) result (form.limit_of (V.as_data value.now)) }

    // On a fault
    ensures bad { IfErr result (λ e. e ≡ Bad) }

    // On success
    ensures some { IfOk result (λ n. 0 < n) }
    ensures within { IfOk result (λ n. n ≤ default_limit) }
{
    let version = number(value, "version")?;
    if version == 1 {
        return Ok(MAX_BATCH);
    }
    if version != 2 {
        return Err(StepError::Bad);
    }
    let limit = number(value, "run_limit")?;
    if limit >= 1 && limit <= MAX_BATCH as u64 {
        Ok(limit as usize)
    } else {
        Err(StepError::Bad)
    }
}

/// Appends a call to a list.
fn put<A: Allocator + Copy + Send + Sync>(
    calls: &mut Vec<Call<A>, A>,
    call: Call<A>,
) -> Result<(), TraceError>
    ensures put { OnOk result (calls.new.items ≡ calls.old.items ++ call ∷ []) }
    ensures fault { IfErr result (λ e. e ≡ HostMemory 0) }
{
    match calls.push(call) {
        Ok(()) => Ok(()),
        Err(_) => Err(TraceError::HostMemory(0)),
    }
}

/// The calls that the steps of a list ask for, or the first fault. A run has at most `limit` requests.
fn calls_of<A: Allocator + Copy + Send + Sync, V: JsonValue>(
    alloc: A,
    values: &[V],
    limit: usize,
) -> Result<Vec<Call<A>, A>, TraceError>
    requires { 0 < limit }
    ensures calls { Gives (λ v. map call_of v.items) result
        (faults.calls_of limit (items_seen V.as_data values.now)) }
    ensures first { result ≡ Err (HostMemory 0) →
        begins (step_allocates limit) (items_seen V.as_data values.now) ≡ true }
{
    let mut calls = Vec::new(alloc);
    for (k, value) in values.iter().enumerate() {
        let call = match step_of(alloc, value, limit) {
            Ok(call) => call,
            Err(StepError::Bad) => return Err(TraceError::BadStep(k)),
            Err(StepError::Memory) => return Err(TraceError::HostMemory(0)),
        };
        put(&mut calls, call)?;
    }
    Ok(calls)
}

/// The calls that the steps in a list ask for, or the first fault. A run has at most `limit` requests.
fn calls_in<A: Allocator + Copy + Send + Sync, V: JsonValue>(
    alloc: A,
    list: JsonList<'_, V>,
    limit: usize,
) -> Result<Vec<Call<A>, A>, TraceError>
    requires { 0 < limit }
    ensures calls { Gives (λ v. map call_of v.items) result
        (faults.calls_of limit (list_seen V.as_data list.entry)) }
    ensures first { result ≡ Err (HostMemory 0) →
        begins (step_allocates limit) (list_seen V.as_data list.entry) ≡ true }
{
    match list {
        JsonList::Numbers(numbers) => calls_of(alloc, numbers, limit),
        JsonList::Values(values) => calls_of(alloc, values, limit),
    }
}

/// The fault of a trace's machine.
fn bad_machine(error: StepError) -> TraceError
    ensures { result ≡ faults.bad_machine error }
{
    match error {
        StepError::Bad => TraceError::BadMachine,
        StepError::Memory => TraceError::HostMemory(0),
    }
}

/// The machine of a trace, or its fault.
pub fn geometry_of<A: Allocator + Copy, V: JsonValue>(
    alloc: A,
    value: &V,
) -> Result<Geometry<A>, TraceError>
    ensures machine { Gives (λ g. g) result
        (ok_or (form.machine_of (V.as_data value.now)) BadMachine) }
    ensures allocates { result ≡ Err (HostMemory 0) → machine_takes_memory (V.as_data value.now) ≡ true }
{
    machine_of(alloc, value).map_err(bad_machine)
}

/// The limit on runs of a trace, or its fault.
pub fn run_limit_of<V: JsonValue>(value: &V) -> Result<usize, TraceError>
    // In any case
    ensures limit { Gives (λ n. n) result (ok_or (form.limit_of (V.as_data value.now)) BadMachine) }

    // On a fault
    ensures bad { IfErr result (λ e. e ≡ BadMachine) }

    // On success
    ensures some { IfOk result (λ n. 0 < n) }
    ensures within { IfOk result (λ n. n ≤ default_limit) }
{
    match limit_of(value) {
        Ok(limit) => Ok(limit),
        Err(error) => Err(bad_machine(error)),
    }
}

/// The list of the steps of a trace, or a fault if its top has none.
fn steps_of<'v, V: JsonValue>(value: &'v V) -> Result<JsonList<'v, V>, TraceError>
    ensures values { Gives (list_seen V.as_data) result
        (ok_or (form.items_at (codes "steps") (V.as_data value.now)) BadMachine) }
    ensures bad { IfErr result (λ e. e ≡ BadMachine) }
{
    list(value, "steps").map_err(bad_machine)
}

/// The trace of a machine, with the limit and the steps in a value, or its first fault.
#[tactic(auto, unfolding(crate::specs::Faults::plan_on))]
fn trace_on<A: Allocator + Copy + Send + Sync, V: JsonValue>(
    alloc: A,
    geometry: Geometry<A>,
    value: &V,
) -> Result<Trace<A>, TraceError>
    ensures trace { Gives contents_of result (faults.plan_on geometry (V.as_data value.now)) }
    ensures allocates { result ≡ Err (HostMemory 0) → steps_take_memory (V.as_data value.now) ≡ true }
{
    let run_limit = run_limit_of(value)?;
    let list = steps_of(value)?;
    let calls = calls_in(alloc, list, run_limit)?;
    Ok(Trace {
        geometry,
        run_limit,
        calls,
    })
}

/// The trace in a value, or its first fault.
#[tactic(auto, unfolding(crate::specs::Faults::plan_of))]
fn trace_of<A: Allocator + Copy + Send + Sync, V: JsonValue>(
    alloc: A,
    value: &V,
) -> Result<Trace<A>, TraceError>
    ensures trace { Gives contents_of result (faults.plan_of (V.as_data value.now)) }
    ensures allocates { result ≡ Err (HostMemory 0) → machine_takes_memory (V.as_data value.now) ≡ true }
{
    let geometry = geometry_of(alloc, value)?;
    trace_on(alloc, geometry, value)
}

/// The JSON tree of these bytes. Strings with escapes are written to `scratch`. `HostMemory(0)` if `heap` is out of
/// memory: only of a text that is longer than the room in `scratch`, or begins with a list or an object.
pub fn value_of<'a>(
    heap: Global,
    bytes: &'a [u8],
    scratch: &'a mut Scratch,
) -> Result<Tree<'a>, TraceError>
    ensures value { Gives view result (ok_or (faults.value_of bytes.now) NotJson) }
    ensures allocates { result ≡ Err (HostMemory 0) →
        (is_utf8 bytes.now ≡ true) × NeedsMemory (room scratch.old) bytes.now }
    ensures fault { IfErr result (λ e. (e ≡ NotJson) ⊎ (e ≡ HostMemory 0)) }
{
    let Ok(text) = from_utf8(bytes) else {
        return Err(TraceError::NotJson);
    };
    match tree::read(heap, text, scratch) {
        Ok(value) => Ok(value),
        Err(StepError::Bad) => Err(TraceError::NotJson),
        Err(StepError::Memory) => Err(TraceError::HostMemory(0)),
    }
}

/// Reads a trace from bytes, or returns their first fault: `NotJson`, then `BadMachine`, then `BadStep` of the first
/// bad step. Every step is checked before any is made. The trace is in the memory of `alloc`, and the JSON tree, until
/// this call returns, in that of `heap`.
///
/// `HostMemory(0)` if either is out of memory. Bytes that are not UTF-8, and an empty text, need none.
#[tactic(auto, unfolding(crate::specs::Faults::trace_of))]
pub fn read_trace<A: Allocator + Copy + Send + Sync>(
    alloc: A,
    heap: Global,
    bytes: &[u8],
) -> Result<Trace<A>, TraceError>
    ensures trace { Gives contents_of result (faults.trace_of bytes.now) }
    ensures allocates { result ≡ Err (HostMemory 0) → IsSomeText bytes.now }
{
    let mut scratch = Scratch::new(heap);
    let value = value_of(heap, bytes, &mut scratch)?;
    trace_of(alloc, &value)
}

impl<A: Allocator + Copy + Send + Sync> Trace<A> {
    /// The trace that a JSON value is, or its first fault: `BadMachine`, or `BadStep` of the first bad step. It is what
    /// `read_trace` reads from a text of the value, except that a value may nest deeper than a text.
    ///
    /// `HostMemory(0)` if `alloc` is out of memory.
    pub fn from_value(alloc: A, value: &serde_json::Value) -> Result<Trace<A>, TraceError>
        ensures trace { Gives contents_of result (faults.plan_of (owned.view value.now)) }
        ensures allocates { result ≡ Err (HostMemory 0) →
            machine_takes_memory (owned.view value.now) ≡ true }
    {
        trace_of(alloc, value)
    }
}
