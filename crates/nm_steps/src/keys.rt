//! The values at the keys of a step, and the items of their lists.

ghost use Rattle.std.specs.Prelude.{◌≡◌, ◌<◌, ◌^◌, true, Some, IfOk, IfErr};
ghost use Rattle.nm_steps.specs.Lists.{items_seen, list_seen};
ghost use Rattle.nm_steps.specs.Form.{number_at, small_at, text_at, flag_at, set_at, hex_at, hex_bytes};
ghost use Rattle.nm_steps.specs.Form as form;
ghost use Rattle.nm_steps.specs.declared.step_error.StepError.TheVariants.{Bad, Memory};
ghost use Rattle.nm_steps.specs.Gives.{GivesStep};
ghost use Rattle.nm_steps.specs.Memory.{has_items, has_pairs, starts, starts_at};

use crate::json_value::{JsonList, JsonValue};
use crate::step_error::StepError;
use hex::FromHexError;
use nm_types::{NodeId, NodeMask};
use std::alloc::Allocator;

/// The number at a key, of 64 bits.
pub(crate) fn number<V: JsonValue>(value: &V, key: &str) -> Result<u64, StepError>
    ensures value { GivesStep (λ n. n) result (number_at key.now (V.as_data value.now)) }
    ensures bad { IfErr result (λ e. e ≡ Bad) }
{
    value.get(key).and_then(V::as_u64).ok_or(StepError::Bad)
}

/// The number at a key, below 2^32.
pub(crate) fn small_number<V: JsonValue>(value: &V, key: &str) -> Result<u32, StepError>
    ensures value { GivesStep (λ n. n) result (small_at key.now (V.as_data value.now)) }
    ensures bad { IfErr result (λ e. e ≡ Bad) }
{
    u32::try_from(number(value, key)?).map_err(|_| StepError::Bad)
}

/// The text at a key.
pub(crate) fn text<'v, V: JsonValue>(value: &'v V, key: &str) -> Result<&'v str, StepError>
    ensures value { GivesStep (λ s. s.now) result (text_at key.now (V.as_data value.now)) }
    ensures bad { IfErr result (λ e. e ≡ Bad) }
{
    value.get(key).and_then(V::as_str).ok_or(StepError::Bad)
}

/// True or false at a key. False if the key is missing.
pub(crate) fn flag<V: JsonValue>(value: &V, key: &str) -> Result<bool, StepError>
    ensures value { GivesStep (λ b. b) result (flag_at key.now (V.as_data value.now)) }
    ensures bad { IfErr result (λ e. e ≡ Bad) }
{
    match value.get(key) {
        None => Ok(false),
        Some(flag) => flag.as_bool().ok_or(StepError::Bad),
    }
}

/// The list at a key.
pub(crate) fn list<'v, V: JsonValue>(value: &'v V, key: &str) -> Result<JsonList<'v, V>, StepError>
    ensures value { GivesStep (list_seen V.as_data) result
        (form.items_at key.now (V.as_data value.now)) }
    ensures bad { IfErr result (λ e. e ≡ Bad) }
{
    value.get(key).and_then(V::as_list).ok_or(StepError::Bad)
}

/// A number of 64 bits, as an item of a list.
fn number_value<V: JsonValue>(value: &V) -> Result<u64, StepError>
    ensures value { GivesStep (λ n. n) result (form.u64_of (V.as_data value.now)) }
    ensures bad { IfErr result (λ e. e ≡ Bad) }
{
    value.as_u64().ok_or(StepError::Bad)
}

/// The numbers of a list, each of 64 bits.
fn numbers_of<A: Allocator + Copy, V: JsonValue>(
    alloc: A,
    values: &[V],
) -> Result<Vec<u64, A>, StepError>
    ensures value { GivesStep (λ v. v.items) result
        (form.each form.u64_of (items_seen V.as_data values.now)) }
    ensures first { result ≡ Err Memory →
        starts form.u64_of (items_seen V.as_data values.now) ≡ true }
{
    let mut numbers = Vec::new(alloc);
    for value in values {
        let number = number_value(value)?;
        numbers.push(number)?;
    }
    Ok(numbers)
}

/// The numbers that a list has, each of 64 bits.
fn numbers_in<A: Allocator + Copy, V: JsonValue>(
    alloc: A,
    list: JsonList<'_, V>,
) -> Result<Vec<u64, A>, StepError>
    ensures value { GivesStep (λ v. v.items) result
        (form.each form.u64_of (list_seen V.as_data list.entry)) }
    ensures first { result ≡ Err Memory →
        starts form.u64_of (list_seen V.as_data list.entry) ≡ true }
{
    match list {
        JsonList::Numbers(numbers) => numbers_of(alloc, numbers),
        JsonList::Values(values) => numbers_of(alloc, values),
    }
}

/// The numbers of the list at a key, each of 64 bits.
pub(crate) fn numbers<A: Allocator + Copy, V: JsonValue>(
    alloc: A,
    value: &V,
    key: &str,
) -> Result<Vec<u64, A>, StepError>
    ensures value { GivesStep (λ v. v.items) result (form.numbers_at key.now (V.as_data value.now)) }
    ensures allocates { result ≡ Err Memory →
        has_items (form.items_at key.now (V.as_data value.now)) ≡ true }
    ensures first { result ≡ Err Memory →
        starts_at form.u64_of (form.items_at key.now (V.as_data value.now)) ≡ true }
{
    numbers_in(alloc, list(value, key)?)
}

/// A number below 2^32, as an item of a list.
fn small_value<V: JsonValue>(value: &V) -> Result<u32, StepError>
    ensures value { GivesStep (λ n. n) result (form.number_below (2 ^ 32) (V.as_data value.now)) }
    ensures bad { IfErr result (λ e. e ≡ Bad) }
{
    u32::try_from(number_value(value)?).map_err(|_| StepError::Bad)
}

/// The numbers of a list, each below 2^32.
fn smalls_of<A: Allocator + Copy, V: JsonValue>(
    alloc: A,
    values: &[V],
) -> Result<Vec<u32, A>, StepError>
    ensures value { GivesStep (λ v. v.items) result
        (form.each (form.number_below (2 ^ 32)) (items_seen V.as_data values.now)) }
    ensures first { result ≡ Err Memory →
        starts (form.number_below (2 ^ 32)) (items_seen V.as_data values.now) ≡ true }
{
    let mut numbers = Vec::new(alloc);
    for value in values {
        let number = small_value(value)?;
        numbers.push(number)?;
    }
    Ok(numbers)
}

/// The numbers that a list has, each below 2^32.
fn smalls_in<A: Allocator + Copy, V: JsonValue>(
    alloc: A,
    list: JsonList<'_, V>,
) -> Result<Vec<u32, A>, StepError>
    ensures value { GivesStep (λ v. v.items) result
        (form.each (form.number_below (2 ^ 32)) (list_seen V.as_data list.entry)) }
    ensures first { result ≡ Err Memory →
        starts (form.number_below (2 ^ 32)) (list_seen V.as_data list.entry) ≡ true }
{
    match list {
        JsonList::Numbers(numbers) => smalls_of(alloc, numbers),
        JsonList::Values(values) => smalls_of(alloc, values),
    }
}

/// The numbers of the list at a key, each below 2^32.
pub(crate) fn small_numbers<A: Allocator + Copy, V: JsonValue>(
    alloc: A,
    value: &V,
    key: &str,
) -> Result<Vec<u32, A>, StepError>
    ensures value { GivesStep (λ v. v.items) result (form.small_numbers_at key.now (V.as_data value.now)) }
    ensures allocates { result ≡ Err Memory →
        has_items (form.items_at key.now (V.as_data value.now)) ≡ true }
    ensures first { result ≡ Err Memory →
        starts_at (form.number_below (2 ^ 32)) (form.items_at key.now (V.as_data value.now)) ≡ true }
{
    smalls_in(alloc, list(value, key)?)
}

/// A node's number, below 64, as an item of a list.
fn node_value<V: JsonValue>(value: &V) -> Result<NodeId, StepError>
    ensures value { GivesStep (λ n. n) result (form.number_below 64 (V.as_data value.now)) }
    ensures bad { IfErr result (λ e. e ≡ Bad) }
    ensures below { IfOk result (λ n. n < 64) }
{
    let number = small_value(value)?;
    if number < 64 {
        Ok(NodeId::new(number))
    } else {
        Err(StepError::Bad)
    }
}

/// The set of a list's numbers, each below 64.
fn set_of<V: JsonValue>(values: &[V]) -> Result<NodeMask, StepError>
    ensures value { GivesStep (λ s. s) result (form.set_of (items_seen V.as_data values.now)) }
    ensures bad { IfErr result (λ e. e ≡ Bad) }
{
    let mut mask = NodeMask::new();
    for value in values {
        let node = node_value(value)?;
        mask.insert(node);
    }
    Ok(mask)
}

/// The set of the numbers that a list has, each below 64.
fn set_in<V: JsonValue>(list: JsonList<'_, V>) -> Result<NodeMask, StepError>
    ensures value { GivesStep (λ s. s) result (form.set_of (list_seen V.as_data list.entry)) }
    ensures bad { IfErr result (λ e. e ≡ Bad) }
{
    match list {
        JsonList::Numbers(numbers) => set_of(numbers),
        JsonList::Values(values) => set_of(values),
    }
}

/// The set of the numbers at a key, each below 64.
pub(crate) fn set<V: JsonValue>(value: &V, key: &str) -> Result<NodeMask, StepError>
    ensures value { GivesStep (λ s. s) result (set_at key.now (V.as_data value.now)) }
    ensures bad { IfErr result (λ e. e ≡ Bad) }
{
    set_in(list(value, key)?)
}

/// The bytes that hexadecimal digits spell.
fn bytes<A: Allocator + Copy>(alloc: A, text: &str) -> Result<Vec<u8, A>, StepError>
    ensures value { GivesStep (λ v. v.items) result (hex_bytes text.now) }
    ensures allocates { result ≡ Err Memory → has_pairs (Some text.now) ≡ true }
{
    match hex::decode(alloc, text) {
        Ok(bytes) => Ok(bytes),
        Err(FromHexError::OutOfMemory) => Err(StepError::Memory),
        Err(_) => Err(StepError::Bad),
    }
}

/// The bytes at a key, given as hexadecimal digits.
pub(crate) fn hex<A: Allocator + Copy, V: JsonValue>(
    alloc: A,
    value: &V,
    key: &str,
) -> Result<Vec<u8, A>, StepError>
    ensures value { GivesStep (λ v. v.items) result (hex_at key.now (V.as_data value.now)) }
    ensures allocates { result ≡ Err Memory →
        has_pairs (text_at key.now (V.as_data value.now)) ≡ true }
{
    bytes(alloc, text(value, key)?)
}
