//! A trace that a program makes as a value.

use serde_json::{Value, json};
use std::alloc::{AllocError, Global};

/// An address in each page.
const ADDRESSES: [u64; 3] = [65_536, 69_632, 73_728];

fn pair(heap: Global, first: u64, second: u64) -> Result<Value, AllocError> {
    json!(in heap; [first, second])
}

/// Two nodes of four frames each, at distance 20.
fn machine(heap: Global) -> Result<Value, AllocError> {
    let nodes = pair(heap, 4, 4)?;
    let near = pair(heap, 10, 20)?;
    let far = pair(heap, 20, 10)?;
    json!(in heap; {"nodes": nodes, "distance": [near, far]})
}

fn spawn(heap: Global) -> Result<Value, AllocError> {
    let allowed = pair(heap, 0, 1)?;
    json!(in heap; {"op": "spawn", "pid": 1, "uid": 100, "home": 0, "allowed": allowed})
}

fn map(heap: Global) -> Result<Value, AllocError> {
    json!(in heap; {"op": "map", "pid": 1, "addr": 65_536, "pages": 3})
}

fn write(heap: Global, address: u64) -> Result<Value, AllocError> {
    json!(in heap; {"op": "write", "pid": 1, "addr": address, "data": "61"})
}

fn addresses(heap: Global) -> Result<Value, AllocError> {
    let mut numbers = Vec::new(heap);
    for address in ADDRESSES {
        numbers.push(Value::from(address))?;
    }
    Ok(Value::Array(numbers))
}

/// Moves all pages to node 1.
fn move_all(heap: Global) -> Result<Value, AllocError> {
    let pages = addresses(heap)?;
    let nodes = json!(in heap; [1, 1, 1])?;
    json!(in heap; {"op": "move_pages", "caller": 1, "pid": 0, "pages": pages, "nodes": nodes, "flags": 2})
}

/// Appends the steps to a list.
fn push_steps(heap: Global, steps: &mut Vec<Value>) -> Result<(), AllocError> {
    steps.push(spawn(heap)?)?;
    steps.push(map(heap)?)?;
    for address in ADDRESSES {
        steps.push(write(heap, address)?)?;
    }
    steps.push(move_all(heap)?)?;
    steps.push(json!(in heap; {"op": "pagemap", "pid": 1})?)?;
    Ok(())
}

/// A process on node 0 writes a byte to each of three pages, moves them to node 1 in one call, and lists where they are.
pub(crate) fn make_trace(heap: Global) -> Result<Value, AllocError> {
    let machine = machine(heap)?;
    let mut steps = Vec::new(heap);
    push_steps(heap, &mut steps)?;
    let steps = Value::Array(steps);
    json!(in heap; {"version": 1, "machine": machine, "steps": steps})
}
