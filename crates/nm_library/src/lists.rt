//! What a machine lists: free frames, entries, areas; and its totals.

ghost use Rattle.std.specs.Prelude.{◌≡◌, map, IfOk, None};
ghost use Rattle.nm_calls.specs.definitions.Maps.{lines_shown};
ghost use Rattle.nm_library.specs.Calls.{with_line_feeds, ListsAreas, ListsEntries, ListsFree, LooksOnly, OfSession, Totals};
ghost use Rattle.nm_library.specs.Entries.{pagemap_entry};

use crate::calls::status_for;
use crate::entry::Entry;
use crate::handle::{Handle, OpenSession};
use crate::rooms::fill;
use crate::status;
use nm_calls::PagemapEntry;
use nm_types::{FrameId, NodeId, Pid};
use std::alloc::{AllocError, Global};

/// The numbers of frames.
fn numbers_of(alloc: Global, frames: &[FrameId]) -> Result<Vec<u16>, AllocError>
    ensures { IfOk result (λ v. v.items ≡ frames.now) }
{
    let mut numbers = Vec::new(alloc);
    for frame in frames {
        numbers.push(frame.number())?;
    }
    Ok(numbers)
}

/// Writes the free frames of a node.
fn free_list(
    alloc: Global,
    kept: &OpenSession,
    node: u32,
    frames: &mut [u16],
    needed: &mut usize,
) -> i32
    ensures { ListsFree node frames.old frames.new needed.old needed.new result kept.now }
{
    match kept.session.system().free_list(NodeId::new(node)) {
        Ok(list) => {
            let Ok(numbers) = numbers_of(alloc, list.as_slice()) else {
                return status::NO_MEMORY;
            };
            fill(numbers.as_slice(), frames, needed)
        }
        Err(error) => status_for(error),
    }
}

/// Writes the free frames of a node, front first: `System::free_list`.
#[unsafe(no_mangle)]
pub extern "C" fn numatrace_free_list(
    alloc: Global,
    session: &mut Handle,
    node: u32,
    frames: &mut [u16],
    needed: &mut usize,
) -> i32
    ensures status { OfSession (LooksOnly (ListsFree node frames.old frames.new needed.old needed.new)) result
        session.old.value session.new.value }
    ensures unchanged { session.old.value ≡ None →
        (frames.new ≡ frames.old) × (needed.new ≡ needed.old) }
{
    let Some(kept) = session.take(alloc) else {
        return status::BAD_ARGUMENT;
    };
    let answer = free_list(alloc, &kept, node, frames, needed);
    session.put(kept);
    answer
}

/// Entries as C has them.
fn entries_of(alloc: Global, mapped: &[PagemapEntry]) -> Result<Vec<Entry>, AllocError>
    ensures { IfOk result (λ v. v.items ≡ map pagemap_entry mapped.now) }
{
    let mut entries = Vec::new(alloc);
    for entry in mapped {
        entries.push(Entry::of(entry))?;
    }
    Ok(entries)
}

/// Writes the entries of a process.
fn pagemap(
    alloc: Global,
    kept: &OpenSession,
    pid: u32,
    entries: &mut [Entry],
    needed: &mut usize,
) -> i32
    ensures { ListsEntries pid entries.old entries.new needed.old needed.new result kept.now }
{
    match kept.session.system().pagemap(Pid::new(pid)) {
        Ok(list) => {
            let Ok(shown) = entries_of(alloc, list.as_slice()) else {
                return status::NO_MEMORY;
            };
            fill(shown.as_slice(), entries, needed)
        }
        Err(error) => status_for(error),
    }
}

/// Writes the entries of a process, in address order: `System::pagemap`.
#[unsafe(no_mangle)]
pub extern "C" fn numatrace_pagemap(
    alloc: Global,
    session: &mut Handle,
    pid: u32,
    entries: &mut [Entry],
    needed: &mut usize,
) -> i32
    ensures status { OfSession (LooksOnly (ListsEntries pid entries.old entries.new needed.old needed.new)) result
        session.old.value session.new.value }
    ensures unchanged { session.old.value ≡ None →
        (entries.new ≡ entries.old) × (needed.new ≡ needed.old) }
{
    let Some(kept) = session.take(alloc) else {
        return status::BAD_ARGUMENT;
    };
    let answer = pagemap(alloc, &kept, pid, entries, needed);
    session.put(kept);
    answer
}

/// A text of lines, each with a line feed at its end.
fn text_of(alloc: Global, lines: &[String]) -> Result<Vec<u8>, AllocError>
    ensures { IfOk result (λ v. v.items ≡ with_line_feeds (lines_shown lines.now)) }
{
    let mut text = Vec::new(alloc);
    for line in lines {
        text.extend_from_slice(line.as_bytes())?;
        text.push(b'\n')?;
    }
    Ok(text)
}

/// Writes the areas of a process as text.
fn numa_maps(
    alloc: Global,
    kept: &OpenSession,
    pid: u32,
    text: &mut [u8],
    needed: &mut usize,
) -> i32
    ensures { ListsAreas pid text.old text.new needed.old needed.new result kept.now }
{
    match kept.session.system().numa_maps(Pid::new(pid)) {
        Ok(list) => {
            let Ok(shown) = text_of(alloc, list.as_slice()) else {
                return status::NO_MEMORY;
            };
            fill(shown.as_slice(), text, needed)
        }
        Err(error) => status_for(error),
    }
}

/// Writes the areas of a process as text, in address order, each line with a line feed at its end: `System::numa_maps`.
#[unsafe(no_mangle)]
pub extern "C" fn numatrace_numa_maps(
    alloc: Global,
    session: &mut Handle,
    pid: u32,
    text: &mut [u8],
    needed: &mut usize,
) -> i32
    ensures status { OfSession (LooksOnly (ListsAreas pid text.old text.new needed.old needed.new)) result
        session.old.value session.new.value }
    ensures unchanged { session.old.value ≡ None →
        (text.new ≡ text.old) × (needed.new ≡ needed.old) }
{
    let Some(kept) = session.take(alloc) else {
        return status::BAD_ARGUMENT;
    };
    let answer = numa_maps(alloc, &kept, pid, text, needed);
    session.put(kept);
    answer
}

/// Writes how many pages have moved, and how many requests have failed: `System::vmstat`.
#[unsafe(no_mangle)]
pub extern "C" fn numatrace_vmstat(
    alloc: Global,
    session: &mut Handle,
    moved: &mut u64,
    failed: &mut u64,
) -> i32
    ensures status { OfSession (LooksOnly (Totals moved.new failed.new)) result
        session.old.value session.new.value }
    ensures unchanged { session.old.value ≡ None →
        (moved.new ≡ moved.old) × (failed.new ≡ failed.old) }
{
    let Some(kept) = session.take(alloc) else {
        return status::BAD_ARGUMENT;
    };
    let totals = kept.session.system().vmstat();
    *moved = totals.moved;
    *failed = totals.failed;
    session.put(kept);
    status::DONE
}
