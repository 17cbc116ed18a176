//! The table of processes.

ghost use Rattle.std.specs.Prelude.{ℕ, ◌≡◌, ◌≤◌, ◌<◌, ◌/◌, nat_eq, true, false, slice_get, [], length, Some, None, IsSome, IfSome, IfNone, IfOk, OnOk, OnErr};
ghost use Rattle.std.specs.Option.{option_copied, option_map};
ghost use Rattle.std.specs.List.Sorted.{IsStrictlySortedBy};
ghost use Rattle.std.specs.Map.{keys_of, lookup};
ghost use Rattle.indexmap.specs.IndexMap.{values};
ghost use Rattle.std.specs.Ordering.{nat_cmp};
ghost use Rattle.nm_types.specs.Map.{get, set, replace, without};
ghost use Rattle.nm_model.specs.definitions.PageTables.{Task};
ghost use Rattle.nm_spaces.specs.views.ProcessTable.{new_task, task_info, task_table, entries_in, IsThere, without_entry, put_entry};
ghost use Rattle.nm_model.specs.definitions.PageTables.{entry_at, with_entry};
ghost use Rattle.nm_model.specs.definitions.Seen.{between};

use crate::pid_hash::PidHash;
use crate::process;
use indexmap::IndexMap;
use nm_tables::{Entry, PageTable};
use nm_types::{Pid, ProcessInfo, Vpn};
use std::alloc::{AllocError, Allocator};
use std::marker::Model;

/// Processes by pid, in any order.
type Tasks<A> = IndexMap<Pid, process::Task<A>, PidHash, A>;

/// The processes by pid, in any order, each with its page table.
#[derive(Drop)]
pub(crate) struct ProcessTable<A: Allocator + Copy> {
    tasks: Tasks<A>,
    alloc: A,
}

impl<A: Allocator + Copy> Model for ProcessTable<A> {
    ghost use Rattle.std.specs.Prelude.{ℕ};
    ghost use Rattle.nm_types.specs.Map.{Map};
    ghost use Rattle.nm_model.specs.definitions.PageTables.{Task};
    ghost use Rattle.nm_spaces.specs.views.ProcessTable.{by_pid};

    ghost Value = { Map ℕ Task };

    ghost view = { λ t. by_pid t.tasks.entries };
}

impl<A: Allocator + Copy> ProcessTable<A> {
    /// Makes a table without processes, whose hash function has this seed. Does not allocate.
    pub(crate) fn new(alloc: A, seed: u64) -> Self
        ensures { result ≡ [] }
    {
        ProcessTable {
            tasks: IndexMap::with_hasher(alloc, PidHash::new(seed)),
            alloc,
        }
    }

    /// How many processes there are.
    pub(crate) fn len(&self) -> usize
        ensures count { result ≡ length self.now }
        ensures ordered { IsStrictlySortedBy nat_cmp (keys_of self.now) }
    {
        self.tasks.len()
    }

    /// What `spawn` fixed of a process. None if there is no process with this pid.
    pub(crate) fn info(&self, pid: Pid) -> Option<ProcessInfo>
        ensures { result ≡ option_map task_info (get nat_cmp self.now pid) }
    {
        task_of(&self.tasks, pid).map(|task| task.info)
    }

    /// The entry of a process at a page number. None if it is absent, or there is no such process.
    pub(crate) fn entry(&self, pid: Pid, vpn: Vpn) -> Option<Entry>
        ensures { result ≡ entry_at self.now pid vpn }
    {
        task_of(&self.tasks, pid)?.table.get(vpn)
    }

    /// All entries of a process, in order of page number. None if there is no such process.
    pub(crate) fn entries(&self, pid: Pid) -> Result<Option<Vec<(Vpn, Entry), A>>, AllocError>
        ensures entries { IfOk result
            (λ all. option_map (λ entries. entries.items) all
            ≡ option_map task_table (get nat_cmp self.now pid)) }
        ensures memory { OnErr result (IsSome (get nat_cmp self.now pid)) }
        ensures allocates { OnErr result (0 < length (entries_in self.now pid)) }
    {
        match task_of(&self.tasks, pid) {
            Some(task) => Ok(Some(task.table.entries()?)),
            None => Ok(None),
        }
    }

    /// The first entry of a process at or after a page number.
    pub(crate) fn first_from(&self, pid: Pid, at: Vpn) -> Option<(Vpn, Entry)>
        ensures some { IfSome result (λ e. (at ≤ e.0) × (entry_at self.now pid e.0 ≡ Some e.1)) }
        ensures first { IfSome result
            (λ e. (v : ℕ) → at ≤ v → v < e.0 → entry_at self.now pid v ≡ None) }
        ensures none { IfNone result ((v : ℕ) → at ≤ v → entry_at self.now pid v ≡ None) }
    {
        task_of(&self.tasks, pid)?.table.first_from(at)
    }

    /// The entries of a process from one page number up to another, in order. Empty if there is no such process.
    pub(crate) fn entries_between(
        &self,
        pid: Pid,
        first: Vpn,
        end: Vpn,
    ) -> Result<Vec<(Vpn, Entry), A>, AllocError>
        ensures entries { IfOk result
            (λ entries. entries.items ≡ between first end (entries_in self.now pid)) }
        ensures allocates { OnErr result (0 < length (between first end (entries_in self.now pid))) }
    {
        let mut entries = Vec::new(self.alloc);
        let Some(task) = task_of(&self.tasks, pid) else {
            return Ok(entries);
        };
        task.table.list_between(first, end, &mut entries)?;
        Ok(entries)
    }

    /// Adds a process that has touched nothing.
    pub(crate) fn add(&mut self, pid: Pid, info: ProcessInfo) -> Result<(), AllocError>
        requires { get nat_cmp self.old pid ≡ None }

        // On success
        ensures ok { OnOk result (self.new ≡ set nat_cmp self.old pid (new_task info)) }

        // Without memory
        ensures err { OnErr result (self.new ≡ self.old) }

        // In any case
        ensures ordered { IsStrictlySortedBy nat_cmp (keys_of self.new) }
    {
        let task = process::Task {
            info,
            table: PageTable::new(self.alloc),
        };
        self.tasks.insert(pid, task)?;
        Ok(())
    }

    /// Sets the entry at a page number of a process. An error means that the host is out of memory, which happens only if
    /// the process has no entry in the aligned block of 512 page numbers around this one.
    pub(crate) fn set(&mut self, pid: Pid, vpn: Vpn, entry: Entry) -> Result<(), AllocError>
        requires { IsSome (get nat_cmp self.old pid) }
        ensures ok { OnOk result
            ((t : Task) →
            get nat_cmp self.old pid ≡ Some t →
            self.new ≡ replace nat_cmp self.old pid (with_entry t vpn entry)) }
        ensures err { OnErr result (self.new ≡ self.old) }
        ensures empty { OnErr result
            ((v : ℕ) → v / 512 ≡ vpn / 512 → entry_at self.old pid v ≡ None) }
    {
        let Some(task) = self.tasks.get_mut(&pid) else {
            unreachable!()
        };
        task.table.set(vpn, entry)
    }

    /// Replaces the entry at a page number of a process that has one. Returns the place after that of the process. Does
    /// not allocate.
    pub(crate) fn replace(&mut self, pid: Pid, vpn: Vpn, entry: Entry) -> usize
        requires { IsThere self.old (pid, vpn) }
        ensures { self.new ≡ put_entry self.old entry (pid, vpn) }
    {
        let Some(place) = place_of(&self.tasks, pid) else {
            unreachable!()
        };
        let (_, task) = self.tasks.pair_mut(place);
        task.table.replace(vpn, entry);
        place.wrapping_add(1)
    }

    /// Does the same, and looks for the process at this place first. Processes stand in the order in which they were
    /// spawned, so whoever goes through them in that order finds each at the place that the call before returned.
    #[inline]
    pub(crate) fn replace_near(&mut self, place: usize, pid: Pid, vpn: Vpn, entry: Entry) -> usize
        requires { IsThere self.old (pid, vpn) }
        ensures { self.new ≡ put_entry self.old entry (pid, vpn) }
    {
        if !stands_at(&self.tasks, place, pid) {
            return self.replace(pid, vpn, entry);
        }
        let (_, task) = self.tasks.pair_mut(place);
        task.table.replace(vpn, entry);
        place.wrapping_add(1)
    }

    /// Removes the entry at a page number of a process. Does not allocate.
    pub(crate) fn clear(&mut self, pid: Pid, vpn: Vpn)
        requires { IsSome (get nat_cmp self.old pid) }
        ensures { (t : Task) →
            get nat_cmp self.old pid ≡ Some t →
            self.new ≡ replace nat_cmp self.old pid (without_entry t vpn) }
    {
        let Some(task) = self.tasks.get_mut(&pid) else {
            unreachable!()
        };
        task.table.clear(vpn);
    }

    /// Removes a process with its table. Does not allocate.
    pub(crate) fn remove(&mut self, pid: Pid)
        ensures gone { self.new ≡ without nat_cmp self.old pid }
        ensures ordered { IsStrictlySortedBy nat_cmp (keys_of self.new) }
    {
        self.tasks.swap_remove(&pid);
    }
}

/// The process with this pid, if there is one.
fn task_of<A: Allocator + Copy>(tasks: &Tasks<A>, pid: Pid) -> Option<&process::Task<A>>
    ensures { option_copied result ≡ lookup (nat_eq pid) tasks.now.entries }
{
    let place = place_of(tasks, pid)?;
    Some(&tasks[place])
}

/// The index of the process with this pid in the table, if there is one. Pids are mostly given one after another, and
/// the table has processes in the order in which they came. So this looks first as far behind the first process as the
/// pid is above its pid, then one further, in case another one came out of order, and only then hashes the pid.
#[inline]
fn place_of<A: Allocator + Copy>(tasks: &Tasks<A>, pid: Pid) -> Option<usize>
    ensures within { IfSome result (λ i. i < length tasks.now.entries) }
    ensures key { IfSome result (λ i. slice_get (keys_of tasks.now.entries) i ≡ Some pid) }
    ensures value { IfSome result
        (λ i. slice_get (values tasks.now) i ≡ lookup (nat_eq pid) tasks.now.entries) }
    ensures none { IfNone result (lookup (nat_eq pid) tasks.now.entries ≡ None) }
{
    let (first, _) = tasks.first()?;
    let near = pid.number().wrapping_sub(first.number()) as usize;
    if stands_at(tasks, near, pid) {
        return Some(near);
    }
    if stands_at(tasks, near + 1, pid) {
        return Some(near + 1);
    }
    tasks.get_index_of(&pid)
}

/// Whether the process with this pid stands at a place among the others.
#[inline]
fn stands_at<A: Allocator + Copy>(tasks: &Tasks<A>, place: usize, pid: Pid) -> bool
    ensures within { result ≡ true → place < length tasks.now.entries }
    ensures key { result ≡ true → slice_get (keys_of tasks.now.entries) place ≡ Some pid }
    ensures value { result ≡ true →
        slice_get (values tasks.now) place ≡ lookup (nat_eq pid) tasks.now.entries }
    ensures other { result ≡ false → slice_get (keys_of tasks.now.entries) place ≡ Some pid → ⊥ }
{
    match tasks.get_index(place) {
        Some((there, _)) => *there == pid,
        None => false,
    }
}
