//! The page numbers that map one frame.

ghost use Rattle.std.specs.Prelude.{◌≡◌, ◌<◌, [], false, length, IfOk, OnOk, OnErr};
ghost use Rattle.std.specs.List.Sorted.{IsStrictlySortedBy};
ghost use Rattle.nm_types.specs.Map.{spot_cmp};
ghost use Rattle.nm_rmap.specs.Mappers.{with_spot, without_spot, is_mapper, has_process, process_count};
ghost use Rattle.nm_rmap.specs.Borrowed.{mappers_shown};

use nm_types::{Pid, Vpn};
use std::alloc::{AllocError, Allocator};
use std::collections::BTreeSet;
use std::marker::Model;

/// The mappers of a frame, borrowed, in order of pid and then page number.
pub enum FrameMappers<'a, A: Allocator + Copy> {
    /// A single one.
    Lone(Pid, Vpn),
    /// Those of a set.
    Set(&'a BTreeSet<(Pid, Vpn), A>),
}

/// Page numbers of processes, with the number of these processes. Contracts see their list, by pid and then by page
/// number. Most frames have one mapper, which stands here and not in a node of a tree.
#[derive(Drop)]
pub(crate) struct Mappings<A: Allocator + Copy> {
    /// A single page number. There is none in the tree then.
    lone: Option<(Pid, Vpn)>,
    processes: usize,
    tree: BTreeSet<(Pid, Vpn), A>,
}

impl<A: Allocator + Copy> Model for Mappings<A> {
    ghost use Rattle.std.specs.Prelude.{◌≡◌, ℕ, List};
    ghost use Rattle.std.specs.List.Sorted.{IsStrictlySortedBy};
    ghost use Rattle.nm_types.specs.Map.{spot_cmp};
    ghost use Rattle.nm_rmap.specs.Mappers.{process_count, spots_in, IsAlone};

    ghost Value = { List (ℕ × ℕ) };

    ghost view = { λ s. spots_in s.lone s.tree.keys };

    ghost invariant = { λ s. (s.processes ≡ process_count (spots_in s.lone s.tree.keys)) × IsStrictlySortedBy spot_cmp s.tree.keys × IsAlone s.lone s.tree.keys };
}

impl<A: Allocator + Copy> Mappings<A> {
    /// Makes an empty set. Does not allocate.
    pub(crate) fn new(alloc: A) -> Self
        ensures { result ≡ [] }
    {
        Mappings {
            lone: None,
            processes: 0,
            tree: BTreeSet::new(alloc),
        }
    }

    /// Adds a page number of a process, unless it is there. An error means that it was not there, and that nothing has
    /// changed.
    pub(crate) fn insert(&mut self, pid: Pid, vpn: Vpn) -> Result<(), AllocError>
        ensures ok { OnOk result (self.new ≡ with_spot self.old (pid, vpn)) }
        ensures err { OnErr result (self.new ≡ self.old) }
        ensures absent { OnErr result (is_mapper self.old (pid, vpn) ≡ false) }
    {
        let Some(lone) = self.lone else {
            if self.tree.is_empty() {
                self.lone = Some((pid, vpn));
                self.processes = 1;
                return Ok(());
            }
            return insert_in(&mut self.tree, &mut self.processes, pid, vpn);
        };
        if lone == (pid, vpn) {
            return Ok(());
        }
        self.tree.insert(lone)?;
        self.lone = None;
        insert_in(&mut self.tree, &mut self.processes, pid, vpn)
    }

    /// Removes a page number of a process, if it is there.
    pub(crate) fn remove(&mut self, pid: Pid, vpn: Vpn)
        ensures mapper { self.new ≡ without_spot self.old (pid, vpn) }
        ensures ordered { IsStrictlySortedBy spot_cmp self.old }
    {
        let Some(lone) = self.lone else {
            remove_from(&mut self.tree, &mut self.processes, pid, vpn);
            return;
        };
        if lone == (pid, vpn) {
            self.lone = None;
            self.processes = 0;
        }
    }

    /// A list of them, in order. An error means that the host is out of memory; an empty list needs none.
    pub(crate) fn list(&self, alloc: A) -> Result<Vec<(Pid, Vpn), A>, AllocError>
        ensures all { IfOk result (λ mappings. mappings.items ≡ self.now) }
        ensures allocates { OnErr result (0 < length self.now) }
        ensures ordered { IsStrictlySortedBy spot_cmp self.now }
    {
        match self.lone {
            Some(lone) => {
                let mut list = Vec::with_capacity(alloc, 1)?;
                list.push_reserved(lone);
                Ok(list)
            }
            None => list_all(alloc, &self.tree),
        }
    }

    /// All of them, borrowed. Does not allocate.
    #[inline]
    pub(crate) fn borrow_all(&self) -> FrameMappers<'_, A>
        ensures all { mappers_shown result ≡ self.now }
        ensures ordered { IsStrictlySortedBy spot_cmp self.now }
    {
        match self.lone {
            Some((pid, vpn)) => FrameMappers::Lone(pid, vpn),
            None => FrameMappers::Set(&self.tree),
        }
    }

    /// How many processes have a page number in the set.
    pub(crate) fn process_count(&self) -> usize
        ensures { result ≡ process_count self.now }
    {
        self.processes
    }
}

/// Adds a page number of a process to a set, unless it is there, and counts the process if it is new. An error means that
/// it was not there, and that nothing has changed.
fn insert_in<A: Allocator + Copy>(
    tree: &mut BTreeSet<(Pid, Vpn), A>,
    processes: &mut usize,
    pid: Pid,
    vpn: Vpn,
) -> Result<(), AllocError>
    requires { processes.old ≡ process_count tree.old.keys }
    ensures ok { OnOk result (tree.new.keys ≡ with_spot tree.old.keys (pid, vpn)) }
    ensures err { OnErr result (tree.new.keys ≡ tree.old.keys) }
    ensures absent { OnErr result (is_mapper tree.old.keys (pid, vpn) ≡ false) }
    ensures count { processes.new ≡ process_count tree.new.keys }
    ensures ordered { IsStrictlySortedBy spot_cmp tree.new.keys }
{
    let len = tree.len();
    prove!(*processes <= len);
    let known = has_process(tree, pid);
    tree.insert((pid, vpn))?;
    if !known {
        *processes += 1;
    }
    Ok(())
}

/// Removes a page number of a process from a set, if it is there, and stops counting the process if it has no other.
fn remove_from<A: Allocator + Copy>(
    tree: &mut BTreeSet<(Pid, Vpn), A>,
    processes: &mut usize,
    pid: Pid,
    vpn: Vpn,
)
    requires { processes.old ≡ process_count tree.old.keys }
    ensures keys { tree.new.keys ≡ without_spot tree.old.keys (pid, vpn) }
    ensures count { processes.new ≡ process_count tree.new.keys }
    ensures ordered { IsStrictlySortedBy spot_cmp tree.new.keys }
{
    let there = tree.remove(&(pid, vpn));
    let known = has_process(tree, pid);
    if there && !known {
        *processes -= 1;
    }
}

/// Whether a process has one of the page numbers.
fn has_process<A: Allocator + Copy>(tree: &BTreeSet<(Pid, Vpn), A>, pid: Pid) -> bool
    ensures { result ≡ has_process tree.now.keys pid }
{
    match tree.range((pid, Vpn::new(0))..).next() {
        Some((owner, _)) => *owner == pid,
        None => false,
    }
}

/// All page numbers of a set, in order.
fn list_all<A: Allocator + Copy>(
    alloc: A,
    tree: &BTreeSet<(Pid, Vpn), A>,
) -> Result<Vec<(Pid, Vpn), A>, AllocError>
    ensures all { IfOk result (λ spots. spots.items ≡ tree.now.keys) }
    ensures allocates { OnErr result (0 < length tree.now.keys) }
{
    let mut spots = Vec::with_capacity(alloc, tree.len())?;
    for spot in tree.iter() {
        spots.push_reserved(*spot);
    }
    Ok(spots)
}
