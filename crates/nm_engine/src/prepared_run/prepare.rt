//! Accesses that processes make while the pages of a run move: whatever has to be allocated for them is allocated
//! before.

ghost use Rattle.std.specs.Prelude.{◌≡◌, ◌<◌, [], map, length, ◌+◌, IfOk, OnOk, OnErr};
ghost use Rattle.std.specs.List.{list_any};
ghost use Rattle.nm_types.specs.declared.page.Page.{Page};
ghost use Rattle.nm_types.specs.Layout.{node_count};
ghost use Rattle.nm_types.specs.Map.{same_page};
ghost use Rattle.nm_laws.specs.Moves.{CanMove};
ghost use Rattle.nm_model.specs.definitions.Sound.{IsSound};
ghost use Rattle.nm_model.specs.definitions.Touch.{Read, Write};
ghost use Rattle.nm_model.specs.views.Asked.{access_shown};
ghost use Rattle.nm_engine.specs.definitions.Does.{ComesToTouch};
ghost use Rattle.nm_engine.specs.definitions.Undo.{IsStillUndone};
ghost use Rattle.nm_engine.specs.views.Early.{Prepares, TakesFrames, TouchesEach, TouchesEarly};
ghost use Rattle.nm_engine.specs.views.Runs.{accesses_shown};

use crate::prepared_run::PreparedRun;
use crate::prepared_run::undo::Undo;
use crate::resolved_address::ResolvedAddress;
use crate::touch::push_zeros;
use nm_plan::PageMove;
use nm_pool::{AccessAnswer, PendingAccess};
use nm_types::{Access, MachineError, NodeId, Page, Pid, Vpn};
use std::alloc::{AllocError, Allocator};
use std::collections::BTreeSet;

impl<A: Allocator + Copy> PreparedRun<A> {
    /// Reserves all that the run allocates, takes the frames of moves to a node, and makes all touches of the accesses
    /// that come while the pages are on their way. Returns what is then due for each access, none of which allocates.
    /// An error means that the host is out of memory, and that nothing has changed except how many moves there is room
    /// for.
    pub(crate) fn prepare<'d>(
        &mut self,
        target: NodeId,
        moves: &[PageMove],
        accesses: &[&'d Access<A>],
    ) -> Result<Vec<PendingAccess<'d, A>, A>, AllocError>
        requires target { target < node_count self.old.state.layout }
        requires none { self.old.left ≡ [] }
        requires moves { CanMove self.old.state target moves.now }
        ensures prepares { IfOk result
            (λ all_due. Prepares self.old target moves.now (accesses_shown accesses.now) self.new all_due) }
        ensures sound { IsSound self.old.state }
        ensures err { OnErr result (self.new ≡ record (self.old) { room = self.new.room }) }
        ensures allocates { OnErr result (0 < length moves.now + length accesses.now) }
    {
        self.take_frames(target, moves)?;
        match self.touch_each(moves, accesses) {
            Ok(all_due) => Ok(all_due),
            Err(error) => {
                self.frames.give_back(target, moves);
                Err(error)
            }
        }
    }

    /// Takes the frames of moves to a node: they leave the node's list and belong to the run until its pages are in
    /// them. Each gets its bytes in memory, and room is reserved for the frames that the pages leave. An error means that
    /// the host is out of memory, and that nothing has changed but that room.
    fn take_frames(&mut self, target: NodeId, moves: &[PageMove]) -> Result<(), AllocError>
        requires target { target < node_count self.old.state.layout }
        requires none { self.old.left ≡ [] }
        requires moves { CanMove self.old.state target moves.now }
        ensures taken { OnOk result (TakesFrames self.old target moves.now self.new) }
        ensures sound { IsSound self.old.state }
        ensures err { OnErr result (self.new ≡ record (self.old) { room = self.new.room }) }
        ensures allocates { OnErr result (0 < length moves.now) }
    {
        self.frames.reserve(moves.len())?;
        self.frames.populate_each(self.alloc, moves)?;
        self.frames.take_for_run(target, moves.len());
        Ok(())
    }

    /// Makes the touches of the accesses that come while the pages of these moves are on their way. An error means that
    /// the host is out of memory, and that nothing has changed.
    fn touch_each<'d>(
        &mut self,
        moves: &[PageMove],
        accesses: &[&'d Access<A>],
    ) -> Result<Vec<PendingAccess<'d, A>, A>, AllocError>
        ensures touched { IfOk result
            (λ all_due. TouchesEach self.old (map (λ t. t.page) moves.now) (accesses_shown accesses.now) self.new all_due) }
        ensures err { OnErr result (self.new ≡ self.old) }
        ensures allocates { OnErr result (0 < length accesses.now) }
    {
        let mut all_due = Vec::with_capacity(self.alloc, accesses.len())?;
        if accesses.is_empty() {
            return Ok(all_due);
        }
        let mut undos = Vec::new(self.alloc);
        let moving = pages_of(self.alloc, moves)?;
        for access in accesses {
            match self.touch_early(&moving, *access, &mut undos) {
                Ok(due) => all_due.push_reserved(due),
                Err(error) => {
                    self.take_back(&mut undos);
                    return Err(error);
                }
            }
        }
        Ok(all_due)
    }

    /// Makes the touch of an access. Allocates only for an access that is neither refused for where it is, nor held.
    fn touch_early<'d>(
        &mut self,
        moving: &BTreeSet<Page, A>,
        access: &'d Access<A>,
        undos: &mut Vec<Undo, A>,
    ) -> Result<PendingAccess<'d, A>, AllocError>
        ensures touched { IfOk result
            (λ due. TouchesEarly self.old moving.now.keys (access_shown access.now) self.new due) }
        ensures err { OnErr result (self.new ≡ self.old) }
        ensures allocates { OnErr result (ComesToTouch self.old.state moving.now.keys (access_shown access.now)) }
        ensures back { IsStillUndone self.old.left self.old.state undos.old.items self.new.state undos.new.items }
    {
        match access {
            Access::Read { pid, addr, len } => self.read_early(moving, *pid, *addr, *len, undos),
            Access::Write { pid, addr, bytes } => {
                self.write_early(moving, *pid, *addr, bytes.as_slice(), undos)
            }
        }
    }

    /// Makes the touch of a read.
    fn read_early<'d>(
        &mut self,
        moving: &BTreeSet<Page, A>,
        pid: Pid,
        addr: u64,
        len: u64,
        undos: &mut Vec<Undo, A>,
    ) -> Result<PendingAccess<'d, A>, AllocError>
        ensures touched { IfOk result
            (λ due. TouchesEarly self.old moving.now.keys (Read pid addr len) self.new due) }
        ensures err { OnErr result (self.new ≡ self.old) }
        ensures allocates { OnErr result (ComesToTouch self.old.state moving.now.keys (Read pid addr len)) }
        ensures back { IsStillUndone self.old.left self.old.state undos.old.items self.new.state undos.new.items }
    {
        let resolved = match ResolvedAddress::of(&self.spaces, pid, addr, len) {
            Ok(resolved) => resolved,
            Err(error) => return Ok(PendingAccess::Known(AccessAnswer::Refused(error))),
        };
        if moving.contains(&resolved.page) {
            return Ok(PendingAccess::Known(AccessAnswer::Held));
        }
        let len = len as usize;
        let mut bytes = Vec::with_capacity(self.alloc, len)?;
        match self.touch_noted(resolved, false, undos) {
            Ok(Some(_)) => Ok(PendingAccess::Read {
                page: resolved.page,
                at: Vpn::offset(addr),
                len,
                bytes,
            }),
            Ok(None) => {
                push_zeros(&mut bytes, len);
                Ok(PendingAccess::Known(AccessAnswer::Bytes(bytes)))
            }
            Err(MachineError::Refused(error)) => Ok(PendingAccess::Known(AccessAnswer::Refused(
                error,
            ))),
            Err(MachineError::HostMemory) => Err(AllocError),
        }
    }

    /// Makes the touch of a write.
    fn write_early<'d>(
        &mut self,
        moving: &BTreeSet<Page, A>,
        pid: Pid,
        addr: u64,
        bytes: &'d [u8],
        undos: &mut Vec<Undo, A>,
    ) -> Result<PendingAccess<'d, A>, AllocError>
        ensures touched { IfOk result
            (λ due. TouchesEarly self.old moving.now.keys (Write pid addr bytes.now) self.new due) }
        ensures err { OnErr result (self.new ≡ self.old) }
        ensures allocates { OnErr result (ComesToTouch self.old.state moving.now.keys (Write pid addr bytes.now)) }
        ensures back { IsStillUndone self.old.left self.old.state undos.old.items self.new.state undos.new.items }
    {
        let resolved = match ResolvedAddress::of(&self.spaces, pid, addr, bytes.len() as u64) {
            Ok(resolved) => resolved,
            Err(error) => return Ok(PendingAccess::Known(AccessAnswer::Refused(error))),
        };
        if moving.contains(&resolved.page) {
            return Ok(PendingAccess::Known(AccessAnswer::Held));
        }
        match self.touch_noted(resolved, true, undos) {
            Ok(_) => Ok(PendingAccess::Write {
                page: resolved.page,
                at: Vpn::offset(addr),
                bytes,
            }),
            Err(MachineError::Refused(error)) => Ok(PendingAccess::Known(AccessAnswer::Refused(
                error,
            ))),
            Err(MachineError::HostMemory) => Err(AllocError),
        }
    }
}

/// The pages of moves, in order.
fn pages_of<A: Allocator + Copy>(
    alloc: A,
    moves: &[PageMove],
) -> Result<BTreeSet<Page, A>, AllocError>
    ensures pages { IfOk result
        (λ pages. (p : Page) →
        list_any (same_page p) pages.keys
        ≡ list_any (same_page p) (map (λ t. t.page) moves.now)) }
    ensures allocates { OnErr result (0 < length moves.now) }
{
    let mut pages = BTreeSet::new(alloc);
    for taken in moves {
        pages.insert(taken.page)?;
    }
    Ok(pages)
}
