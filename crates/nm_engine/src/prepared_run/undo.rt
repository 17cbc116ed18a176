//! Undoing touches.

ghost use Rattle.std.specs.Prelude.{◌≡◌, [], true, vec_capacity, Some, IfOk, IfNone, IsSome, OnErr, OnOk};
ghost use Rattle.nm_types.specs.declared.sight.Sight.TheVariants.{ZeroPage};
ghost use Rattle.nm_types.specs.State.{Process, PlacedArea};
ghost use Rattle.nm_model.specs.definitions.Seen.{sight_at};
ghost use Rattle.nm_engine.specs.views.RunState.{with_state};
ghost use Rattle.nm_engine.specs.views.Parts.{HasSite, IsSiteOf, access_site, noted_by, touched_by};
ghost use Rattle.nm_engine.specs.views.Spaces.{spaces_of};
ghost use Rattle.nm_engine.specs.definitions.Does.{Touches};
ghost use Rattle.nm_model.specs.definitions.Seen.{frame_seen};
ghost use Rattle.nm_model.specs.definitions.Sound.{IsSoundInFlight};
ghost use Rattle.nm_engine.specs.definitions.Undo.{CanUndo, IsUndoable, IsStillUndone, undo_touch, all_undone, with_undo};

use crate::prepared_run::PreparedRun;
use crate::resolved_address::ResolvedAddress;
use crate::touch::TouchOutcome;
use nm_types::{FrameId, MachineError, Page, Pid, Vpn};
use std::alloc::Allocator;

/// How to undo a touch of a process at a page number.
#[derive(Clone, Copy)]
pub(crate) struct Undo {
    pub(crate) pid: Pid,
    pub(crate) vpn: Vpn,
    /// Whether the process saw the page of zeros there, rather than nothing.
    pub(crate) zero: bool,
    /// The page that got a frame in this touch, and the frame.
    pub(crate) given: Option<(Page, FrameId)>,
}

impl<A: Allocator + Copy> PreparedRun<A> {
    /// What a read or a write does before it reaches the bytes, with a note of how to undo it appended to `undos`. If
    /// it is refused, or the host is out of memory, nothing is noted.
    pub(crate) fn touch_noted(
        &mut self,
        t: ResolvedAddress,
        writes: bool,
        undos: &mut Vec<Undo, A>,
    ) -> Result<Option<FrameId>, MachineError>
        requires { HasSite self.old.state.processes self.old.state.areas t }

        // The touch
        ensures touches { (p : Process) (a : PlacedArea) →
            IsSiteOf self.old.state.processes self.old.state.areas t p a →
            Touches result self.old.state self.new.state
            (touched_by t writes self.old.state p (access_site t p a)) }
        ensures frame { IfOk result (λ frame. frame ≡ frame_seen self.new.state t.pid t.vpn) }
        ensures some { IfOk result (λ frame. writes ≡ true → IsSome frame) }
        ensures zeros { IfOk result
            (λ frame. IfNone frame (sight_at self.new.state t.pid t.vpn ≡ Some ZeroPage)) }
        ensures same { self.new ≡ with_state self.old self.new.state }

        // The notes
        ensures noted { IfOk result
            (λ frame. undos.new.items
            ≡ with_undo undos.old.items (noted_by t (spaces_of self.old.state) frame)) }
        ensures err { OnErr result (undos.new.items ≡ undos.old.items) }
        ensures sound { OnOk result (IsSoundInFlight self.old.state self.old.left) }
        ensures back { IsStillUndone self.old.left self.old.state undos.old.items self.new.state undos.new.items }
    {
        undos.reserve(1)?;
        let TouchOutcome { frame, undo } = t.touch(
            &mut self.spaces,
            &mut self.frames,
            self.online,
            self.alloc,
            writes,
        )?;
        if let Some(undo) = undo {
            undos.push_reserved(undo);
        }
        Ok(frame)
    }

    /// Undoes touches, the last first. Does not allocate.
    pub(crate) fn take_back(&mut self, undos: &mut Vec<Undo, A>)
        requires { CanUndo self.old.state self.old.left undos.old.items }
        ensures back { self.new ≡ with_state self.old (all_undone self.old.state undos.old.items) }
        ensures none { undos.new.items ≡ [] }
        ensures room { vec_capacity undos.new ≡ vec_capacity undos.old }
    {
        while let Some(undo) = undos.pop() {
            self.undo(undo);
        }
    }

    /// Undoes a touch. Does not allocate.
    fn undo(&mut self, undo: Undo)
        requires { IsUndoable self.old.state self.old.left undo }
        ensures { self.new ≡ with_state self.old (undo_touch self.old.state undo) }
    {
        let Undo {
            pid,
            vpn,
            zero,
            given,
        } = undo;
        self.spaces.see_before(pid, vpn, zero);
        let Some(given) = given else {
            return;
        };
        self.spaces.unplace(given.0);
        self.frames.free_first(given.1);
    }
}
