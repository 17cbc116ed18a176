//! Touches: what reads and writes do before they reach the bytes.

ghost use Rattle.std.specs.Prelude.{◌≡◌, ◌+◌, ◌≤◌, ◌++◌, true, false, replicate, vec_len, vec_capacity, Some, None, IfOk, IfNone, IsSome, OnErr};
ghost use Rattle.nm_types.specs.declared.page.Page.{Page};
ghost use Rattle.nm_types.specs.declared.sight.Sight.TheVariants.{Sees, ZeroPage};
ghost use Rattle.nm_types.specs.Map.{get, page_cmp};
ghost use Rattle.nm_model.specs.definitions.Seen.{frame_of};
ghost use Rattle.nm_model.specs.definitions.Order.{first_touch_order};
ghost use Rattle.nm_model.specs.definitions.Touch.{first_free, fill_page, share_page};
ghost use Rattle.nm_engine.specs.views.Parts.{AreKept, HasSite, TouchesBoth, TouchesLast, noted_by, seen_by, touched_by};
ghost use Rattle.nm_engine.specs.definitions.Undo.{undo_of, touched_at};

use crate::prepared_run::undo::Undo;
use crate::resolved_address::ResolvedAddress;
use nm_policy::first_touch_node;
use nm_pool::FramePool;
use nm_spaces::AddressSpaces;
use nm_types::{
    Errno, FrameId, MachineError, NodeId, NodeMask, Page, Pid, ProcessInfo, Sight, Vpn,
};
use std::alloc::Allocator;

/// What a touch gives back.
#[derive(Clone, Copy)]
pub(crate) struct TouchOutcome {
    /// The frame of the page that the process then sees. None if that is the page of zeros.
    pub(crate) frame: Option<FrameId>,
    /// How to undo the touch. None if the process saw the same before.
    pub(crate) undo: Option<Undo>,
}

impl TouchOutcome {
    /// The process now sees the page shown there, which got this frame; it saw nothing, or the page of zeros, before.
    fn placed(pid: Pid, vpn: Vpn, zero: bool, page: Page, frame: FrameId) -> Self
        ensures { result ≡ touched_at pid vpn zero (Some frame) (Some (page, frame)) }
    {
        TouchOutcome {
            frame: Some(frame),
            undo: Some(Undo {
                pid,
                vpn,
                zero,
                given: Some((page, frame)),
            }),
        }
    }

    /// The process sees a page that had this frame before, or the page of zeros, in place of nothing.
    fn seen(pid: Pid, vpn: Vpn, frame: Option<FrameId>) -> Self
        ensures { result ≡ touched_at pid vpn false frame None }
    {
        TouchOutcome {
            frame,
            undo: Some(Undo {
                pid,
                vpn,
                zero: false,
                given: None,
            }),
        }
    }
}

impl ResolvedAddress {
    /// What a read or a write does before it reaches the bytes. Returns the frame of the page that the process then sees,
    /// and how to undo what was done. If the process already sees a page, or reads the page of zeros that it sees, it
    /// does not fail. Allocates only if it is not refused.
    pub(crate) fn touch<A: Allocator + Copy>(
        self,
        spaces: &mut AddressSpaces<A>,
        frames: &mut FramePool<A>,
        online: NodeMask,
        alloc: A,
        writes: bool,
    ) -> Result<TouchOutcome, MachineError>
        requires site { HasSite spaces.old.processes spaces.old.areas self }
        requires kept { AreKept spaces.old frames.old online }

        // In any case
        ensures touches { TouchesBoth result self spaces.old frames.old spaces.new frames.new online
            (touched_by self writes) }
        ensures kept { AreKept spaces.new frames.new online }
        ensures left { frames.new.vacated ≡ frames.old.vacated }
        ensures room { frames.new.room ≡ frames.old.room }

        // On success
        ensures frame { IfOk result
            (λ touched. touched.frame ≡ frame_of spaces.new.place (seen_by spaces.new self)) }
        ensures some { IfOk result (λ touched. writes ≡ true → IsSome touched.frame) }
        ensures zeros { IfOk result
            (λ touched. IfNone touched.frame (seen_by spaces.new self ≡ Some ZeroPage)) }
        ensures undo { IfOk result
            (λ touched. touched.undo ≡ noted_by self spaces.old touched.frame) }

        // Without memory
        ensures memory { TouchesLast result self spaces.old frames.old online (touched_by self writes) }
        ensures allocates { OnErr result
            ((page : Page) → seen_by spaces.old self ≡ Some (Sees page) → ⊥) }
        ensures zero { OnErr result
            (writes ≡ false → seen_by spaces.old self ≡ Some ZeroPage → ⊥) }
    {
        let ResolvedAddress { pid, vpn, page, .. } = self;
        match spaces.sight(pid, vpn, page) {
            Some(seen) => match seen.sight {
                Sight::Sees(_) => Ok(TouchOutcome {
                    frame: seen.frame,
                    undo: None,
                }),
                Sight::ZeroPage => {
                    if writes {
                        let frame = self.fill(spaces, frames, online, alloc)?;
                        Ok(TouchOutcome::placed(pid, vpn, true, page, frame))
                    } else {
                        Ok(TouchOutcome {
                            frame: None,
                            undo: None,
                        })
                    }
                }
            },
            None => {
                if spaces.areas().is_shared(page.segment) {
                    self.join(spaces, frames, online, alloc)
                } else if writes {
                    let frame = self.fill(spaces, frames, online, alloc)?;
                    Ok(TouchOutcome::placed(pid, vpn, false, page, frame))
                } else {
                    spaces.see_zero(pid, vpn)?;
                    Ok(TouchOutcome::seen(pid, vpn, None))
                }
            }
        }
    }

    /// Makes the process see the page shown there, which gets a frame if it has none.
    fn join<A: Allocator + Copy>(
        self,
        spaces: &mut AddressSpaces<A>,
        frames: &mut FramePool<A>,
        online: NodeMask,
        alloc: A,
    ) -> Result<TouchOutcome, MachineError>
        requires touched { HasSite spaces.old.processes spaces.old.areas self }
        requires kept { AreKept spaces.old frames.old online }
        requires unseen { seen_by spaces.old self ≡ None }

        // In any case
        ensures touches { TouchesBoth result self spaces.old frames.old spaces.new frames.new online
            (λ s p at. share_page s at (get page_cmp spaces.old.place self.page)) }
        ensures memory { TouchesLast result self spaces.old frames.old online
            (λ s p at. share_page s at (get page_cmp spaces.old.place self.page)) }
        ensures kept { AreKept spaces.new frames.new online }
        ensures left { frames.new.vacated ≡ frames.old.vacated }
        ensures room { frames.new.room ≡ frames.old.room }

        // On success
        ensures frame { IfOk result
            (λ touched. touched.frame ≡ frame_of spaces.new.place (seen_by spaces.new self)) }
        ensures some { IfOk result (λ touched. IsSome touched.frame) }
        ensures undo { IfOk result
            (λ touched. touched.undo
            ≡ undo_of self.pid self.vpn self.page None (get page_cmp spaces.old.place self.page) touched.frame) }
    {
        let ResolvedAddress { pid, vpn, page, .. } = self;
        let Some(frame) = spaces.areas().page_frame(page) else {
            let frame = self.fill(spaces, frames, online, alloc)?;
            return Ok(TouchOutcome::placed(pid, vpn, false, page, frame));
        };
        spaces.see(pid, vpn, page, frame)?;
        Ok(TouchOutcome::seen(pid, vpn, Some(frame)))
    }

    /// Gives the page the front frame of the first node in order that has one, and makes the process see it.
    fn fill<A: Allocator + Copy>(
        self,
        spaces: &mut AddressSpaces<A>,
        frames: &mut FramePool<A>,
        online: NodeMask,
        alloc: A,
    ) -> Result<FrameId, MachineError>
        requires touched { HasSite spaces.old.processes spaces.old.areas self }
        requires kept { AreKept spaces.old frames.old online }
        requires absent { get page_cmp spaces.old.place self.page ≡ None }
        requires unseen { (page : Page) → seen_by spaces.old self ≡ Some (Sees page) → ⊥ }

        // In any case
        ensures touches { TouchesBoth result self spaces.old frames.old spaces.new frames.new online
            (λ s p at. fill_page s at) }
        ensures memory { TouchesLast result self spaces.old frames.old online (λ s p at. fill_page s at) }
        ensures kept { AreKept spaces.new frames.new online }
        ensures left { frames.new.vacated ≡ frames.old.vacated }
        ensures room { frames.new.room ≡ frames.old.room }

        // On success
        ensures frame { IfOk result
            (λ frame. frame_of spaces.new.place (seen_by spaces.new self) ≡ Some frame) }
    {
        let ResolvedAddress { pid, vpn, page, .. } = self;
        let Some(node) = first_node(frames, online, &self) else {
            return Err(MachineError::Refused(Errno::Enomem));
        };
        let Some(frame) = frames.front(node) else {
            unreachable!()
        };
        frames.populate(alloc, frame)?;
        spaces.allocate(pid, vpn, page, frame)?;
        frames.take_front(node);
        frames.zero(frame);
        Ok(frame)
    }
}

/// The first node, in the order for a new page there, that has a free frame.
fn first_node<A: Allocator + Copy>(
    frames: &FramePool<A>,
    online: NodeMask,
    t: &ResolvedAddress,
) -> Option<NodeId>
    ensures { result
        ≡ first_free frames.now.free
        (first_touch_order frames.now.layout online t.now.info.home t.now.info.allowed t.now.policy t.now.page.index) }
{
    let ProcessInfo { home, allowed, .. } = t.info;
    let geometry = frames.geometry();
    let free = frames.free_nodes();
    first_touch_node(
        geometry,
        online,
        free,
        home,
        allowed,
        t.policy,
        t.page.index,
    )
}

/// Appends `len` zeros to a list that has room for them.
pub(crate) fn push_zeros<A: Allocator + Copy>(bytes: &mut Vec<u8, A>, len: usize)
    requires { vec_len bytes.old + len ≤ vec_capacity bytes.old }
    ensures { bytes.new.items ≡ bytes.old.items ++ replicate len 0 }
{
    for _ in 0..len {
        bytes.push_reserved(0);
    }
}
