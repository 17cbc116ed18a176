//! The mappers and pins of all frames.

ghost use Rattle.std.specs.Prelude.{◌≡◌, ◌<◌, ◌≤◌, ◌+◌, ◌-◌, false, length, IfOk, OnOk, OnErr, IfErr};
ghost use Rattle.std.specs.List.Sorted.{IsStrictlySortedBy};
ghost use Rattle.nm_types.specs.declared.errno.Errno.TheVariants.{Ebusy, Einval};
ghost use Rattle.nm_types.specs.Map.{spot_cmp};
ghost use Rattle.nm_rmap.specs.Mappers.{IsUnused, new_map, mappers_of, frame_pins, with_pin_count, is_mapper, with_mapper, without_mapper, carry, process_count, is_any_pinned};
ghost use Rattle.nm_rmap.specs.Borrowed.{mappers_shown};

use crate::mappings::{FrameMappers, Mappings};
use nm_types::limits::MAX_PINS;
use nm_types::{Errno, FrameId, Pid, Vpn};
use std::alloc::{AllocError, Allocator};
use std::marker::Model;

/// For each frame the page numbers of processes that map it, its mappers, and its number of pins. Contracts see the
/// mappers as lists by frame, each in order of pid and then page number, and the numbers of pins as a list by frame.
#[derive(Drop)]
pub struct ReverseMap<A: Allocator + Copy> {
    alloc: A,
    mappings: Vec<Mappings<A>, A>,
    pins: Vec<u32, A>,
    /// How many frames have a pin.
    pinned: usize,
}

impl<A: Allocator + Copy> Model for ReverseMap<A> {
    ghost use Rattle.std.specs.Prelude.{◌≡◌, length};
    ghost use Rattle.nm_rmap.specs.Mappers.{Mappers, pinned_count};

    ghost Value = { Mappers };

    ghost view = { λ m. record { mappings = m.mappings.items; pins = m.pins.items } };

    ghost invariant = { λ m. (length m.pins.items ≡ length m.mappings.items) × (m.pinned ≡ pinned_count m.pins.items) };
}

impl<A: Allocator + Copy> ReverseMap<A> {
    /// Makes a map of `frames` frames without mappers and pins. An error means that the host is out of memory; a map of
    /// no frames needs none.
    pub fn new(alloc: A, frames: usize) -> Result<Self, AllocError>
        ensures ok { IfOk result (λ map. map ≡ new_map frames) }
        ensures allocates { OnErr result (0 < frames) }
    {
        let mut mappings = Vec::with_capacity(alloc, frames)?;
        let mut pins = Vec::with_capacity(alloc, frames)?;
        for _ in 0..frames {
            mappings.push(Mappings::new(alloc))?;
            pins.push(0)?;
        }
        Ok(ReverseMap {
            alloc,
            mappings,
            pins,
            pinned: 0,
        })
    }

    /// Makes a page number of a process a mapper of a frame, unless it is one. An error means that the host is out of
    /// memory, that it was no mapper of the frame, and that nothing has changed.
    pub fn add(&mut self, frame: FrameId, pid: Pid, vpn: Vpn) -> Result<(), AllocError>
        requires { frame < length self.old.mappings }
        ensures ok { OnOk result (self.new ≡ with_mapper self.old frame (pid, vpn)) }
        ensures err { OnErr result (self.new ≡ self.old) }
        ensures absent { OnErr result (is_mapper (mappers_of self.old frame) (pid, vpn) ≡ false) }
    {
        self.mappings[frame.index()].insert(pid, vpn)
    }

    /// Removes a page number of a process from a frame's mappers, if it is one. Does not allocate.
    pub fn drop_one(&mut self, frame: FrameId, pid: Pid, vpn: Vpn)
        requires { frame < length self.old.mappings }
        ensures mapper { self.new ≡ without_mapper self.old frame (pid, vpn) }
        ensures ordered { IsStrictlySortedBy spot_cmp (mappers_of self.old frame) }
    {
        self.mappings[frame.index()].remove(pid, vpn);
    }

    /// The mappers of a frame, by pid and then by page number. An error means that the host is out of memory; a frame
    /// without mappers needs none.
    pub fn mappers(&self, frame: FrameId) -> Result<Vec<(Pid, Vpn), A>, AllocError>
        requires { frame < length self.now.mappings }
        ensures all { IfOk result (λ mappings. mappings.items ≡ mappers_of self.now frame) }
        ensures allocates { OnErr result (0 < length (mappers_of self.now frame)) }
        ensures ordered { IsStrictlySortedBy spot_cmp (mappers_of self.now frame) }
    {
        self.mappings[frame.index()].list(self.alloc)
    }

    /// The mappers of a frame, by pid and then by page number, borrowed. Does not allocate.
    #[inline]
    pub fn mappings(&self, frame: FrameId) -> FrameMappers<'_, A>
        requires { frame < length self.now.mappings }
        ensures all { mappers_shown result ≡ mappers_of self.now frame }
        ensures ordered { IsStrictlySortedBy spot_cmp (mappers_of self.now frame) }
    {
        self.mappings[frame.index()].borrow_all()
    }

    /// How many processes map a frame. Two page numbers of one process count once. Does not allocate.
    pub fn processes(&self, frame: FrameId) -> usize
        requires { frame < length self.now.mappings }
        ensures { result ≡ process_count (mappers_of self.now frame) }
    {
        self.mappings[frame.index()].process_count()
    }

    /// Moves the mappers and pins of one frame to another, which must have neither. Does not allocate. A frame without
    /// them that is carried to itself stays as it is.
    pub fn carry(&mut self, from: FrameId, to: FrameId)
        requires from { from < length self.old.mappings }
        requires to { to < length self.old.mappings }
        requires unused { IsUnused self.old to }
        ensures { self.new ≡ carry self.old from to }
    {
        self.mappings.swap(from.index(), to.index());
        self.pins.swap(from.index(), to.index());
    }

    /// Adds a pin to a frame. EBUSY, with nothing changed, if it has 65,535 pins. Does not allocate.
    pub fn pin(&mut self, frame: FrameId) -> Result<(), Errno>
        requires { frame < length self.old.mappings }

        // On success
        ensures room { OnOk result (frame_pins self.old frame < 65535) }
        ensures ok { OnOk result
            (self.new ≡ with_pin_count self.old frame (frame_pins self.old frame + 1)) }

        // On refusal
        ensures full { IfErr result (λ error. (error ≡ Ebusy) × (65535 ≤ frame_pins self.old frame)) }
        ensures err { OnErr result (self.new ≡ self.old) }
    {
        let pins = &mut self.pins[frame.index()];
        if *pins >= MAX_PINS {
            return Err(Errno::Ebusy);
        }
        let first = *pins == 0;
        *pins += 1;
        if first {
            self.pinned += 1;
        }
        Ok(())
    }

    /// Removes a pin from a frame. EINVAL, with nothing changed, if it has none. Does not allocate.
    pub fn unpin(&mut self, frame: FrameId) -> Result<(), Errno>
        requires { frame < length self.old.mappings }

        // On success
        ensures pinned { OnOk result (0 < frame_pins self.old frame) }
        ensures ok { OnOk result
            (self.new ≡ with_pin_count self.old frame (frame_pins self.old frame - 1)) }

        // On refusal
        ensures none { IfErr result (λ error. (error ≡ Einval) × (frame_pins self.old frame ≡ 0)) }
        ensures err { OnErr result (self.new ≡ self.old) }
    {
        let pins = &mut self.pins[frame.index()];
        if *pins == 0 {
            return Err(Errno::Einval);
        }
        let last = *pins == 1;
        *pins -= 1;
        if last {
            self.pinned -= 1;
        }
        Ok(())
    }

    /// How many pins a frame has: at most 65,535. Does not allocate.
    pub fn pins(&self, frame: FrameId) -> u32
        requires { frame < length self.now.mappings }
        ensures pins { result ≡ frame_pins self.now frame }
        ensures count { length self.now.pins ≡ length self.now.mappings }
    {
        self.pins[frame.index()]
    }

    /// How many pins each frame has, by frame. Does not allocate.
    pub fn pin_counts(&self) -> &[u32]
        ensures { result.now ≡ self.now.pins }
    {
        self.pins.as_slice()
    }

    /// Whether any frame has a pin. Does not allocate.
    pub fn has_pins(&self) -> bool
        ensures { result ≡ is_any_pinned self.now }
    {
        self.pinned > 0
    }
}
