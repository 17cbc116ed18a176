//! The address spaces of all processes: page tables, areas, and the mappers of each frame.

ghost use Rattle.std.specs.Prelude.{ℕ, ◌≡◌, ◌<◌, ◌≤◌, ◌+◌, ◌-◌, ◌/◌, length, Some, None, IsSome, IfOk, IfErr, IfSome, OnOk, OnErr};
ghost use Rattle.std.specs.Option.{option_map};
ghost use Rattle.std.specs.Ordering.{nat_cmp};
ghost use Rattle.nm_types.specs.declared.page.Page.{Page};
ghost use Rattle.nm_types.specs.declared.errno.Errno.TheVariants.{Ebusy, Einval};
ghost use Rattle.nm_types.specs.declared.sight.Sight.TheVariants.{ZeroPage, Sees};
ghost use Rattle.nm_types.specs.Map.{get, set, with_values, page_cmp};
ghost use Rattle.nm_types.specs.State.{Process, page_at};
ghost use Rattle.nm_model.specs.definitions.Seen.{sight_in, frame_of, look_at_place};
ghost use Rattle.nm_model.specs.definitions.Effect.{info_of, new_process};
ghost use Rattle.nm_model.specs.definitions.PageTables.{entry_of};
ghost use Rattle.nm_spaces.specs.views.AddressSpaces.{mapped_of, no_spaces, with_seen, with_new_page, pins_here, with_pins_of};

mod areas;
mod back;
pub(crate) mod held;
mod walk;

use crate::entry::frame_named;
use crate::process_table::ProcessTable;
use nm_areas::Areas;
use nm_rmap::ReverseMap;
use nm_tables::Entry;
use nm_types::{Errno, FrameId, Page, PageView, Pid, ProcessInfo, Seen, Sight, Vpn};
use std::alloc::{AllocError, Allocator};
use std::marker::Model;
use walk::page_in;

/// What a process sees at a page number, and the frame of the page that it sees: for one on its way, the frame that it
/// takes. None for the page of zeros.
#[derive(Clone, Copy)]
pub struct PlacedSight {
    pub sight: Sight,
    pub frame: Option<FrameId>,
}

/// The page tables of all processes, the areas with the frames of pages, and for each frame the entries that name it
/// and its pins. Contracts see what each process sees, page by page.
#[derive(Drop)]
pub struct AddressSpaces<A: Allocator + Copy> {
    parts: Box<SpaceParts<A>, A>,
}

/// What address spaces are made of. It is in one box, so that passing address spaces by value copies a pointer.
#[derive(Drop)]
pub(crate) struct SpaceParts<A: Allocator + Copy> {
    pub(crate) tasks: ProcessTable<A>,
    pub(crate) areas: Areas<A>,
    pub(crate) rmap: ReverseMap<A>,
}

impl<A: Allocator + Copy> Model for AddressSpaces<A> {
    ghost use Rattle.nm_spaces.specs.views.AddressSpaces.{AddressSpacesView, spaces_view};
    ghost use Rattle.nm_spaces.specs.definitions.Tied.{IsTied};

    ghost Value = { AddressSpacesView };

    ghost view = { λ s. spaces_view s.parts.value.tasks s.parts.value.areas s.parts.value.rmap };

    ghost invariant = { λ s. IsTied s.parts.value.tasks s.parts.value.areas s.parts.value.rmap };
}

impl<A: Allocator + Copy> AddressSpaces<A> {
    /// Makes address spaces without processes, and `frames` frames without pages. The seed is that of the hash function
    /// by which processes are found; contracts see nothing of it.
    pub fn new(alloc: A, frames: usize, seed: u64) -> Result<Self, AllocError>
        ensures { IfOk result (λ spaces. spaces ≡ no_spaces frames) }
    {
        let parts = SpaceParts {
            tasks: ProcessTable::new(alloc, seed),
            areas: Areas::new(alloc),
            rmap: ReverseMap::new(alloc, frames)?,
        };
        Ok(AddressSpaces {
            parts: Box::new(alloc, parts)?,
        })
    }

    /// How many processes there are.
    pub fn len(&self) -> usize
        ensures { result ≡ length self.now.processes }
    {
        let parts = &*self.parts;
        parts.tasks.len()
    }

    /// What `spawn` fixed of a process. None if there is no process with this pid.
    pub fn info(&self, pid: Pid) -> Option<ProcessInfo>
        ensures { result ≡ option_map info_of (get nat_cmp self.now.processes pid) }
    {
        let parts = &*self.parts;
        parts.tasks.info(pid)
    }

    /// The areas of all processes, the segments that they show, and the frames of pages.
    pub fn areas(&self) -> &Areas<A>
        ensures areas { result.now ≡ mapped_of self.now }
        ensures known { (page : Page) (frame : ℕ) →
            get page_cmp self.now.place page ≡ Some frame →
            frame < self.now.frames }
    {
        let parts = &*self.parts;
        &parts.areas
    }

    /// The page that an area of a process shows at a page number. None if there is no area.
    pub(crate) fn page_at(&self, pid: Pid, vpn: Vpn) -> Option<Page>
        ensures { result ≡ page_at self.now.areas pid vpn }
    {
        let parts = &*self.parts;
        let (first, area) = parts.areas.over(pid, vpn)?;
        Some(page_in(first, &area, vpn))
    }

    /// What a process sees at a page number where an area shows this page.
    pub fn sight(&self, pid: Pid, vpn: Vpn, page: Page) -> Option<PlacedSight>
        requires { page_at self.now.areas pid vpn ≡ Some page }
        ensures sight { option_map (λ seen. seen.sight) result
            ≡ sight_in (get nat_cmp self.now.processes pid) vpn }
        ensures frame { IfSome result
            (λ seen. seen.frame ≡ frame_of self.now.place (Some seen.sight)) }
    {
        let parts = &*self.parts;
        let entry = parts.tasks.entry(pid, vpn)?;
        let frame = frame_named(&entry);
        let sight = match frame {
            None => Sight::ZeroPage,
            Some(_) => Sight::Sees(page),
        };
        Some(PlacedSight { sight, frame })
    }

    /// The entries of a process's page table, in ascending order. None if there is no such process.
    pub fn entries(&self, pid: Pid) -> Result<Option<Vec<(Vpn, Entry), A>>, AllocError>
        ensures entries { IfOk result
            (λ all. option_map (λ entries. entries.items) all
            ≡ option_map
            (λ (p : Process). with_values (λ v sight. entry_of self.now.place sight) p.sees)
            (get nat_cmp self.now.processes pid)) }
        ensures memory { OnErr result (IsSome (get nat_cmp self.now.processes pid)) }
        ensures allocates { OnErr result
            ((p : Process) → get nat_cmp self.now.processes pid ≡ Some p → 0 < length p.sees) }
    {
        let parts = &*self.parts;
        parts.tasks.entries(pid)
    }

    /// What is to be seen of a page that has this frame.
    fn look_at(&self, page: Page, frame: FrameId) -> Seen
        requires { get page_cmp self.now.place page ≡ Some frame }
        ensures { result ≡ look_at_place self.now.processes self.now.pins page (Some frame) }
    {
        let parts = &*self.parts;
        Seen::At {
            page,
            frame,
            processes: parts.rmap.processes(frame),
            pinned: parts.rmap.pins(frame) > 0,
        }
    }

    /// Adds a process that has touched nothing.
    pub fn add(&mut self, pid: Pid, info: ProcessInfo) -> Result<(), AllocError>
        requires { get nat_cmp self.old.processes pid ≡ None }
        ensures ok { OnOk result
            (self.new
            ≡ record (self.old) {
              processes = set nat_cmp self.old.processes pid
                  (new_process info);
            }) }
        ensures err { OnErr result (self.new ≡ self.old) }
    {
        let parts = &mut *self.parts;
        parts.tasks.add(pid, info)
    }

    /// Makes a process see the page of zeros at a page number. An error means that the host is out of memory, which
    /// happens only if the process sees nothing in the aligned block of 512 page numbers around this one.
    pub fn see_zero(&mut self, pid: Pid, vpn: Vpn) -> Result<(), AllocError>
        requires known { IsSome (get nat_cmp self.old.processes pid) }
        requires unseen { (q : Page) →
            sight_in (get nat_cmp self.old.processes pid) vpn ≡ Some (Sees q) →
            ⊥ }

        // On success
        ensures ok { OnOk result
            ((p : Process) →
            get nat_cmp self.old.processes pid ≡ Some p →
            self.new ≡ with_seen self.old pid p vpn ZeroPage) }

        // Without memory
        ensures err { OnErr result (self.new ≡ self.old) }
        ensures empty { OnErr result
            ((v : ℕ) →
            v / 512 ≡ vpn / 512 →
            sight_in (get nat_cmp self.old.processes pid) v ≡ None) }
    {
        let parts = &mut *self.parts;
        parts.tasks.set(pid, vpn, Entry::Zero)
    }

    /// Makes a process see a page that has a frame, at a page number.
    pub fn see(&mut self, pid: Pid, vpn: Vpn, page: Page, frame: FrameId) -> Result<(), AllocError>
        requires known { IsSome (get nat_cmp self.old.processes pid) }
        requires unseen { (q : Page) →
            sight_in (get nat_cmp self.old.processes pid) vpn ≡ Some (Sees q) →
            ⊥ }
        requires shown { page_at self.old.areas pid vpn ≡ Some page }
        requires placed { get page_cmp self.old.place page ≡ Some frame }

        // On success
        ensures ok { OnOk result
            ((p : Process) →
            get nat_cmp self.old.processes pid ≡ Some p →
            self.new ≡ with_seen self.old pid p vpn (Sees page)) }

        // Without memory
        ensures err { OnErr result (self.new ≡ self.old) }
    {
        let parts = &mut *self.parts;
        parts.rmap.add(frame, pid, vpn)?;
        if let Err(error) = parts.tasks.set(pid, vpn, Entry::Frame(frame)) {
            parts.rmap.drop_one(frame, pid, vpn);
            return Err(error);
        }
        Ok(())
    }

    /// Gives a page a frame that no page has, and makes a process see the page at a page number.
    pub fn allocate(
        &mut self,
        pid: Pid,
        vpn: Vpn,
        page: Page,
        frame: FrameId,
    ) -> Result<(), AllocError>
        requires known { IsSome (get nat_cmp self.old.processes pid) }
        requires unseen { (q : Page) →
            sight_in (get nat_cmp self.old.processes pid) vpn ≡ Some (Sees q) →
            ⊥ }
        requires shown { page_at self.old.areas pid vpn ≡ Some page }
        requires absent { get page_cmp self.old.place page ≡ None }
        requires frame { frame < self.old.frames }
        requires spare { (q : Page) → get page_cmp self.old.place q ≡ Some frame → ⊥ }

        // On success
        ensures ok { OnOk result
            ((p : Process) →
            get nat_cmp self.old.processes pid ≡ Some p →
            self.new ≡ with_new_page self.old pid p vpn page frame) }

        // Without memory
        ensures err { OnErr result (self.new ≡ self.old) }
    {
        let parts = &mut *self.parts;
        parts.areas.set_frame(page, frame)?;
        if let Err(error) = parts.rmap.add(frame, pid, vpn) {
            parts.areas.drop_frame(page);
            return Err(error);
        }
        if let Err(error) = parts.tasks.set(pid, vpn, Entry::Frame(frame)) {
            parts.rmap.drop_one(frame, pid, vpn);
            parts.areas.drop_frame(page);
            return Err(error);
        }
        Ok(())
    }

    /// Adds a pin to a page that has a frame. EBUSY, with nothing changed, if it has 65,535 pins.
    pub fn pin(&mut self, page: Page, frame: FrameId) -> Result<(), Errno>
        requires { get page_cmp self.old.place page ≡ Some frame }

        // On success
        ensures room { OnOk result (pins_here self.old page < 65535) }
        ensures ok { OnOk result
            (self.new ≡ with_pins_of self.old page (pins_here self.old page + 1)) }

        // On refusal
        ensures full { IfErr result (λ error. (error ≡ Ebusy) × (65535 ≤ pins_here self.old page)) }
        ensures err { OnErr result (self.new ≡ self.old) }
    {
        let parts = &mut *self.parts;
        parts.rmap.pin(frame)
    }

    /// Removes a pin from a page that has a frame. EINVAL, with nothing changed, if it has none.
    pub fn unpin(&mut self, page: Page, frame: FrameId) -> Result<(), Errno>
        requires { get page_cmp self.old.place page ≡ Some frame }

        // On success
        ensures pinned { OnOk result (0 < pins_here self.old page) }
        ensures ok { OnOk result
            (self.new ≡ with_pins_of self.old page (pins_here self.old page - 1)) }

        // On refusal
        ensures none { IfErr result (λ error. (error ≡ Einval) × (pins_here self.old page ≡ 0)) }
        ensures err { OnErr result (self.new ≡ self.old) }
    {
        let parts = &mut *self.parts;
        parts.rmap.unpin(frame)
    }
}

impl<A: Allocator + Copy> PageView for AddressSpaces<A> {
    ghost use Rattle.nm_model.specs.definitions.Seen.{look_in, frame_and_pin};

    ghost seen_at = { λ y pid v. look_in y.processes y.areas y.place y.pins pid v };

    ghost placed_at = { λ y p. frame_and_pin y.place y.pins p };

    /// Looks up the area over the page number once.
    fn seen(&self, pid: Pid, vpn: Vpn) -> Seen {
        let parts = &*self.parts;
        let Some(page) = self.page_at(pid, vpn) else {
            return Seen::NoArea;
        };
        match parts.tasks.entry(pid, vpn) {
            None => Seen::Absent,
            Some(entry) => match frame_named(&entry) {
                None => Seen::Zero,
                Some(frame) => self.look_at(page, frame),
            },
        }
    }

    fn placed(&self, page: Page) -> Option<(FrameId, bool)> {
        let parts = &*self.parts;
        match parts.areas.page_frame(page) {
            None => None,
            Some(frame) => Some((frame, parts.rmap.pins(frame) > 0)),
        }
    }
}
