//! Making processes see what they saw before a touch.

ghost use Rattle.std.specs.Prelude.{ℕ, true, ◌≡◌, ◌<◌, length, Some, IsSome};
ghost use Rattle.std.specs.Ordering.{nat_cmp};
ghost use Rattle.nm_types.specs.declared.sight.Sight.TheVariants.{ZeroPage, Sees};
ghost use Rattle.nm_types.specs.Map.{get, page_cmp};
ghost use Rattle.nm_types.specs.State.{Process};
ghost use Rattle.nm_model.specs.definitions.Seen.{sight_in};
ghost use Rattle.nm_model.specs.definitions.PageTables.{entry_at};
ghost use Rattle.nm_spaces.specs.views.ProcessTable.{names};
ghost use Rattle.nm_spaces.specs.definitions.Tied.{IsWithout};
ghost use Rattle.nm_spaces.specs.views.AddressSpaces.{pins_here, with_before, with_seen, without_seen, without_page};

use crate::address_spaces::AddressSpaces;
use crate::entry::frame_named;
use crate::process_table::ProcessTable;
use nm_rmap::ReverseMap;
use nm_tables::Entry;
use nm_types::{Page, Pid, Vpn};
use std::alloc::Allocator;

impl<A: Allocator + Copy> AddressSpaces<A> {
    /// Makes a process see nothing at a page number. Does not allocate.
    fn unsee(&mut self, pid: Pid, vpn: Vpn)
        requires { IsSome (get nat_cmp self.old.processes pid) }
        ensures { (p : Process) →
            get nat_cmp self.old.processes pid ≡ Some p →
            self.new ≡ without_seen self.old pid p vpn }
    {
        let parts = &mut *self.parts;
        drop_mapper(&parts.tasks, &mut parts.rmap, pid, vpn);
        parts.tasks.clear(pid, vpn);
    }

    /// Makes a process see the page of zeros at a page number where it sees something. Does not allocate.
    fn see_zero_again(&mut self, pid: Pid, vpn: Vpn)
        requires known { IsSome (get nat_cmp self.old.processes pid) }
        requires seen { IsSome (sight_in (get nat_cmp self.old.processes pid) vpn) }
        ensures { (p : Process) →
            get nat_cmp self.old.processes pid ≡ Some p →
            self.new ≡ with_seen self.old pid p vpn ZeroPage }
    {
        let parts = &mut *self.parts;
        drop_mapper(&parts.tasks, &mut parts.rmap, pid, vpn);
        parts.tasks.replace(pid, vpn, Entry::Zero);
    }

    /// Makes a process see the page of zeros, or nothing, at a page number where it sees something. Does not allocate.
    pub fn see_before(&mut self, pid: Pid, vpn: Vpn, zero: bool)
        requires known { IsSome (get nat_cmp self.old.processes pid) }
        requires seen { IsSome (sight_in (get nat_cmp self.old.processes pid) vpn) }
        ensures { (p : Process) →
            get nat_cmp self.old.processes pid ≡ Some p →
            self.new ≡ with_before self.old pid p vpn zero }
    {
        if zero {
            self.see_zero_again(pid, vpn);
        } else {
            self.unsee(pid, vpn);
        }
    }

    /// Removes the frame of a page that nobody sees and that has no pin. Does not allocate.
    pub fn unplace(&mut self, page: Page)
        requires placed { IsSome (get page_cmp self.old.place page) }
        requires unpinned { pins_here self.old page ≡ 0 }
        requires unseen { (pid v : ℕ) →
            sight_in (get nat_cmp self.old.processes pid) v ≡ Some (Sees page) →
            ⊥ }
        ensures { self.new ≡ without_page self.old page }
    {
        let parts = &mut *self.parts;
        parts.areas.drop_frame(page);
    }
}

/// Removes the entry at a page number of a process from the mappers of the frame that it names, if any.
fn drop_mapper<A: Allocator + Copy>(
    tasks: &ProcessTable<A>,
    rmap: &mut ReverseMap<A>,
    pid: Pid,
    vpn: Vpn,
)
    requires { (f : ℕ) → names f (entry_at tasks.now pid vpn) ≡ true → f < length rmap.old.mappings }
    ensures { IsWithout rmap.old rmap.new (pid, vpn) (entry_at tasks.now pid vpn) }
{
    let Some(entry) = tasks.entry(pid, vpn) else {
        return;
    };
    if let Some(frame) = frame_named(&entry) {
        rmap.drop_one(frame, pid, vpn);
    }
}
