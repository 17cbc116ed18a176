//! The address spaces while pages of a run are on their way: their entries are held, as the kernel's migration entries
//! are (Documentation/mm/page_migration.rst).

ghost use Rattle.std.specs.Prelude.{ℕ, ◌≡◌, ◌<◌, ◌++◌, true, List, [], ◌∷◌, length, map, Some};
ghost use Rattle.std.specs.List.{AllByRecursion};
ghost use Rattle.nm_types.specs.declared.page.Page.{Page};
ghost use Rattle.nm_types.specs.declared.entry.Entry.TheVariants.{Held as OnItsWay};
ghost use Rattle.nm_types.specs.Map.{get, page_cmp};
ghost use Rattle.nm_model.specs.definitions.Events.{arrival_of, with_entries};
ghost use Rattle.nm_model.specs.definitions.PageTables.{entry_at};
ghost use Rattle.nm_rmap.specs.Mappers.{mappers_of};
ghost use Rattle.nm_rmap.specs.Borrowed.{mappers_shown};
ghost use Rattle.nm_spaces.specs.views.AddressSpaces.{with_moved};
ghost use Rattle.nm_spaces.specs.views.Held.{HoldsPages, is_taken};
ghost use Rattle.nm_spaces.specs.definitions.Moves.{CanRemap, all_moved};
ghost use Rattle.nm_spaces.specs.views.ProcessTable.{IsThere, all_replaced, names};
ghost use Rattle.nm_spaces.specs.definitions.Tied.{has_spot, AreInOrder};

use crate::address_spaces::{AddressSpaces, SpaceParts};
use crate::process_table::ProcessTable;
use nm_rmap::{FrameMappers, ReverseMap};
use nm_tables::Entry;
use nm_types::{FrameId, Page, PageMove, Pid, Vpn};
use std::alloc::Allocator;
use std::collections::BTreeSet;
use std::marker::Model;

/// Address spaces in which pages are on their way to other frames: each entry of such a page is held, whoever maps it.
/// Contracts see the page tables, and what the address spaces are once the pages have arrived.
#[derive(Drop)]
pub struct HeldSpaces<A: Allocator + Copy> {
    parts: Box<SpaceParts<A>, A>,
}

impl<A: Allocator + Copy> Model for HeldSpaces<A> {
    ghost use Rattle.nm_model.specs.definitions.Events.{arrival_of, with_entries};
    ghost use Rattle.nm_spaces.specs.views.Held.{HeldView, held_view};
    ghost use Rattle.nm_spaces.specs.definitions.Tied.{IsTied};

    ghost Value = { HeldView };

    ghost view = { λ h. held_view h.parts.value.tasks h.parts.value.areas h.parts.value.rmap };

    ghost invariant = { λ h. IsTied (with_entries arrival_of h.parts.value.tasks) h.parts.value.areas h.parts.value.rmap };
}

impl<A: Allocator + Copy> HeldSpaces<A> {
    /// Takes address spaces over and sends pages on their way to other frames: until `settle` every entry of such a page is
    /// held, whoever maps it. The new frame has the page, its mappers and its pins. Does not allocate.
    pub fn hold(spaces: AddressSpaces<A>, moves: &[PageMove]) -> Self
        requires moves { CanRemap spaces moves.now }
        ensures spaces { result.spaces ≡ all_moved spaces moves.now }
        ensures entries { HoldsPages result (map (λ t. t.page) moves.now) }
    {
        let mut held = HeldSpaces {
            parts: spaces.parts,
        };
        held.hold_pages(moves);
        held
    }

    /// The frame of a page, for one on its way the frame that it takes. None if it has none.
    pub fn place(&self, page: Page) -> Option<FrameId>
        ensures { result ≡ get page_cmp self.now.spaces.place page }
    {
        let parts = &*self.parts;
        parts.areas.page_frame(page)
    }

    /// Sends pages on their way, one after another.
    fn hold_pages(&mut self, moves: &[PageMove])
        requires moves { CanRemap self.old.spaces moves.now }
        requires none { HoldsPages self.old [] }
        ensures spaces { self.new.spaces ≡ all_moved self.old.spaces moves.now }
        ensures entries { HoldsPages self.new (map (λ t. t.page) moves.now) }
    {
        for taken in moves {
            self.hold_page(taken.page, taken.from, taken.to);
        }
    }

    /// Sends a page on its way to a frame that no page has: every entry that named the old frame is held, and the new
    /// frame gets the mappers and pins.
    fn hold_page(&mut self, page: Page, from: FrameId, to: FrameId)
        requires placed { get page_cmp self.old.spaces.place page ≡ Some from }
        requires frame { to < self.old.spaces.frames }
        requires spare { (q : Page) → get page_cmp self.old.spaces.place q ≡ Some to → ⊥ }
        ensures spaces { self.new.spaces ≡ with_moved self.old.spaces page to }
        ensures entries { (pages : List Page) →
            HoldsPages self.old pages →
            HoldsPages self.new (pages ++ page ∷ []) }
    {
        let parts = &mut *self.parts;
        replace_each(
            &mut parts.tasks,
            parts.rmap.mappings(from),
            &Entry::Held(to),
        );
        parts.rmap.carry(from, to);
        parts.areas.move_page(page, to);
    }

    /// Gives the address spaces back once all pages that are on their way, which are among these, have arrived: each held
    /// entry names the new frame. Does not allocate.
    pub fn settle(self, moves: &[PageMove]) -> AddressSpaces<A>
        requires below { AllByRecursion (λ t. t.to < self.spaces.frames) moves.now }
        requires among { (f pid v : ℕ) →
            entry_at self.tables pid v ≡ Some (OnItsWay f) →
            is_taken moves.now f ≡ true }
        ensures { result ≡ self.spaces }
    {
        let HeldSpaces { mut parts } = self;
        let inner = &mut *parts;
        arrive(&mut inner.tasks, &inner.rmap, moves);
        AddressSpaces { parts }
    }
}

/// Makes each held entry name the frame that its page was on its way to, which is one that these moves take.
fn arrive<A: Allocator + Copy>(
    tasks: &mut ProcessTable<A>,
    rmap: &ReverseMap<A>,
    moves: &[PageMove],
)
    requires order { AreInOrder (with_entries arrival_of tasks.old) }
    requires mappers { (f pid v : ℕ) →
        has_spot (mappers_of rmap.now f) (pid, v)
        ≡ names f (entry_at (with_entries arrival_of tasks.old) pid v) }
    requires below { AllByRecursion (λ t. t.to < length rmap.now.mappings) moves.now }
    requires among { (f pid v : ℕ) →
        entry_at tasks.old pid v ≡ Some (OnItsWay f) →
        is_taken moves.now f ≡ true }
    ensures { tasks.new ≡ with_entries arrival_of tasks.old }
{
    for taken in moves {
        replace_each(tasks, rmap.mappings(taken.to), &Entry::Frame(taken.to));
    }
}

/// Replaces the entry at each of these page numbers by another one.
fn replace_each<A: Allocator + Copy>(
    tasks: &mut ProcessTable<A>,
    mappers: FrameMappers<'_, A>,
    entry: &Entry,
)
    requires { AllByRecursion (IsThere tasks.old) (mappers_shown mappers) }
    ensures { tasks.new ≡ all_replaced tasks.old (mappers_shown mappers.entry) entry.now }
{
    match mappers {
        FrameMappers::Lone(pid, vpn) => {
            tasks.replace_near(0, pid, vpn, *entry);
        }
        FrameMappers::Set(set) => replace_set(tasks, set, entry),
    }
}

/// Replaces the entry at each page number of a set by another one.
fn replace_set<A: Allocator + Copy>(
    tasks: &mut ProcessTable<A>,
    mappings: &BTreeSet<(Pid, Vpn), A>,
    entry: &Entry,
)
    requires { AllByRecursion (IsThere tasks.old) mappings.now.keys }
    ensures { tasks.new ≡ all_replaced tasks.old mappings.now.keys entry.now }
{
    let mut place = 0;
    for (pid, vpn) in mappings.iter() {
        place = tasks.replace_near(place, *pid, *vpn, *entry);
    }
}
