//! Walks over what processes have.

ghost use Rattle.std.specs.Prelude.{All, IfNone, IfOk, IfSome, Some, true, [], length, option_map, ◌+◌, ◌-◌, ◌<◌, ◌^◌, ◌∷◌, ◌≡◌, ◌≤◌};
ghost use Rattle.std.specs.Result.{OnErr};
ghost use Rattle.nm_model.specs.definitions.PageTables.{page_here};
ghost use Rattle.nm_model.specs.definitions.Seen.{located_in, in_frame, IsOver};
ghost use Rattle.nm_model.specs.definitions.Seen.{between, sights};
ghost use Rattle.nm_model.specs.definitions.Seen.{users};
ghost use Rattle.nm_types.specs.Layout.{frame_count, node_count};
ghost use Rattle.nm_types.specs.Map.{get, page_cmp};
ghost use Rattle.nm_types.specs.State.{PlacedArea, area_over, page_at, page_of};
ghost use Rattle.nm_types.specs.declared.page.Page.{Page};

use crate::address_spaces::AddressSpaces;
use crate::entry::frame_named;
use nm_types::{Area, FrameId, Geometry, LocatedPage, Page, Pid, Vpn};
use std::alloc::{AllocError, Allocator};

impl<A: Allocator + Copy> AddressSpaces<A> {
    /// The pages that a process sees from one page number up to another, in order of page number, with their frames and
    /// nodes. Walks once over the process's entries there, and looks up each area once.
    pub fn pages_between(
        &self,
        alloc: A,
        geometry: &Geometry<A>,
        pid: Pid,
        first: Vpn,
        end: Vpn,
    ) -> Result<Vec<LocatedPage, A>, AllocError>
        requires { self.now.frames ≡ frame_count geometry.now }

        // On success
        ensures pages { IfOk result
            (λ pages. pages.items
            ≡ located_in geometry.now self.now.place
            (between first end (sights self.now.processes pid))) }
        ensures placed { IfOk result
            (λ pages. All (λ e. get page_cmp self.now.place e.page ≡ Some e.frame) pages.items) }
        ensures nodes { IfOk result
            (λ pages. All (λ e. e.node < node_count geometry.now) pages.items) }
        ensures few { IfOk result (λ pages. length pages.items ≤ end - first) }

        // Without memory
        ensures allocates { OnErr result
            (0 < length (between first end (sights self.now.processes pid))) }
    {
        let parts = &*self.parts;
        let entries = parts.tasks.entries_between(pid, first, end)?;
        let mut pages = Vec::new(alloc);
        let mut last = None;
        for (vpn, entry) in &entries {
            if let Some(frame) = frame_named(entry) {
                let page = self.seen_in(geometry, pid, *vpn, frame, &mut last);
                pages.push(page)?;
            }
        }
        Ok(pages)
    }

    /// The first page that a process sees from one page number up to another, with its frame and node. `last` is the area found
    /// last: whoever goes from page to page hands it on, and each area is looked up once. Does not allocate.
    pub fn page_from(
        &self,
        geometry: &Geometry<A>,
        pid: Pid,
        first: Vpn,
        end: Vpn,
        last: &mut Option<(Vpn, Area)>,
    ) -> Option<LocatedPage>
        requires frames { self.now.frames ≡ frame_count geometry.now }
        requires last { IfSome last.old (IsOver self.now.areas pid) }

        // If there is one
        ensures some { IfSome result
            (λ e. located_in geometry.now self.now.place (between first end (sights self.now.processes pid))
            ≡ e ∷ located_in geometry.now self.now.place (between (e.vpn + 1) end (sights self.now.processes pid))) }
        ensures range { IfSome result (λ e. (first ≤ e.vpn) × (e.vpn < end)) }

        // If there is none
        ensures none { IfNone result
            (located_in geometry.now self.now.place (between first end (sights self.now.processes pid)) ≡ []) }

        // The area found last
        ensures last { IfSome last.new (IsOver self.now.areas pid) }
    {
        let parts = &*self.parts;
        let mut at = first.number();
        while let Some((vpn, entry)) = parts.tasks.first_from(pid, Vpn::new(at)) {
            if vpn.number() >= end.number() {
                return None;
            }
            if let Some(frame) = frame_named(&entry) {
                return Some(self.seen_in(geometry, pid, vpn, frame, last));
            }
            at = vpn.number() + 1;
        }
        None
    }

    /// The page that a process sees in a frame at a page number, with its node. `last` is the area found last: from one
    /// page to the next it becomes the area over the page number.
    fn seen_in(
        &self,
        geometry: &Geometry<A>,
        pid: Pid,
        vpn: Vpn,
        frame: FrameId,
        last: &mut Option<(Vpn, Area)>,
    ) -> LocatedPage
        requires known { frame < frame_count geometry.now }
        requires last { IfSome last.old (IsOver self.now.areas pid) }
        requires seen { (p : Page) × (page_at self.now.areas pid vpn ≡ Some p)
            × (get page_cmp self.now.place p ≡ Some frame) }

        // The page
        ensures page { in_frame geometry.now vpn (page_here self.now.areas pid vpn) (Some frame)
            ≡ result ∷ [] }
        ensures node { result.node < node_count geometry.now }

        // The area found last
        ensures last { IfSome last.new (IsOver self.now.areas pid) }
    {
        let near = self.area_near(pid, vpn, last);
        let Some((start, area)) = &near else {
            unreachable!()
        };
        let page = page_in(*start, area, vpn);
        let node = geometry.node_of(frame);
        *last = near;
        LocatedPage {
            vpn,
            page,
            frame,
            node,
        }
    }

    /// How many processes see the page in a frame.
    pub fn users_in(&self, frame: FrameId) -> usize
        requires { (page : Page) × (get page_cmp self.now.place page ≡ Some frame) }
        ensures { (page : Page) →
            get page_cmp self.now.place page ≡ Some frame →
            result ≡ length (users self.now.processes page) }
    {
        let parts = &*self.parts;
        parts.rmap.processes(frame)
    }

    /// The area of a process over a page number: the one found last, if it covers this number too.
    fn area_near(&self, pid: Pid, vpn: Vpn, last: &Option<(Vpn, Area)>) -> Option<(Vpn, Area)>
        requires { IfSome last.now (IsOver self.now.areas pid) }

        // In any case
        ensures found { option_map {U = PlacedArea} (λ found. ((pid, found.0), found.1)) result
            ≡ area_over self.now.areas pid vpn }

        // If there is one
        ensures here { IfSome result (λ a. (a.0 ≤ vpn) × (vpn < a.0 + a.1.pages)) }
        ensures over { IfSome result (IsOver self.now.areas pid) }
    {
        let parts = &*self.parts;
        match last {
            Some((first, area)) => {
                if is_over(*first, *area, vpn) {
                    Some((*first, *area))
                } else {
                    parts.areas.over(pid, vpn)
                }
            }
            None => parts.areas.over(pid, vpn),
        }
    }
}

/// Whether an area that begins at a page number covers another one.
fn is_over(first: Vpn, area: Area, vpn: Vpn) -> bool
    ensures over { result ≡ true → (first ≤ vpn) × (vpn < first + area.pages) }
    ensures all { first ≤ vpn → vpn < first + area.pages → result ≡ true }
{
    vpn.number() >= first.number() && vpn.number() - first.number() < area.pages
}

/// The page that an area, which begins at a page number, shows at another one that it covers.
pub(super) fn page_in(first: Vpn, area: &Area, vpn: Vpn) -> Page
    requires over { first ≤ vpn }
    requires index { area.now.page.index + (vpn - first) < 2 ^ 64 }
    ensures { result ≡ page_of ((0, first), area.now) vpn }
{
    let Page { segment, index } = area.page;
    Page {
        segment,
        index: index + (vpn.number() - first.number()),
    }
}
