//! Splitting areas.

ghost use Rattle.std.specs.List.{AllByRecursion};
ghost use Rattle.std.specs.List.Sorted.{IsStrictlySortedBy};
ghost use Rattle.std.specs.Map.{keys_of};
ghost use Rattle.std.specs.Prelude.{IfNone, IfOk, IfSome, None, OnErr, OnOk, Some, ◌+◌, ◌<◌, ◌≡◌, ◌⊎◌};
ghost use Rattle.nm_areas.specs.Splits.{HasSplit};
ghost use Rattle.nm_model.specs.definitions.Areas.{AreasAreApart, HasIndices, IsSomePages};
ghost use Rattle.nm_model.specs.definitions.Areas.{split_at};
ghost use Rattle.nm_model.specs.views.Table.{with_areas};
ghost use Rattle.nm_types.specs.Map.{get, replace, spot_cmp, without};
ghost use Rattle.nm_types.specs.State.{area_over};

use crate::area_table::AreaTable;
use nm_types::{Area, Page, Pid, Vpn};
use std::alloc::{AllocError, Allocator};

impl<A: Allocator + Copy> AreaTable<A> {
    /// Splits the process's areas at two page numbers. An error means that no area has changed. Allocates only if an
    /// area covers one of them and begins before it.
    pub(crate) fn cut(&mut self, pid: Pid, first: Vpn, end: Vpn) -> Result<(), AllocError>
        requires apart { AreasAreApart self.old.areas }
        requires whole { AllByRecursion IsSomePages self.old.areas }
        requires indices { AllByRecursion HasIndices self.old.areas }
        requires ordered { IsStrictlySortedBy spot_cmp (keys_of self.old.areas) }

        // On success
        ensures ok { OnOk result
            (self.new ≡ with_areas self.old (split_at pid end (split_at pid first self.old.areas))) }

        // Without memory
        ensures err { OnErr result (self.new ≡ self.old) }
        ensures allocates { OnErr result
            (HasSplit self.old.areas pid first ⊎ HasSplit self.old.areas pid end) }
    {
        let cut = self.split(pid, first)?;
        if let Err(error) = self.split(pid, end) {
            if let Some(whole) = cut {
                self.unsplit(pid, first, whole);
            }
            return Err(error);
        }
        Ok(())
    }

    /// Splits the area of the process that covers a page number and begins before it, so that an area begins there.
    /// Returns the area as it was, with its first page number, or None if there is nothing to split; then it does not
    /// allocate.
    fn split(&mut self, pid: Pid, at: Vpn) -> Result<Option<(Vpn, Area)>, AllocError>
        requires apart { AreasAreApart self.old.areas }
        requires whole { AllByRecursion IsSomePages self.old.areas }
        requires indices { AllByRecursion HasIndices self.old.areas }

        // On success
        ensures ok { OnOk result (self.new ≡ with_areas self.old (split_at pid at self.old.areas)) }
        ensures some { IfOk result
            (λ cut. IfSome cut
            (λ c. (c.0 < at) × (area_over self.old.areas pid at ≡ Some ((pid, c.0), c.1)))) }
        ensures none { IfOk result (λ cut. IfNone cut (self.new ≡ self.old)) }

        // Without memory
        ensures err { OnErr result (self.new ≡ self.old) }
        ensures allocates { OnErr result (HasSplit self.old.areas pid at) }
    {
        let Some((start, area)) = self.over(pid, at) else {
            return Ok(None);
        };
        let front = at.number() - start.number();
        if front == 0 {
            return Ok(None);
        }
        let Page { segment, index } = area.page;
        let rest = Area {
            pages: area.pages - front,
            policy: area.policy,
            page: Page {
                segment,
                index: index + front,
            },
        };
        self.add(pid, at, rest)?;
        let shorter = Area {
            pages: front,
            policy: area.policy,
            page: area.page,
        };
        self.put(pid, start, shorter);
        Ok(Some((start, area)))
    }

    /// Removes the area that begins at a page number, and restores another one to its old length. Does not allocate.
    fn unsplit(&mut self, pid: Pid, at: Vpn, whole: (Vpn, Area))
        requires same { IfSome
            (get spot_cmp (without spot_cmp self.old.areas (pid, at)) (pid, whole.0))
            (λ a. a.page.segment ≡ whole.1.page.segment) }
        ensures { self.new
            ≡ with_areas self.old
            (replace spot_cmp (without spot_cmp self.old.areas (pid, at))
            (pid, whole.0) whole.1) }
    {
        let (start, area) = whole;
        self.take(pid, at);
        self.put(pid, start, area);
    }
}
