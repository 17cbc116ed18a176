//! Counts a table's areas over shared segments in the steps of `coverage`, as areas are added, split and removed. Areas
//! over private segments are not counted, since each page of those is shown only once.

ghost use Rattle.std.specs.List.{AllByRecursion};
ghost use Rattle.std.specs.Prelude.{IfNone, IfSome, OnErr, OnOk, OnSome, true, ℕ, ◌+◌, ◌<◌, ◌^◌, ◌≡◌, ◌≤◌, ◌⊎◌, if◌then◌else◌};
ghost use Rattle.nm_areas.specs.Coverage.{IsCoverage, IsFlat, IsSteps, IsWith, covers_at, covers_of, ends_at, ends_of, of_shared, splits_at};
ghost use Rattle.nm_areas.specs.Splits.{HasSplit};
ghost use Rattle.nm_model.specs.definitions.Areas.{AreasAreApart, HasIndices, IsSomePages};
ghost use Rattle.nm_model.specs.definitions.Areas.{others};
ghost use Rattle.nm_types.specs.Map.{Map, same_page};
ghost use Rattle.nm_types.specs.declared.area.Area.{Area};
ghost use Rattle.nm_types.specs.declared.area.Segment.{Segment};

use crate::area_table::AreaTable;
use crate::coverage::{cover, mark, uncover, unmark};
use nm_coverage::Coverage;
use nm_types::{Area, Page, Pid, Vpn};
use std::alloc::{AllocError, Allocator};

/// Counts an area that is to be added to a table, if it is over a shared segment. An error means that the steps are
/// still those of the table. Allocates only for a shared segment.
pub(crate) fn count_in<A: Allocator + Copy>(
    table: &AreaTable<A>,
    steps: &mut Coverage<A>,
    area: Area,
    shared: bool,
) -> Result<(), AllocError>
    requires steps { IsCoverage steps.old table.now.segments table.now.areas }
    requires whole { AllByRecursion IsSomePages table.now.areas }
    requires indices { area.page.index + area.pages < 2 ^ 64 }

    // On success
    ensures ok { OnOk result
        (IsWith steps.new table.now.segments table.now.areas area shared) }

    // Without memory
    ensures err { OnErr result (IsCoverage steps.new table.now.segments table.now.areas) }
    ensures allocates { OnErr result (shared ≡ true) }
{
    if !shared {
        return Ok(());
    }
    // There are so few areas that no number in a step overflows.
    let areas = table.count();
    prove!(areas < usize::MAX);
    cover(steps, area)?;
    Ok(())
}

/// Removes an area that was counted from the count, if it is over a shared segment. Does not allocate.
pub(crate) fn count_out<A: Allocator + Copy>(steps: &mut Coverage<A>, area: Area, shared: bool)
    requires indices { area.page.index + area.pages < 2 ^ 64 }
    ensures { (segments : Map ℕ Segment) (areas : Map (ℕ × ℕ) Area) →
        IsWith steps.old segments areas area shared →
        IsCoverage steps.new segments areas }
{
    if shared {
        uncover(steps, area);
    }
}

/// Removes from the count the areas of a process that begin from one page number up to another; the steps are then
/// those of the other areas. Does not allocate.
pub(crate) fn count_out_own<A: Allocator + Copy>(
    table: &AreaTable<A>,
    steps: &mut Coverage<A>,
    pid: Pid,
    first: Vpn,
    end: Vpn,
)
    requires range { first ≤ end }
    requires steps { IsCoverage steps.old table.now.segments table.now.areas }
    requires indices { AllByRecursion HasIndices table.now.areas }
    ensures { IsCoverage steps.new table.now.segments (others pid first end table.now.areas) }
{
    let mut at = first.number();
    while let Some((start, area)) = table.next_own(pid, Vpn::new(at), end) {
        count_out_one(table, steps, area);
        at = start.number() + 1;
    }
}

/// Removes an area of a table from the count, if it is over a shared segment. Does not allocate.
fn count_out_one<A: Allocator + Copy>(table: &AreaTable<A>, steps: &mut Coverage<A>, area: Area)
    requires indices { area.page.index + area.pages < 2 ^ 64 }
    ensures { (ends covers : Page → ℕ) →
        IsSteps steps.old (of_shared table.now.segments (λ p. ends p + ends_of p area))
        (of_shared table.now.segments (λ p. covers p + covers_of p area)) →
        IsSteps steps.new (of_shared table.now.segments ends)
        (of_shared table.now.segments covers) }
{
    if table.is_shared(area.page.segment) {
        uncover(steps, area);
    }
}

/// Counts the new ends that appear when the areas of a process are split at two page numbers. An error means that the
/// steps are still those of the table. Allocates only if an area covers one of the page numbers and begins before it.
pub(crate) fn split_steps<A: Allocator + Copy>(
    table: &AreaTable<A>,
    steps: &mut Coverage<A>,
    pid: Pid,
    first: Vpn,
    end: Vpn,
) -> Result<(), AllocError>
    requires steps { IsCoverage steps.old table.now.segments table.now.areas }
    requires apart { AreasAreApart table.now.areas }
    requires whole { AllByRecursion IsSomePages table.now.areas }
    requires indices { AllByRecursion HasIndices table.now.areas }

    // On success
    ensures ok { OnOk result
        (IsSteps steps.new
        (λ p. (of_shared table.now.segments (ends_at table.now.areas) p
        + of_shared table.now.segments (splits_at table.now.areas pid first) p)
        + of_shared table.now.segments (splits_at table.now.areas pid end) p)
        (of_shared table.now.segments (covers_at table.now.areas))) }

    // Without memory
    ensures err { OnErr result (IsCoverage steps.new table.now.segments table.now.areas) }
    ensures allocates { OnErr result
        (HasSplit table.now.areas pid first ⊎ HasSplit table.now.areas pid end) }
{
    // There are so few areas that no number in a step overflows.
    let areas = table.count();
    prove!(areas < usize::MAX);
    split_step(table, steps, pid, first)?;
    let Ok(()) = split_step(table, steps, pid, end) else {
        join_step(table, steps, pid, first);
        return Err(AllocError);
    };
    Ok(())
}

/// Undoes what `split_steps` counted, where the areas were not split after all. Does not allocate.
pub(crate) fn join_steps<A: Allocator + Copy>(
    table: &AreaTable<A>,
    steps: &mut Coverage<A>,
    pid: Pid,
    first: Vpn,
    end: Vpn,
)
    requires steps { IsSteps steps.old
        (λ p. (of_shared table.now.segments (ends_at table.now.areas) p
        + of_shared table.now.segments (splits_at table.now.areas pid first) p)
        + of_shared table.now.segments (splits_at table.now.areas pid end) p)
        (of_shared table.now.segments (covers_at table.now.areas)) }
    requires apart { AreasAreApart table.now.areas }
    requires whole { AllByRecursion IsSomePages table.now.areas }
    requires indices { AllByRecursion HasIndices table.now.areas }
    ensures { IsCoverage steps.new table.now.segments table.now.areas }
{
    join_step(table, steps, pid, end);
    join_step(table, steps, pid, first);
}

/// Counts the new ends that appear when the areas of a process are split at a page number. An error means that nothing
/// has changed. Allocates only if an area covers the page number and begins before it.
fn split_step<A: Allocator + Copy>(
    table: &AreaTable<A>,
    steps: &mut Coverage<A>,
    pid: Pid,
    at: Vpn,
) -> Result<(), AllocError>
    requires apart { AreasAreApart table.now.areas }
    requires whole { AllByRecursion IsSomePages table.now.areas }
    requires indices { AllByRecursion HasIndices table.now.areas }

    // On success
    ensures ok { OnOk result
        ((ends covers : Page → ℕ) →
        IsSteps steps.old ends covers →
        IsFlat ends covers →
        ((p : Page) → ends p + 2 < 2 ^ 64) →
        IsSteps steps.new
        (λ p. ends p
        + of_shared table.now.segments (splits_at table.now.areas pid at) p) covers) }

    // Without memory
    ensures err { OnErr result (steps.new ≡ steps.old) }
    ensures allocates { OnErr result (HasSplit table.now.areas pid at) }
{
    match table.split_page(pid, at) {
        Some(page) => mark(steps, page, 2),
        None => Ok(()),
    }
}

/// Undoes what `split_step` counted. Does not allocate.
fn join_step<A: Allocator + Copy>(table: &AreaTable<A>, steps: &mut Coverage<A>, pid: Pid, at: Vpn)
    requires apart { AreasAreApart table.now.areas }
    requires whole { AllByRecursion IsSomePages table.now.areas }
    requires indices { AllByRecursion HasIndices table.now.areas }
    ensures { (ends covers : Page → ℕ) →
        IsSteps steps.old
        (λ p. ends p
        + of_shared table.now.segments (splits_at table.now.areas pid at) p) covers →
        IsSteps steps.new ends covers }
{
    if let Some(page) = table.split_page(pid, at) {
        unmark(steps, page, 2);
    }
}

impl<A: Allocator + Copy> AreaTable<A> {
    /// The first page of the second part where an area of the process over a shared segment is split at a page number.
    /// None if the split concerns no such area.
    fn split_page(&self, pid: Pid, at: Vpn) -> Option<Page>
        requires apart { AreasAreApart self.now.areas }
        requires whole { AllByRecursion IsSomePages self.now.areas }
        requires indices { AllByRecursion HasIndices self.now.areas }

        // If there is one
        ensures some { IfSome result
            (λ page. (p : Page) →
            of_shared self.now.segments (splits_at self.now.areas pid at) p
            ≡ (if same_page page p then 2 else 0)) }
        ensures split { OnSome result (HasSplit self.now.areas pid at) }

        // If there is none
        ensures none { IfNone result
            ((p : Page) → of_shared self.now.segments (splits_at self.now.areas pid at) p ≡ 0) }
    {
        let (start, area) = self.over(pid, at)?;
        let front = at.number() - start.number();
        if front == 0 {
            return None;
        }
        let Page { segment, index } = area.page;
        if !self.is_shared(segment) {
            return None;
        }
        Some(Page {
            segment,
            index: index + front,
        })
    }
}
