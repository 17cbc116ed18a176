//! The policy of a range of a process's page numbers, as mbind(2) sets it.

ghost use Rattle.std.specs.List.{AllByRecursion, flat_map};
ghost use Rattle.std.specs.List.Sorted.{IsStrictlySortedBy};
ghost use Rattle.std.specs.Map.{keys_of};
ghost use Rattle.std.specs.Prelude.{None, OnErr, OnOk, Some, false, true, ℕ, ◌+◌, ◌-◌, ◌/◌, ◌<◌, ◌≡◌, ◌≤◌, ◌⊎◌, IfErr, IfOk};
ghost use Rattle.nm_types.specs.Does.{Makes};
ghost use Rattle.nm_areas.specs.Splits.{HasSplit};
ghost use Rattle.nm_model.specs.definitions.Areas.{with_policy};
ghost use Rattle.nm_model.specs.definitions.Areas.{AreasAreApart, EndsLow, HasIndices, IsSomePages};
ghost use Rattle.nm_model.specs.definitions.Areas.{is_well_formed, page_count, with_policy_in, parts_with_policy};
ghost use Rattle.nm_model.specs.definitions.AreaRefusal.{range_refusal};
ghost use Rattle.nm_model.specs.views.Table.{with_areas};
ghost use Rattle.nm_types.specs.Map.{spot_cmp, with_values};
ghost use Rattle.nm_types.specs.State.{area_over, page_at};

use crate::area_table::AreaTable;
use crate::areas::Areas;
use crate::counting::{join_steps, split_steps};
use crate::ranges::PageRange;
use crate::scan::step_area;
use nm_types::{Area, Errno, MachineError, Pid, Policy, Vpn};
use std::alloc::{AllocError, Allocator};
use std::collections::BTreeMap;

impl<A: Allocator + Copy> Areas<A> {
    /// The page numbers whose policy `split_policy` would set. If it would refuse, returns the same EINVAL or EFAULT.
    /// Does not allocate.
    pub fn check_policy(&self, pid: Pid, addr: u64, len: u64) -> Result<PageRange, Errno>
        ensures ok { OnOk result (range_refusal self.now pid addr len ≡ None) }
        ensures range { IfOk result
            (λ range. (range.first ≡ addr / 4096) × (range.end ≡ addr / 4096 + page_count len)) }
        ensures err { IfErr result (λ e. range_refusal self.now pid addr len ≡ Some e) }
    {
        let Some(range) = PageRange::of_bytes(addr, len) else {
            return Err(Errno::Einval);
        };
        if !self.table.is_mapped(pid, &range) {
            return Err(Errno::Efault);
        }
        Ok(range)
    }

    /// Sets the policy of a range of page numbers, and of no others: the process's areas are split at both ends, and
    /// those between get the policy. Areas are never merged. An empty range splits nothing.
    ///
    /// An error means that nothing has changed. Allocates only if the range is not empty, and one of its ends lies
    /// within an area of the process: a range of whole areas takes no memory.
    pub fn set_range_policy(
        &mut self,
        pid: Pid,
        range: PageRange,
        policy: Policy,
    ) -> Result<(), AllocError>
        // In any case
        ensures pages { (q v : ℕ) → page_at self.new.areas q v ≡ page_at self.old.areas q v }

        // On success
        ensures ok { OnOk result
            (self.new ≡ with_policy self.old pid range.first range.end policy) }

        // Without memory
        ensures err { OnErr result (self.new ≡ self.old) }
        ensures some { OnErr result (range.first < range.end) }
        ensures allocates { OnErr result
            (HasSplit self.old.areas pid range.first ⊎ HasSplit self.old.areas pid range.end) }
    {
        let PageRange { first, end } = range;
        if first.number() < end.number() {
            split_steps(&self.table, &mut self.steps, pid, first, end)?;
            let Ok(()) = self.table.set_policy(pid, range, policy) else {
                join_steps(&self.table, &mut self.steps, pid, first, end);
                return Err(AllocError);
            };
        }
        Ok(())
    }

    /// Sets the policy of the whole pages of `len` bytes from address `addr` on: the process's areas are split at both
    /// ends, and never merged.
    ///
    /// Errors, in order: EINVAL if the address is not a multiple of 4,096 or the pages end past 2^64 - 1; EFAULT if one
    /// of the pages has no area. A length of 0 is no page, and splits nothing. Allocates only if the call is not
    /// refused, `len` is not 0, and one of the ends lies within an area of the process.
    pub fn split_policy(
        &mut self,
        pid: Pid,
        addr: u64,
        len: u64,
        policy: Policy,
    ) -> Result<(), MachineError>
        ensures done { Makes result self.old self.new (range_refusal self.old pid addr len)
            (with_policy self.old pid (addr / 4096) (addr / 4096 + page_count len) policy) }
        ensures memory { result ≡ Err MachineError.HostMemory →
            (range_refusal self.old pid addr len ≡ None) × (0 < len) }
        ensures allocates { result ≡ Err MachineError.HostMemory →
            HasSplit self.old.areas pid (addr / 4096)
            ⊎ HasSplit self.old.areas pid (addr / 4096 + page_count len) }
        ensures pages { (q v : ℕ) → page_at self.new.areas q v ≡ page_at self.old.areas q v }
    {
        let range = self.check_policy(pid, addr, len)?;
        Ok(self.set_range_policy(pid, range, policy)?)
    }
}

impl<A: Allocator + Copy> AreaTable<A> {
    /// Whether areas of the process cover each page number of a range.
    pub(crate) fn is_mapped(&self, pid: Pid, range: &PageRange) -> bool
        requires apart { AreasAreApart self.now.areas }
        requires whole { AllByRecursion IsSomePages self.now.areas }
        requires low { AllByRecursion EndsLow self.now.areas }
        requires order { range.now.first ≤ range.now.end }
        ensures { result
            ≡ is_well_formed self.now.areas pid range.now.first (range.now.end - range.now.first) }
    {
        let PageRange { first, end } = *range;
        match self.over(pid, first) {
            Some((start, area)) => {
                let past = start.number() + area.pages;
                if past >= end.number() {
                    return true;
                }
                if self.over(pid, Vpn::new(end.number() - 1)).is_some() {
                    return goes_on(&self.areas, pid, start, area, end.number());
                }
                // A range that ends in a hole needs no walk.
                false
            }
            None => first == end,
        }
    }

    /// Splits the process's areas at both ends of a range, and sets the policy of those between. An error means that no
    /// area has changed. Allocates only if an area covers one of the ends and begins before it.
    pub(crate) fn set_policy(
        &mut self,
        pid: Pid,
        range: PageRange,
        policy: Policy,
    ) -> Result<(), AllocError>
        requires apart { AreasAreApart self.old.areas }
        requires whole { AllByRecursion IsSomePages self.old.areas }
        requires indices { AllByRecursion HasIndices self.old.areas }
        requires ordered { IsStrictlySortedBy spot_cmp (keys_of self.old.areas) }
        requires some { range.first < range.end }

        // On success
        ensures ok { OnOk result
            (self.new
            ≡ with_areas self.old
            (flat_map (parts_with_policy pid range.first range.end policy) self.old.areas)) }

        // Without memory
        ensures err { OnErr result (self.new ≡ self.old) }
        ensures allocates { OnErr result
            (HasSplit self.old.areas pid range.first ⊎ HasSplit self.old.areas pid range.end) }
    {
        let PageRange { first, end } = range;
        self.cut(pid, first, end)?;
        paint(&mut self.areas, pid, first, end, &policy);
        Ok(())
    }
}

/// Whether areas of the process cover all page numbers from the end of an area, given with its first page number, up to
/// another.
fn goes_on<A: Allocator + Copy>(
    areas: &BTreeMap<(Pid, Vpn), Area, A>,
    pid: Pid,
    first: Vpn,
    area: Area,
    end: u64,
) -> bool
    requires apart { AreasAreApart areas.now.entries }
    requires whole { AllByRecursion IsSomePages areas.now.entries }
    requires low { AllByRecursion EndsLow areas.now.entries }
    requires some { 0 < area.pages }
    requires over { (v : ℕ) →
        first ≤ v →
        v < first + area.pages →
        area_over areas.now.entries pid v ≡ Some ((pid, first), area) }
    ensures { result
        ≡ is_well_formed areas.now.entries pid (first + area.pages) (end - (first + area.pages)) }
{
    let mut at = first.number() + area.pages;
    let mut rest = areas.range((pid, Vpn::new(at))..);
    while at < end {
        let Some((start, area)) = step_area(&mut rest, pid, Vpn::new(at + 1)) else {
            return false;
        };
        at = start.number() + area.pages;
    }
    true
}

/// Sets the policy of a process's areas that begin from one page number up to another.
fn paint<A: Allocator + Copy>(
    areas: &mut BTreeMap<(Pid, Vpn), Area, A>,
    pid: Pid,
    first: Vpn,
    end: Vpn,
    policy: &Policy,
)
    requires { first ≤ end }
    ensures { areas.new.entries ≡ with_values (with_policy_in pid first end policy.now) areas.old.entries }
{
    let policy = *policy;
    // Each area is changed in place, and none is removed.
    let mut walk = areas.extract_if(
        (pid, first)..(pid, end),
        move |_spot: &(Pid, Vpn), area: &mut Area| -> bool
            ensures { (result ≡ false) × (area.new ≡ record (area.old) { policy = policy }) }
        {
            *area = with_policy(*area, policy);
            false
        },
    );
    walk.next();
}

/// An area with another policy.
fn with_policy(area: Area, policy: Policy) -> Area
    ensures { result ≡ record area { policy = policy } }
{
    Area {
        pages: area.pages,
        policy,
        page: area.page,
    }
}
