//! How many areas cover each page.
//!
//! For each page where an area begins, and the page after each area's last one, a step stores how many areas cover it.
//! That number is the same for all pages of a segment between two steps, so the last step at or before a page holds for
//! that page. Adding an area allocates for at most two steps, and removing one does not allocate. The numbers saturate or
//! wrap around, and none reaches the limit: there are fewer areas than 2^63.

ghost use Rattle.std.specs.Prelude.{false, None, OnErr, OnOk, Some, ℕ, ◌+◌, ◌<◌, ◌^◌, ◌≡◌, ◌≤◌, ◌⊎◌, if◌then◌else◌};
ghost use Rattle.nm_areas.specs.Coverage.{IsFlat, IsSteps, covers_of, end_of, ends_of};
ghost use Rattle.nm_types.specs.Map.{get, page_cmp, same_page};

use nm_coverage::{Coverage, Step};
use nm_types::{Area, Page};
use std::alloc::{AllocError, Allocator};

/// Counts an area. An error means that nothing has changed. Allocates only if one of the area's ends has no step yet.
pub(crate) fn cover<A: Allocator + Copy>(
    steps: &mut Coverage<A>,
    area: Area,
) -> Result<(), AllocError>
    requires indices { area.page.index + area.pages < 2 ^ 64 }
    ensures ok { OnOk result
        ((ends covers : Page → ℕ) →
        IsSteps steps.old ends covers →
        IsFlat ends covers →
        ((p : Page) → (ends p < 2 ^ 63) × (covers p < 2 ^ 63)) →
        IsSteps steps.new (λ p. ends p + ends_of p area)
        (λ p. covers p + covers_of p area)) }
    ensures err { OnErr result
        ((ends covers : Page → ℕ) →
        IsSteps steps.old ends covers →
        IsFlat ends covers →
        ((p : Page) → (ends p < 2 ^ 63) × (covers p < 2 ^ 63)) →
        IsSteps steps.new ends covers) }
    ensures absent { OnErr result
        ((get page_cmp steps.old area.page ≡ None)
        ⊎ (get page_cmp steps.old (end_of area) ≡ None)) }
{
    let Page { segment, index } = area.page;
    let past = index + area.pages;
    let begin = Page { segment, index };
    mark(steps, begin, 1)?;
    let end = Page {
        segment,
        index: past,
    };
    if let Err(error) = mark(steps, end, 1) {
        unmark(steps, begin, 1);
        return Err(error);
    }
    steps.shift(segment, index, past, true);
    Ok(())
}

/// Removes an area that was counted. Does not allocate.
pub(crate) fn uncover<A: Allocator + Copy>(steps: &mut Coverage<A>, area: Area)
    requires indices { area.page.index + area.pages < 2 ^ 64 }
    ensures { (ends covers : Page → ℕ) →
        IsSteps steps.old (λ p. ends p + ends_of p area)
        (λ p. covers p + covers_of p area) →
        IsSteps steps.new ends covers }
{
    let Page { segment, index } = area.page;
    let past = index + area.pages;
    steps.shift(segment, index, past, false);
    unmark(
        steps,
        Page {
            segment,
            index: past,
        },
        1,
    );
    unmark(steps, Page { segment, index }, 1);
}

/// Counts `times` more areas that begin or end at a page. An error means that nothing has changed. Allocates only if
/// the page has no step yet.
pub(crate) fn mark<A: Allocator + Copy>(
    steps: &mut Coverage<A>,
    page: Page,
    times: u64,
) -> Result<(), AllocError>
    requires some { 0 < times }
    ensures ok { OnOk result
        ((ends covers : Page → ℕ) →
        IsSteps steps.old ends covers →
        IsFlat ends covers →
        ends page + times < 2 ^ 64 →
        IsSteps steps.new
        (λ p. ends p + (if same_page page p then times else 0)) covers) }
    ensures err { OnErr result (steps.new ≡ steps.old) }
    ensures absent { OnErr result (get page_cmp steps.old page ≡ None) }
    ensures kept { (p : Page) →
        get page_cmp steps.new p ≡ None →
        get page_cmp steps.old p ≡ None }
{
    let step = Step {
        covers: count_at(steps, page),
        ends: ends_at(steps, page).saturating_add(times),
    };
    steps.insert(page, step)?;
    Ok(())
}

/// Counts `times` fewer areas that begin or end at a page. Does not allocate.
pub(crate) fn unmark<A: Allocator + Copy>(steps: &mut Coverage<A>, page: Page, times: u64)
    ensures { (ends covers : Page → ℕ) →
        IsSteps steps.old (λ p. ends p + (if same_page page p then times else 0)) covers →
        IsSteps steps.new ends covers }
{
    let Some(step) = steps.get(page) else {
        return;
    };
    let ends = step.ends.saturating_sub(times);
    if ends == 0 {
        steps.remove(page);
    } else {
        let covers = step.covers;
        steps.replace(page, Step { covers, ends });
    }
}

/// How many areas cover a page.
pub(crate) fn count_at<A: Allocator + Copy>(steps: &Coverage<A>, page: Page) -> u64
    ensures { (ends covers : Page → ℕ) →
        IsSteps steps.now ends covers →
        IsFlat ends covers →
        result ≡ covers page }
{
    match steps.last_to(page) {
        Some((start, step)) => {
            if start.segment == page.segment {
                step.covers
            } else {
                0
            }
        }
        None => 0,
    }
}

/// How many areas begin or end at a page.
fn ends_at<A: Allocator + Copy>(steps: &Coverage<A>, page: Page) -> u64
    ensures { (ends covers : Page → ℕ) → IsSteps steps.now ends covers → result ≡ ends page }
{
    match steps.get(page) {
        Some(step) => step.ends,
        None => 0,
    }
}
