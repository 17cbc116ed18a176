//! The steps in parts: each has a number that is added to all of its steps.

ghost use Rattle.std.specs.List.Sorted.{IsStrictlySortedBy};
ghost use Rattle.std.specs.Map.{keys_of};
ghost use Rattle.std.specs.declared.cmp.Ordering.TheVariants.{Less};
ghost use Rattle.std.specs.Prelude.{IfSome, IsSome, OnSome, false, true, ◌≡◌, ◌≤◌, if◌then◌else◌};
ghost use Rattle.std.specs.Ordering.{is_gt, is_lt};
ghost use Rattle.nm_types.specs.declared.page.Page.{Page};
ghost use Rattle.nm_types.specs.Map.{get, page_cmp};
ghost use Rattle.nm_coverage.specs.Parts.{add_at};
ghost use Rattle.nm_coverage.specs.Shifted.{is_page_within, one_more_or_less};

use crate::step::{Step, plus_or_minus_one};
use nm_types::Page;
use std::alloc::Allocator;
use std::collections::BTreeMap;

/// The most steps of a part, unless memory is refused, and how many of them its first half keeps when it is divided.
/// There are no parts until there are more steps than that.
const MOST: u64 = 512;

const HALF: usize = 256;

/// The first page of all.
const FIRST_PAGE: Page = Page {
    segment: 0,
    index: 0,
};

/// The steps from one page up to the page where the next part begins.
#[derive(Clone, Copy)]
pub(crate) struct Part {
    /// Is added to how many areas cover the page of each of its steps.
    pub(crate) add: u64,
    /// About how many steps it has. No number that is shown depends on it.
    pub(crate) steps: u64,
}

/// The number that is added to the step at a page.
pub(crate) fn add_at<A: Allocator + Copy>(parts: &BTreeMap<Page, Part, A>, page: Page) -> u64
    ensures { result ≡ add_at parts.now.entries page }
{
    match parts.range(..=page).next_back() {
        Some((_, part)) => part.add,
        None => 0,
    }
}

/// Where the part of a page begins, and about how many steps it has.
fn part_of<A: Allocator + Copy>(parts: &BTreeMap<Page, Part, A>, page: Page) -> (Page, u64)
    ensures ordered { IsStrictlySortedBy page_cmp (keys_of parts.now.entries) }
{
    match parts.range(..=page).next_back() {
        Some((start, part)) => (*start, part.steps),
        None => (FIRST_PAGE, 0),
    }
}

/// Begins a part at a page, or, if one begins there already, only sets how many steps it has. Changes no number that is
/// added. Returns false if memory was refused.
fn begin_part<A: Allocator + Copy>(
    parts: &mut BTreeMap<Page, Part, A>,
    start: Page,
    steps: u64,
) -> bool
    ensures { (p : Page) → add_at parts.new.entries p ≡ add_at parts.old.entries p }
{
    let add = add_at(parts, start);
    match parts.insert(start, Part { add, steps }) {
        Ok(_) => true,
        Err(_) => false,
    }
}

/// Notes that a part has one more step, and divides the part if it has too many.
pub(crate) fn count_step<A: Allocator + Copy>(
    stored: &BTreeMap<Page, Step, A>,
    parts: &mut BTreeMap<Page, Part, A>,
    page: Page,
)
    ensures { (p : Page) → add_at parts.new.entries p ≡ add_at parts.old.entries p }
{
    if parts.is_empty() {
        if stored.len() as u64 > MOST {
            divide(stored, parts, FIRST_PAGE);
        }
        return;
    }
    let (start, steps) = part_of(parts, page);
    if steps < MOST {
        begin_part(parts, start, steps + 1);
    } else {
        divide(stored, parts, start);
    }
}

/// Divides the part that begins at a page, which has one step too many. It stays whole if memory is refused.
fn divide<A: Allocator + Copy>(
    stored: &BTreeMap<Page, Step, A>,
    parts: &mut BTreeMap<Page, Part, A>,
    start: Page,
)
    ensures { (p : Page) → add_at parts.new.entries p ≡ add_at parts.old.entries p }
{
    let Some(middle) = step_after(stored, start, HALF) else {
        return;
    };
    if begin_part(parts, middle, MOST + 1 - HALF as u64) {
        begin_part(parts, start, HALF as u64);
    }
}

/// Notes that a part has one step fewer, and ends the part if it has none. Does not allocate.
pub(crate) fn uncount_step<A: Allocator + Copy>(
    stored: &BTreeMap<Page, Step, A>,
    parts: &mut BTreeMap<Page, Part, A>,
    page: Page,
)
    ensures { (p : Page) →
        IsSome (get page_cmp stored.now.entries p) →
        add_at parts.new.entries p ≡ add_at parts.old.entries p }
{
    if parts.is_empty() {
        return;
    }
    let (start, steps) = part_of(parts, page);
    if steps > 1 {
        begin_part(parts, start, steps - 1);
    } else {
        end_part(stored, parts, start);
    }
}

/// Ends the part that begins at a page if it has no step: its pages join the part before it. Does not allocate.
fn end_part<A: Allocator + Copy>(
    stored: &BTreeMap<Page, Step, A>,
    parts: &mut BTreeMap<Page, Part, A>,
    start: Page,
)
    requires ordered { IsStrictlySortedBy page_cmp (keys_of parts.old.entries) }
    ensures { (p : Page) →
        IsSome (get page_cmp stored.now.entries p) →
        add_at parts.new.entries p ≡ add_at parts.old.entries p }
{
    if is_empty(stored, parts, start) {
        parts.remove(&start);
    }
}

/// Whether each step from a page on belongs to a part that begins behind the page.
fn is_empty<A: Allocator + Copy>(
    stored: &BTreeMap<Page, Step, A>,
    parts: &BTreeMap<Page, Part, A>,
    start: Page,
) -> bool
    ensures { result ≡ true →
        (p : Page) →
        IsSome (get page_cmp stored.now.entries p) →
        is_gt (page_cmp start p) ≡ false →
        (q : Page) × (page_cmp start q ≡ Less) × (is_gt (page_cmp q p) ≡ false)
        × IsSome (get page_cmp parts.now.entries q) }
{
    let Some((first, _)) = stored.range(start..).next() else {
        return true;
    };
    match parts.range(..=*first).next_back() {
        Some((last, _)) => is_before(start, *last),
        None => false,
    }
}

/// Whether a page comes before another.
fn is_before(page: Page, other: Page) -> bool
    ensures { result ≡ is_lt (page_cmp page other) }
{
    page < other
}

/// The page of the step that comes `count` steps after the first one from a page on. None if there is none.
fn step_after<A: Allocator + Copy>(
    stored: &BTreeMap<Page, Step, A>,
    start: Page,
    count: usize,
) -> Option<Page> {
    match stored.range(start..).nth(count) {
        Some((page, _)) => Some(*page),
        None => None,
    }
}

/// Of the parts that begin from one page up to and with another, the pages at which the first and the last begin. None
/// if no part begins there.
pub(crate) fn parts_within<A: Allocator + Copy>(
    parts: &BTreeMap<Page, Part, A>,
    from: Page,
    to: Page,
) -> Option<(Page, Page)>
    ensures low { IfSome result (λ r. is_gt (page_cmp from r.0) ≡ false) }
    ensures between { IfSome result (λ r. is_gt (page_cmp r.0 r.1) ≡ false) }
    ensures high { IfSome result (λ r. is_gt (page_cmp r.1 to) ≡ false) }
    ensures first { IfSome result (λ r. IsSome (get page_cmp parts.now.entries r.0)) }
    ensures last { IfSome result (λ r. IsSome (get page_cmp parts.now.entries r.1)) }
    ensures ordered { OnSome result (IsStrictlySortedBy page_cmp (keys_of parts.now.entries)) }
{
    let (first, _) = parts.range(from..).next()?;
    let (last, _) = parts.range(..=to).next_back()?;
    if *first <= *last {
        Some((*first, *last))
    } else {
        None
    }
}

/// Adds one more, or one less, to the steps from where one part begins up to where another begins.
pub(crate) fn shift_parts<A: Allocator + Copy>(
    parts: &mut BTreeMap<Page, Part, A>,
    from: Page,
    to: Page,
    up: bool,
)
    requires range { is_gt (page_cmp from to) ≡ false }
    requires first { IsSome (get page_cmp parts.old.entries from) }
    requires last { IsSome (get page_cmp parts.old.entries to) }
    requires ordered { IsStrictlySortedBy page_cmp (keys_of parts.old.entries) }
    ensures { (p : Page) →
        add_at parts.new.entries p
        ≡ (if is_page_within from to p
        then one_more_or_less up (add_at parts.old.entries p)
        else add_at parts.old.entries p) }
{
    // Each part is changed in place, and none is removed.
    let mut walk = parts.extract_if(
        from..to,
        move |_page: &Page, part: &mut Part| -> bool
            ensures { (result ≡ false) × (part.new ≡ record part.old { add = one_more_or_less up part.old.add }) }
        {
            let Part { add, steps } = *part;
            *part = Part {
                add: plus_or_minus_one(add, up),
                steps,
            };
            false
        },
    );
    walk.next();
}
