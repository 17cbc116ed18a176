//! The steps.

ghost use Rattle.std.specs.Prelude.{IfNone, IfSome, IsSome, None, OnErr, OnOk, Some, [], false, ℕ, ◌<◌, ◌≡◌, ◌≤◌, if◌then◌else◌};
ghost use Rattle.std.specs.Option.{option_map};
ghost use Rattle.std.specs.Ordering.{is_gt};
ghost use Rattle.std.specs.declared.cmp.Ordering.TheVariants.{Less};
ghost use Rattle.nm_types.specs.declared.page.Page.{Page};
ghost use Rattle.nm_types.specs.Map.{get, page_cmp, replace, same_page};
ghost use Rattle.nm_model.specs.definitions.Areas.{page_in};
ghost use Rattle.nm_coverage.specs.declared.step.Step.{Step};
ghost use Rattle.nm_coverage.specs.Shifted.{is_page_within, shift_step, shifted_in};

use crate::parts::{Part, add_at, count_step, parts_within, shift_parts, uncount_step};
use crate::step::{Step, minus, shift, with_add};
use nm_types::Page;
use std::alloc::{AllocError, Allocator};
use std::collections::BTreeMap;
use std::marker::Model;

/// Steps at pages. Contracts see a map. The steps are in parts. Each part has a number that is added to how many areas
/// cover the pages of its steps, so a stretch of many parts changes without visiting their steps.
#[derive(Drop)]
pub struct Coverage<A: Allocator + Copy> {
    stored: BTreeMap<Page, Step, A>,
    parts: BTreeMap<Page, Part, A>,
}

impl<A: Allocator + Copy> Model for Coverage<A> {
    ghost use Rattle.nm_types.specs.declared.page.Page.{Page};
    ghost use Rattle.nm_types.specs.Map.{Map};
    ghost use Rattle.nm_coverage.specs.declared.step.Step.{Step};
    ghost use Rattle.nm_coverage.specs.Parts.{with_parts};

    ghost Value = { Map Page Step };

    ghost view = { λ s. with_parts s.stored.entries s.parts.entries };
}

impl<A: Allocator + Copy> Coverage<A> {
    /// Makes no steps. Does not allocate.
    pub fn new(alloc: A) -> Self
        ensures { result ≡ [] }
    {
        Coverage {
            stored: BTreeMap::new(alloc),
            parts: BTreeMap::new(alloc),
        }
    }

    /// The step at a page, or None if there is none.
    pub fn get(&self, page: Page) -> Option<Step>
        ensures { result ≡ get page_cmp self.now page }
    {
        match self.stored.get(&page) {
            Some(step) => Some(with_add(*step, add_at(&self.parts, page))),
            None => None,
        }
    }

    /// Puts a step at a page. An error means that the host is out of memory, that there was no step at the page, and
    /// that nothing has changed.
    pub fn insert(&mut self, page: Page, step: Step) -> Result<(), AllocError>
        ensures ok { OnOk result
            ((p : Page) →
            get page_cmp self.new p
            ≡ (if same_page page p then Some step else get page_cmp self.old p)) }
        ensures err { OnErr result (self.new ≡ self.old) }
        ensures absent { OnErr result (get page_cmp self.old page ≡ None) }
    {
        let add = add_at(&self.parts, page);
        let Step { covers, ends } = step;
        let covers = minus(covers, add);
        if self.stored.insert(page, Step { covers, ends })?.is_none() {
            count_step(&self.stored, &mut self.parts, page);
        }
        Ok(())
    }

    /// Replaces the step at a page, if there is one. Does not allocate.
    pub fn replace(&mut self, page: Page, step: Step)
        ensures { (p : Page) →
            get page_cmp self.new p
            ≡ option_map (λ there. if same_page page p then step else there)
            (get page_cmp self.old p) }
    {
        let add = add_at(&self.parts, page);
        let Step { covers, ends } = step;
        let covers = minus(covers, add);
        put(&mut self.stored, page, Step { covers, ends });
    }

    /// Removes the step at a page, if there is one. Does not allocate.
    pub fn remove(&mut self, page: Page)
        ensures { (p : Page) →
            get page_cmp self.new p
            ≡ (if same_page page p then None else get page_cmp self.old p) }
    {
        if self.stored.remove(&page).is_some() {
            uncount_step(&self.stored, &mut self.parts, page);
        }
    }

    /// Counts one more area, or one fewer, over each page of a segment from an index up to another. Does not allocate.
    pub fn shift(&mut self, segment: u32, first: u64, past: u64, up: bool)
        requires range { first ≤ past }
        ensures { (p : Page) →
            get page_cmp self.new p
            ≡ option_map (shifted_in segment first past up p) (get page_cmp self.old p) }
    {
        let from = Page {
            segment,
            index: first,
        };
        let to = Page {
            segment,
            index: past,
        };
        let Some((low, high)) = parts_within(&self.parts, from, to) else {
            shift_stored(&mut self.stored, from, to, up);
            return;
        };
        shift_stored(&mut self.stored, from, low, up);
        shift_parts(&mut self.parts, low, high, up);
        shift_stored(&mut self.stored, high, to, up);
    }

    /// The last step at a page or before it, with its page.
    pub fn last_to(&self, page: Page) -> Option<(Page, Step)>
        // If there is one
        ensures some { IfSome result
            (λ e. (is_gt (page_cmp e.0 page) ≡ false) × (get page_cmp self.now e.0 ≡ Some e.1)) }
        ensures last { IfSome result
            (λ e. (p : Page) →
            page_cmp e.0 p ≡ Less →
            is_gt (page_cmp p page) ≡ false →
            get page_cmp self.now p ≡ None) }

        // If there is none
        ensures none { IfNone result
            ((p : Page) → is_gt (page_cmp p page) ≡ false → get page_cmp self.now p ≡ None) }
    {
        match self.stored.range(..=page).next_back() {
            Some((start, step)) => Some((*start, with_add(*step, add_at(&self.parts, *start)))),
            None => None,
        }
    }

    /// The first index from `at` on and before `past` at which a segment has a step, or `past` if there is none.
    pub fn next_from(&self, segment: u32, at: u64, past: u64) -> u64
        ensures low { at ≤ past → at ≤ result }
        ensures high { result ≤ past }
        ensures some { result < past → IsSome (get page_cmp self.now (page_in segment result)) }
        ensures none { (i : ℕ) →
            at ≤ i →
            i < result →
            get page_cmp self.now (page_in segment i) ≡ None }
    {
        let from = Page { segment, index: at };
        match self.stored.range(from..).next() {
            Some((page, _)) => {
                if page.segment == segment {
                    page.index.min(past)
                } else {
                    past
                }
            }
            None => past,
        }
    }
}

/// Replaces the step at a page, if there is one.
fn put<A: Allocator + Copy>(stored: &mut BTreeMap<Page, Step, A>, page: Page, step: Step)
    ensures { stored.new.entries ≡ replace page_cmp stored.old.entries page step }
{
    if let Some(there) = stored.get_mut(&page) {
        *there = step;
    }
}

/// Counts one more area, or one fewer, in each step at or after one page and before another.
fn shift_stored<A: Allocator + Copy>(
    stored: &mut BTreeMap<Page, Step, A>,
    from: Page,
    to: Page,
    up: bool,
)
    requires range { is_gt (page_cmp from to) ≡ false }
    ensures { (p : Page) →
        get page_cmp stored.new.entries p
        ≡ option_map (λ step. if is_page_within from to p then shift_step up step else step)
        (get page_cmp stored.old.entries p) }
{
    // Each step is changed in place, and none is removed.
    let mut walk = stored.extract_if(
        from..to,
        move |_page: &Page, step: &mut Step| -> bool
            ensures { (result ≡ false) × (step.new ≡ shift_step up step.old) }
        {
            *step = shift(*step, up);
            false
        },
    );
    walk.next();
}
