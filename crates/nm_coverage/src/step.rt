//! One step.

ghost use Rattle.std.specs.Prelude.{◌%◌, ◌+◌, ◌^◌, ◌≡◌};
ghost use Rattle.nm_coverage.specs.Shifted.{one_more_or_less, shift_step, with_add};

/// The step at a page where an area begins, or that follows the last page of one.
#[derive(Clone, Copy)]
pub struct Step {
    /// How many areas cover the page.
    pub covers: u64,
    /// How many areas begin at the page plus how many end just before it.
    pub ends: u64,
}

/// A step with one more area over its page, or one fewer.
pub(crate) fn shift(step: Step, up: bool) -> Step
    ensures { result ≡ shift_step up step }
{
    Step {
        covers: plus_or_minus_one(step.covers, up),
        ends: step.ends,
    }
}

/// One more, or one less. Wraps around.
pub(crate) fn plus_or_minus_one(number: u64, up: bool) -> u64
    ensures { result ≡ one_more_or_less up number }
{
    if up {
        number.wrapping_add(1)
    } else {
        number.wrapping_sub(1)
    }
}

/// A step with a number added to how many areas cover its page. Wraps around.
pub(crate) fn with_add(step: Step, add: u64) -> Step
    ensures { result ≡ with_add add step }
{
    Step {
        covers: step.covers.wrapping_add(add),
        ends: step.ends,
    }
}

/// The number that gives `number` when `add` is added to it. Wraps around.
pub(crate) fn minus(number: u64, add: u64) -> u64
    ensures { (result + add) % 2 ^ 64 ≡ number }
{
    number.wrapping_sub(add)
}
