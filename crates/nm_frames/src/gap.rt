//! Bytes of a frame that are known to be zero.

ghost use Rattle.std.specs.Prelude.{◌≡◌, ℕ, ◌+◌, ◌-◌, ◌≤◌, min, max};
ghost use Rattle.nm_frames.specs.Zeros.{FitsFrame, IsInGap};

use nm_types::limits::PAGE_BYTES;

/// Bytes of one frame that are zero: from index `first` to before `end`.
#[derive(Debug, Clone, Copy)]
pub(crate) struct Gap {
    pub(crate) first: u16,
    pub(crate) end: u16,
}

impl Gap {
    /// All bytes of a frame.
    pub(crate) fn whole() -> Self
        ensures fits { FitsFrame result }
        ensures first { result.first ≡ 0 }
        ensures end { result.end ≡ 4096 }
    {
        Gap {
            first: 0,
            end: PAGE_BYTES as u16,
        }
    }

    /// What is left of the gap once the bytes from `at` to before `end` are written: what lies before them or what lies
    /// after, whichever is longer.
    pub(crate) fn without(self, at: u16, end: u16) -> Self
        requires gap { FitsFrame self }
        ensures fits { FitsFrame result }
        ensures left { (i : ℕ) → IsInGap result i → IsInGap self i × (at ≤ i → end ≤ i) }
        ensures before { min at self.end - self.first ≤ result.end - result.first }
        ensures after { self.end - max end self.first ≤ result.end - result.first }
    {
        let before = at.saturating_sub(self.first);
        let after = self.end.saturating_sub(end);
        if before > after {
            Gap {
                first: self.first,
                end: at.min(self.end),
            }
        } else {
            Gap {
                first: end.max(self.first).min(self.end),
                end: self.end,
            }
        }
    }

    /// The bytes that are in both gaps.
    pub(crate) fn common(self, other: Self) -> Self
        requires gap { FitsFrame self }
        requires other { FitsFrame other }
        ensures fits { FitsFrame result }
        ensures both { (i : ℕ) → IsInGap result i → IsInGap self i × IsInGap other i }
        ensures all { (i : ℕ) → IsInGap self i → IsInGap other i → IsInGap result i }
    {
        let first = self.first.max(other.first);
        let end = self.end.min(other.end).max(first);
        Gap { first, end }
    }

    /// How many bytes of a frame are outside the gap.
    pub(crate) fn outside(self) -> usize
        requires { FitsFrame self }
        ensures { result + (self.end - self.first) ≡ 4096 }
    {
        PAGE_BYTES - usize::from(self.end - self.first)
    }
}
