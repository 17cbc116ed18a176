//! What a hand reports of itself.

ghost use Rattle.std.specs.Prelude.{◌≡◌, ◌<◌, ◌≤◌, true};
ghost use Rattle.nm_board.specs.Shown.{HasEach, HasNoneTwice, OutIsTheRest};

use crate::hand::Hand;
use std::alloc::Allocator;

impl<A: Allocator + Copy> Hand<A> {
    /// How many of the board's 64 shares it has: 1 to 64.
    pub fn shares(&self) -> u64
        ensures value { result ≡ self.now.shares }
        ensures range { (0 < result) × (result ≤ 64) }
    {
        self.shares
    }

    /// Whether it tried to draw when no job was left, or a hand did from which it was split off, or which was joined
    /// into it. A hand with all shares that is past the end has drawn each ticket once. No hand draws a ticket twice,
    /// and each hand has given back every ticket that it drew or still has it out.
    pub fn past_end(&self) -> bool
        // In any case
        ensures value { result ≡ self.now.past_end }
        ensures once { HasNoneTwice self.now }
        ensures rest { OutIsTheRest self.now }

        // With all shares
        ensures each { result ≡ true → self.now.shares ≡ 64 → HasEach self.now }
    {
        self.past_end
    }
}
