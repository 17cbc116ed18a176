ghost use Rattle.std.specs.Prelude.{◌≡◌, ℕ};

use std::marker::Model;

/// A frame's number, of 16 bits: a machine has at most 16,384 frames. Each node owns a range of consecutive frames, and
/// node 0's come first.
#[derive(Clone, Copy, Debug, PartialEq, Eq, PartialOrd, Ord, Hash)]
pub struct FrameId {
    number: u16,
}

impl Model for FrameId {
    ghost Value = { ℕ };

    ghost view = { λ n. n.number };

    ghost inverse = { λ n. record { number = n } };
}

impl FrameId {
    /// The FrameId with this number.
    pub const fn new(number: u16) -> Self
        ensures { result ≡ number }
    {
        FrameId { number }
    }

    /// Its number.
    pub const fn number(self) -> u16
        ensures { result ≡ self }
    {
        self.number
    }

    /// Its number as an index into a list.
    pub const fn index(self) -> usize
        ensures { result ≡ self }
    {
        Self::number(self) as usize
    }
}
