//! The flags of move_pages(2) and mbind(2).

ghost use Rattle.std.specs.Prelude.{◌≡◌, ℕ, ◌<◌, ◌↔◌, ◌/◌, ◌%◌, IsTrue};
ghost use Rattle.std.specs.Option.{SomeIff};

use std::marker::Model;

/// Flags by their bits: MPOL_MF_STRICT 1, MPOL_MF_MOVE 2, MPOL_MF_MOVE_ALL 4.
#[derive(Clone, Copy, Debug, PartialEq, Eq)]
pub struct MoveFlags {
    bits: u32,
}

impl Model for MoveFlags {
    ghost Value = { ℕ };

    ghost view = { λ f. f.bits };

    ghost inverse = { λ n. record { bits = n } };
}

impl MoveFlags {
    /// MPOL_MF_STRICT: a page that does not follow the policy is an error.
    pub const STRICT: u32 = 1;

    /// MPOL_MF_MOVE: pages that no other process sees move.
    pub const MOVE: u32 = 2;

    /// MPOL_MF_MOVE_ALL: pages move whoever sees them.
    pub const MOVE_ALL: u32 = 4;

    /// The flags of these bits, or None if a bit beyond the three is set.
    pub fn from_bits(bits: u32) -> Option<Self>
        ensures { SomeIff result (bits < 8) bits }
    {
        if bits < 8 {
            Some(MoveFlags { bits })
        } else {
            None
        }
    }

    /// Their bits.
    pub fn bits(self) -> u32
        ensures { result ≡ self }
    {
        let MoveFlags { bits } = self;
        bits
    }

    /// Whether MPOL_MF_STRICT is set.
    pub fn is_strict(self) -> bool
        ensures { IsTrue result ↔ (self % 2 ≡ 1) }
    {
        self.bits() % 2 == 1
    }

    /// Whether MPOL_MF_MOVE is set.
    pub fn moves(self) -> bool
        ensures { IsTrue result ↔ (self / 2 % 2 ≡ 1) }
    {
        self.bits() / 2 % 2 == 1
    }

    /// Whether MPOL_MF_MOVE_ALL is set.
    pub fn moves_all(self) -> bool
        ensures { IsTrue result ↔ (self / 4 % 2 ≡ 1) }
    {
        self.bits() / 4 % 2 == 1
    }
}
