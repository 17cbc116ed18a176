//! Laws of the constants. Each function does nothing, and its contract is the law.

ghost use Rattle.std.specs.Prelude.{◌≡◌, ◌^◌, ◌-◌};

use crate::flags::MoveFlags;
use crate::limits::{
    MAX_BATCH, MAX_FRAMES, MAX_NODES, MAX_PINS, MAX_PROCESSES, MAX_SEGMENTS, PAGE_BYTES,
    PAGE_NUMBERS,
};

/// The flags have the bits of `<numaif.h>`.
pub fn flags_have_their_bits()
    ensures strict { MoveFlags.STRICT ≡ 1 }
    ensures moves { MoveFlags.MOVE ≡ 2 }
    ensures moves_all { MoveFlags.MOVE_ALL ≡ 4 }
{}

/// The limits of a machine.
pub fn limits_of_a_machine()
    ensures page_bytes { PAGE_BYTES ≡ 2 ^ 12 }
    ensures nodes { MAX_NODES ≡ 64 }
    ensures frames { MAX_FRAMES ≡ 2 ^ 14 }
    ensures page_numbers { PAGE_NUMBERS ≡ 2 ^ 35 }
    ensures processes { MAX_PROCESSES ≡ 1024 }
    ensures segments { MAX_SEGMENTS ≡ 2 ^ 16 }
    ensures pins { MAX_PINS ≡ 2 ^ 16 - 1 }
    ensures batch { MAX_BATCH ≡ 2 ^ 14 }
{}
