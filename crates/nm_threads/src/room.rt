//! A name for one board, as a parameter of its workers' type.

use std::marker::Brand;

/// A type that names one board. (It has nothing to do with the room of a list.)
pub(crate) trait Room {
    ghost use Rattle.nm_board.specs.Shown.{Laying};

    ghost board: { Laying (Unit {0}) };
}

impl Room for Brand {
    ghost use Rattle.nm_threads.specs.Named.{no_board};

    ghost board = { no_board };
}
