//! What holds for every pass. Each function does nothing, and its contract is the law.

ghost use Rattle.nm_passes.specs.laws.Full.{FullNodeTakesNone, LeftWouldMove, MovesElsewhere, RunsGoByLength, NextPassTakesNone};

/// Pages that a pass leaves without a frame are also left by a pass over another node, if that has no free frame and
/// none of these pages: only the total of failures grows, by their number. How many runs such a pass has depends on
/// their number alone.
pub fn full_nodes_take_none()
    ensures full { FullNodeTakesNone }
    ensures left { LeftWouldMove }
    ensures elsewhere { MovesElsewhere }
    ensures runs { RunsGoByLength }
    ensures next { NextPassTakesNone }
{}
