//! Laws of the board's rule. Each function does nothing, and its contract is the law.

ghost use Rattle.nm_board.specs.Stages.{EachIsAtOneStage, DrawTakesTheFirst, LateDrawTakesNone, GiveReturnsTheLast, SplitChangesNone, JoinChangesNone, DrawIsTheMachines, GiveIsTheMachines};

use std::alloc::Allocator;

/// At any moment the words and hands of a board show each job at one stage: it lies on the board, one hand has it, or
/// it was given back.
pub fn stages_are_shown<A: Allocator + Copy>()
    ensures { EachIsAtOneStage A }
{}

/// A draw moves the first job that lies on the board into the drawing hand, and giving a job back moves the one that
/// the hand drew last. Nothing else changes a job's stage: no draw when no job is left, no split and no join. So a
/// board shows the jobs of the run machine at each moment, and its steps are that machine's events.
pub fn steps_are_events<A: Allocator + Copy>()
    ensures draw { DrawTakesTheFirst A }
    ensures late { LateDrawTakesNone A }
    ensures give { GiveReturnsTheLast A }
    ensures split { SplitChangesNone A }
    ensures join { JoinChangesNone A }
    ensures machines { DrawIsTheMachines A }
    ensures given { GiveIsTheMachines A }
{}
