//! What holds for every call. Each function does nothing, and its contract is the law.

ghost use Rattle.nm_calls.specs.laws.Calls.{RefusalsChangeNothing, MovePagesIsABatch, MigrationIsABatch, TrailIsAfterRuns, CallsStaySound, CallsKeepMemory, TrailKeepsMemory, WithoutAccessesNone, AnswersGoByPlace, EachAccessIsAnswered};
ghost use Rattle.nm_calls.specs.laws.Migrations.{EachPageIsListedOnce, RunsGoToNodesOnline};
ghost use Rattle.nm_calls.specs.examples.MigrateRows.{EachPageGoesOnce, HalfWay, TwoOfFourGo, SharedPageGoesByPrivilege, MigrationsAreRefused, NothingMigrates, SizesOfWhatIsKept, PageIsListedOnce, RunsHaveALimit};
ghost use Rattle.nm_calls.specs.definitions.Mbind.{NoStrayIsListedTwice};
ghost use Rattle.nm_calls.specs.definitions.Offline.{RunsIgnoreOnline};
ghost use Rattle.nm_calls.specs.examples.OfflineRows.{PagesLeaveTheNode, NothingIsTakenOffline, PinnedPageKeepsItsNode, PassesGoByDistance, UnseenPageMoves, SharedPageLeavesItsNode, OfflineNodesAreNotKept, NearestNodeFirst, LastNodeStays, PagesGoBySegment};
ghost use Rattle.nm_calls.specs.examples.DuringRows.{FramesAreReserved, AccessFindsNoFrame, HeldAtEachAddress, RefusedBeforeHeld, RefusedCallsMakeNone, AnsweredInOrder, LimitMakesRuns};
ghost use Rattle.nm_calls.specs.examples.MbindRows.{PinnedPageIsAnError, StrictAloneRefuses, StayingIsNoError, LinesAreSplit, NewPagesTakeTurns, BoundPagesGoNowhereElse, SecondPassTakesTheRest, FollowersStay, StrayPagesTakeTurns, BindingsAreRefused, LastByteCounts, TurnsGoByIndex, StrayIsListedOnce, SharedPagesMoveWithAll, SetsAsText, BothProcessesAreCounted, LastPage};

/// A call that is refused leaves the system as it was, except for EIO of mbind(2) with MPOL_MF_STRICT and a flag to
/// move, and EBUSY of taking a node offline.
pub fn refusals_change_nothing()
    ensures { RefusalsChangeNothing }
{}

/// `move_pages` and `migrate_pages`, where they are not refused, are one batch each, with the system's limit on its
/// runs.
pub fn moves_are_batches()
    ensures pages { MovePagesIsABatch }
    ensures migrations { MigrationIsABatch }
{}

/// The states in which running out of host memory may leave the system are those after a call's first runs.
pub fn trail_is_after_runs()
    ensures { TrailIsAfterRuns }
{}

/// A sound system stays sound, whatever call is made, and whether or not it is refused.
pub fn calls_stay_sound()
    ensures { CallsStaySound }
{}

/// No call except a write, and those that add or remove areas, changes a byte that a process has, whether the call ends
/// or the host runs out of memory in it. Where accesses are made while pages move, each byte is that of the last write
/// made there, or else the same as before.
pub fn calls_keep_memory()
    ensures calls { CallsKeepMemory }
    ensures trail { TrailKeepsMemory }
    ensures none { WithoutAccessesNone }
{}

/// `migrate_pages` lists no page twice, and each of its runs goes to an online node.
pub fn migrations_are_lists()
    ensures once { EachPageIsListedOnce }
    ensures online { RunsGoToNodesOnline }
{}

/// Worked examples of `migrate_pages`.
pub fn pages_migrate()
    ensures each_page_goes_once { EachPageGoesOnce }
    ensures half_way { HalfWay }
    ensures two_of_four_go { TwoOfFourGo }
    ensures shared_page_goes_by_privilege { SharedPageGoesByPrivilege }
    ensures migrations_are_refused { MigrationsAreRefused }
    ensures nothing_migrates { NothingMigrates }
    ensures sizes_of_what_is_kept { SizesOfWhatIsKept }
    ensures page_is_listed_once { PageIsListedOnce }
    ensures runs_have_a_limit { RunsHaveALimit }
{}

/// Worked examples of mbind(2), by its definition.
pub fn policies_move_pages()
    ensures pinned_page_is_an_error { PinnedPageIsAnError }
    ensures strict_alone_refuses { StrictAloneRefuses }
    ensures staying_is_no_error { StayingIsNoError }
    ensures lines_are_split { LinesAreSplit }
    ensures new_pages_take_turns { NewPagesTakeTurns }
    ensures bound_pages_go_nowhere_else { BoundPagesGoNowhereElse }
    ensures second_pass_takes_the_rest { SecondPassTakesTheRest }
    ensures followers_stay { FollowersStay }
    ensures stray_pages_take_turns { StrayPagesTakeTurns }
    ensures bindings_are_refused { BindingsAreRefused }
    ensures last_byte_counts { LastByteCounts }
    ensures turns_go_by_index { TurnsGoByIndex }
    ensures page_is_listed_once { StrayIsListedOnce }
    ensures shared_pages_move_with_all { SharedPagesMoveWithAll }
{}

/// mbind(2) lists no page twice.
pub fn each_page_is_listed_once()
    ensures { NoStrayIsListedTwice }
{}

/// Runs and passes are the same whichever nodes are online: a node may go offline before its pages leave it, or after.
pub fn runs_ignore_online()
    ensures { RunsIgnoreOnline }
{}

/// Worked examples of taking nodes offline and bringing them online.
pub fn nodes_go_offline()
    ensures pages_leave_the_node { PagesLeaveTheNode }
    ensures nothing_is_taken_offline { NothingIsTakenOffline }
    ensures pinned_page_keeps_its_node { PinnedPageKeepsItsNode }
    ensures passes_go_by_distance { PassesGoByDistance }
    ensures unseen_page_moves { UnseenPageMoves }
    ensures shared_page_leaves_its_node { SharedPageLeavesItsNode }
    ensures offline_nodes_are_not_kept { OfflineNodesAreNotKept }
    ensures nearest_node_first { NearestNodeFirst }
    ensures last_node_stays { LastNodeStays }
    ensures pages_go_by_segment { PagesGoBySegment }
{}

/// Worked examples of areas as text.
pub fn areas_are_listed()
    ensures sets_as_text { SetsAsText }
    ensures both_processes_are_counted { BothProcessesAreCounted }
    ensures last_page { LastPage }
{}

/// The answer to an access in flight is the one among its run's answers whose index is the number of earlier accesses
/// that name the same run. If each access names a run that is made, each has an answer.
pub fn answers_go_by_place()
    ensures place { AnswersGoByPlace }
    ensures each { EachAccessIsAnswered }
{}

/// Worked examples of accesses made while pages move.
pub fn accesses_meet_moves()
    ensures frames_are_reserved { FramesAreReserved }
    ensures access_finds_no_frame { AccessFindsNoFrame }
    ensures held_at_each_address { HeldAtEachAddress }
    ensures refused_before_held { RefusedBeforeHeld }
    ensures refused_calls_make_none { RefusedCallsMakeNone }
    ensures answered_in_order { AnsweredInOrder }
    ensures limit_makes_runs { LimitMakesRuns }
{}
