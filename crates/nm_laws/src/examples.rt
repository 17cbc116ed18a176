//! Worked examples.

ghost use Rattle.nm_model.specs.examples.Interleaved.{StartIsRead, BothOrdersEndAlike, InTheMiddle, TwoWorkersCopy, NotAllowed};
ghost use Rattle.nm_model.specs.examples.Starts.{StartsAreSound};
ghost use Rattle.nm_model.specs.examples.Moving.{ThreePagesMove, MovedPageReads, EmptyBatchDoesNothing, OnePageTwiceMovesOnce, ShortageStopsTwoOfFour, LaterRunTakesFrameOfEarlier, EarlierRunFindsNone, PageGoesAndComesHome};
ghost use Rattle.nm_model.specs.examples.Sharing.{TwoAddressesAreOneProcess, SharedPageStays, SharedPageIsOnTarget, SharedPageMovesForBoth};
ghost use Rattle.nm_model.specs.examples.Unmapping.{OnlyTheMovingPageIsHeld, OnlyTheRunsOwnPagesAreHeld, EachHasItsStatus, PinnedPageKeepsItsArea, UnmappedPagesAreFree, LastAreaFreesThePage};
ghost use Rattle.nm_model.specs.examples.Setting.{MiddlePageIsSplitOff, NewPagesFollowThePolicy, LengthsRoundUp, AreasAreNotMerged, OthersKeepTheirAreas, RangesAreRefused};
ghost use Rattle.nm_model.specs.examples.Deciding.{NodesAreOrderedByDistance, PolicyOrdersTheNodes, PlanResolvesRepeats, PlanWithoutFrames, PlanWithoutRequests};

/// The states that the worked examples start from are sound.
pub fn examples_start_sound()
    ensures { StartsAreSound }
{}

/// Worked examples of batches on two nodes of four frames.
pub fn batches_move_pages()
    ensures three_pages_move { ThreePagesMove }
    ensures moved_page_reads { MovedPageReads }
    ensures empty_batch_does_nothing { EmptyBatchDoesNothing }
    ensures one_page_twice_moves_once { OnePageTwiceMovesOnce }
    ensures shortage_stops_two_of_four { ShortageStopsTwoOfFour }
    ensures later_run_takes_frame_of_earlier { LaterRunTakesFrameOfEarlier }
    ensures earlier_run_finds_none { EarlierRunFindsNone }
    ensures page_goes_and_comes_home { PageGoesAndComesHome }
{}

/// Worked examples of pages with several addresses, or that several processes see.
pub fn sharing_counts_processes()
    ensures two_addresses_are_one_process { TwoAddressesAreOneProcess }
    ensures shared_page_stays { SharedPageStays }
    ensures shared_page_is_on_target { SharedPageIsOnTarget }
    ensures shared_page_moves_for_both { SharedPageMovesForBoth }
{}

/// Worked examples of reads and writes while pages move.
pub fn moving_pages_are_held()
    ensures only_the_moving_page_is_held { OnlyTheMovingPageIsHeld }
    ensures only_the_runs_own_pages_are_held { OnlyTheRunsOwnPagesAreHeld }
{}

/// Worked examples of pins, of unmapping areas and of processes that exit.
pub fn pages_live_while_covered()
    ensures each_has_its_status { EachHasItsStatus }
    ensures pinned_page_keeps_its_area { PinnedPageKeepsItsArea }
    ensures unmapped_pages_are_free { UnmappedPagesAreFree }
    ensures last_area_frees_the_page { LastAreaFreesThePage }
{}

/// Worked examples of setting the policy of a range of addresses.
pub fn policies_split_areas()
    ensures middle_page_is_split_off { MiddlePageIsSplitOff }
    ensures new_pages_follow_the_policy { NewPagesFollowThePolicy }
    ensures lengths_round_up { LengthsRoundUp }
    ensures areas_are_not_merged { AreasAreNotMerged }
    ensures others_keep_their_areas { OthersKeepTheirAreas }
    ensures ranges_are_refused { RangesAreRefused }
{}

/// Worked examples of the orders in which nodes are tried.
pub fn nodes_are_tried_by_distance()
    ensures nodes_are_ordered_by_distance { NodesAreOrderedByDistance }
    ensures policy_orders_the_nodes { PolicyOrdersTheNodes }
{}

/// Worked examples of plans.
pub fn plans_take_frames_in_order()
    ensures plan_resolves_repeats { PlanResolvesRepeats }
    ensures plan_without_frames { PlanWithoutFrames }
    ensures plan_without_requests { PlanWithoutRequests }
{}

/// A worked example of the events of a run.
pub fn one_page_moves()
    ensures start { StartIsRead }
    ensures ends { BothOrdersEndAlike }
    ensures middle { InTheMiddle }
    ensures two { TwoWorkersCopy }
    ensures refused { NotAllowed }
{}
