//! Laws of the definitions alone, and worked examples. Each function does nothing, and its contract is the law.

ghost use Rattle.nm_engine.specs.examples.Undoing.{TouchesAreTakenBack, SharedPageKeepsItsFrame};

pub use nm_laws::examples::{
    batches_move_pages, examples_start_sound, moving_pages_are_held, nodes_are_tried_by_distance,
    one_page_moves, pages_live_while_covered, plans_take_frames_in_order, policies_split_areas,
    sharing_counts_processes,
};
pub use nm_laws::laws::{
    calls_keep_soundness, interleavings, looks_suffice, mem_stays, plan_is_one_by_one,
    sound_is_audited, soundness_stays, touches_come_first, writes_are_exact,
};

/// Worked examples of undoing touches.
pub fn touches_are_taken_back()
    ensures touches_are_taken_back { TouchesAreTakenBack }
    ensures shared_page_keeps_its_frame { SharedPageKeepsItsFrame }
{}
