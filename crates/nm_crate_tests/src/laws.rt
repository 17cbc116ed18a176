use std::alloc::Global;

/// The laws, those of boards for the allocator that programs use.
#[test]
fn laws_are_called() {
    nm_types::laws::flags_have_their_bits();
    nm_types::laws::limits_of_a_machine();
    nm_board::laws::stages_are_shown::<Global>();
    nm_board::laws::steps_are_events::<Global>();
    nm_tables::laws::entries_come_and_go();
    nm_rmap::laws::mappers_are_counted_and_carried();
    nm_policy::laws::each_set_has_one_order();
    nm_policy::laws::zonelist_rows();
    nm_policy::laws::first_touch_rows();
    nm_policy::laws::each_set_is_paired_in_order();
    nm_policy::laws::pair_rows();
    nm_policy::laws::all_pages_take_turns();
    nm_policy::laws::one_node_takes_all();
    nm_policy::laws::turn_rows();
    nm_runs::laws::each_batch_has_one_cut();
    nm_runs::laws::cut_is_old_cut();
    nm_runs::laws::each_limit_cuts();
    nm_runs::laws::run_count_counts_runs();
    nm_runs::laws::cut_rows();
    nm_plan::laws::kth_page_takes_kth_frame();
    nm_plan::laws::statuses_go_by_page();
    nm_plan::laws::none_is_free_again();
}
