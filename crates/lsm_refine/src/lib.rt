//! The refinement: when a store is good for a state of the abstract store. What a store keeps of itself and what its disk has,
//! now and after each crash, are as the state says.
#![tactic(auto)]

mod call_laws;
mod cause_laws;
mod edit_laws;
mod flush_laws;
mod frame_laws;
mod laws;
mod life_laws;
mod move_laws;
mod new_laws;
mod opening_images;
mod opening_laws;
mod within_laws;

pub use call_laws::{
    a_cut_pins_its_files, a_removed_file_isnt_missed, disables_are_counted, pins_are_read,
    pins_end, readings_change_nothing, the_last_sequence_is_told,
};
pub use cause_laws::{
    a_cut_names_files_that_stand, every_refusal_has_its_cause_on_every_disk, listed_files_stand,
    no_count_falls,
};
pub use edit_laws::{
    a_new_manifest_is_kept, an_appended_edit_is_kept, changes_at_a_few_names,
    files_of_other_names_stay,
};
pub use flush_laws::{
    a_begun_manifest_leaves_a_good_store, a_call_shows_the_state, a_drawn_number_is_new,
    a_new_manifest_installs_a_table, a_new_manifest_says_the_version, a_sealed_table_is_whole,
    a_store_may_make_its_files, a_table_is_begun, a_table_is_written,
    an_appended_edit_installs_a_table, drawn_numbers_are_counted, each_answer_of_a_flush_is_a_step,
    frozen_rows_become_a_table, new_edits_show_the_same, the_edit_of_a_flush_is_in_the_grammar,
    the_edit_of_a_flush_is_taken,
};
pub use frame_laws::{
    a_file_that_is_not_needed_shows_nothing, a_good_store_runs, a_synced_log_is_durable,
    an_appended_batch_is_accepted, changes_at_one_path, frozen_rows_are_good, one_file_is_written,
    other_files_stay, the_rest_stays, what_is_built_stays,
};
pub use laws::{
    a_cuts_files_stand, a_good_store_shows_the_accepted_batches, a_good_stores_folder_stands,
    a_new_store_is_good, a_new_store_lists_its_manifest, a_running_store_has_its_parts,
    an_image_reads_as_a_crash_leaves_it, an_unchanged_store_stays_good,
    changes_inside_leave_other_folders, logs_cut_anywhere_stand_for_a_front,
    made_and_removed_files_are_no_folders, names_stay_known, needed_files_stay,
    nothing_done_shows_the_same, pinned_files_stay, steps_lead_on, the_last_log_is_apart,
};
pub use life_laws::{
    a_crash_leaves_what_was_found, a_folder_with_rows_in_logs_may_be_opened,
    a_good_store_leaves_its_state, a_good_store_opens_again, a_new_store_is_opened,
    a_settled_disk_has_one_image, a_settled_disk_is_found,
    a_store_with_something_in_each_place_is_good, an_opening_cut_off_leaves_the_same,
    an_opening_may_have_nothing_to_do, an_opening_that_keeps_its_folder_loses_nothing,
    lives_lead_on, what_a_crash_left_opens_again,
};
pub use move_laws::a_moved_folder_leaves_the_stores_own;
pub use new_laws::{a_fresh_folder_is_vacant, a_new_folder_is_vacant, a_new_store_is_made};
pub use opening_images::{
    a_new_file_beside_keeps_the_folder, a_new_folder_is_fresh, a_new_manifest_keeps_the_folder,
    a_new_manifest_would_say_the_same, a_part_of_an_opening_leads_to_the_next,
    a_read_folder_would_stand, an_empty_log_keeps_the_folder, an_opening_may_begin,
    an_opening_may_go_on, what_was_found_is_whole,
};
pub use opening_laws::{
    a_folder_that_stands_is_opened, a_new_manifest_says_what_was_found,
    an_opening_goes_part_by_part,
};
pub use within_laws::{
    a_restores_folder_is_one_part, changes_within_a_folder, folders_beside_read_as_before,
    pins_and_checkpoints_stay, the_stores_own_folder_stays,
};
