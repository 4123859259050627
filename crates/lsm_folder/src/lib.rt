//! What a store's folder reads as: contents and a sequence, or the first refusal. `CURRENT` names a manifest, its edits make
//! a version, and the version's tables and logs hold the rows.
#![tactic(auto)]

mod laws;
mod refusals;

pub use laws::{
    a_cut_log_stands_for_a_prefix, a_cut_manifest_says_the_first_edits, a_folder_needs_its_parts,
    a_folder_reads_as_its_parts, a_folder_stands_as_its_parts, a_fresh_place_holds_no_store,
    a_log_counts_as_it_was_read, a_manifest_says_its_edits, a_new_store_is_empty,
    a_table_is_refused_as_its_opening, a_walked_table_says_its_rows, a_whole_table_says_its_rows,
    batches_are_read_back, blocks_are_read_back, edits_are_read_back, logs_are_lawful,
    names_are_read_back, names_meet_paths, needed_files_suffice, one_log_is_read, one_log_is_there,
    one_log_stands, places_are_seen, versions_have_seven_levels,
};
pub use refusals::Refusal;
