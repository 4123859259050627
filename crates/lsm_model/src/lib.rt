//! The abstract store: its states, the calls of a store as events with their replies, and which reply leads from which
//! state to which. Nothing here is read from a disk.
#![tactic(auto)]

mod cuts;
mod errors;
mod events;
mod lane_laws;
mod laws;
mod lookups;
mod plain;
mod replies;
mod restores;
mod states;
mod store;

pub use cuts::{Cut, CutFile, CutFiles, FlushRule, LiveFiles};
pub use errors::StoreError;
pub use events::{Event, Which};
pub use lane_laws::{
    Entry, a_lane_sees_the_commits_before_it, a_lanes_commits_stand_in_its_order,
    a_reading_shows_the_writes_before_it, later_writes_have_greater_sequences,
};
pub use laws::{
    a_checkpoint_never_changes, a_checkpoint_shows_its_beginning, a_crash_leaves_a_prefix,
    a_finished_checkpoint_has_its_pins_batches, a_pin_keeps_what_it_was_given, a_pin_shows_its_cut,
    a_pinned_file_never_changes, a_reply_is_of_its_event, a_run_goes_on_by_one_step,
    accepted_batches_form_one_list, an_opening_finds_a_prefix, counts_go_with_lists,
    durable_batches_only_grow, durable_batches_outlive_a_crash, each_refusal_has_its_cause,
    lives_leave_prefixes, sequences_count_operations,
};
pub use replies::{Begun, Deleted, Flushed, JobStart, Reply, Shown, Stepped};
pub use states::{FolderRead, Holder, LiveTable, Pin, PinnedFile, State};
pub use store::PlainStore;
