//! Compactions: tables are merged into a deeper level, which keeps what they stand for.
#![tactic(auto)]

mod compaction;
mod course;
mod deeper;
mod draft;
mod input;
mod laws;
mod outputs;
mod port;
mod reader;

pub use compaction::{CompactStep, Compaction};
pub use course::{
    ended_compactions_have_made_their_edit, new_compactions_are_under_way,
    steps_keep_compactions_under_way,
};
pub use deeper::Deeper;
pub use draft::Draft;
pub use laws::{
    all_tables_are_closed, compactions_keep_contents, compactions_keep_the_listing,
    compactions_keep_the_order, compactions_lower_the_row_weight, compactions_make_no_rows,
    edits_of_compactions_apply, flushes_leave_inputs_closed, flushes_leave_the_edit,
    listed_tables_are_orderly, orderly_tables_have_own_sequences, picked_inputs_are_closed,
};
pub use outputs::Outputs;
pub use port::{CompactFault, PortFault, TablePort};
