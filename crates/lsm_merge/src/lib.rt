//! Merging sorted runs of rows: each user key comes once, with its newest row. The sources stand
//! in a heap by their next rows, so a row costs a number of comparisons that grows with the
//! logarithm of the number of sources.
#![tactic(auto)]

mod faults;
mod heads;
mod laws;
mod merge;
mod sources;

pub use faults::MergeFault;
pub use heads::Head;
pub use laws::{
    a_lent_source_changes_no_run, a_lent_source_may_gain_rows, a_merge_begins, a_merge_goes_on,
    a_merge_is_refused, a_merge_is_whole, a_new_merge_is_ready, merged_rows_keep_the_contents,
};
pub use merge::Merge;
pub use sources::RowSource;
