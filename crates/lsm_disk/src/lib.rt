//! A disk by its calls: what each one does and answers, and what a crash at any moment may leave.
#![tactic(auto)]

mod calls;
mod dest;
mod disk;
mod laws;
mod listing;
mod view;

pub use calls::{DiskCall, DiskError, DiskRefusal, Halt, Kind};
pub use dest::{Dest, DestError};
pub use disk::Disk;
pub use laws::{
    begun_folder_lacks_current, building_spares_others, built_folder_is_whole,
    bytes_after_appended, bytes_after_created, bytes_of_others, folder_moves_whole,
    free_below_free, kept_after_syncs, kept_file_everywhere, lawful_after_calls, lawful_after_made,
    made_names_stand, reads_as_an_image, spared_file_kept, story_grows_by_one,
};
pub use listing::{Entry, Listing};
pub use view::{View, ViewFault};
