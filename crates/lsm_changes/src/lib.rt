//! The files of a disk in memory and the record of the changes made to them and to the names,
//! and what a crash leaves of each.
#![tactic(auto)]

mod file;
mod history;

pub use file::{
    MemFile, append_at, copy_all, cut_all, front_at, is_synced_at, len_at, push_room, sync_at,
};
pub use history::{History, What};
