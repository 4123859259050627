//! A destination over a disk: one restored folder is built at a time, and `CURRENT` comes last.
#![tactic(auto)]

mod ending;
mod folder_dest;
mod halting;
mod hand;
mod restoring;

pub use folder_dest::FolderDest;
pub use restoring::{Building, Restoring};
