//! Host disk: the files and folders under a folder of the host, as a `Disk`. It tells nothing of
//! what it holds, and counts its faults and refusals.
//!
//! A path leads nowhere outside the root: its components are looked at one by one, and each but the
//! last has to be a folder and no link. A name that is neither a file nor a folder, as a link, is
//! neither. Between the look and the call that follows it another process may change what stands
//! there: the disk is for folders that nobody else writes to at the same time.
#![tactic(auto)]

mod answers;
mod changed;
mod counts;
mod disk;
mod files;
mod handles;
mod place;
mod root;
mod view;
mod write;

pub use disk::HostDisk;
pub use view::HostView;
