//! Why a folder that stands isn't opened.

use lsm_disk::DiskRefusal;
use lsm_recover::FolderError;

/// Why a folder that stands isn't opened.
#[derive(Clone, Copy, Debug, PartialEq, Eq)]
pub enum OpenError {
    /// It could not be read, or memory was wanting.
    Folder(FolderError),
    /// A disk call that writes was refused.
    Disk(DiskRefusal),
    /// With `adding` tables there would be more than 4,096 live ones, where `live` stay.
    TablesFull { live: u32, adding: u32 },
    /// A file's number is wanted, and `next` is past the last one, 2^56 - 2.
    NumbersFull { next: u64 },
}
