//! The calls of a disk by name, and the answers by which a call is refused.
ghost use Rattle.std.specs.Prelude.{◌≡◌};
ghost use Rattle.lsm_disk.specs.declared.calls.DiskError.TheVariants.{NoMemory};

use lsm_bytes::NoMemory as OutOfMemory;
use lsm_names::Path;
use std::alloc::{AllocError, AllocFailed};

/// How a call of a disk is refused.
#[derive(Clone, Copy, Debug, PartialEq, Eq)]
pub enum DiskError {
    /// The disk failed. A call that changes something has happened or not, and an append may
    /// have added any front of its bytes.
    Fault,
    /// The wanted file or folder, or the folder of a new name, isn't there. A file in a
    /// folder's place counts as not there, and so does a folder in a file's.
    NotThere,
    /// The new name is taken, and this call may not replace what has it.
    Exists,
    /// The disk gives no file a second name.
    NoLinks,
    /// The folder has a name inside.
    NotEmpty,
    /// The file has fewer bytes than were asked for: so many.
    Short { found: u64 },
    /// Memory was wanted and not there.
    NoMemory,
}

impl From<AllocError> for DiskError {
    ghost from_gives = { λ _ e. e ≡ NoMemory };

    fn from(_: AllocError) -> Self {
        DiskError::NoMemory
    }
}

impl<T: Drop> From<AllocFailed<T>> for DiskError {
    ghost from_gives = { λ _ e. e ≡ NoMemory };

    fn from(_: AllocFailed<T>) -> Self {
        DiskError::NoMemory
    }
}

impl From<OutOfMemory> for DiskError {
    ghost from_gives = { λ _ e. e ≡ NoMemory };

    fn from(_: OutOfMemory) -> Self {
        DiskError::NoMemory
    }
}

/// What stands under a name.
#[derive(Clone, Copy, Debug, PartialEq, Eq)]
pub enum Kind {
    File,
    Folder,
}

/// A call of a disk, by its name.
#[derive(Clone, Copy, Debug, PartialEq, Eq)]
pub enum DiskCall {
    Kind,
    List,
    Size,
    Open,
    Create,
    Append,
    Sync,
    Link,
    Rename,
    Unlink,
    MakeFolder,
    RemoveFolder,
    SyncNames,
}

/// A call of a disk with its path. The path of a link or a rename is that of the new name, and
/// that of a `sync_names` is the path of the disk call before it.
#[derive(Clone, Copy, Debug, PartialEq, Eq)]
pub struct Halt {
    pub call: DiskCall,
    pub path: Path,
}

/// What a call of a higher crate answers where one of its disk calls was refused: which call,
/// and how. Where the higher call's own growth was refused, `why` is `NoMemory` and `at` is the
/// disk call that was to come next.
#[derive(Clone, Copy, Debug, PartialEq, Eq)]
pub struct DiskRefusal {
    pub at: Halt,
    pub why: DiskError,
}
