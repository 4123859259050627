//! Why a folder could not be read from a disk.
ghost use Rattle.std.specs.Prelude.{◌≡◌};
ghost use Rattle.lsm_recover.specs.Causes.{error_by};

use lsm_bytes::NoMemory as OutOfMemory;
use lsm_disk::{DiskCall, DiskError, DiskRefusal};
use lsm_names::{FileName, Path};

/// Why a folder could not be read from a disk: the first trouble, where `CURRENT` is read first,
/// then the manifest, then the version's tables by their numbers, and then the logs by theirs, each
/// from its start on. Places and lengths are counted in bytes, places from the file's start.
#[derive(Clone, Copy, Debug, PartialEq, Eq)]
pub enum FolderError {
    /// The disk, or a view of it, failed.
    DiskFault,
    /// No folder stands there.
    NoFolder {
        dir: Path,
    },
    /// The folder has no `CURRENT`.
    NoCurrent {
        dir: Path,
    },
    /// A file that is needed isn't there: a disk call for it was refused.
    Missing {
        name: FileName,
    },
    /// A disk call was refused in a way that says that the folder has changed since the call before
    /// it.
    Changed {
        call: DiskCall,
        path: Path,
    },
    /// A table has `found` bytes, and the version says that it has `kept`.
    Short {
        name: FileName,
        kept: u64,
        found: u64,
    },
    /// What begins here is whole, and its checksum differs: the one that it keeps, and the one that
    /// its bytes have, both masked.
    Damaged {
        name: FileName,
        place: u64,
        kept: u32,
        found: u32,
    },
    /// What begins here isn't what the file may hold here.
    Malformed {
        name: FileName,
        place: u64,
    },
    /// A log ends inside the record that begins here, and it isn't the last log.
    TornLog {
        name: FileName,
        place: u64,
    },
    /// A batch's first sequence isn't the expected one, `kept`, but `found`.
    Gap {
        name: FileName,
        kept: u64,
        found: u64,
    },
    /// An edit would leave two tables of a level from 1 on that overlap, `left` with the smaller
    /// number.
    BadLevels {
        level: u8,
        left: u64,
        right: u64,
    },
    /// Memory was wanted and not there.
    NoMemory,
}

impl From<OutOfMemory> for FolderError {
    ghost use Rattle.lsm_recover.specs.declared.errors.FolderError.TheVariants as error;

    ghost from_gives = { λ _ e. e ≡ error.NoMemory };

    fn from(_: OutOfMemory) -> Self {
        FolderError::NoMemory
    }
}

/// How a refused disk call is told, where `missing` says that its file or folder isn't there.
pub fn error_by(missing: FolderError, refused: DiskRefusal) -> FolderError
    ensures { result ≡ error_by missing refused }
{
    let at = refused.at;
    match refused.why {
        DiskError::Fault => FolderError::DiskFault,
        DiskError::NotThere => missing,
        DiskError::Exists | DiskError::NoLinks | DiskError::NotEmpty | DiskError::Short { .. } =>
            FolderError::Changed {
                call: at.call,
                path: at.path,
            },
        DiskError::NoMemory => FolderError::NoMemory,
    }
}
