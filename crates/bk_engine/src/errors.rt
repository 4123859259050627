//! Why a call of an engine was refused.
ghost use Rattle.std.specs.Prelude.{◌≡◌};
ghost use Rattle.bk_engine.specs.declared.errors.EngineError.TheVariants as engine_error;

use bk_meta::MetaWhy;
use lsm_bytes::NoMemory;
use lsm_disk::{DiskCall, Halt};
use lsm_names::{Folder, Path};
use thiserror::Error;

/// Why a call of an engine was refused. Names are paths on the backup disk.
#[derive(Clone, Copy, Debug, Error, PartialEq, Eq)]
pub enum EngineError {
    /// The backup disk failed.
    #[error("DiskFault")]
    DiskFault,
    /// A view that was given could not be read.
    #[error("SourceFault")]
    SourceFault,
    /// The destination failed.
    #[error("DestFault")]
    DestFault,
    /// An earlier disk call, `first`, failed or found the disk changed. Nothing was done.
    #[error("Halted")]
    Halted { first: Halt },
    /// No backup of this identifier is listed.
    #[error("NoSuchBackup {id}")]
    NoSuchBackup { id: u32 },
    /// The text of the backup's meta is none: its first bad line, counted from 1.
    #[error("Unreadable {id} {line} {why}")]
    Unreadable { id: u32, line: u32, why: MetaWhy },
    /// The last identifier, 4,294,967,295, was given.
    #[error("IdsFull")]
    IdsFull,
    /// A file that the meta names isn't there.
    #[error("Missing {name}")]
    Missing { name: Path },
    /// This disk call found the disk changed by others.
    #[error("Changed {path}")]
    Changed { call: DiskCall, path: Path },
    /// A shared file has another length in bytes than its name says.
    #[error("WrongSize {name} {kept} {found}")]
    WrongSize { name: Path, kept: u64, found: u64 },
    /// A file has another checksum than its meta says.
    #[error("Damaged {name} {kept} {found}")]
    Damaged { name: Path, kept: u32, found: u32 },
    /// The name of the destination's folder is taken.
    #[error("DestinationExists {dir}")]
    DestinationExists { dir: Folder },
    /// A file has the name of one of the three folders.
    #[error("StrangeFolder {path}")]
    StrangeFolder { path: Path },
    /// A folder of backups was found, which this engine doesn't read yet.
    #[error("Found {path}")]
    Found { path: Path },
    /// Memory was wanted and not there.
    #[error("NoMemory")]
    NoMemory,
}

impl From<NoMemory> for EngineError {
    ghost from_gives = { λ _ e. e ≡ engine_error.NoMemory };

    fn from(_: NoMemory) -> Self {
        EngineError::NoMemory
    }
}
