//! Why a backup was not restored.
ghost use Rattle.std.specs.Prelude.{◌≡◌};
ghost use Rattle.bk_restore.specs.declared.errors.RestoreError.TheVariants as restore_error;

use lsm_bytes::NoMemory;
use lsm_disk::{DiskCall, Halt, ViewFault};
use lsm_names::{Folder, Path};
use std::alloc::{AllocError, AllocFailed};
use thiserror::Error;

/// Why a backup was not restored. Names are paths on the backup disk.
#[derive(Clone, Copy, Debug, Error, PartialEq, Eq)]
pub enum RestoreError {
    /// The backup disk failed.
    #[error("DiskFault")]
    DiskFault,
    /// The destination failed.
    #[error("DestFault")]
    DestFault,
    /// An earlier disk call of the destination, `first`, failed or found its disk changed.
    /// Nothing was done.
    #[error("Halted")]
    Halted { first: Halt },
    /// The name of the destination's folder is taken.
    #[error("DestinationExists {dir}")]
    DestinationExists { dir: Folder },
    /// A file that the meta names isn't there.
    #[error("Missing {name}")]
    Missing { name: Path },
    /// This disk call, of the backup disk or of the destination, found its disk changed by
    /// others.
    #[error("Changed {path}")]
    Changed { call: DiskCall, path: Path },
    /// A shared file has another length in bytes, `found`, than its name says.
    #[error("WrongSize {name} {kept} {found}")]
    WrongSize { name: Path, kept: u64, found: u64 },
    /// A file has another checksum, `found`, than its meta says.
    #[error("Damaged {name} {kept} {found}")]
    Damaged { name: Path, kept: u32, found: u32 },
    /// Memory was wanted and not there.
    #[error("NoMemory")]
    NoMemory,
}

impl From<ViewFault> for RestoreError {
    ghost from_gives = { λ _ e. e ≡ restore_error.DiskFault };

    fn from(_: ViewFault) -> Self {
        RestoreError::DiskFault
    }
}

impl From<NoMemory> for RestoreError {
    ghost from_gives = { λ _ e. e ≡ restore_error.NoMemory };

    fn from(_: NoMemory) -> Self {
        RestoreError::NoMemory
    }
}

impl From<AllocError> for RestoreError {
    ghost from_gives = { λ _ e. e ≡ restore_error.NoMemory };

    fn from(_: AllocError) -> Self {
        RestoreError::NoMemory
    }
}

impl<T: Drop> From<AllocFailed<T>> for RestoreError {
    ghost from_gives = { λ _ e. e ≡ restore_error.NoMemory };

    fn from(_: AllocFailed<T>) -> Self {
        RestoreError::NoMemory
    }
}
