//! Why shared files were not counted.
ghost use Rattle.std.specs.Prelude.{◌≡◌};

use lsm_names::SharedName;
use std::alloc::AllocFailed;
use thiserror::Error;

/// Why there is no count of shared files.
#[derive(Clone, Copy, Debug, Error, PartialEq, Eq)]
pub enum SharedError {
    /// Two metas give one shared file two checksums: the one of the lower identifier gives `kept`,
    /// the other one `found`.
    #[error("two checksums of a shared file: {kept}, {found}")]
    SharedClash {
        name: SharedName,
        kept: u32,
        found: u32,
    },
    #[error("no memory")]
    NoMemory,
}

impl<T: Drop> From<AllocFailed<T>> for SharedError {
    ghost use Rattle.bk_shared.specs.declared.errors.SharedError.TheVariants.{NoMemory};

    ghost from_gives = { λ _ error. error ≡ NoMemory };

    fn from(_: AllocFailed<T>) -> Self {
        SharedError::NoMemory
    }
}
