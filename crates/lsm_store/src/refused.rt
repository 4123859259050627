//! How a store answers for a disk call that was refused.
ghost use Rattle.std.specs.Prelude.{◌≡◌};
ghost use Rattle.lsm_store.specs.Answering.{halt_of, error_of};

use lsm_disk::{DiskError, DiskRefusal, Halt};
use lsm_model::StoreError;

/// The disk call halts the store, but for want of memory.
pub(crate) fn halt_of(refused: &DiskRefusal) -> Option<Halt>
    ensures { result ≡ halt_of refused.now }
{
    match refused.why {
        DiskError::NoMemory => None,
        DiskError::Fault
        | DiskError::NotThere
        | DiskError::Exists
        | DiskError::NoLinks
        | DiskError::NotEmpty
        | DiskError::Short { .. } => Some(refused.at),
    }
}

/// The store's answer: the disk failed, or somebody else changed it, or memory was wanting.
pub(crate) fn error_of(refused: &DiskRefusal) -> StoreError
    ensures { result ≡ error_of refused.now }
{
    match refused.why {
        DiskError::Fault => StoreError::DiskFault,
        DiskError::NoMemory => StoreError::NoMemory,
        DiskError::NotThere
        | DiskError::Exists
        | DiskError::NoLinks
        | DiskError::NotEmpty
        | DiskError::Short { .. } => StoreError::Changed {
            call: refused.at.call,
            path: refused.at.path,
        },
    }
}
