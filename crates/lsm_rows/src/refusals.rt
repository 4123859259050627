//! Why a batch takes no further operation.
ghost use Rattle.std.specs.Prelude.{◌≡◌};
ghost use Rattle.lsm_rows.specs.declared.refusals.BatchRefusal.{BatchRefusal};

use lsm_bytes::NoMemory;
use std::alloc::{AllocError, AllocFailed};

/// What of a batch passes its limit. They are tested in this order.
#[derive(Clone, Copy, Debug, PartialEq, Eq)]
pub enum What {
    /// The key's length: at most 65,535 bytes.
    Key,
    /// The value's length: at most 1,048,576 bytes.
    Value,
    /// The number of operations: at most 1,024.
    Count,
    /// The length of the batch's text: at most 4,194,304 bytes.
    Bytes,
}

/// Why an operation wasn't added. The batch is as it was.
#[derive(Clone, Copy, Debug, PartialEq, Eq)]
pub enum BatchRefusal {
    /// With the operation this would have the size `kept`, in bytes or operations, and `limit` is the most.
    BatchTooLarge { what: What, kept: u64, limit: u64 },
    /// Memory was wanted and not there.
    NoMemory,
}

impl From<NoMemory> for BatchRefusal {
    ghost use Rattle.lsm_rows.specs.declared.refusals.BatchRefusal.TheVariants.{NoMemory};

    ghost from_gives = { λ _ r. r ≡ NoMemory };

    fn from(_: NoMemory) -> Self {
        BatchRefusal::NoMemory
    }
}

impl From<AllocError> for BatchRefusal {
    ghost use Rattle.lsm_rows.specs.declared.refusals.BatchRefusal.TheVariants.{NoMemory};

    ghost from_gives = { λ _ r. r ≡ NoMemory };

    fn from(_: AllocError) -> Self {
        BatchRefusal::NoMemory
    }
}

impl<T: Drop> From<AllocFailed<T>> for BatchRefusal {
    ghost use Rattle.lsm_rows.specs.declared.refusals.BatchRefusal.TheVariants.{NoMemory};

    ghost from_gives = { λ _ r. r ≡ NoMemory };

    fn from(_: AllocFailed<T>) -> Self {
        BatchRefusal::NoMemory
    }
}
