//! Why bytes give no edit, and why a version takes none.
ghost use Rattle.std.specs.Prelude.{◌≡◌};

use lsm_bytes::{Malformed, NoMemory};
use std::alloc::{AllocError, AllocFailed};

/// Why bytes gave no edit.
#[derive(Clone, Copy, Debug, PartialEq, Eq)]
pub enum EditError {
    /// The bytes aren't an edit's text. With the byte at `place` no edit's text goes on, and before it one still
    /// could; where `place` is the bytes' length, they end early.
    BadEdit { place: usize },
    /// Memory was wanted and not there.
    NoMemory,
}

impl From<Malformed> for EditError {
    ghost use Rattle.lsm_version.specs.declared.refusals.EditError.TheVariants.{BadEdit};

    ghost from_gives = { λ e r. r ≡ BadEdit e.place };

    fn from(fault: Malformed) -> Self {
        EditError::BadEdit { place: fault.place }
    }
}

impl From<NoMemory> for EditError {
    ghost use Rattle.lsm_version.specs.declared.refusals.EditError.TheVariants.{NoMemory};

    ghost from_gives = { λ _ r. r ≡ NoMemory };

    fn from(_: NoMemory) -> Self {
        EditError::NoMemory
    }
}

impl<T: Drop> From<AllocFailed<T>> for EditError {
    ghost use Rattle.lsm_version.specs.declared.refusals.EditError.TheVariants.{NoMemory};

    ghost from_gives = { λ _ r. r ≡ NoMemory };

    fn from(_: AllocFailed<T>) -> Self {
        EditError::NoMemory
    }
}

/// Why an edit was refused. The version is as it was.
#[derive(Clone, Copy, Debug, PartialEq, Eq)]
pub enum ApplyError {
    /// A table that is dropped isn't at its level, or the number of one that is added is taken. The place is 0.
    BadEdit { place: usize },
    /// With the edit, two tables of a level from 1 on would have user keys in both their ranges. Of such pairs it is
    /// the one of the least level, then of the least smaller number, then of the least greater number; `left` is the
    /// smaller number.
    BadLevels { level: u8, left: u64, right: u64 },
    /// Memory was wanted and not there.
    NoMemory,
}

impl From<NoMemory> for ApplyError {
    ghost use Rattle.lsm_version.specs.declared.refusals.ApplyError.TheVariants.{NoMemory};

    ghost from_gives = { λ _ r. r ≡ NoMemory };

    fn from(_: NoMemory) -> Self {
        ApplyError::NoMemory
    }
}

impl From<AllocError> for ApplyError {
    ghost use Rattle.lsm_version.specs.declared.refusals.ApplyError.TheVariants.{NoMemory};

    ghost from_gives = { λ _ r. r ≡ NoMemory };

    fn from(_: AllocError) -> Self {
        ApplyError::NoMemory
    }
}

impl<T: Drop> From<AllocFailed<T>> for ApplyError {
    ghost use Rattle.lsm_version.specs.declared.refusals.ApplyError.TheVariants.{NoMemory};

    ghost from_gives = { λ _ r. r ≡ NoMemory };

    fn from(_: AllocFailed<T>) -> Self {
        ApplyError::NoMemory
    }
}
