//! Why a creation stopped.
ghost use Rattle.std.specs.Prelude.{◌≡◌};
ghost use Rattle.bk_engine.specs.Creating.{error_of, error_by, halt_of};
ghost use Rattle.bk_engine.specs.declared.stopping.Stop.TheVariants as stops;

use crate::errors::EngineError;
use lsm_bytes::NoMemory;
use lsm_disk::{DiskCall, DiskError, DiskRefusal, Halt, ViewFault};
use lsm_names::Path;
use std::alloc::AllocError;

/// Why a creation stopped.
#[derive(Clone, Copy, Debug, PartialEq, Eq)]
pub(crate) enum Stop {
    /// This disk call was refused.
    Refused(DiskRefusal),
    /// A view could not be read.
    Source,
    NoMemory,
}

impl From<DiskRefusal> for Stop {
    ghost from_gives = { λ refusal s. s ≡ stops.Refused refusal };

    fn from(refusal: DiskRefusal) -> Self {
        Stop::Refused(refusal)
    }
}

impl From<ViewFault> for Stop {
    ghost from_gives = { λ _ s. s ≡ stops.Source };

    fn from(_: ViewFault) -> Self {
        Stop::Source
    }
}

impl From<NoMemory> for Stop {
    ghost from_gives = { λ _ s. s ≡ stops.NoMemory };

    fn from(_: NoMemory) -> Self {
        Stop::NoMemory
    }
}

impl From<AllocError> for Stop {
    ghost from_gives = { λ _ s. s ≡ stops.NoMemory };

    fn from(_: AllocError) -> Self {
        Stop::NoMemory
    }
}

/// This call was refused.
pub(crate) fn stopped(call: DiskCall, path: &Path, why: DiskError) -> Stop
    ensures { result ≡ stops.Refused (record { at = record { call = call; path = path.now }; why = why }) }
{
    Stop::Refused(DiskRefusal {
        at: Halt { call, path: *path },
        why,
    })
}

/// What a call answers that stopped.
pub(crate) fn error_of(stop: &Stop) -> EngineError
    ensures { result ≡ error_of stop.now }
{
    match stop {
        Stop::Source => EngineError::SourceFault,
        Stop::NoMemory => EngineError::NoMemory,
        Stop::Refused(refusal) => error_by(&refusal.at, refusal.why),
    }
}

/// What a refusal of a disk call is answered by.
pub(crate) fn error_by(at: &Halt, why: DiskError) -> EngineError
    ensures { result ≡ error_by at.now why }
{
    match why {
        DiskError::Fault => EngineError::DiskFault,
        DiskError::NoMemory => EngineError::NoMemory,
        DiskError::NotThere
        | DiskError::Exists
        | DiskError::NoLinks
        | DiskError::NotEmpty
        | DiskError::Short { .. } => EngineError::Changed {
            call: at.call,
            path: at.path,
        },
    }
}

/// The disk call that halts the engine, if it does.
pub(crate) fn halt_of(stop: &Stop) -> Option<Halt>
    ensures { result ≡ halt_of stop.now }
{
    match stop {
        Stop::Source | Stop::NoMemory => None,
        Stop::Refused(refusal) => match refusal.why {
            DiskError::NoMemory => None,
            DiskError::Fault
            | DiskError::NotThere
            | DiskError::Exists
            | DiskError::NoLinks
            | DiskError::NotEmpty
            | DiskError::Short { .. } => Some(refusal.at),
        },
    }
}
