//! The answers of a reader.
use lsm_bytes::{Bytes, NoMemory as OutOfMemory};
use lsm_disk::ViewFault;
use thiserror::Error;

/// What a reader finds where it stands.
#[derive(Debug, Drop)]
pub enum Next {
    /// The payload of the next record.
    Record(Bytes),
    /// The text ends behind a whole record.
    End,
    /// The text ends inside the record that begins at this place.
    Torn { place: u64 },
}

/// Why a reader gives no record. Places are counted in bytes from the start of the view.
#[derive(Clone, Copy, Debug, PartialEq, Eq, Error)]
pub enum FrameError {
    /// The view could not be read. The record may be asked for again.
    #[error("read fault")]
    ReadFault,
    /// The piece here is whole and in its block, and its checksum differs: the one that it keeps, and the one that
    /// its bytes have, both masked.
    #[error("damaged at {place}: checksum {kept}, found {found}")]
    Damaged { place: u64, kept: u32, found: u32 },
    /// Something here is neither a piece in its block nor zeros that end one, or is a piece of a kind that may not
    /// come here.
    #[error("malformed at {place}")]
    Malformed { place: u64 },
    /// Memory was wanted and not there. The record may be asked for again.
    #[error("no memory")]
    NoMemory,
}

/// Why a record could not be read, though nothing is wrong with the text.
#[derive(Clone, Copy, Drop)]
pub(crate) enum Refusal {
    ReadFault,
    NoMemory,
}

impl From<Refusal> for FrameError {
    ghost use Rattle.std.specs.Prelude.{◌≡◌};
    ghost use Rattle.lsm_frame.specs.Refusals.{refused};

    ghost from_gives = { λ refusal e. e ≡ refused refusal };

    fn from(refusal: Refusal) -> Self {
        match refusal {
            Refusal::ReadFault => FrameError::ReadFault,
            Refusal::NoMemory => FrameError::NoMemory,
        }
    }
}

impl From<ViewFault> for Refusal {
    ghost use Rattle.std.specs.Prelude.{◌≡◌};
    ghost use Rattle.lsm_frame.specs.declared.next.Refusal.TheVariants.{ReadFault};

    ghost from_gives = { λ _ e. e ≡ ReadFault };

    fn from(_: ViewFault) -> Self {
        Refusal::ReadFault
    }
}

impl From<OutOfMemory> for Refusal {
    ghost use Rattle.std.specs.Prelude.{◌≡◌};
    ghost use Rattle.lsm_frame.specs.declared.next.Refusal.TheVariants.{NoMemory};

    ghost from_gives = { λ _ e. e ≡ NoMemory };

    fn from(_: OutOfMemory) -> Self {
        Refusal::NoMemory
    }
}
