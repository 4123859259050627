//! Why a text is no meta.
ghost use Rattle.std.specs.Prelude.{◌≡◌};

use lsm_bytes::NoMemory;
use std::alloc::{AllocError, AllocFailed};
use thiserror::Error;

/// What is wrong on a line. Where several causes meet on one line, the first of them in this order is named.
#[derive(Clone, Copy, Debug, Error, PartialEq, Eq)]
pub enum MetaWhy {
    /// The text begins with `schema_version `: it is a meta of another form.
    #[error("SchemaTwo")]
    SchemaTwo,
    /// The text ends where the line should begin, or the line has no newline.
    #[error("Ending")]
    Ending,
    /// The timestamp or the sequence isn't a decimal number below 2^64 without sign or zeros in front.
    #[error("Number")]
    Number,
    /// The metadata aren't 1 to 1,024 bytes in lower-case hexadecimal digits.
    #[error("Metadata")]
    Metadata,
    /// The number of files isn't 2 to 10,000.
    #[error("Count")]
    Count,
    /// The line isn't a path of this backup, ` crc32 ` and a decimal number below 2^32.
    #[error("File")]
    File,
    /// The path doesn't come after the one before.
    #[error("Order")]
    Order,
    /// There isn't exactly one `CURRENT` and one manifest, or two shared files have one number. The line is the last
    /// file's.
    #[error("Set")]
    Set,
    /// Text follows the last file. The line is the next one.
    #[error("Extra")]
    Extra,
}

/// Why a text was not read.
#[derive(Clone, Copy, Debug, Error, PartialEq, Eq)]
pub enum MetaError {
    /// The text is no meta: its first bad line, counted from 1.
    #[error("bad meta: line {line}, {why}")]
    BadMeta { line: u32, why: MetaWhy },
    #[error("no memory")]
    NoMemory,
}

impl From<NoMemory> for MetaError {
    ghost use Rattle.bk_meta.specs.declared.errors.MetaError.TheVariants.{NoMemory};

    ghost from_gives = { λ _ error. error ≡ NoMemory };

    fn from(_: NoMemory) -> Self {
        MetaError::NoMemory
    }
}

impl From<AllocError> for MetaError {
    ghost use Rattle.bk_meta.specs.declared.errors.MetaError.TheVariants.{NoMemory};

    ghost from_gives = { λ _ error. error ≡ NoMemory };

    fn from(_: AllocError) -> Self {
        MetaError::NoMemory
    }
}

impl<T: Drop> From<AllocFailed<T>> for MetaError {
    ghost use Rattle.bk_meta.specs.declared.errors.MetaError.TheVariants.{NoMemory};

    ghost from_gives = { λ _ error. error ≡ NoMemory };

    fn from(_: AllocFailed<T>) -> Self {
        MetaError::NoMemory
    }
}
