//! Internal keys, and what rows have.
ghost use Rattle.std.specs.Prelude.{◌<◌, ◌^◌};

use crate::claims::Stopped;
use lsm_rows::{InternalKey, Kind, Row};
use std::alloc::Global;

/// The internal key of a user key's row.
pub fn key(alloc: Global, user: &[u8], sequence: u64, kind: Kind) -> Result<InternalKey, Stopped> {
    if sequence >= 1 << 56 {
        return Err(Stopped);
    }
    Ok(InternalKey::new(alloc, user, sequence, kind)?)
}

/// Whether a row has this value; None stands for a delete.
pub fn has_value(row: &Row, value: Option<&[u8]>) -> bool {
    match (&row.value, value) {
        (Some(found), Some(value)) => found.as_slice() == value,
        (None, None) => true,
        _ => false,
    }
}
