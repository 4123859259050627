//! The rows that a data block has of a key.
ghost use Rattle.std.specs.Prelude.{◌≡◌, IfOk};
ghost use Rattle.lsm_table.specs.Searching.{IsRowOf, IsValue};

use lsm_block::Block;
use lsm_bytes::{Bytes, NoMemory};
use lsm_rows::{InternalParts, Kind, Row, parse_internal_key};
use std::alloc::Global;

/// The newest row that the block has of a user key; None exactly where it has none.
pub fn row_of(alloc: Global, block: &Block, key: &[u8]) -> Result<Option<Row>, NoMemory>
    ensures { IfOk result (λ row. IsRowOf block.now key.now row) }
{
    let Some((found, value)) = block.seek_user(key) else {
        return Ok(None);
    };
    let Some(
        InternalParts {
            key: user,
            sequence,
            kind,
        },
    ) = parse_internal_key(found)
    else {
        return Ok(None);
    };
    if user != key {
        return Ok(None);
    }
    let key = Bytes::from_slice(alloc, key)?;
    let value = value_of(alloc, kind, value)?;
    Ok(Some(Row {
        key,
        sequence,
        value,
    }))
}

/// The value of a row whose entry has these bytes.
pub(crate) fn value_of(alloc: Global, kind: Kind, bytes: &[u8]) -> Result<Option<Bytes>, NoMemory>
    ensures { IfOk result (λ value. IsValue kind bytes.now value) }
{
    match kind {
        Kind::Put => Ok(Some(Bytes::from_slice(alloc, bytes)?)),
        Kind::Delete => Ok(None),
    }
}
