//! Where rows stand in the order of internal keys.
ghost use Rattle.std.specs.Prelude.{◌≡◌, ◌<◌, ◌≤◌, ◌^◌, ◌+◌, ◌*◌, length, IfOk, IfSome};
ghost use Rattle.std.specs.Option.{option_map};
ghost use Rattle.std.specs.Ordering.{is_lt};
ghost use Rattle.lsm_rows.specs.InternalKeys.{internal_cmp, user_key, trailer, kind_byte};
ghost use Rattle.lsm_block.specs.TableText.{row_entry, kind_of};
ghost use Rattle.lsm_block.specs.Runs.{comes_after};

use lsm_bytes::{Bytes, NoMemory, read_u64};
use lsm_rows::Row;
use std::alloc::Global;
use std::cmp::Ordering;

// The bytes of an internal key behind the user key.
const TRAILER: usize = 8;

/// Whether a row comes after an internal key, if there is one.
pub fn is_after(after: Option<&[u8]>, row: &Row) -> bool
    requires long { IfSome after (λ key. 8 ≤ length key.now) }
    requires below { row.now.sequence < 2 ^ 56 }
    ensures { result ≡ comes_after (option_map (λ key. key.now) after.entry) (row_entry row.now).key }
{
    match after {
        Some(key) => is_behind(key, row),
        None => true,
    }
}

// Whether a row comes after an internal key.
fn is_behind(after: &[u8], row: &Row) -> bool
    requires long { 8 ≤ length after.now }
    requires below { row.now.sequence < 2 ^ 56 }
    ensures { result ≡ is_lt (internal_cmp after.now (row_entry row.now).key) }
{
    match user_key(after).cmp(row.key.as_slice()) {
        Ordering::Less => true,
        Ordering::Equal => number_of(row) < trailer(after),
        Ordering::Greater => false,
    }
}

/// The user key in an internal key.
pub fn user_key(bytes: &[u8]) -> &[u8]
    requires { 8 ≤ length bytes.now }
    ensures { result.now ≡ user_key bytes.now }
{
    bytes.split_at(bytes.len() - TRAILER).0
}

// The number in the last bytes of an internal key.
fn trailer(bytes: &[u8]) -> u64
    requires { 8 ≤ length bytes.now }
    ensures { result ≡ trailer bytes.now }
{
    read_u64(bytes, bytes.len() - TRAILER).unwrap()
}

// The number in the last bytes of a row's internal key.
fn number_of(row: &Row) -> u64
    requires { row.now.sequence < 2 ^ 56 }
    ensures { result ≡ row.now.sequence * 256 + kind_byte (kind_of row.now.value) }
{
    let kind = if row.value.is_some() { 1 } else { 0 };
    row.sequence * 256 + kind
}

/// A second row with the same key, sequence and value.
pub fn copy_of(alloc: Global, row: &Row) -> Result<Row, NoMemory>
    ensures { IfOk result (λ copy. copy ≡ row.now) }
{
    let value = match &row.value {
        Some(value) => Some(value.copy(alloc)?),
        None => None,
    };
    let key = row.key.copy(alloc)?;
    Ok(Row {
        key,
        sequence: row.sequence,
        value,
    })
}
