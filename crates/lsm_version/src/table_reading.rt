//! What an edit's text says of a table, read.
ghost use Rattle.std.specs.Prelude.{◌≡◌, ◌≤◌, length, IfOk, IfErr};
ghost use Rattle.lsm_names.specs.Sessions.{is_session_byte};
ghost use Rattle.lsm_rows.specs.Pieces.{Begins, FaultFrom};
ghost use Rattle.lsm_version.specs.Reading.{IsSessionIn, IsSessionAt, IsKeyIn, IsKeyAt, IsTableIn, IsTableAt, IsBadAt};

use crate::numbers::read_number;
use crate::refusals::EditError;
use crate::tables::TableInfo;
use lsm_bytes::{Bytes, Malformed};
use lsm_names::{SESSION_LENGTH, Session};
use lsm_rows::MAX_KEY;
use std::alloc::Global;

// The bytes behind the user key in an internal key.
const TRAILER: usize = 8;

/// What stands from a place on behind a table's level and number, and the place behind that. It takes memory for
/// what it has read alone, whatever lengths the bytes claim.
pub fn read_table(
    alloc: Global,
    bytes: &[u8],
    at: usize,
    number: u64,
) -> Result<(TableInfo, usize), EditError>
    requires at { at ≤ length bytes.now }
    ensures ok { IfOk result (λ r. IsTableAt bytes.now at r.0 r.1) }
    ensures number { IfOk result (λ r. r.0.number ≡ number) }
    ensures bad { IfErr result (λ e. IsBadAt IsTableIn (Begins IsTableIn) bytes.now at e) }
{
    let session = read_session(bytes, at)?;
    let (size, smallest_at) = read_number(bytes, at + SESSION_LENGTH, 0, u64::MAX)?;
    let (smallest, largest_at) = read_key(bytes, smallest_at)?;
    let (largest, next) = read_key(bytes, largest_at)?;
    let smallest = Bytes::from_slice(alloc, smallest)?;
    let largest = Bytes::from_slice(alloc, largest)?;
    let table = TableInfo {
        number,
        session,
        size,
        smallest,
        largest,
    };
    Ok((table, next))
}

// The session that stands at a place.
fn read_session(bytes: &[u8], at: usize) -> Result<Session, Malformed>
    requires at { at ≤ length bytes.now }
    ensures ok { IfOk result (λ session. IsSessionAt bytes.now at session) }
    ensures fault { IfErr result (λ e. FaultFrom IsSessionIn bytes.now at e.place) }
{
    let rest = bytes.split_at(at).1;
    let mut name = [b'0'; SESSION_LENGTH];
    for i in 0..SESSION_LENGTH {
        if i >= rest.len() || !is_session_byte(rest[i]) {
            return Err(Malformed { place: at + i });
        }
        name[i] = rest[i];
    }
    Ok(Session::new(name).unwrap())
}

// 0-9 and A-Z.
#[tactic(auto, unfolding(lsm_names::specs::Sessions::is_session_byte))]
fn is_session_byte(byte: u8) -> bool
    ensures { result ≡ is_session_byte byte }
{
    byte.is_ascii_digit() || byte.is_ascii_uppercase()
}

// The internal key that stands with its length before it at a place, and the place behind it.
fn read_key(bytes: &[u8], at: usize) -> Result<(&[u8], usize), Malformed>
    requires at { at ≤ length bytes.now }
    ensures ok { IfOk result (λ r. IsKeyAt bytes.now at r.0.now r.1) }
    ensures fault { IfErr result (λ e. FaultFrom IsKeyIn bytes.now at e.place) }
{
    let most = (MAX_KEY + TRAILER) as u64;
    let (len, start) = read_number(bytes, at, TRAILER as u64, most)?;
    let len = len as usize;
    let rest = bytes.split_at(start).1;
    let kind_at = len - TRAILER;
    if kind_at < rest.len() && rest[kind_at] > 1 {
        return Err(Malformed {
            place: start + kind_at,
        });
    }
    if rest.len() < len {
        return Err(Malformed { place: bytes.len() });
    }
    Ok((rest.split_at(len).0, start + len))
}
