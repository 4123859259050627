//! A batch's text, read: exactly the texts of the grammar, or the first place at which a text leaves it.
ghost use Rattle.std.specs.Prelude.{◌≡◌, ◌+◌, ◌-◌, ◌*◌, ◌<◌, ◌≤◌, ◌^◌, ◌∷◌, ◌++◌, [], length, slice_index, IfOk, IfErr};
ghost use Rattle.lsm_rows.specs.Decoding.{IsBatchText, IsBad, IsHeaderAt, IsRead, IsOpIn, IsOpAt, IsBadAt};

use crate::header::read_header;
use crate::lengths::{longest, read_sized};
use crate::limits::{HEADER, MAX_BYTES, MAX_KEY, MAX_VALUE};
use crate::{Batch, Op};
use lsm_bytes::{Bytes, Malformed, NoMemory};
use std::alloc::{AllocFailed, Global};

// The kind bytes.
const DELETE: u8 = 0;

const PUT: u8 = 1;

// A put of an empty key and an empty value has a kind byte and two lengths, a delete one length less.
const SHORTEST_PUT: usize = 3;

const SHORTEST_DELETE: usize = 2;

/// Why bytes gave no batch.
#[derive(Clone, Copy, Debug, PartialEq, Eq)]
pub enum BatchError {
    /// The bytes aren't a batch's text. With the byte at `place` no batch's text goes on, and before it one still
    /// could; where `place` is the bytes' length, they end early.
    BadBatch { place: usize },
    /// Memory was wanted and not there.
    NoMemory,
}

impl From<Malformed> for BatchError {
    ghost use Rattle.lsm_rows.specs.declared.decoding.BatchError.TheVariants.{BadBatch};

    ghost from_gives = { λ e r. r ≡ BadBatch e.place };

    fn from(fault: Malformed) -> Self {
        BatchError::BadBatch { place: fault.place }
    }
}

impl From<NoMemory> for BatchError {
    ghost use Rattle.lsm_rows.specs.declared.decoding.BatchError.TheVariants.{NoMemory};

    ghost from_gives = { λ _ r. r ≡ NoMemory };

    fn from(_: NoMemory) -> Self {
        BatchError::NoMemory
    }
}

impl<T: Drop> From<AllocFailed<T>> for BatchError {
    ghost use Rattle.lsm_rows.specs.declared.decoding.BatchError.TheVariants.{NoMemory};

    ghost from_gives = { λ _ r. r ≡ NoMemory };

    fn from(_: AllocFailed<T>) -> Self {
        BatchError::NoMemory
    }
}

/// The first sequence and the batch that the bytes are the text of. It takes memory for what it has read alone,
/// whatever count or length the bytes claim.
pub fn decode_batch(alloc: Global, bytes: &[u8]) -> Result<(u64, Batch), BatchError>
    ensures ok { IfOk result (λ r. IsBatchText bytes.now r.0 r.1) }
    ensures bad { IfErr result (λ e. IsBad bytes.now e) }
{
    let (first, count) = header_of(bytes)?;
    let (ops, end) = read_ops(alloc, bytes, first, count)?;
    if end < bytes.len() {
        return Err(BatchError::BadBatch { place: end });
    }
    Ok((first, Batch::from_ops(alloc, ops, end)))
}

// The first sequence and the count.
fn header_of(bytes: &[u8]) -> Result<(u64, usize), BatchError>
    ensures ok { IfOk result (λ r. IsHeaderAt bytes.now r.0 r.1) }
    ensures bad { IfErr result (λ e. IsBad bytes.now e) }
{
    Ok(read_header(bytes)?)
}

// The operations behind the header, and the place behind them. Each leaves room for the shortest texts of those
// behind it.
fn read_ops(
    alloc: Global,
    bytes: &[u8],
    first: u64,
    count: usize,
) -> Result<(Vec<Op>, usize), BatchError>
    requires { IsHeaderAt bytes.now first count }
    ensures ok { IfOk result (λ r. IsRead bytes.now first count count r.0.items r.1) }
    ensures bad { IfErr result (λ e. IsBad bytes.now e) }
{
    let mut ops = Vec::new(alloc);
    let mut place = HEADER;
    for done in 0..count {
        let room = MAX_BYTES - place - SHORTEST_DELETE * (count - done - 1);
        let (op, next) = read_op(alloc, bytes, place, room)?;
        ops.push(op)?;
        place = next;
    }
    Ok((ops, place))
}

// The operation whose text stands from a place on, of at most `room` bytes, and the place behind it.
fn read_op(alloc: Global, bytes: &[u8], at: usize, room: usize) -> Result<(Op, usize), BatchError>
    requires at { at ≤ length bytes.now }
    requires some { 2 ≤ room }
    ensures ok { IfOk result (λ r. IsOpAt bytes.now at room r.0 r.1) }
    ensures bad { IfErr result (λ e. IsBadAt (IsOpIn room) bytes.now at e) }
{
    if at == bytes.len() {
        return Err(BatchError::BadBatch { place: at });
    }
    let kind = bytes[at];
    if kind == DELETE {
        read_delete(alloc, bytes, at, room)
    } else if kind == PUT && room >= SHORTEST_PUT {
        read_put(alloc, bytes, at, room)
    } else {
        Err(BatchError::BadBatch { place: at })
    }
}

// A delete, whose kind byte stands at the place.
fn read_delete(
    alloc: Global,
    bytes: &[u8],
    at: usize,
    room: usize,
) -> Result<(Op, usize), BatchError>
    requires at { at < length bytes.now }
    requires kind { slice_index bytes.now at ≡ 0 }
    requires room { 2 ≤ room }
    ensures ok { IfOk result (λ r. IsOpAt bytes.now at room r.0 r.1) }
    ensures bad { IfErr result (λ e. IsBadAt (IsOpIn room) bytes.now at e) }
{
    let most = longest(MAX_KEY, room - 1);
    let (key, next) = read_sized(bytes, at + 1, most)?;
    let key = Bytes::from_slice(alloc, key)?;
    Ok((Op::Delete { key }, next))
}

// A put, whose kind byte stands at the place. Its value takes one byte at least.
fn read_put(alloc: Global, bytes: &[u8], at: usize, room: usize) -> Result<(Op, usize), BatchError>
    requires at { at < length bytes.now }
    requires kind { slice_index bytes.now at ≡ 1 }
    requires room { 3 ≤ room }
    ensures ok { IfOk result (λ r. IsOpAt bytes.now at room r.0 r.1) }
    ensures bad { IfErr result (λ e. IsBadAt (IsOpIn room) bytes.now at e) }
{
    let most_key = longest(MAX_KEY, room - 2);
    let (key, value_at) = read_sized(bytes, at + 1, most_key)?;
    let most_value = longest(MAX_VALUE, room - (value_at - at));
    let (value, next) = read_sized(bytes, value_at, most_value)?;
    let key = Bytes::from_slice(alloc, key)?;
    let value = Bytes::from_slice(alloc, value)?;
    Ok((Op::Put { key, value }, next))
}
