//! Batches: their limits, their text, and where another text is refused.
ghost use Rattle.std.specs.Prelude.{◌≤◌, ◌+◌, ◌^◌, length};

use crate::claims::{Stopped, sure};
use lsm_bytes::Bytes;
use lsm_rows::{Batch, BatchError, BatchRefusal, Op, What, decode_batch, encode_batch};
use std::alloc::Global;

// The put of `a` with the value `1`, at the sequence 1.
const PUT: &[u8] = b"\x01\0\0\0\0\0\0\0\x01\0\0\0\x01\x01a\x011";

// That put and the delete of `bc`, from the sequence 0x01020304 on.
const PUT_AND_DELETE: &[u8] = b"\x04\x03\x02\x01\0\0\0\0\x02\0\0\0\x01\x01a\x011\0\x02bc";

// The same two, from the sequence 7 on.
const FROM_SEVEN: &[u8] = b"\x07\0\0\0\0\0\0\0\x02\0\0\0\x01\x01a\x011\0\x02bc";

// Adds a put, or a delete where there is no value.
fn add(batch: &mut Batch, key: &[u8], value: Option<&[u8]>) -> Result<(), BatchRefusal> {
    match value {
        Some(value) => batch.put(key, value),
        None => batch.delete(key),
    }
}

// The text of a batch with operations.
fn encoded(alloc: Global, first: u64, batch: &Batch) -> Result<Bytes, Stopped> {
    let count = batch.len();
    if count == 0 || count >= 1 << 32 || first >= 1 << 32 {
        return Err(Stopped);
    }
    Ok(encode_batch(alloc, first, batch)?)
}

fn decoded(alloc: Global, text: &[u8]) -> Result<(u64, Batch), BatchError> {
    decode_batch(alloc, text)
}

// Whether the batch has this text.
fn has_text(alloc: Global, first: u64, batch: &Batch, text: &[u8]) -> Result<bool, Stopped> {
    let found = encoded(alloc, first, batch)?;
    Ok(found.as_slice() == text)
}

// Whether a batch has these texts, as a put and a delete come in.
fn has_two_texts(alloc: Global, batch: &mut Batch) -> Result<bool, Stopped> {
    add(batch, b"a", Some(b"1"))?;
    let put = has_text(alloc, 1, batch, PUT)?;
    add(batch, b"bc", None)?;
    Ok(put && has_text(alloc, 0x0102_0304, batch, PUT_AND_DELETE)?)
}

fn two_texts(alloc: Global) -> Result<bool, Stopped> {
    let mut batch = Batch::new(alloc);
    has_two_texts(alloc, &mut batch)
}

fn is_written_again(alloc: Global) -> Result<bool, Stopped> {
    let (first, batch) = decoded(alloc, FROM_SEVEN)?;
    if first != 7 || batch.len() != 2 {
        return Ok(false);
    }
    has_text(alloc, first, &batch, FROM_SEVEN)
}

fn is_put(op: &Op, put_key: &[u8], put_value: &[u8]) -> bool {
    match op {
        Op::Put { key, value } => key.as_slice() == put_key && value.as_slice() == put_value,
        Op::Delete { key: _ } => false,
    }
}

fn first_is_put(batch: &Batch, key: &[u8], value: &[u8]) -> bool {
    match batch.ops().first() {
        Some(op) => is_put(op, key, value),
        None => false,
    }
}

fn sizes(batch: &Batch) -> (usize, usize, bool) {
    (batch.len(), batch.text_len(), batch.is_empty())
}

fn tells_its_put(batch: &mut Batch) -> Result<bool, Stopped> {
    add(batch, b"a", Some(b"1"))?;
    Ok(sizes(batch) == (1, PUT.len(), false) && first_is_put(batch, b"a", b"1"))
}

fn tells_its_size(alloc: Global) -> Result<bool, Stopped> {
    let mut batch = Batch::new(alloc);
    let none = sizes(&batch).2;
    Ok(none && tells_its_put(&mut batch)?)
}

/// How many operations, how long their key and their value are, and what the last of them passes
/// with its size and its limit.
type Limit = (u32, usize, Option<usize>, Option<(What, u64, u64)>);

#[rattlefmt::skip]
const LIMITS: &[Limit] = &[
    (1, 65_535, Some(1_048_576), None),
    (1, 65_536, Some(1_048_577), Some((What::Key, 65_536, 65_535))),
    (1, 1, Some(1_048_577), Some((What::Value, 1_048_577, 1_048_576))),
    (1024, 0, None, None),
    (1025, 0, None, Some((What::Count, 1025, 1024))),
    (4, 1, Some(1_048_576), Some((What::Bytes, 4_194_340, 4_194_304))),
];

// What an operation gives that passes this, or nothing.
fn wanted(passed: Option<(What, u64, u64)>) -> Result<(), BatchRefusal> {
    match passed {
        Some((what, kept, limit)) => Err(BatchRefusal::BatchTooLarge { what, kept, limit }),
        None => Ok(()),
    }
}

// What the last of so many operations of this key and value gives.
fn filled(alloc: Global, times: u32, key: &[u8], value: Option<&[u8]>) -> Result<(), BatchRefusal> {
    let mut batch = Batch::new(alloc);
    for _time in 0..times {
        add(&mut batch, key, value)?;
    }
    Ok(())
}

// The first bytes, so many.
fn front(bytes: &[u8], len: usize) -> &[u8] {
    match bytes.get(..len) {
        Some(front) => front,
        None => bytes,
    }
}

fn is_kept(alloc: Global, long: &[u8], limit: &Limit) -> bool {
    let (times, key, value, passed) = *limit;
    let key = front(long, key);
    let found = match value {
        Some(len) => filled(alloc, times, key, Some(front(long, len))),
        None => filled(alloc, times, key, None),
    };
    found == wanted(passed)
}

fn are_kept(alloc: Global, long: &[u8]) -> bool {
    for limit in LIMITS {
        if !is_kept(alloc, long, limit) {
            return false;
        }
    }
    true
}

fn limits_are_kept(alloc: Global) -> Result<bool, Stopped> {
    let long = times_over(alloc, &[7u8; 1_024], 1_025)?;
    Ok(are_kept(alloc, long.as_slice()))
}

// Bytes so many times over.
fn times_over(alloc: Global, bytes: &[u8], times: u32) -> Result<Bytes, Stopped> {
    let mut out = Bytes::new(alloc);
    for _time in 0..times {
        out.extend_from_slice(bytes)?;
    }
    Ok(out)
}

const REFUSALS: &[(&'static [u8], usize)] = &[
    (b"", 0),
    (b"\x01\0\0\0\0\0\0\0\x01\0", 10),
    (b"\x01\0\0\0\0\0\0\x01\x01\0\0\0", 7),
    (b"\x01\0\0\0\0\0\0\0\0\0\0\0", 9),
    (b"\x01\0\0\0\0\0\0\0\x01\x04\0\0", 9),
    (b"\x01\0\0\0\0\0\0\0\x01\0\x01\0", 10),
    (b"\xff\xff\xff\xff\xff\xff\xff\0\x02\0\0\0", 8),
    (b"\x01\0\0\0\0\0\0\0\x01\0\0\0\x02\x01a", 12),
    (b"\x01\0\0\0\0\0\0\0\x01\0\0\0\0\x80\0", 14),
    (b"\x01\0\0\0\0\0\0\0\x01\0\0\0\0\x80\x80\x04", 15),
    (b"\x01\0\0\0\0\0\0\0\x01\0\0\0\0\x02a", 15),
    (b"\x01\0\0\0\0\0\0\0\x01\0\0\0\x01\x01a\x011\0", 17),
];

fn is_refused_at(alloc: Global, text: &[u8], place: usize) -> bool {
    match decoded(alloc, text) {
        Ok(_) => false,
        Err(refused) => refused == BatchError::BadBatch { place },
    }
}

fn refusals_name_their_places(alloc: Global) -> bool {
    for (text, place) in REFUSALS {
        if !is_refused_at(alloc, text, *place) {
            return false;
        }
    }
    true
}

#[test]
fn each_limit_refuses_with_its_size(rt: HostRuntime) {
    sure(&rt, limits_are_kept(rt.alloc()));
}

#[test]
fn a_put_and_a_delete_have_this_text(rt: HostRuntime) {
    sure(&rt, two_texts(rt.alloc()));
}

#[test]
fn a_written_batch_is_read_again(rt: HostRuntime) {
    sure(&rt, is_written_again(rt.alloc()));
}

#[test]
fn a_batch_refusal_names_the_first_wrong_byte(rt: HostRuntime) {
    sure(&rt, Ok(refusals_name_their_places(rt.alloc())));
}

#[test]
fn a_batch_tells_its_size(rt: HostRuntime) {
    sure(&rt, tells_its_size(rt.alloc()));
}
