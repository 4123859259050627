//! Internal keys.
ghost use Rattle.std.specs.Prelude.{◌<◌, ◌^◌};

use crate::claims::{Stopped, sure};
use lsm_rows::{InternalKey, InternalParts, Kind, compare_internal_keys, parse_internal_key};
use std::alloc::Global;
use std::cmp::Ordering;

/// The internal key of a user key's row.
pub fn key(alloc: Global, user: &[u8], sequence: u64, kind: Kind) -> Result<InternalKey, Stopped> {
    if sequence >= 1 << 56 {
        return Err(Stopped);
    }
    Ok(InternalKey::new(alloc, user, sequence, kind)?)
}

// The put `a` with the sequence 1.
fn put(alloc: Global) -> Result<InternalKey, Stopped> {
    key(alloc, b"a", 1, Kind::Put)
}

// The delete `a` with the sequence 2.
fn delete(alloc: Global) -> Result<InternalKey, Stopped> {
    key(alloc, b"a", 2, Kind::Delete)
}

fn is_before(first: &InternalKey, second: &InternalKey) -> bool {
    first < second
}

fn is_same(first: &InternalKey, second: &InternalKey) -> bool {
    first == second
}

fn compared(first: &InternalKey, second: &InternalKey) -> Ordering {
    compare_internal_keys(first.as_slice(), second.as_slice())
}

fn put_has_bytes(alloc: Global) -> Result<bool, Stopped> {
    Ok(put(alloc)?.as_slice() == b"a\x01\x01\0\0\0\0\0\0".as_slice())
}

fn delete_has_bytes(alloc: Global) -> Result<bool, Stopped> {
    Ok(delete(alloc)?.as_slice() == b"a\0\x02\0\0\0\0\0\0".as_slice())
}

// Whether the first key comes before the second.
fn are_in_order(first: &InternalKey, second: &InternalKey) -> bool {
    is_before(first, second)
        && compared(first, second) == Ordering::Less
        && compared(second, first) == Ordering::Greater
        && is_same(second, second)
        && !is_same(second, first)
}

// Whether the delete comes before the put.
fn delete_is_before(alloc: Global, put: &InternalKey) -> Result<bool, Stopped> {
    let delete = delete(alloc)?;
    Ok(are_in_order(&delete, put))
}

fn are_compared(alloc: Global) -> Result<bool, Stopped> {
    let put = put(alloc)?;
    delete_is_before(alloc, &put)
}

// Whether the bytes are the internal key of these.
fn has_parts(bytes: &[u8], user: &[u8], of: u64, wanted: Kind) -> bool {
    match parse_internal_key(bytes) {
        Some(
            InternalParts {
                key,
                sequence,
                kind,
            },
        ) => key == user && sequence == of && kind == wanted,
        None => false,
    }
}

fn is_key(bytes: &[u8]) -> bool {
    match parse_internal_key(bytes) {
        Some(
            InternalParts {
                key: _,
                sequence: _,
                kind: _,
            },
        ) => true,
        None => false,
    }
}

fn are_parsed() -> bool {
    has_parts(b"a\x01\x01\0\0\0\0\0\0", b"a", 1, Kind::Put)
        && has_parts(b"a\0\x02\0\0\0\0\0\0", b"a", 2, Kind::Delete)
        && !is_key(b"a\x01\x01\0\0\0\0")
        && !is_key(b"a\x02\x01\0\0\0\0\0\0")
}

#[test]
fn internal_keys_have_these_bytes(rt: HostRuntime) {
    sure(&rt, put_has_bytes(rt.alloc()));
    sure(&rt, delete_has_bytes(rt.alloc()));
}

#[test]
fn internal_keys_compare_by_key_and_sequence(rt: HostRuntime) {
    sure(&rt, are_compared(rt.alloc()));
}

#[test]
fn internal_keys_are_read_again(rt: HostRuntime) {
    sure(&rt, Ok(are_parsed()));
}
