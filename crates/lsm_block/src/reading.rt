//! A block's text, read from its start: entries as long as one stands there that could follow.
ghost use Rattle.std.specs.Prelude.{◌≡◌, ◌≢◌, ℕ, ◌<◌, ◌≤◌, ◌^◌, ◌++◌, ◌↔◌, List, length, drop, IsTrue, IfOk, IfSome, IfNone};
ghost use Rattle.lsm_bytes.specs.Varint.{varint};
ghost use Rattle.lsm_block.specs.BlockText.{shared_len, parts_text, entries_text, restarts_text};
ghost use Rattle.lsm_block.specs.Blocks.{IsKey, AreEntries, AreLongest};
ghost use Rattle.lsm_block.specs.Parts.{last_key, IsPast, AreLengthsAt, ArePartsAt, IsNext};

use crate::entries::{Entry, key_before, shared_with};
use crate::writing::{note_restart, push_count};
use lsm_bytes::{Bytes, NoMemory, read_varint};
use lsm_rows::{InternalParts, compare_internal_keys, parse_internal_key};
use std::alloc::Global;
use std::cmp::Ordering;

// The places of entries are numbers of 4 bytes.
const PLACES: usize = 1 << 32;

/// The entries that bytes begin with, where they end, and the restarts that would end their block.
#[derive(Drop)]
pub struct Front {
    pub entries: Vec<Entry>,
    pub end: usize,
    pub restarts: Bytes,
}

/// Reads entries from the start on, as many as there are.
pub fn read_entries(alloc: Global, bytes: &[u8]) -> Result<Front, NoMemory>
    ensures longest { IfOk result (λ f. AreLongest bytes.now f.entries.items f.end) }
    ensures restarts { IfOk result (λ f. f.restarts ≡ restarts_text f.entries.items) }
{
    let mut entries = Vec::new(alloc);
    let mut restarts = Bytes::new(alloc);
    let mut end = 0;
    while let Some((entry, next)) = read_next(alloc, bytes, end, &entries)? {
        note_restart(&mut restarts, entries.len(), end)?;
        entries.push(entry)?;
        end = next;
    }
    push_count(&mut restarts, entries.len())?;
    Ok(Front {
        entries,
        end,
        restarts,
    })
}

// The entry that stands at a place behind these entries, and the place behind it; None where no entry does that
// could follow them.
fn read_next(
    alloc: Global,
    bytes: &[u8],
    at: usize,
    entries: &[Entry],
) -> Result<Option<(Entry, usize)>, NoMemory>
    requires within { at ≤ length bytes.now }
    requires at { at ≡ length (entries_text entries.now) }
    requires entries { AreEntries entries.now }
    ensures { IfOk result (λ next. IsNext bytes.now at entries.now next) }
{
    let before = key_before(entries);
    let known = before.len();
    let Some(parts) = read_parts(bytes, at) else {
        return Ok(None);
    };
    if parts.shared > known {
        return Ok(None);
    }
    if parts.next >= PLACES {
        return Ok(None);
    }
    let mut key = Bytes::from_slice(alloc, before.split_at(parts.shared).0)?;
    key.extend_from_slice(parts.rest)?;
    if shared_with(entries.len(), before, key.as_slice()) != parts.shared {
        return Ok(None);
    }
    if !may_follow(entries, key.as_slice()) {
        return Ok(None);
    }
    let value = Bytes::from_slice(alloc, parts.value)?;
    Ok(Some((Entry { key, value }, parts.next)))
}

// Whether a key is an internal key past those of the entries.
fn may_follow(entries: &[Entry], key: &[u8]) -> bool
    requires { AreEntries entries.now }
    ensures { IsTrue result ↔ (IsKey key.now × IsPast entries.now key.now) }
{
    let Some(
        InternalParts {
            key: _,
            sequence: _,
            kind: _,
        },
    ) = parse_internal_key(key)
    else {
        return false;
    };
    if entries.is_empty() {
        return true;
    }
    compare_internal_keys(key_before(entries), key) == Ordering::Less
}

// An entry as a block keeps it, and the place behind it.
#[derive(Clone, Copy)]
struct Parts<'a> {
    shared: usize,
    rest: &'a [u8],
    value: &'a [u8],
    next: usize,
}

// The parts of the entry that stands at a place.
fn read_parts(bytes: &[u8], at: usize) -> Option<Parts>
    requires { at ≤ length bytes.now }
    ensures some { IfSome result (λ p. ArePartsAt bytes.now at p.shared p.rest.now p.value.now p.next) }
    ensures none { IfNone result ((shared : ℕ) (rest value more : List ℕ) → shared < 2 ^ 64
        → drop at bytes.now ≢ parts_text shared rest value ++ more) }
{
    if at == bytes.len() {
        return None;
    }
    let lengths = read_lengths(bytes, at)?;
    let behind = bytes.split_at(lengths.next).1;
    if lengths.rest > behind.len() {
        return None;
    }
    let (rest, behind) = behind.split_at(lengths.rest);
    if lengths.value > behind.len() {
        return None;
    }
    Some(Parts {
        shared: lengths.shared,
        rest,
        value: behind.split_at(lengths.value).0,
        next: lengths.next + lengths.rest + lengths.value,
    })
}

// The three lengths with which an entry begins, and the place behind them.
#[derive(Clone, Copy)]
struct Lengths {
    shared: usize,
    rest: usize,
    value: usize,
    next: usize,
}

// The lengths that stand at a place.
fn read_lengths(bytes: &[u8], at: usize) -> Option<Lengths>
    requires { at ≤ length bytes.now }
    ensures some { IfSome result (λ l. AreLengthsAt bytes.now at l.shared l.rest l.value l.next) }
    ensures none { IfNone result ((shared rest value : ℕ) (more : List ℕ) → shared < 2 ^ 64 → rest < 2 ^ 64 → value < 2 ^ 64
        → drop at bytes.now ≢ varint shared ++ varint rest ++ varint value ++ more) }
{
    let Ok((shared, rest_at)) = read_varint(bytes, at) else {
        return None;
    };
    let Ok((rest, value_at)) = read_varint(bytes, rest_at) else {
        return None;
    };
    let Ok((value, next)) = read_varint(bytes, value_at) else {
        return None;
    };
    Some(Lengths {
        shared: shared as usize,
        rest: rest as usize,
        value: value as usize,
        next,
    })
}
