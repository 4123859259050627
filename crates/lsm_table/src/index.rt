//! What the entries of an index tell.
ghost use Rattle.std.specs.Prelude.{ℕ, All, IfSome, IfNone};
ghost use Rattle.std.specs.Bool.{OnTrue, OnFalse};
ghost use Rattle.lsm_table.specs.Opening.{TellsPlace, TellsBlock};
ghost use Rattle.lsm_table.specs.DataBlocks.{IsTold};

use lsm_block::Entry;
use lsm_bytes::read_varint;

/// The place of a data block and the length of its contents, which the value of an index's entry tells.
pub(crate) fn block_place(value: &[u8]) -> Option<(u64, u64)>
    ensures some { IfSome result (λ told. TellsPlace value.now told.0 told.1) }
    ensures none { IfNone result ((place len : ℕ) → ¬ TellsPlace value.now place len) }
{
    let Ok((place, next)) = read_varint(value, 0) else {
        return None;
    };
    let Ok((len, end)) = read_varint(value, next) else {
        return None;
    };
    if end != value.len() {
        return None;
    }
    Some((place, len))
}

/// Whether each of these entries tells a block.
pub(crate) fn tell_blocks(entries: &[Entry]) -> bool
    ensures all { OnTrue result (All TellsBlock entries.now) }
    ensures some_not { OnFalse result (¬ All TellsBlock entries.now) }
{
    for entry in entries {
        if block_place(entry.value.as_slice()).is_none() {
            return false;
        }
    }
    true
}

/// How long the contents of the data block at a place are, which some of these entries tells. Where the places ascend, as
/// in a table of ours, and the place is told, it looks at about log2 of the number of entries; else at each.
pub(crate) fn len_at(entries: &[Entry], place: u64) -> Option<u64>
    ensures some { IfSome result (λ len. IsTold entries.now place len) }
    ensures none { IfNone result ((len : ℕ) → ¬ IsTold entries.now place len) }
{
    match len_by_halves(entries, place) {
        Some(len) => Some(len),
        None => len_by_each(entries, place),
    }
}

// The same, where the places ascend. None says nothing.
fn len_by_halves(entries: &[Entry], place: u64) -> Option<u64>
    ensures { IfSome result (λ len. IsTold entries.now place len) }
{
    let middle = entries.partition_point(|entry| is_before(entry, place));
    let entry = entries.get(middle)?;
    len_told(entry.value.as_slice(), place)
}

// Whether an entry tells a block that stands before a place.
fn is_before(entry: &Entry, place: u64) -> bool {
    match block_place(entry.value.as_slice()) {
        Some((told, _)) => told < place,
        None => false,
    }
}

// The same, in whatever order the places are.
fn len_by_each(entries: &[Entry], place: u64) -> Option<u64>
    ensures some { IfSome result (λ len. IsTold entries.now place len) }
    ensures none { IfNone result ((len : ℕ) → ¬ IsTold entries.now place len) }
{
    for entry in entries {
        if let Some(len) = len_told(entry.value.as_slice(), place) {
            return Some(len);
        }
    }
    None
}

// How long the contents of the data block at a place are, where the value of an index's entry tells that one.
fn len_told(value: &[u8], place: u64) -> Option<u64>
    ensures some { IfSome result (λ len. TellsPlace value.now place len) }
    ensures none { IfNone result ((len : ℕ) → ¬ TellsPlace value.now place len) }
{
    let Some((at, len)) = block_place(value) else {
        return None;
    };
    if at != place {
        return None;
    }
    Some(len)
}
