//! Edits: their text, their tables, and where another text is refused.
use crate::claims::{Stopped, sure};
use crate::shapes::{SILENT, Short, edit_of, table};
use lsm_bytes::Bytes;
use lsm_version::{Adds, Drops, Edit, EditError, Place, TableInfo, decode_edit, encode_edit};
use std::alloc::Global;

fn encoded(alloc: Global, edit: &Edit) -> Result<Bytes, Stopped> {
    Ok(encode_edit(alloc, edit)?)
}

fn decoded(alloc: Global, text: &[u8]) -> Result<Edit, EditError> {
    decode_edit(alloc, text)
}

fn has_text(alloc: Global, edit: &Edit, text: &[u8]) -> Result<bool, Stopped> {
    Ok(encoded(alloc, edit)?.as_slice() == text)
}

fn has_len(alloc: Global, edit: &Edit, len: usize) -> Result<bool, Stopped> {
    Ok(encoded(alloc, edit)?.len() == len)
}

fn the_first_has_six_bytes(alloc: Global) -> Result<bool, Stopped> {
    let edit = edit_of(alloc, (Some(2), Some(3), Some(0)), &[], &[])?;
    has_text(alloc, &edit, b"\x01\x02\x02\x03\x03\0")
}

// The table of a flush.
const FLUSHED: &[Short] = &[(0, 3, b'a', b'c', 200)];

fn a_flush_has_51_bytes(alloc: Global) -> Result<bool, Stopped> {
    let edit = edit_of(alloc, (Some(4), Some(5), Some(2)), FLUSHED, &[])?;
    has_len(alloc, &edit, 51)
}

// An edit adds this table ..
const ADDED: &[Short] = &[(1, 7, b'a', b'c', 200)];

// .. and drops that one.
const DROPPED: &[Place] = &[Place {
    level: 0,
    number: 5,
}];

fn exchange(alloc: Global) -> Result<Edit, Stopped> {
    edit_of(alloc, (None, Some(300), None), ADDED, DROPPED)
}

// Whether the edit that a text tells has this text.
fn is_written_again(alloc: Global, text: &[u8]) -> Result<bool, Stopped> {
    let edit = decoded(alloc, text)?;
    has_text(alloc, &edit, text)
}

fn exchange_text(alloc: Global) -> Result<Bytes, Stopped> {
    let edit = exchange(alloc)?;
    encoded(alloc, &edit)
}

fn is_read_again(alloc: Global) -> Result<bool, Stopped> {
    let text = exchange_text(alloc)?;
    is_written_again(alloc, text.as_slice())
}

fn has_counts(edit: &Edit, adds: usize, drops: usize) -> bool {
    edit.adds.len() == adds
        && edit.drops.len() == drops
        && edit.adds.is_empty() == (adds == 0)
        && edit.drops.is_empty() == (drops == 0)
}

fn no_tables(alloc: Global) -> Result<bool, Stopped> {
    let edit = edit_of(alloc, SILENT, &[], &[])?;
    Ok(has_counts(&edit, 0, 0))
}

fn added_number(adds: &Adds) -> u64 {
    match adds.as_slice().first() {
        Some(add) => add.table.number,
        None => 0,
    }
}

fn are_dropped(drops: &Drops, places: &[Place]) -> bool {
    drops.as_slice() == places
}

fn has_one_each(edit: &Edit) -> bool {
    has_counts(edit, 1, 1) && added_number(&edit.adds) == 7 && are_dropped(&edit.drops, DROPPED)
}

fn one_table_each(alloc: Global) -> Result<bool, Stopped> {
    let edit = exchange(alloc)?;
    Ok(has_one_each(&edit))
}

fn are_alike(one: &TableInfo, other: &TableInfo) -> bool {
    one.number == other.number
        && one.session == other.session
        && one.size == other.size
        && one.smallest == other.smallest
        && one.largest == other.largest
}

fn is_copied(alloc: Global, table: &TableInfo) -> Result<bool, Stopped> {
    let copy = table.copy(alloc)?;
    Ok(are_alike(table, &copy))
}

fn a_copy_is_the_same(alloc: Global) -> Result<bool, Stopped> {
    let table = table(alloc, (0, 3, b'a', b'c', 200))?;
    if table.number != 3 || table.size != 200 {
        return Ok(false);
    }
    is_copied(alloc, &table)
}

const REFUSALS: &[(&'static [u8], usize)] = &[
    (b"\x01\x02\x02\x03\x03\0\x01", 6),
    (b"\x01\0", 1),
    (b"\x05\x07\x01", 1),
    (b"\x04\0\x05012345678aABCDEFGHIJ", 12),
    (b"\x04\0\x050123456789ABCDEFGHIJ\x01\x07", 24),
    (b"\x04\0\x050123456789ABCDEFGHIJ\x01\x09a\x02", 26),
    (b"\x04\0\x050123456789ABCDEFGHIJ\x01\x09a\x01", 27),
    (b"\x06", 0),
];

fn is_refused_at(alloc: Global, text: &[u8], place: usize) -> bool {
    match decoded(alloc, text) {
        Ok(_) => false,
        Err(refused) => refused == EditError::BadEdit { place },
    }
}

fn refusals_name_their_places(alloc: Global) -> bool {
    for (text, place) in REFUSALS {
        if !is_refused_at(alloc, text, *place) {
            return false;
        }
    }
    true
}

#[test]
fn the_first_edit_has_these_bytes(rt: HostRuntime) {
    sure(&rt, the_first_has_six_bytes(rt.alloc()));
}

#[test]
fn a_flush_has_an_edit_of_51_bytes(rt: HostRuntime) {
    sure(&rt, a_flush_has_51_bytes(rt.alloc()));
}

#[test]
fn an_edit_is_read_again(rt: HostRuntime) {
    sure(&rt, is_read_again(rt.alloc()));
}

#[test]
fn an_edit_refusal_names_the_first_wrong_byte(rt: HostRuntime) {
    sure(&rt, Ok(refusals_name_their_places(rt.alloc())));
}

#[test]
fn an_edit_tells_its_tables(rt: HostRuntime) {
    sure(&rt, no_tables(rt.alloc()));
    sure(&rt, one_table_each(rt.alloc()));
}

#[test]
fn a_table_is_copied(rt: HostRuntime) {
    sure(&rt, a_copy_is_the_same(rt.alloc()));
}
