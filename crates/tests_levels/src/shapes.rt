//! Tables, edits that add and drop them, and the versions that come of that.
use crate::claims::Stopped;
use lsm_bytes::Bytes;
use lsm_names::Session;
use lsm_version::{Add, Adds, ApplyError, Drops, Edit, Place, TableInfo, Version};
use std::alloc::Global;

/// A table: its level, its number, the only letters of its least and its greatest user key, and its
/// size.
pub type Short = (u8, u64, u8, u8, u64);

/// The log, the next number and the last sequence that an edit names.
pub type Counters = (Option<u64>, Option<u64>, Option<u64>);

/// An edit that names none of them.
pub const SILENT: Counters = (None, None, None);

// The internal key of a put, with the sequence 1, of a key of one letter.
fn letter(alloc: Global, letter: u8) -> Result<Bytes, Stopped> {
    Ok(Bytes::from_slice(alloc, &[letter, 1, 1, 0, 0, 0, 0, 0, 0])?)
}

// The session of all tables in these tests.
fn session() -> Result<Session, Stopped> {
    match Session::new(*b"0123456789ABCDEFGHIJ") {
        Some(session) => Ok(session),
        None => Err(Stopped),
    }
}

/// The table of this shape.
pub fn table(alloc: Global, short: Short) -> Result<TableInfo, Stopped> {
    let (_, number, first, last, size) = short;
    let session = session()?;
    let smallest = letter(alloc, first)?;
    let largest = letter(alloc, last)?;
    Ok(TableInfo {
        number,
        session,
        size,
        smallest,
        largest,
    })
}

fn add(alloc: Global, adds: &mut Adds, short: Short) -> Result<(), Stopped> {
    let table = table(alloc, short)?;
    let level = short.0;
    Ok(adds.push(Add { level, table })?)
}

fn adds_of(alloc: Global, tables: &[Short]) -> Result<Adds, Stopped> {
    let mut adds = Adds::new(alloc);
    for table in tables {
        add(alloc, &mut adds, *table)?;
    }
    Ok(adds)
}

fn drops_of(alloc: Global, places: &[Place]) -> Result<Drops, Stopped> {
    let mut drops = Drops::new(alloc);
    for place in places {
        drops.push(*place)?;
    }
    Ok(drops)
}

/// The edit that names these counters, adds these tables and drops those at these places.
pub fn edit_of(
    alloc: Global,
    counters: Counters,
    tables: &[Short],
    places: &[Place],
) -> Result<Edit, Stopped> {
    let (log, next, last) = counters;
    let adds = adds_of(alloc, tables)?;
    let drops = drops_of(alloc, places)?;
    Ok(Edit {
        log,
        next,
        last,
        adds,
        drops,
    })
}

/// The version after an edit.
pub fn apply(alloc: Global, version: &Version, edit: &Edit) -> Result<Version, ApplyError> {
    version.apply(alloc, edit)
}

/// The version with these tables.
pub fn version_of(alloc: Global, tables: &[Short]) -> Result<Version, Stopped> {
    let edit = edit_of(alloc, SILENT, tables, &[])?;
    Ok(apply(alloc, &Version::empty(alloc), &edit)?)
}
