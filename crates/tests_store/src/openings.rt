//! Openings that go well, and what is refused.

use crate::stores::{
    Pair, Stopped, blank, close, delete, fill, freeze, has, holds, leave, make, open, put, refused,
    sure,
};
use lsm_memdisk::MemDisk;
use lsm_store::{Store, StoreError};
use std::alloc::Global;

const A: Pair = (b"a", b"1");

const B: Pair = (b"b", b"2");

const C: Pair = (b"c", b"3");

const OTHER_A: Pair = (b"a", b"4");

fn write_two_tables(alloc: Global, store: &mut Store<MemDisk>) -> Result<(), Stopped> {
    put(alloc, store, A, true)?;
    put(alloc, store, B, false)?;
    freeze(store)?;
    put(alloc, store, C, false)?;
    delete(alloc, store, b"b")
}

// A store that was written in two memory tables, and closed.
fn written(alloc: Global) -> Result<MemDisk, Stopped> {
    let mut store = open(alloc, blank(alloc)?, b'A')?;
    let told = write_two_tables(alloc, &mut store);
    close(store, told)
}

// Whether the disk opens to these pairs and this last sequence.
fn opens_to(alloc: Global, disk: MemDisk, pairs: &[Pair], last: u64) -> Result<bool, Stopped> {
    let mut store = open(alloc, disk, b'B')?;
    let found = store.last();
    let told = holds(&mut store, pairs);
    Ok(leave(store, told)? && found == last)
}

fn a_store_is_found_again(alloc: Global) -> Result<bool, Stopped> {
    opens_to(alloc, written(alloc)?, &[A, C], 4)
}

// The rows of the first opening are in a table; those that came since are in a log.
fn a_store_is_found_a_second_time(alloc: Global) -> Result<bool, Stopped> {
    let mut store = open(alloc, written(alloc)?, b'C')?;
    let told = put(alloc, &mut store, OTHER_A, false);
    opens_to(alloc, close(store, told)?, &[OTHER_A, C], 5)
}

// The disk behind an opening that closes the store at once.
fn opened_and_closed(alloc: Global, disk: MemDisk) -> Result<MemDisk, Stopped> {
    let store = open(alloc, disk, b'A')?;
    close(store, Ok(()))
}

// Nothing was written: no table is made, and the files get new numbers each time.
fn an_empty_store_is_found_again(alloc: Global) -> Result<bool, Stopped> {
    let disk = opened_and_closed(alloc, blank(alloc)?)?;
    let mut disk = opened_and_closed(alloc, disk)?;
    let made = has(&mut disk, b"db/MANIFEST-000003")?
        && has(&mut disk, b"db/000004.log")?
        && !has(&mut disk, b"db/000003.sst")?;
    Ok(made && opens_to(alloc, disk, &[], 0)?)
}

// An opening that was cut off before there was a CURRENT left a manifest and a temporary file.
fn leftovers_are_passed_over(alloc: Global) -> Result<bool, Stopped> {
    let mut disk = blank(alloc)?;
    make(&mut disk)?;
    fill(&mut disk, b"db/MANIFEST-000007", b"")?;
    fill(&mut disk, b"db/000009.dbtmp", b"MANIFEST")?;
    let mut disk = opened_and_closed(alloc, disk)?;
    let made = has(&mut disk, b"db/MANIFEST-000010")?
        && has(&mut disk, b"db/000011.log")?
        && has(&mut disk, b"db/CURRENT")?;
    Ok(made && opens_to(alloc, disk, &[], 0)?)
}

fn a_log_without_current_is_refused(alloc: Global) -> Result<bool, Stopped> {
    let mut disk = blank(alloc)?;
    make(&mut disk)?;
    fill(&mut disk, b"db/000002.log", b"")?;
    Ok(matches!(refused(alloc, disk)?, StoreError::NoCurrent { .. }))
}

fn a_strange_current_is_refused(alloc: Global) -> Result<bool, Stopped> {
    let mut disk = blank(alloc)?;
    make(&mut disk)?;
    fill(&mut disk, b"db/CURRENT", b"MANIFEST-1\n")?;
    Ok(matches!(refused(alloc, disk)?, StoreError::Malformed { .. }))
}

#[test]
fn stores_are_found_again(rt: HostRuntime) {
    sure(&rt, a_store_is_found_again(rt.alloc()));
    sure(&rt, a_store_is_found_a_second_time(rt.alloc()));
    sure(&rt, an_empty_store_is_found_again(rt.alloc()));
}

#[test]
fn fresh_folders_become_stores(rt: HostRuntime) {
    sure(&rt, leftovers_are_passed_over(rt.alloc()));
    sure(&rt, a_log_without_current_is_refused(rt.alloc()));
    sure(&rt, a_strange_current_is_refused(rt.alloc()));
}
