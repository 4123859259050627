//! Deletions: which files go, and when.

use crate::stores::{Pair, Stopped, blank, flush, freeze, has, holds, leave, open, put, sure};
use lsm_memdisk::MemDisk;
use lsm_names::FileName;
use lsm_store::{Deleted, Store};
use std::alloc::Global;

const A: Pair = (b"a", b"1");

const B: Pair = (b"b", b"2");

fn flush_pair(alloc: Global, store: &mut Store<MemDisk>, pair: Pair) -> Result<(), Stopped> {
    put(alloc, store, pair, true)?;
    freeze(store)?;
    flush(store)?;
    Ok(())
}

fn removes(store: &mut Store<MemDisk>, name: FileName) -> bool {
    matches!(store.delete_step(), Ok(Deleted::Removed(removed)) if removed == name)
}

fn is_done(store: &mut Store<MemDisk>) -> bool {
    matches!(store.delete_step(), Ok(Deleted::Nothing))
}

fn is_disabled(store: &mut Store<MemDisk>) -> bool {
    matches!(store.delete_step(), Ok(Deleted::Disabled { count: 1 }))
}

// Two flushes leave the logs 2 and 3, whose rows are in the tables 4 and 6; the last log is 5.
fn deletes_logs(alloc: Global, store: &mut Store<MemDisk>) -> Result<bool, Stopped> {
    let empty = is_done(store);
    flush_pair(alloc, store, A)?;
    flush_pair(alloc, store, B)?;
    let Ok(_) = store.disable() else {
        return Err(Stopped);
    };
    let disabled = is_disabled(store);
    let Ok(_) = store.enable() else {
        return Err(Stopped);
    };
    let removed = removes(store, FileName::Log(2)) && removes(store, FileName::Log(3));
    Ok(empty && disabled && removed && is_done(store) && holds(store, &[A, B])?)
}

fn old_logs_are_deleted(alloc: Global) -> Result<bool, Stopped> {
    let mut store = open(alloc, blank(alloc)?, b'A')?;
    let told = deletes_logs(alloc, &mut store);
    let mut disk = store.into_disk();
    let gone = !has(&mut disk, b"db/000002.log")? && !has(&mut disk, b"db/000003.log")?;
    let kept = has(&mut disk, b"db/000005.log")? && has(&mut disk, b"db/000004.sst")?;
    let mut store = open(alloc, disk, b'B')?;
    let found = holds(&mut store, &[A, B]);
    Ok(leave(store, found)? && told? && gone && kept)
}

#[test]
fn files_that_nothing_needs_are_deleted(rt: HostRuntime) {
    sure(&rt, old_logs_are_deleted(rt.alloc()));
}
