//! Stores that were cut off, and openings that were.

use crate::stores::{
    Opening, Pair, Stopped, blank, close, freeze, holds, leave, open, put, sure, try_open,
};
use lsm_memdisk::{Effect, MemDisk};
use lsm_store::Store;
use std::alloc::Global;

const PAIRS: &[Pair] = &[(b"a", b"1"), (b"b", b"2"), (b"c", b"3"), (b"d", b"4")];

fn write_pairs(alloc: Global, store: &mut Store<MemDisk>) -> Result<(), Stopped> {
    for pair in PAIRS {
        put(alloc, store, *pair, pair.0 != b"d".as_slice())?;
        if pair.0 == b"b".as_slice() {
            freeze(store)?;
        }
    }
    Ok(())
}

// A store with the first three pairs synced and the fourth not, in two memory tables.
fn cut_off(alloc: Global) -> Result<MemDisk, Stopped> {
    let mut store = open(alloc, blank(alloc)?, b'A')?;
    let told = write_pairs(alloc, &mut store);
    let disk = store.into_disk();
    told?;
    Ok(disk)
}

// Whether a store holds the first so many pairs, at least so many, and no others.
fn holds_from(store: &mut Store<MemDisk>, least: usize) -> Result<bool, Stopped> {
    let count = store.last() as usize;
    match PAIRS.get(..count) {
        Some(front) => Ok(count >= least && holds(store, front)?),
        None => Ok(false),
    }
}

fn opens_from(alloc: Global, disk: MemDisk, letter: u8, least: usize) -> Result<bool, Stopped> {
    let mut store = open(alloc, disk, letter)?;
    let told = holds_from(&mut store, least);
    leave(store, told)
}

fn each_image_opens(alloc: Global) -> Result<bool, Stopped> {
    let disk = cut_off(alloc)?;
    for pick in 0..32 {
        if !opens_from(alloc, disk.crash(pick)?, b'B', 3)? {
            return Ok(false);
        }
    }
    Ok(true)
}

// The disk behind an opening that was cut off at this call, or the whole opening's.
fn opened_until(
    alloc: Global,
    disk: &MemDisk,
    call: u64,
    effect: Effect,
) -> Result<MemDisk, Stopped> {
    let mut disk = disk.crash(0)?;
    disk.fail_at(call, effect)?;
    match try_open(alloc, disk, b'B')? {
        Opening::Opened(store) => Ok(store.into_disk()),
        Opening::Refused(_, disk) => Ok(disk),
    }
}

// Whether images of an opening that was cut off at this call open to all pairs.
fn each_later_image_opens(
    alloc: Global,
    disk: &MemDisk,
    call: u64,
    effect: Effect,
) -> Result<bool, Stopped> {
    let disk = opened_until(alloc, disk, call, effect)?;
    for pick in 0..4 {
        if !opens_from(alloc, disk.crash(pick)?, b'C', 4)? {
            return Ok(false);
        }
    }
    Ok(true)
}

// The four pairs are in two logs.
fn closed(alloc: Global) -> Result<MemDisk, Stopped> {
    let mut store = open(alloc, blank(alloc)?, b'A')?;
    let told = write_pairs(alloc, &mut store);
    close(store, told)
}

fn each_opening_loses_nothing(alloc: Global, effect: Effect) -> Result<bool, Stopped> {
    let disk = closed(alloc)?;
    for call in 1..40 {
        if !each_later_image_opens(alloc, &disk, call, effect)? {
            return Ok(false);
        }
    }
    Ok(true)
}

#[test]
fn images_open_to_a_prefix(rt: HostRuntime) {
    sure(&rt, each_image_opens(rt.alloc()));
}

#[test]
fn openings_that_were_cut_off_lose_nothing(rt: HostRuntime) {
    sure(&rt, each_opening_loses_nothing(rt.alloc(), Effect::Nothing));
    sure(&rt, each_opening_loses_nothing(rt.alloc(), Effect::Done));
    sure(&rt, each_opening_loses_nothing(rt.alloc(), Effect::Part(7)));
}
