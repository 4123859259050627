//! Flushes: what they leave on the disk, what is found again, and flushes that were cut off.

use crate::stores::{
    Opening, Pair, Stopped, blank, close, delete, flush, freeze, has, holds, leave, length, open,
    put, sure, try_open,
};
use lsm_memdisk::{Effect, MemDisk};
use lsm_store::{Flushed, Store, StoreError};
use std::alloc::Global;

const A: Pair = (b"a", b"1");

const B: Pair = (b"b", b"2");

const C: Pair = (b"c", b"3");

fn flush_pair(alloc: Global, store: &mut Store<MemDisk>, pair: Pair) -> Result<u32, Stopped> {
    put(alloc, store, pair, false)?;
    freeze(store)?;
    flush(store)
}

// A store whose one pair was flushed, and the steps before the last.
fn flushed(alloc: Global) -> Result<(MemDisk, u32), Stopped> {
    let mut store = open(alloc, blank(alloc)?, b'A')?;
    let told = flush_pair(alloc, &mut store, A);
    let disk = store.into_disk();
    Ok((disk, told?))
}

// The log that comes with the freeze is 3, and the table 4. The edit of 58 bytes comes behind the
// manifest's first 13.
fn a_flush_makes_a_table(alloc: Global) -> Result<bool, Stopped> {
    let (mut disk, steps) = flushed(alloc)?;
    let made = length(&mut disk, b"db/000004.sst")? == 130
        && length(&mut disk, b"db/MANIFEST-000001")? == 71
        && has(&mut disk, b"db/000002.log")?;
    let mut store = open(alloc, disk, b'B')?;
    let told = holds(&mut store, &[A]);
    Ok(leave(store, told)? && made && steps == 0)
}

fn is_idle(store: &mut Store<MemDisk>) -> bool {
    matches!(store.flush_step(), Ok(Flushed::NoJob))
}

fn tries_idle(alloc: Global, store: &mut Store<MemDisk>) -> Result<bool, Stopped> {
    let empty = is_idle(store);
    put(alloc, store, A, false)?;
    let active = is_idle(store);
    freeze(store)?;
    flush(store)?;
    Ok(empty && active && is_idle(store))
}

fn nothing_frozen_is_no_job(alloc: Global) -> Result<bool, Stopped> {
    let mut store = open(alloc, blank(alloc)?, b'A')?;
    let told = tries_idle(alloc, &mut store);
    leave(store, told)
}

// Newer rows win over those of tables: values and deletes.
fn lays_over(alloc: Global, store: &mut Store<MemDisk>) -> Result<bool, Stopped> {
    put(alloc, store, B, false)?;
    flush_pair(alloc, store, A)?;
    delete(alloc, store, b"b")?;
    flush_pair(alloc, store, C)?;
    let two = holds(store, &[A, C])?;
    put(alloc, store, (b"a", b"9"), false)?;
    freeze(store)?;
    delete(alloc, store, b"c")?;
    Ok(two && holds(store, &[(b"a", b"9")])?)
}

fn newer_rows_win(alloc: Global) -> Result<bool, Stopped> {
    let mut store = open(alloc, blank(alloc)?, b'A')?;
    let told = lays_over(alloc, &mut store);
    let Ok(true) = told else {
        return leave(store, told);
    };
    let mut store = open(alloc, close(store, Ok(()))?, b'B')?;
    let told = holds(&mut store, &[(b"a", b"9")]);
    leave(store, told)
}

// A key of two bytes for each number.
fn put_numbers(alloc: Global, store: &mut Store<MemDisk>, count: u16) -> Result<(), Stopped> {
    for number in 0..count {
        put_number(alloc, store, number)?;
    }
    Ok(())
}

fn put_number(alloc: Global, store: &mut Store<MemDisk>, number: u16) -> Result<(), Stopped> {
    let mut batch = lsm_rows::Batch::new(alloc);
    let Ok(()) = batch.put(&number.to_be_bytes(), b"v") else {
        return Err(Stopped);
    };
    if batch.is_empty() {
        return Err(Stopped);
    }
    match store.write(&batch, false) {
        Ok(_) => Ok(()),
        Err(_) => Err(Stopped),
    }
}

fn flushes_many(alloc: Global, store: &mut Store<MemDisk>) -> Result<bool, Stopped> {
    put_numbers(alloc, store, 2_500)?;
    freeze(store)?;
    let steps = flush(store)?;
    let Ok(pairs) = store.scan() else {
        return Err(Stopped);
    };
    Ok(steps == 2 && pairs.count() == 2_500)
}

// Each step writes 1,024 rows at most.
fn many_rows_take_steps(alloc: Global) -> Result<bool, Stopped> {
    let mut store = open(alloc, blank(alloc)?, b'A')?;
    let told = flushes_many(alloc, &mut store);
    leave(store, told)
}

// How often a disk was read from behind a flush and so many gets.
fn starts(alloc: Global, gets: u32) -> Result<u64, Stopped> {
    let mut store = open(alloc, blank(alloc)?, b'A')?;
    let told = flush_pair(alloc, &mut store, A);
    let found = get_often(&mut store, gets);
    let disk = close(store, told.map(drop_count))?;
    match found {
        true => Ok(disk.starts()),
        false => Err(Stopped),
    }
}

fn drop_count(_: u32) {}

fn get_often(store: &mut Store<MemDisk>, gets: u32) -> bool {
    for _ in 0..gets {
        match store.get(b"a") {
            Ok(Some(_)) => {}
            Ok(None) | Err(_) => return false,
        }
    }
    true
}

// A table's block is read once, and kept.
fn a_block_is_read_once(alloc: Global) -> Result<bool, Stopped> {
    let none = starts(alloc, 0)?;
    let one = starts(alloc, 1)?;
    Ok(none.checked_add(1) == Some(one) && starts(alloc, 10)? == one)
}

// Two flushes, with the second one's pair synced, and a pair behind them that isn't. It counts the
// pairs that outlive a crash.
fn flushes_twice(
    alloc: Global,
    store: &mut Store<MemDisk>,
    count: &mut u64,
) -> Result<(), Stopped> {
    flush_pair(alloc, store, A)?;
    *count = 1;
    put(alloc, store, B, true)?;
    *count = 2;
    freeze(store)?;
    flush(store)?;
    put(alloc, store, C, false)
}

// Whether the store has the first so many of the pairs and no other, at least so many.
fn has_front(store: &mut Store<MemDisk>, least: u64) -> Result<bool, Stopped> {
    let last = store.last();
    let front = match last {
        0 => holds(store, &[])?,
        1 => holds(store, &[A])?,
        2 => holds(store, &[A, B])?,
        3 => holds(store, &[A, B, C])?,
        _ => false,
    };
    Ok(front && last >= least)
}

fn opens_from(alloc: Global, disk: MemDisk, least: u64) -> Result<bool, Stopped> {
    let mut store = open(alloc, disk, b'B')?;
    let told = has_front(&mut store, least);
    leave(store, told)
}

fn each_image_opens(alloc: Global) -> Result<bool, Stopped> {
    let mut store = open(alloc, blank(alloc)?, b'A')?;
    let mut count = 0;
    let told = flushes_twice(alloc, &mut store, &mut count);
    let disk = store.into_disk();
    told?;
    for pick in 0..32 {
        if !opens_from(alloc, disk.crash(pick)?, count)? {
            return Ok(false);
        }
    }
    Ok(true)
}

// The run of two flushes on a disk of which a call may fail. A store that is halted still reads; where
// all went well, the call may have failed in the reading.
fn runs(alloc: Global, mut store: Store<MemDisk>) -> Result<(MemDisk, u64), Stopped> {
    let mut count = 0;
    let told = flushes_twice(alloc, &mut store, &mut count);
    let halted = matches!(store.flush_step(), Err(StoreError::Halted { .. }));
    let reads = has_front(&mut store, count);
    let disk = store.into_disk();
    match (told, halted, reads) {
        (Ok(()), false, _) | (Err(Stopped), true, Ok(true)) => Ok((disk, count)),
        _ => Err(Stopped),
    }
}

// The disk behind a run of which this call fails, with the count of pairs that outlive a crash.
fn stopped_run(alloc: Global, call: u64, effect: Effect) -> Result<(MemDisk, u64), Stopped> {
    let mut disk = blank(alloc)?;
    disk.fail_at(call, effect)?;
    match try_open(alloc, disk, b'A')? {
        Opening::Opened(store) => runs(alloc, store),
        Opening::Refused(_, disk) => Ok((disk, 0)),
    }
}

fn each_stopped_run_opens(alloc: Global, effect: Effect) -> Result<bool, Stopped> {
    for call in 1..50 {
        let (disk, least) = stopped_run(alloc, call, effect)?;
        for pick in 0..3 {
            if !opens_from(alloc, disk.crash(pick)?, least)? {
                return Ok(false);
            }
        }
    }
    Ok(true)
}

#[test]
fn flushes_make_tables(rt: HostRuntime) {
    sure(&rt, a_flush_makes_a_table(rt.alloc()));
    sure(&rt, nothing_frozen_is_no_job(rt.alloc()));
    sure(&rt, newer_rows_win(rt.alloc()));
}

#[test]
fn many_rows_are_flushed_in_steps(rt: HostRuntime) {
    sure(&rt, many_rows_take_steps(rt.alloc()));
}

#[test]
fn blocks_are_read_once(rt: HostRuntime) {
    sure(&rt, a_block_is_read_once(rt.alloc()));
}

#[test]
fn images_behind_flushes_open_to_a_prefix(rt: HostRuntime) {
    sure(&rt, each_image_opens(rt.alloc()));
}

#[test]
fn flushes_that_were_cut_off_lose_nothing(rt: HostRuntime) {
    sure(&rt, each_stopped_run_opens(rt.alloc(), Effect::Nothing));
    sure(&rt, each_stopped_run_opens(rt.alloc(), Effect::Done));
    sure(&rt, each_stopped_run_opens(rt.alloc(), Effect::Part(7)));
}
