//! Logs in memory, against bytes that another program wrote.

use crate::claims::sure;
use crate::view::TextView;
use lsm_bytes::NoMemory;
use lsm_disk::{Disk, View};
use lsm_memdisk::{MemDisk, MemView};
use lsm_names::{FileName, Path};
use lsm_rows::Batch;
use lsm_wal::{Batches, Wal, WalWhy, read_wal};
use std::alloc::Global;

/// The log of a put of `a` and `1`, and of one of `b` and `2`.
const LOG: [u8; 48] = [
    0xE9, 0x9F, 0x78, 0x19, 0x11, 0x00, 0x01, 0x01, 0x00, 0x00, 0x00, 0x00, 0x00, 0x00, 0x00, 0x01,
    0x00, 0x00, 0x00, 0x01, 0x01, 0x61, 0x01, 0x31, 0x8F, 0x72, 0xBC, 0x7A, 0x11, 0x00, 0x01, 0x02,
    0x00, 0x00, 0x00, 0x00, 0x00, 0x00, 0x00, 0x01, 0x00, 0x00, 0x00, 0x01, 0x01, 0x62, 0x01, 0x32,
];

/// Bits to turn in the last byte of the first record, and the masked checksum of the record then.
const TURNED: &[(u8, u32)] = &[
    (1, 0x1375_3C9E),
    (2, 0x399D_623F),
    (4, 0xFB4D_24FC),
    (8, 0x69ED_8B7B),
    (16, 0x9AAE_8084),
    (32, 0x0DCC_DF42),
    (64, 0xF010_22BF),
    (128, 0xA287_9BD5),
];

/// What stands behind the first record, and the trouble there.
const BEHIND: &[(&'static [u8], WalWhy)] = &[
    // The record of a put of `c` and `3` with the sequence 3.
    (
        &[
            0x02, 0x81, 0x00, 0xE5, 0x11, 0x00, 0x01, 0x03, 0x00, 0x00, 0x00, 0x00, 0x00, 0x00,
            0x00, 0x01, 0x00, 0x00, 0x00, 0x01, 0x01, 0x63, 0x01, 0x33,
        ],
        WalWhy::Gap { kept: 2, found: 3 },
    ),
    // The first record again.
    (
        &[
            0xE9, 0x9F, 0x78, 0x19, 0x11, 0x00, 0x01, 0x01, 0x00, 0x00, 0x00, 0x00, 0x00, 0x00,
            0x00, 0x01, 0x00, 0x00, 0x00, 0x01, 0x01, 0x61, 0x01, 0x31,
        ],
        WalWhy::Gap { kept: 2, found: 1 },
    ),
    // The record of a batch without its last byte.
    (
        &[
            0xC7, 0xEB, 0xE4, 0x25, 0x10, 0x00, 0x01, 0x02, 0x00, 0x00, 0x00, 0x00, 0x00, 0x00,
            0x00, 0x01, 0x00, 0x00, 0x00, 0x01, 0x01, 0x62, 0x01,
        ],
        WalWhy::BadBatch { place: 24 },
    ),
    // A piece that passes the end of its block.
    (
        &[0, 0, 0, 0, 0xFF, 0xFF, 1],
        WalWhy::Malformed { place: 24 },
    ),
];

/// The number of a log's batches, their last sequence, and what stands behind them.
type Outcome = (usize, u64, Option<u64>);

fn path() -> Path {
    FileName::Log(1).path()
}

/// A batch of one put.
fn put(alloc: Global, key: &[u8], value: &[u8]) -> Result<Batch, NoMemory> {
    let mut batch = Batch::new(alloc);
    match batch.put(key, value) {
        Ok(()) => Ok(batch),
        Err(_) => Err(NoMemory),
    }
}

fn empty_disk(alloc: Global) -> Result<MemDisk, NoMemory> {
    MemDisk::new(alloc, false)
}

fn created(alloc: Global, disk: &mut MemDisk) -> Result<Wal, NoMemory> {
    match Wal::create(alloc, disk, path()) {
        Ok(wal) => Ok(wal),
        Err(_) => Err(NoMemory),
    }
}

fn len(wal: &Wal) -> u64 {
    wal.len()
}

fn has_path(wal: &Wal) -> bool {
    *wal.path() == path()
}

/// Appends a batch of one operation to a short log.
fn append(wal: &mut Wal, disk: &mut MemDisk, first: u32, batch: &Batch, sync: bool) -> bool {
    if batch.len() != 1 || wal.len() >= 48 {
        return false;
    }
    wal.append(disk, u64::from(first), batch, sync).is_ok()
}

fn all_of(view: &mut MemView) -> Option<[u8; 48]> {
    if view.len() != 48 {
        return None;
    }
    let mut into = [0u8; 48];
    match view.read_at(0, &mut into) {
        Ok(()) => Some(into),
        Err(_) => None,
    }
}

/// The bytes of the log's file.
fn bytes(disk: &mut MemDisk) -> Option<[u8; 48]> {
    match disk.open(&path(), 48) {
        Ok(mut view) => all_of(&mut view),
        Err(_) => None,
    }
}

fn crashed(disk: &MemDisk, pick: u64) -> Result<MemDisk, NoMemory> {
    disk.crash(pick)
}

fn size(disk: &mut MemDisk) -> Option<u64> {
    disk.size(&path()).ok()
}

/// The least size that a crash leaves of the log's file; none where it leaves no file.
fn least_left(disk: &MemDisk) -> Result<Option<u64>, NoMemory> {
    let mut least = u64::MAX;
    for pick in 0..100u64 {
        match size(&mut crashed(disk, pick)?) {
            Some(size) => least = least.min(size),
            None => return Ok(None),
        }
    }
    Ok(Some(least))
}

fn two_are_appended(alloc: Global, wal: &mut Wal, disk: &mut MemDisk) -> Result<bool, NoMemory> {
    let first = append(wal, disk, 1, &put(alloc, b"a", b"1")?, true);
    let second = append(wal, disk, 2, &put(alloc, b"b", b"2")?, false);
    Ok(first && second)
}

/// Whether the log is the known one, and its file has all of it.
fn is_known_log(wal: &Wal, disk: &mut MemDisk) -> bool {
    len(wal) == 48 && has_path(wal) && bytes(disk) == Some(LOG)
}

fn two_make_the_log(alloc: Global, wal: &mut Wal, disk: &mut MemDisk) -> Result<bool, NoMemory> {
    let is_named = least_left(disk)? == Some(0);
    let is_appended = two_are_appended(alloc, wal, disk)?;
    let is_synced = least_left(disk)? == Some(24);
    Ok(is_named && is_appended && is_synced && is_known_log(wal, disk))
}

fn two_are_logged(alloc: Global, disk: &mut MemDisk) -> Result<bool, NoMemory> {
    two_make_the_log(alloc, &mut created(alloc, disk)?, disk)
}

fn two_puts_are_written(alloc: Global) -> Result<bool, NoMemory> {
    two_are_logged(alloc, &mut empty_disk(alloc)?)
}

fn read_view(alloc: Global, view: TextView) -> Result<Outcome, WalWhy> {
    match read_wal(alloc, view, 1) {
        Ok(log) => Ok((log.batches.len(), log.last, log.torn)),
        Err(error) => Err(error.why),
    }
}

fn copy(alloc: Global, bytes: &[u8]) -> Result<Vec<u8>, NoMemory> {
    Ok(Vec::from_slice(alloc, bytes)?)
}

/// What is read of a text; its read of this number fails.
fn read(alloc: Global, text: &[u8], fails: u64) -> Result<Result<Outcome, WalWhy>, NoMemory> {
    let view = TextView::new(copy(alloc, text)?, fails);
    Ok(read_view(alloc, view))
}

fn reads_to(alloc: Global, text: &[u8], want: Outcome) -> Result<bool, NoMemory> {
    Ok(read(alloc, text, 0)? == Ok(want))
}

fn is_trouble(alloc: Global, text: &[u8], want: WalWhy) -> Result<bool, NoMemory> {
    Ok(read(alloc, text, 0)? == Err(want))
}

/// What is read of the log where so many bytes are left.
fn cut_at(len: u64) -> Outcome {
    let whole = len / 24;
    let torn = if len % 24 == 0 {
        None
    } else {
        whole.checked_mul(24)
    };
    (whole as usize, whole, torn)
}

fn a_front_is_read(alloc: Global, len: u64) -> Result<bool, NoMemory> {
    match LOG.get(..len as usize) {
        Some(front) => reads_to(alloc, front, cut_at(len)),
        None => Ok(false),
    }
}

fn fronts_are_read(alloc: Global) -> Result<bool, NoMemory> {
    for len in 0..49u64 {
        if !a_front_is_read(alloc, len)? {
            return Ok(false);
        }
    }
    Ok(true)
}

fn first_record() -> &'static [u8] {
    LOG.split_at(24).0
}

fn second_record() -> &'static [u8] {
    LOG.split_at(24).1
}

fn joined(alloc: Global, behind: &[u8]) -> Result<Vec<u8>, NoMemory> {
    let mut bytes = Vec::from_slice(alloc, first_record())?;
    bytes.extend_from_slice(behind)?;
    Ok(bytes)
}

fn are_behind(alloc: Global, rows: &[(&'static [u8], WalWhy)]) -> Result<bool, NoMemory> {
    for (behind, why) in rows {
        if !is_trouble(alloc, &joined(alloc, behind)?, *why)? {
            return Ok(false);
        }
    }
    Ok(true)
}

fn turned(bits: u8) -> [u8; 48] {
    let mut log = LOG;
    log[23] ^= bits;
    log
}

fn are_damaged(alloc: Global, rows: &[(u8, u32)]) -> Result<bool, NoMemory> {
    for (bits, found) in rows {
        let why = WalWhy::Damaged {
            place: 0,
            kept: 0x1978_9FE9,
            found: *found,
        };
        if !is_trouble(alloc, &turned(*bits), why)? {
            return Ok(false);
        }
    }
    Ok(true)
}

fn a_log_starts_late(alloc: Global) -> Result<bool, NoMemory> {
    is_trouble(alloc, second_record(), WalWhy::Gap { kept: 1, found: 2 })
}

fn a_read_fails(alloc: Global) -> Result<bool, NoMemory> {
    Ok(read(alloc, first_record(), 1)? == Err(WalWhy::ReadFault))
}

fn no_batches(alloc: Global) -> Batches {
    Batches::new(alloc)
}

fn push(batches: &mut Batches, batch: Batch) -> Result<(), NoMemory> {
    batches.push(batch)
}

fn has_count(batches: &Batches, count: usize) -> bool {
    let is_count = batches.len() == count && batches.as_slice().len() == count;
    is_count && batches.is_empty() == (count == 0)
}

/// The number of the last batch's operations.
fn last_len(batches: Batches) -> Option<usize> {
    batches.into_vec().pop().map(|batch| batch.len())
}

fn batches_come_out(alloc: Global) -> Result<bool, NoMemory> {
    let mut batches = no_batches(alloc);
    let is_empty = has_count(&batches, 0);
    push(&mut batches, put(alloc, b"a", b"1")?)?;
    push(&mut batches, put(alloc, b"a", b"2")?)?;
    Ok(is_empty && has_count(&batches, 2) && last_len(batches) == Some(1))
}

#[test]
fn two_puts_make_this_log(rt: HostRuntime) {
    sure(&rt, two_puts_are_written(rt.alloc()));
}

#[test]
fn a_log_cut_anywhere_reads_to_a_prefix(rt: HostRuntime) {
    sure(&rt, fronts_are_read(rt.alloc()));
}

#[test]
fn each_trouble_is_told_with_its_place(rt: HostRuntime) {
    sure(&rt, are_behind(rt.alloc(), BEHIND));
    sure(&rt, are_damaged(rt.alloc(), TURNED));
    sure(&rt, a_log_starts_late(rt.alloc()));
    sure(&rt, a_read_fails(rt.alloc()));
}

#[test]
fn batches_come_out_in_their_order(rt: HostRuntime) {
    sure(&rt, batches_come_out(rt.alloc()));
}
