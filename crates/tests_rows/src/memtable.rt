//! Rows in memory and their flush.
ghost use Rattle.std.specs.Prelude.{◌≡◌, ◌≤◌, ◌<◌, ◌+◌, ◌^◌, length, IfOk, OnOk};
ghost use Rattle.lsm_rows.specs.Contents.{AllBefore};
ghost use Rattle.lsm_memtable.specs.Newest.{newest_each};

use crate::claims::{Stopped, sure};
use crate::keys::key;
use crate::rows::sequence_at;
use lsm_memtable::{Flush, FlushPiece, MemTable};
use lsm_names::Session;
use lsm_rows::{Batch, InternalKey, Kind, Rows};
use lsm_table::Finished;
use std::alloc::Global;

// The table with the number 4 of the row `a` with the sequence 1 and the value `1`, as another
// writer writes it.
const ONE_TABLE: &[u8; 130] =
    b"\0\x09\x01a\x01\x01\0\0\0\0\0\01\0\0\0\0\x01\0\0\0\0\x82~\xf9:\0\x09\x02a\x01\x01\0\
        \0\0\0\0\0\0\x15\0\0\0\0\x01\0\0\0\06I%\xbf\x04\0\0\0\0\0\0\00123456789ABCDEFGHIJ\
        \x01\0\0\0\0\0\0\0\0\xea\x1d04\x1a\0\0\0\0\0\0\0\x16\0\0\0\0\0\0\05\0\0\0\0\0\0\0\
        \xdb\xab\x89Rlsmtabl1";

// The session of all tables in these tests.
fn session() -> Result<Session, Stopped> {
    match Session::new(*b"0123456789ABCDEFGHIJ") {
        Some(session) => Ok(session),
        None => Err(Stopped),
    }
}

// Adds a put, or a delete where there is no value.
fn add(batch: &mut Batch, key: &[u8], value: Option<&[u8]>) -> Result<(), Stopped> {
    match value {
        Some(value) => Ok(batch.put(key, value)?),
        None => Ok(batch.delete(key)?),
    }
}

// Rows, and the sequence that comes next: a call that takes them owes nothing.
#[derive(Drop)]
struct Numbered {
    rows: MemTable,
    next: u64,
    ghost past: { AllBefore next rows },
}

fn empty(alloc: Global, next: u64) -> Numbered {
    Numbered {
        rows: MemTable::new(alloc),
        next,
    }
}

// The rows with those of a batch of one operation.
fn with_batch(numbered: Numbered, batch: &Batch) -> Result<Numbered, Stopped> {
    let Numbered { mut rows, next } = numbered;
    if next >= 1 << 31 || batch.len() != 1 {
        return Err(Stopped);
    }
    rows.add(next, batch)?;
    Ok(Numbered {
        rows,
        next: next + 1,
    })
}

// The rows with one more.
fn with_one(
    alloc: Global,
    numbered: Numbered,
    key: &[u8],
    value: Option<&[u8]>,
) -> Result<Numbered, Stopped> {
    let mut batch = Batch::new(alloc);
    add(&mut batch, key, value)?;
    with_batch(numbered, &batch)
}

// A put of a key of one letter with a value of one byte, or a delete where there is no value.
type Short = (u8, Option<u8>);

fn with_short(alloc: Global, numbered: Numbered, short: Short) -> Result<Numbered, Stopped> {
    match short {
        (key, Some(value)) => with_one(alloc, numbered, &[key], Some(&[value])),
        (key, None) => with_one(alloc, numbered, &[key], None),
    }
}

// The rows of these operations, with the sequences from this one on.
fn rows_of(alloc: Global, first: u64, ops: &[Short]) -> Result<MemTable, Stopped> {
    let mut numbered = empty(alloc, first);
    for short in ops {
        numbered = with_short(alloc, numbered, *short)?;
    }
    Ok(numbered.rows)
}

const ONE_ROW: &[Short] = &[(b'a', Some(b'1'))];

// One row each of the keys `b` and `a`, and a newer row of each: `b` has another value, and `a` is
// deleted.
const TWO_KEYS: &[Short] = &[
    (b'b', Some(b'1')),
    (b'a', Some(b'2')),
    (b'b', Some(b'3')),
    (b'a', None),
];

// The newer ones of them.
const NEWER: &[Short] = &[(b'b', Some(b'3')), (b'a', None)];

fn two_keys(alloc: Global) -> Result<MemTable, Stopped> {
    rows_of(alloc, 1, TWO_KEYS)
}

// So many rows, each with a key of its own.
fn many_keys(alloc: Global, count: u32) -> Result<MemTable, Stopped> {
    let mut numbered = empty(alloc, 0);
    for number in 0..count {
        numbered = with_one(alloc, numbered, &number.to_be_bytes(), Some(b"value"))?;
    }
    Ok(numbered.rows)
}

// A flush with rows left: a step of it owes nothing.
#[derive(Drop)]
struct Flushing {
    flush: Flush,
    ghost left: { flush.taken < length (newest_each flush.rows) },
}

// The flush of rows, one at least, into the table with the number 4.
fn flush_of(alloc: Global, rows: MemTable) -> Result<Flushing, Stopped> {
    if rows.is_empty() {
        return Err(Stopped);
    }
    let flush = Flush::new(alloc, rows, 4, session()?);
    Ok(Flushing { flush })
}

// What a flush hands out: how many pieces before the last and how many bytes they have, and the
// last.
#[derive(Drop)]
struct Handed {
    pieces: u32,
    len: u64,
    last: Finished,
}

// Goes through the steps of a flush with rows left.
fn hand_out(flush: &mut Flush) -> Result<Handed, Stopped>
    requires { flush.old.taken < length (newest_each flush.old.rows) }
{
    let mut len = 0u64;
    for pieces in 0..10u32 {
        match flush.step()? {
            FlushPiece::Piece(bytes) => len = len.saturating_add(bytes.len() as u64),
            FlushPiece::Last(last) => return Ok(Handed { pieces, len, last }),
        }
    }
    Err(Stopped)
}

// A flush that went to its end, and what it handed out.
#[derive(Drop)]
struct Ended {
    flush: Flush,
    handed: Handed,
}

fn to_its_end(flushing: Flushing) -> Result<Ended, Stopped> {
    let Flushing { mut flush } = flushing;
    let handed = hand_out(&mut flush)?;
    Ok(Ended { flush, handed })
}

// The sequence of a key's newest row, and whether it has a value.
fn newest(rows: &MemTable, key: &[u8]) -> Option<(u64, bool)> {
    match rows.get(key) {
        Some(row) => Some((row.sequence, row.value.is_some())),
        None => None,
    }
}

fn first_rows(rows: &MemTable, count: u32) -> Result<Rows, Stopped> {
    Ok(rows.rows(None, count)?)
}

fn rows_after(rows: &MemTable, after: &InternalKey, count: u32) -> Result<Rows, Stopped> {
    Ok(rows.rows(Some(after.as_slice()), count)?)
}

fn bytes(rows: &MemTable) -> u64 {
    rows.bytes()
}

fn take_back(rows: &mut MemTable, first: u64) {
    rows.take_back(first);
}

// The last of a flush in one step.
fn flushed(alloc: Global, first: u64, ops: &[Short]) -> Result<Finished, Stopped> {
    let rows = rows_of(alloc, first, ops)?;
    let flushing = flush_of(alloc, rows)?;
    let Ended { flush: _, handed } = to_its_end(flushing)?;
    match handed {
        Handed {
            pieces: 0,
            len: _,
            last,
        } => Ok(last),
        _ => Err(Stopped),
    }
}

fn has_tail(last: &Finished, tail: &[u8]) -> bool {
    last.tail.as_slice() == tail
}

fn one_row_takes_130_bytes(alloc: Global) -> Result<bool, Stopped> {
    let last = flushed(alloc, 1, ONE_ROW)?;
    Ok(last.size == 130 && has_tail(&last, ONE_TABLE))
}

// Whether this is the last of a table whose first row is the delete of `a` with the sequence 4.
fn begins_with_delete(alloc: Global, last: &Finished) -> Result<bool, Stopped> {
    let first = key(alloc, b"a", 4, Kind::Delete)?;
    Ok(last.smallest.as_slice() == first.as_slice())
}

// Whether the flush of the newer rows alone ends in these bytes.
fn newer_end_in(alloc: Global, tail: &[u8]) -> Result<bool, Stopped> {
    let newer = flushed(alloc, 3, NEWER)?;
    Ok(has_tail(&newer, tail))
}

fn are_newer(alloc: Global, all: &Finished) -> Result<bool, Stopped> {
    Ok(newer_end_in(alloc, all.tail.as_slice())? && begins_with_delete(alloc, all)?)
}

fn newer_rows_are_taken(alloc: Global) -> Result<bool, Stopped> {
    let all = flushed(alloc, 1, TWO_KEYS)?;
    are_newer(alloc, &all)
}

// The flush of so many rows.
fn many_flushing(alloc: Global, count: u32) -> Result<Flushing, Stopped> {
    let rows = many_keys(alloc, count)?;
    flush_of(alloc, rows)
}

// Whether it had three steps, keeps its first row, and handed out the whole table.
fn is_whole(ended: &Ended) -> bool {
    let handed = &ended.handed;
    handed.pieces == 2
        && handed.len.saturating_add(handed.last.tail.len() as u64) == handed.last.size
        && newest(ended.flush.rows(), &0u32.to_be_bytes()) == Some((0, true))
}

fn three_steps_for_2500_rows(alloc: Global) -> Result<bool, Stopped> {
    let flushing = many_flushing(alloc, 2_500)?;
    Ok(is_whole(&to_its_end(flushing)?))
}

// Whether these are the put of `a` and the newer put of `b`.
fn are_next(rows: &Rows) -> bool {
    rows.len() == 2 && sequence_at(rows, 0) == 2 && sequence_at(rows, 1) == 3
}

// Whether they are the two rows behind the delete of `a`.
fn is_gone_through(alloc: Global, rows: &MemTable) -> Result<bool, Stopped> {
    let after = key(alloc, b"a", 4, Kind::Delete)?;
    Ok(are_next(&rows_after(rows, &after, 2)?))
}

fn has_newest(rows: &MemTable) -> bool {
    newest(rows, b"b") == Some((3, true)) && newest(rows, b"a") == Some((4, false))
}

fn rows_come_in(alloc: Global) -> Result<bool, Stopped> {
    let rows = two_keys(alloc)?;
    if !has_newest(&rows) || bytes(&rows) != 4 * (1 + 8) + 3 {
        return Ok(false);
    }
    is_gone_through(alloc, &rows)
}

// Whether so many rows are left, with so many bytes.
fn are_left(rows: &MemTable, count: usize, len: u64) -> Result<bool, Stopped> {
    Ok(first_rows(rows, 9)?.len() == count && bytes(rows) == len)
}

fn rows_are_taken_back(alloc: Global) -> Result<bool, Stopped> {
    let mut rows = two_keys(alloc)?;
    take_back(&mut rows, 3);
    are_left(&rows, 2, 2 * (1 + 1 + 8))
}

#[test]
fn one_row_flushes_to_a_table_of_130_bytes(rt: HostRuntime) {
    sure(&rt, one_row_takes_130_bytes(rt.alloc()));
}

#[test]
fn a_flush_takes_the_newer_rows_and_keeps_a_delete(rt: HostRuntime) {
    sure(&rt, newer_rows_are_taken(rt.alloc()));
}

#[test]
fn a_flush_of_2500_rows_has_three_steps(rt: HostRuntime) {
    sure(&rt, three_steps_for_2500_rows(rt.alloc()));
}

#[test]
fn rows_come_in_and_are_taken_back(rt: HostRuntime) {
    sure(&rt, rows_come_in(rt.alloc()));
    sure(&rt, rows_are_taken_back(rt.alloc()));
}
