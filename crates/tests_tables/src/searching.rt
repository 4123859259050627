//! Tables of many rows, searched and gone through in runs.
ghost use Rattle.std.specs.Prelude.{◌≡◌, ◌≤◌, length};

use crate::claims::{Stopped, holds, sure};
use crate::numbered::{
    MOST, are_numbered, is_deleted, is_numbered, numbered_key, numbered_sequence, table_of,
};
use crate::rows::key;
use crate::table::{blocks, get, locate, nth_block, rows_in};
use crate::views::{TextView, opened, put_byte};
use lsm_block::Block;
use lsm_rows::{InternalKey, Kind, Row, Rows};
use lsm_table::{Table, TableFault, row_of};
use std::alloc::Global;

// How many rows are gone through in runs.
const COUNT: u32 = 2_000;

// A table that is searched for keys in their order, and the block that was read last.
#[derive(Drop)]
struct Search {
    table: Table<TextView>,
    place: u64,
    block: Block,
}

fn read(table: &mut Table<TextView>, place: u64) -> Result<Block, TableFault> {
    table.block(place)
}

fn begun(mut table: Table<TextView>) -> Result<Search, Stopped> {
    let block = read(&mut table, 0)?;
    Ok(Search {
        table,
        place: 0,
        block,
    })
}

// Reads the block of a key, unless it was the last.
fn moved(search: &mut Search, key: &[u8]) -> Result<(), Stopped> {
    let Some(place) = locate(&search.table, key) else {
        return Err(Stopped);
    };
    if place != search.place {
        search.block = read(&mut search.table, place)?;
        search.place = place;
    }
    Ok(())
}

fn in_block(alloc: Global, block: &Block, key: &[u8]) -> Result<Option<Row>, TableFault> {
    Ok(row_of(alloc, block, key)?)
}

fn is_row(row: Option<Row>, number: u32) -> bool {
    match row {
        Some(row) => is_numbered(&row, number),
        None => false,
    }
}

// Whether the row with this number is in the block that its key has.
fn is_found(alloc: Global, search: &mut Search, number: u32) -> Result<bool, Stopped> {
    let key = numbered_key(number);
    moved(search, &key)?;
    Ok(is_row(in_block(alloc, &search.block, &key)?, number))
}

// Whether each row is found. Each block is read once.
fn each_is_found(alloc: Global, table: Table<TextView>) -> Result<bool, Stopped> {
    let mut search = begun(table)?;
    are_found(alloc, &mut search)
}

fn are_found(alloc: Global, search: &mut Search) -> Result<bool, Stopped> {
    for number in 0..MOST {
        if !is_found(alloc, search, number)? {
            return Ok(false);
        }
    }
    Ok(true)
}

// Whether `get` finds one row of each hundred.
fn gets_find(table: &mut Table<TextView>) -> Result<bool, Stopped> {
    for hundred in 0..100u32 {
        let number = hundred * 100 + hundred;
        if !is_row(get(table, &numbered_key(number))?, number) {
            return Ok(false);
        }
    }
    Ok(true)
}

fn has_none(table: &mut Table<TextView>, key: &[u8]) -> Result<bool, Stopped> {
    Ok(get(table, key)?.is_none())
}

// Whether keys that no row has give none.
fn absent_have_none(table: &mut Table<TextView>) -> Result<bool, Stopped> {
    Ok(
        has_none(table, b"")?
            && has_none(table, b"\0")?
            && has_none(table, b"\0\0\0")?
            && has_none(table, b"\x13\x88\0")?
            && has_none(table, b"\x27\x10")?
            && has_none(table, b"\xff")?,
    )
}

fn is_told_and_got(table: &mut Table<TextView>) -> Result<bool, Stopped> {
    let is_told = table.properties().rows == 10_000;
    Ok(is_told && gets_find(table)? && absent_have_none(table)?)
}

fn ten_thousand_are_found(alloc: Global) -> Result<bool, Stopped> {
    let mut table = table_of(alloc, MOST)?;
    if !holds(is_told_and_got(&mut table)) {
        return Ok(false);
    }
    each_is_found(alloc, table)
}

fn first_rows(table: &mut Table<TextView>, count: u32) -> Result<Rows, TableFault> {
    table.rows(None, count)
}

fn rows_after(
    table: &mut Table<TextView>,
    after: &InternalKey,
    count: u32,
) -> Result<Rows, TableFault> {
    table.rows(Some(after.as_slice()), count)
}

// The internal key of the row with this number.
fn row_key(alloc: Global, number: u32) -> Result<InternalKey, Stopped> {
    let kind = if is_deleted(number) {
        Kind::Delete
    } else {
        Kind::Put
    };
    key(
        alloc,
        &numbered_key(number),
        numbered_sequence(number),
        kind,
    )
}

fn run_behind(
    alloc: Global,
    table: &mut Table<TextView>,
    number: u32,
    count: u32,
) -> Result<Rows, Stopped> {
    let before = row_key(alloc, number)?;
    Ok(rows_after(table, &before, count)?)
}

// The run of at most so many rows that begins with this number.
fn run_from(
    alloc: Global,
    table: &mut Table<TextView>,
    number: u32,
    count: u32,
) -> Result<Rows, Stopped> {
    if number == 0 {
        return Ok(first_rows(table, count)?);
    }
    run_behind(alloc, table, number - 1, count)
}

// How many rows a run of at most so many has that begins with this number.
fn run_len(number: u32, count: u32) -> u32 {
    count.min(COUNT.saturating_sub(number))
}

// The number behind the run of at most so many rows that begins with this number; None where it
// isn't the right one.
fn number_behind(
    alloc: Global,
    table: &mut Table<TextView>,
    number: u32,
    count: u32,
) -> Result<Option<u32>, Stopped> {
    let rows = run_from(alloc, table, number, count)?;
    let len = run_len(number, count);
    if are_numbered(&rows, number, len) {
        Ok(Some(number.saturating_add(len)))
    } else {
        Ok(None)
    }
}

// Whether runs of at most so many rows give all rows in turn, and then none.
fn is_gone_through(
    alloc: Global,
    table: &mut Table<TextView>,
    count: u32,
) -> Result<bool, Stopped> {
    let mut number = 0u32;
    for _run in 0..COUNT {
        let Some(next) = number_behind(alloc, table, number, count)? else {
            return Ok(false);
        };
        if next == number {
            return Ok(number == COUNT);
        }
        number = next;
    }
    Ok(false)
}

// The number behind rows that begin with this one; None where they aren't the right ones.
fn behind_rows(rows: &Rows, number: u32) -> Option<u32> {
    let len = u32::try_from(rows.len()).ok()?;
    if are_numbered(rows, number, len) {
        Some(number.saturating_add(len))
    } else {
        None
    }
}

// And behind the rows of a block.
fn behind_block(alloc: Global, block: &Block, number: u32) -> Result<Option<u32>, Stopped> {
    Ok(behind_rows(&rows_in(alloc, block)?, number))
}

// And behind those of the data block of this number.
fn behind_nth(
    alloc: Global,
    table: &mut Table<TextView>,
    nth: usize,
    number: u32,
) -> Result<Option<u32>, Stopped> {
    let block = nth_block(table, nth)?;
    behind_block(alloc, &block, number)
}

// Whether the data blocks, of which there are many, give all rows in turn.
fn blocks_are_in_turn(alloc: Global, table: &mut Table<TextView>) -> Result<bool, Stopped> {
    let mut number = 0u32;
    for nth in 0..blocks(table) {
        let Some(next) = behind_nth(alloc, table, nth, number)? else {
            return Ok(false);
        };
        number = next;
    }
    Ok(number == COUNT && blocks(table) > 10)
}

fn blocks_give_the_rows(alloc: Global) -> Result<bool, Stopped> {
    let mut table = table_of(alloc, COUNT)?;
    blocks_are_in_turn(alloc, &mut table)
}

// The table of all rows, whose first data block has another byte in its first key.
fn damaged(alloc: Global) -> Result<Table<TextView>, Stopped> {
    let mut view = table_of(alloc, COUNT)?.into_view();
    put_byte(&mut view.bytes, 3, 7);
    opened(alloc, view)
}

fn has_rows(alloc: Global, block: &Block) -> Result<bool, Stopped> {
    Ok(!rows_in(alloc, block)?.is_empty())
}

// Whether the first data block is damaged, and the next has its rows.
fn second_is_whole(alloc: Global, table: &mut Table<TextView>) -> Result<bool, Stopped> {
    let is_damaged = nth_block(table, 0).is_err();
    let block = nth_block(table, 1)?;
    Ok(has_rows(alloc, &block)? && is_damaged)
}

fn the_next_is_whole(alloc: Global) -> Result<bool, Stopped> {
    let mut table = damaged(alloc)?;
    second_is_whole(alloc, &mut table)
}

fn no_run_is_empty(table: &mut Table<TextView>) -> Result<bool, Stopped> {
    Ok(first_rows(table, 0)?.is_empty())
}

fn runs_are_in_turn(alloc: Global, table: &mut Table<TextView>) -> Result<bool, Stopped> {
    Ok(
        is_gone_through(alloc, table, 7)?
            && is_gone_through(alloc, table, 1_024)?
            && is_gone_through(alloc, table, 2_000)?
            && is_gone_through(alloc, table, 20_000)?
            && no_run_is_empty(table)?,
    )
}

fn runs_give_the_rows(alloc: Global) -> Result<bool, Stopped> {
    let mut table = table_of(alloc, COUNT)?;
    runs_are_in_turn(alloc, &mut table)
}

// Keys between rows, and the number of the row behind each: of a user key in between, and of a
// row's user key with greater and smaller sequences.
const BETWEEN: &[(&'static [u8], u64, u32)] = &[
    (b"", 5, 0),
    (b"\x01\0\0", 5, 257),
    (b"\x01\0", 20_000, 256),
    (b"\x01\0", 7, 257),
    (b"\x07\xd0", 7, COUNT),
];

fn begins_behind(
    alloc: Global,
    table: &mut Table<TextView>,
    user: &[u8],
    sequence: u64,
    number: u32,
) -> Result<bool, Stopped> {
    let after = key(alloc, user, sequence, Kind::Put)?;
    let rows = rows_after(table, &after, 400)?;
    Ok(are_numbered(&rows, number, run_len(number, 400)))
}

fn each_begins_behind(alloc: Global, table: &mut Table<TextView>) -> Result<bool, Stopped> {
    for (user, sequence, number) in BETWEEN {
        if !begins_behind(alloc, table, user, *sequence, *number)? {
            return Ok(false);
        }
    }
    Ok(true)
}

fn runs_begin_between(alloc: Global) -> Result<bool, Stopped> {
    let mut table = table_of(alloc, COUNT)?;
    each_begins_behind(alloc, &mut table)
}

#[test]
fn each_of_ten_thousand_rows_is_found(rt: HostRuntime) {
    sure(&rt, ten_thousand_are_found(rt.alloc()));
}

#[test]
fn runs_of_any_length_give_the_rows_in_turn(rt: HostRuntime) {
    sure(&rt, runs_give_the_rows(rt.alloc()));
}

#[test]
fn the_data_blocks_give_the_rows_in_turn(rt: HostRuntime) {
    sure(&rt, blocks_give_the_rows(rt.alloc()));
}

#[test]
fn a_damaged_block_hides_no_other(rt: HostRuntime) {
    sure(&rt, the_next_is_whole(rt.alloc()));
}

#[test]
fn a_run_begins_behind_a_key_that_is_not_there(rt: HostRuntime) {
    sure(&rt, runs_begin_between(rt.alloc()));
}
