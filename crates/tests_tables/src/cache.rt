//! Kept blocks, and gets that count what they read.
ghost use Rattle.std.specs.Prelude.{◌≤◌};

use crate::block::parsed;
use crate::claims::{Stopped, holds, sure};
use crate::table::DAMAGED;
use crate::views::{ONE_BLOCK, TextView, reads_of, table};
use lsm_block::Block;
use lsm_cache::{BlockCache, cached_get};
use lsm_rows::Row;
use lsm_table::{Table, TableFault};
use std::alloc::Global;

// Where the value stands in the block of one row.
const VALUE: usize = 12;

// The block of the row `a`, whose value is this byte.
fn block(alloc: Global, value: u8) -> Result<Block, Stopped> {
    let mut contents = *ONE_BLOCK;
    contents[VALUE] = value;
    Ok(parsed(alloc, contents.as_slice())?)
}

fn cache(alloc: Global, blocks: usize) -> Result<BlockCache, Stopped> {
    if blocks == 0 {
        return Err(Stopped);
    }
    Ok(BlockCache::new(alloc, blocks)?)
}

fn put(cache: &mut BlockCache, number: u64, place: u64, block: Block) -> Result<(), Stopped> {
    match cache.put(number, place, block) {
        Ok(()) => Ok(()),
        Err(_) => Err(Stopped),
    }
}

fn put_value(
    alloc: Global,
    cache: &mut BlockCache,
    number: u64,
    place: u64,
    value: u8,
) -> Result<(), Stopped> {
    let block = block(alloc, value)?;
    put(cache, number, place, block)
}

fn forget(cache: &mut BlockCache, number: u64) {
    cache.forget(number);
}

// The value that stands in a block.
fn value_in(block: &Block) -> Option<u8> {
    match block.seek_user(b"a") {
        Some((_, value)) => value.first().copied(),
        None => None,
    }
}

// The value that stands in the block which is kept for a place.
fn value_at(cache: &mut BlockCache, number: u64, place: u64) -> Option<u8> {
    match cache.get(number, place) {
        Some(block) => value_in(block),
        None => None,
    }
}

// The number of a table, a place in it, and the value of the block that is kept for it.
type Kept = (u64, u64, Option<u8>);

fn are_kept(cache: &mut BlockCache, rows: &[Kept]) -> bool {
    for (number, place, value) in rows {
        if value_at(cache, *number, *place) != *value {
            return false;
        }
    }
    true
}

const LATER: &[Kept] = &[
    (1, 26, None),
    (1, 0, Some(b'x')),
    (2, 0, Some(b'z')),
    (2, 26, None),
];

const OVERWRITTEN: &[Kept] = &[(2, 0, Some(b'z')), (1, 0, Some(b'w'))];

// Puts two blocks and uses the first of them, then a third, and then another first one.
fn unused_goes(alloc: Global, cache: &mut BlockCache) -> Result<bool, Stopped> {
    put_value(alloc, cache, 1, 0, b'x')?;
    put_value(alloc, cache, 1, 26, b'y')?;
    let is_first = value_at(cache, 1, 0) == Some(b'x');
    put_value(alloc, cache, 2, 0, b'z')?;
    let is_kept = are_kept(cache, LATER);
    put_value(alloc, cache, 1, 0, b'w')?;
    Ok(is_first && is_kept && are_kept(cache, OVERWRITTEN))
}

fn the_unused_one_goes(alloc: Global) -> Result<bool, Stopped> {
    let mut cache = cache(alloc, 2)?;
    unused_goes(alloc, &mut cache)
}

const FORGOTTEN: &[Kept] = &[(1, 0, None), (1, 26, None), (2, 0, Some(b'y'))];

// Puts two blocks of the table 1 and one of the table 2, and forgets the table 3, and then the
// table 1.
fn first_is_forgotten(alloc: Global, cache: &mut BlockCache) -> Result<bool, Stopped> {
    put_value(alloc, cache, 1, 0, b'x')?;
    put_value(alloc, cache, 2, 0, b'y')?;
    put_value(alloc, cache, 1, 26, b'z')?;
    forget(cache, 3);
    let is_kept = value_at(cache, 1, 0) == Some(b'x');
    forget(cache, 1);
    Ok(is_kept && are_kept(cache, FORGOTTEN))
}

fn one_is_forgotten(alloc: Global) -> Result<bool, Stopped> {
    let mut cache = cache(alloc, 4)?;
    first_is_forgotten(alloc, &mut cache)
}

// Where the table of one row with the number 5 and the value `2` has other bytes.
#[rattlefmt::skip]
const FIVE: &[(usize, u8)] = &[
    (12, b'2'), (22, 95), (23, 14), (24, 205), (25, 14), (53, 5), (90, 176), (91, 184), (92, 107), (93, 21),
];

// Where a damaged table has another byte in its data block.
const OTHER_KEY: &[(usize, u8)] = &[(3, b'b')];

// How many reads opening a table takes.
const OPENING: u64 = 3;

fn get(
    alloc: Global,
    cache: &mut BlockCache,
    table: &mut Table<TextView>,
    key: &[u8],
) -> Result<Option<Row>, TableFault> {
    cached_get(alloc, cache, table, key)
}

// The first byte of a row's value.
fn first_byte(row: &Row) -> Option<u8> {
    match &row.value {
        Some(value) => value.as_slice().first().copied(),
        None => None,
    }
}

// The first byte of the value that a table has of a key.
fn value_of(
    alloc: Global,
    cache: &mut BlockCache,
    table: &mut Table<TextView>,
    key: &[u8],
) -> Result<Option<u8>, TableFault> {
    match get(alloc, cache, table, key)? {
        Some(row) => Ok(first_byte(&row)),
        None => Ok(None),
    }
}

const GETS: &[(&'static [u8], Option<u8>)] = &[
    (b"a", Some(b'1')),
    (b"a", Some(b'1')),
    (b"", None),
    (b"b", None),
];

fn are_got(
    alloc: Global,
    cache: &mut BlockCache,
    table: &mut Table<TextView>,
) -> Result<bool, Stopped> {
    for (key, value) in GETS {
        if value_of(alloc, cache, table, key)? != *value {
            return Ok(false);
        }
    }
    Ok(true)
}

// Whether four gets go well with a new cache.
fn four_go_well(alloc: Global, table: &mut Table<TextView>) -> Result<bool, Stopped> {
    let mut cache = cache(alloc, 1)?;
    are_got(alloc, &mut cache, table)
}

// Whether opening a table and what came of it took so many reads more.
fn were_read(table: Table<TextView>, more: u64) -> bool {
    reads_of(table) == OPENING.saturating_add(more)
}

fn four_gets_read_once(alloc: Global) -> Result<bool, Stopped> {
    let mut four = table(alloc, &[])?;
    let is_got = holds(four_go_well(alloc, &mut four));
    Ok(were_read(four, 1) && is_got)
}

// Two tables that are open at once.
#[derive(Drop)]
struct Pair {
    four: Table<TextView>,
    five: Table<TextView>,
}

fn both_open(alloc: Global) -> Result<Pair, Stopped> {
    let four = table(alloc, &[])?;
    let five = table(alloc, FIVE)?;
    Ok(Pair { four, five })
}

// Gets the one key of two tables in turn, twice.
fn turns(alloc: Global, cache: &mut BlockCache, pair: &mut Pair) -> Result<bool, Stopped> {
    for _turn in 0..2u32 {
        let first = value_of(alloc, cache, &mut pair.four, b"a")?;
        let second = value_of(alloc, cache, &mut pair.five, b"a")?;
        if first != Some(b'1') || second != Some(b'2') {
            return Ok(false);
        }
    }
    Ok(true)
}

fn turns_go_well(alloc: Global, pair: &mut Pair) -> Result<bool, Stopped> {
    let mut cache = cache(alloc, 1)?;
    turns(alloc, &mut cache, pair)
}

fn two_tables_in_turn(alloc: Global) -> Result<bool, Stopped> {
    let mut pair = both_open(alloc)?;
    let is_got = holds(turns_go_well(alloc, &mut pair));
    let Pair { four, five } = pair;
    let is_four = were_read(four, 2);
    Ok(were_read(five, 2) && is_four && is_got)
}

fn is_damaged_twice(alloc: Global, cache: &mut BlockCache, table: &mut Table<TextView>) -> bool {
    for _turn in 0..2u32 {
        if value_of(alloc, cache, table, b"a") != Err(DAMAGED) {
            return false;
        }
    }
    true
}

// Whether two gets meet the damage, with a new cache.
fn damage_is_met(alloc: Global, table: &mut Table<TextView>) -> Result<bool, Stopped> {
    let mut cache = cache(alloc, 1)?;
    Ok(is_damaged_twice(alloc, &mut cache, table))
}

fn a_damaged_one_is_read_again(alloc: Global) -> Result<bool, Stopped> {
    let mut damaged = table(alloc, OTHER_KEY)?;
    let is_met = holds(damage_is_met(alloc, &mut damaged));
    Ok(were_read(damaged, 2) && is_met)
}

#[test]
fn the_block_used_longest_ago_goes(rt: HostRuntime) {
    sure(&rt, the_unused_one_goes(rt.alloc()));
}

#[test]
fn a_table_is_forgotten_and_no_other(rt: HostRuntime) {
    sure(&rt, one_is_forgotten(rt.alloc()));
}

#[test]
fn a_kept_block_is_not_read_again(rt: HostRuntime) {
    sure(&rt, four_gets_read_once(rt.alloc()));
}

#[test]
fn a_block_of_another_table_is_not_given(rt: HostRuntime) {
    sure(&rt, two_tables_in_turn(rt.alloc()));
}

#[test]
fn a_damaged_block_is_not_kept(rt: HostRuntime) {
    sure(&rt, a_damaged_one_is_read_again(rt.alloc()));
}
