//! Tables against those of another writer, and tables in their order.
ghost use Rattle.std.specs.Prelude.{◌≡◌, ◌<◌, ◌≤◌, ◌^◌, length, IfOk};
ghost use Rattle.lsm_table.specs.Building.{row_len};

use crate::block::parsed;
use crate::claims::{Stopped, holds, sure};
use crate::rows::has_value;
use crate::views::{ONE_TABLE, TextView, changed, refusal, session, table};
use lsm_block::Block;
use lsm_bytes::{Bytes, NoMemory};
use lsm_rows::{Row, Rows};
use lsm_table::{
    Finished, Properties, Table, TableBuilder, TableError, TableFault, Tables, row_of, rows_of,
};
use std::alloc::Global;

// A builder with a row at least.
#[derive(Drop)]
struct Begun {
    builder: TableBuilder,
    ghost some: { 1 ≤ builder.count },
}

// The row `a` with the sequence 1 and the value `1`.
fn row(alloc: Global) -> Result<Row, NoMemory>
    ensures sequence { IfOk result (λ row. row.sequence ≡ 1) }
    ensures len { IfOk result (λ row. row_len row ≤ 2) }
{
    let key = Bytes::from_slice(alloc, b"a")?;
    let value = Bytes::from_slice(alloc, b"1")?;
    Ok(Row {
        key,
        sequence: 1,
        value: Some(value),
    })
}

// The table with the number 4 and that row.
fn one_row(alloc: Global) -> Result<Begun, Stopped> {
    let session = session()?;
    let row = row(alloc)?;
    let mut builder = TableBuilder::new(alloc, 4, session);
    builder.add(&row)?;
    Ok(Begun { builder })
}

fn finished(begun: Begun) -> Result<Finished, NoMemory> {
    begun.builder.finish()
}

fn data_len(begun: &Begun) -> u64 {
    begun.builder.data_len()
}

// Whether the builder has handed out nothing so far, and has nothing to hand out.
fn has_no_piece(alloc: Global) -> Result<bool, Stopped> {
    let mut begun = one_row(alloc)?;
    Ok(begun.builder.next_piece().is_none())
}

fn is_of_130_bytes(alloc: Global) -> Result<bool, Stopped> {
    let begun = one_row(alloc)?;
    let is_of_21 = data_len(&begun) == 21;
    let finished = finished(begun)?;
    Ok(has_this_text(&finished) && is_of_21)
}

fn has_this_text(finished: &Finished) -> bool {
    finished.size == 130
        && finished.tail.as_slice() == ONE_TABLE.as_slice()
        && finished.smallest.as_slice() == b"a\x01\x01\0\0\0\0\0\0".as_slice()
        && finished.largest == finished.smallest
}

// The rows `a` with the sequence 2, deleted, and `b` with the sequence 1 and the value `x`.
const DELETE_AND_PUT: &[u8] =
    b"\0\x09\0a\0\x02\0\0\0\0\0\0\0\x09\x01b\x01\x01\0\0\0\0\0\0x\0\0\0\0\x01\0\0\0";

// The row that a block has of a key.
fn found(alloc: Global, block: &Block, key: &[u8]) -> Result<Option<Row>, NoMemory> {
    row_of(alloc, block, key)
}

/// A row's sequence; 0 where there is none.
pub fn sequence_of(row: Option<Row>) -> u64 {
    match row {
        Some(row) => row.sequence,
        None => 0,
    }
}

const SEQUENCES: &[(&'static [u8], u64)] = &[(b"a", 2), (b"b", 1), (b"", 0), (b"ab", 0), (b"c", 0)];

fn has_sequences(alloc: Global, block: &Block) -> Result<bool, Stopped> {
    for (key, sequence) in SEQUENCES {
        if sequence_of(found(alloc, block, key)?) != *sequence {
            return Ok(false);
        }
    }
    Ok(true)
}

fn has(alloc: Global, block: &Block, key: &[u8], value: Option<&[u8]>) -> Result<bool, Stopped> {
    match found(alloc, block, key)? {
        Some(row) => Ok(has_value(&row, value)),
        None => Ok(false),
    }
}

fn has_both(alloc: Global, block: &Block) -> Result<bool, Stopped> {
    Ok(
        has_sequences(alloc, block)?
            && has(alloc, block, b"a", None)?
            && has(alloc, block, b"b", Some(b"x"))?,
    )
}

fn has_rows_of_its_keys(alloc: Global) -> Result<bool, Stopped> {
    let block = parsed(alloc, DELETE_AND_PUT)?;
    has_both(alloc, &block)
}

fn are_both(rows: &Rows) -> bool {
    rows.len() == 2 && is_at(rows, 0, 2, None) && is_at(rows, 1, 1, Some(b"x"))
}

fn gives_both(alloc: Global, block: &Block) -> Result<bool, Stopped> {
    Ok(are_both(&rows_in(alloc, block)?))
}

fn has_rows_in_turn(alloc: Global) -> Result<bool, Stopped> {
    let block = parsed(alloc, DELETE_AND_PUT)?;
    gives_both(alloc, &block)
}

// Whether the row at a place has this sequence and this value.
fn is_at(rows: &Rows, place: usize, sequence: u64, value: Option<&[u8]>) -> bool {
    match rows.as_slice().get(place) {
        Some(row) => row.sequence == sequence && has_value(row, value),
        None => false,
    }
}

/// How many bytes of the table of one row are there; which of them are others; and what is wrong
/// then.
type Change = (usize, &'static [(usize, u8)], TableFault);

// Each change of contents but the damaged ones has its own right checksum.
#[rattlefmt::skip]
const CHANGES: &[Change] = &[
    (35, &[], TableFault::Malformed { place: 0 }),
    (130, &[(129, b'2')], TableFault::Malformed { place: 94 }),
    (130, &[(94, 27)], TableFault::Damaged { place: 94, kept: 1384754139, found: 3617497204 }),
    (130, &[(110, 54), (118, 98), (119, 98), (120, 88), (121, 97)], TableFault::Malformed { place: 94 }),
    (130, &[(48, 1)], TableFault::Malformed { place: 26 }),
    (130, &[(30, 98)], TableFault::Damaged { place: 26, kept: 3206891830, found: 2487447228 }),
    (130, &[(30, 2), (49, 245), (50, 173), (51, 150), (52, 253)], TableFault::Malformed { place: 26 }),
    (130, &[(39, 149), (49, 56), (50, 149), (51, 109), (52, 109)], TableFault::Malformed { place: 26 }),
    (130, &[(89, 1)], TableFault::Malformed { place: 53 }),
    (130, &[(53, 5)], TableFault::Damaged { place: 53, kept: 875568618, found: 359381168 }),
    (130, &[(71, 97), (72, 98), (73, 99), (74, 100), (75, 101), (76, 102), (77, 103), (78, 104), (79, 105), (80, 106),
        (90, 170), (91, 35), (92, 179), (93, 246)], TableFault::Malformed { place: 53 }),
];

fn is_refused(alloc: Global, change: &Change) -> Result<bool, Stopped> {
    let (len, changes, fault) = *change;
    Ok(refusal(alloc, changed(alloc, len, changes)?) == Some(fault))
}

fn are_refused(alloc: Global) -> Result<bool, Stopped> {
    for change in CHANGES {
        if !is_refused(alloc, change)? {
            return Ok(false);
        }
    }
    Ok(true)
}

fn a_broken_view_is_handed_back(alloc: Global) -> Result<bool, Stopped> {
    let mut view = changed(alloc, 130, &[])?;
    view.broken = true;
    match crate::views::open(alloc, view) {
        Ok(_) => Ok(false),
        Err(TableError { why, view }) => Ok(why == TableFault::ReadFault && view.faults == 1),
    }
}

/// Where the data block stands in which a table has a key.
pub fn locate(table: &Table<TextView>, key: &[u8]) -> Option<u64> {
    table.locate(key)
}

fn block_fault(table: &mut Table<TextView>, place: u64) -> Option<TableFault> {
    table.block(place).err()
}

/// The newest row that a table has of a key.
pub fn get(table: &mut Table<TextView>, key: &[u8]) -> Result<Option<Row>, TableFault> {
    table.get(key)
}

/// The number of a table's data blocks.
pub fn blocks(table: &Table<TextView>) -> usize {
    table.blocks()
}

/// The data block of this number in a table's index.
pub fn nth_block(table: &mut Table<TextView>, nth: usize) -> Result<Block, Stopped> {
    if nth >= table.blocks() {
        return Err(Stopped);
    }
    Ok(table.nth_block(nth)?)
}

// What is wrong with the first data block.
fn first_fault(table: &mut Table<TextView>) -> Option<TableFault> {
    if table.blocks() == 0 {
        return None;
    }
    table.nth_block(0).err()
}

/// The rows of a block, in their order.
pub fn rows_in(alloc: Global, block: &Block) -> Result<Rows, NoMemory> {
    rows_of(alloc, block)
}

fn properties(table: &Table<TextView>) -> Properties {
    table.properties()
}

// Whether the table whose data block has this byte in its key is met so.
fn is_met(alloc: Global, byte: u8, fault: Option<TableFault>) -> Result<bool, Stopped> {
    let mut table = table(alloc, &[(3, byte)])?;
    Ok(meets(&mut table, fault))
}

fn meets(table: &mut Table<TextView>, fault: Option<TableFault>) -> bool {
    locate(table, b"a") == Some(0)
        && blocks(table) == 1
        && block_fault(table, 0) == fault
        && first_fault(table) == fault
        && get_fault(table, b"a") == fault
}

fn get_fault(table: &mut Table<TextView>, key: &[u8]) -> Option<TableFault> {
    get(table, key).err()
}

/// What is wrong with the data block of the table of one row, where its key is `b` in place of `a`.
pub const DAMAGED: TableFault = TableFault::Damaged {
    place: 0,
    kept: 989429378,
    found: 2185886145,
};

fn whole_and_damaged_are_met(alloc: Global) -> Result<bool, Stopped> {
    Ok(is_met(alloc, b'a', None)? && is_met(alloc, b'b', Some(DAMAGED))?)
}

fn gets(table: &mut Table<TextView>, key: &[u8], sequence: u64) -> Result<bool, Stopped> {
    Ok(sequence_of(get(table, key)?) == sequence)
}

fn has_one_row(table: &mut Table<TextView>) -> Result<bool, Stopped> {
    Ok(gets(table, b"a", 1)? && gets(table, b"", 0)? && gets(table, b"b", 0)?)
}

fn tells_one_row(table: &Table<TextView>) -> bool {
    let told = properties(table);
    told.number == 4 && told.rows == 1
}

fn faults_of(table: Table<TextView>) -> u64 {
    table.into_view().faults
}

fn has_its_row(alloc: Global) -> Result<bool, Stopped> {
    let mut table = table(alloc, &[])?;
    let is_found = holds(has_one_row(&mut table)) && tells_one_row(&table);
    Ok(faults_of(table) == 0 && is_found)
}

fn push(tables: &mut Tables<TextView>, table: Table<TextView>) -> Result<(), Stopped> {
    match tables.push(table) {
        Ok(()) => Ok(()),
        Err(_) => Err(Stopped),
    }
}

fn get_in_first(tables: &mut Tables<TextView>, key: &[u8]) -> Result<Option<Row>, Stopped> {
    if tables.is_empty() {
        return Err(Stopped);
    }
    Ok(get(tables.table_mut(0), key)?)
}

// The number of the table that is taken out.
fn popped(tables: &mut Tables<TextView>) -> Option<u64> {
    match tables.pop() {
        Some(table) => Some(properties(&table).number),
        None => None,
    }
}

fn go_in_and_out(alloc: Global, tables: &mut Tables<TextView>) -> Result<bool, Stopped> {
    push(tables, table(alloc, &[])?)?;
    let is_found = tables.len() == 1 && sequence_of(get_in_first(tables, b"a")?) == 1;
    Ok(is_found && popped(tables) == Some(4) && popped(tables).is_none())
}

fn are_in_order(alloc: Global) -> Result<bool, Stopped> {
    let mut tables = Tables::new(alloc);
    let none = tables.is_empty();
    Ok(none && go_in_and_out(alloc, &mut tables)?)
}

#[test]
fn one_row_has_a_table_of_130_bytes(rt: HostRuntime) {
    sure(&rt, is_of_130_bytes(rt.alloc()));
    sure(&rt, has_no_piece(rt.alloc()));
}

#[test]
fn a_block_has_rows_of_its_keys_alone(rt: HostRuntime) {
    sure(&rt, has_rows_of_its_keys(rt.alloc()));
}

#[test]
fn a_block_has_its_rows_in_turn(rt: HostRuntime) {
    sure(&rt, has_rows_in_turn(rt.alloc()));
}

#[test]
fn a_changed_table_is_refused_where_it_is_wrong(rt: HostRuntime) {
    sure(&rt, are_refused(rt.alloc()));
    sure(&rt, a_broken_view_is_handed_back(rt.alloc()));
}

#[test]
fn a_damaged_block_is_met_when_it_is_read(rt: HostRuntime) {
    sure(&rt, whole_and_damaged_are_met(rt.alloc()));
}

#[test]
fn a_table_of_another_writer_has_its_row(rt: HostRuntime) {
    sure(&rt, has_its_row(rt.alloc()));
}

#[test]
fn tables_are_kept_in_their_order(rt: HostRuntime) {
    sure(&rt, are_in_order(rt.alloc()));
}
