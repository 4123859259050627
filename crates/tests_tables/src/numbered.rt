//! Tables of numbered rows, over many blocks.
ghost use Rattle.std.specs.Prelude.{◌≡◌, ◌+◌, ◌*◌, ◌^◌, ◌<◌, ◌≤◌, [], List, ℕ, length, unwrap_or, IfOk, OnOk};
ghost use Rattle.lsm_table.specs.Building.{row_len};
ghost use Rattle.lsm_table.specs.Cuts.{size_of};
ghost use Rattle.lsm_table.specs.NumberedRows.{numbered, IsBuiltBefore};

use crate::claims::Stopped;
use crate::rows::has_value;
use crate::views::{TextView, opened, session, view_of};
use lsm_bytes::{Bytes, NoMemory};
use lsm_names::Session;
use lsm_rows::{Row, Rows};
use lsm_table::{Table, TableBuilder};
use std::alloc::Global;

/// How many rows a table has at most.
pub const MOST: u32 = 10_000;

/// The user key of the row with this number: two bytes, so that keys come in the order of the
/// numbers.
#[tactic(auto, unfolding(lsm_table::specs::NumberedRows::numbered))]
pub fn numbered_key(number: u32) -> [u8; 2]
    ensures { result ≡ numbered number }
{
    [(number / 256 % 256) as u8, (number % 256) as u8]
}

/// Later rows have smaller sequences.
pub fn numbered_sequence(number: u32) -> u64
    ensures { result < 2 ^ 56 }
{
    20_000 - u64::from(number.min(MOST))
}

/// Of seven rows one is a delete.
pub fn is_deleted(number: u32) -> bool {
    number % 7 == 3
}

// The value is the key's last byte 40 times.
fn numbered_value(alloc: Global, number: u32) -> Result<Option<Bytes>, NoMemory>
    ensures { IfOk result (λ value. length (unwrap_or value []) ≤ 40) }
{
    if is_deleted(number) {
        return Ok(None);
    }
    let [_, low] = numbered_key(number);
    let value = Bytes::from_slice(alloc, &[low; 40])?;
    Ok(Some(value))
}

fn numbered_row(alloc: Global, number: u32) -> Result<Row, NoMemory>
    ensures key { IfOk result (λ row. row.key ≡ numbered number) }
    ensures sequence { IfOk result (λ row. row.sequence < 2 ^ 56) }
    ensures len { IfOk result (λ row. row_len row ≤ 42) }
{
    let key = Bytes::from_slice(alloc, &numbered_key(number))?;
    let value = numbered_value(alloc, number)?;
    Ok(Row {
        key,
        sequence: numbered_sequence(number),
        value,
    })
}

// Adds the row with this number.
fn add_numbered(alloc: Global, builder: &mut TableBuilder, number: u32) -> Result<(), NoMemory>
    requires few { number < 10000 }
    requires size { size_of builder.old.blocks ≤ 4 + 300 * number }
    requires before { IsBuiltBefore builder.old (numbered number) }
    ensures size { OnOk result (size_of builder.new.blocks ≤ 304 + 300 * number) }
    ensures before { OnOk result (IsBuiltBefore builder.new (numbered (number + 1))) }
    ensures count { OnOk result (builder.new.count ≡ builder.old.count + 1) }
{
    let row = numbered_row(alloc, number)?;
    builder.add(&row)?;
    Ok(())
}

// Moves the bytes of ended blocks into a text.
fn hand_out(builder: &mut TableBuilder, text: &mut Bytes) -> Result<(), NoMemory>
    ensures size { size_of builder.new.blocks ≡ size_of builder.old.blocks }
    ensures before { (key : List ℕ) → IsBuiltBefore builder.old key → IsBuiltBefore builder.new key }
    ensures count { builder.new.count ≡ builder.old.count }
{
    match builder.next_piece() {
        Some(piece) => text.extend_from_slice(piece.as_slice())?,
        None => {}
    }
    Ok(())
}

// Writes what is left of a table behind its text so far.
fn end(builder: TableBuilder, text: &mut Bytes) -> Result<(), NoMemory>
    requires { 1 ≤ builder.count }
{
    let finished = builder.finish()?;
    text.extend_from_slice(finished.tail.as_slice())
}

// Writes the table of the first rows, so many.
fn build(alloc: Global, session: Session, count: u32, text: &mut Bytes) -> Result<(), NoMemory> {
    if count == 0 || count > MOST {
        return Err(NoMemory);
    }
    let mut builder = TableBuilder::new(alloc, 12, session);
    for number in 0..count {
        add_numbered(alloc, &mut builder, number)?;
        hand_out(&mut builder, text)?;
    }
    end(builder, text)
}

// The text of the table of the first rows, so many.
fn built(alloc: Global, count: u32) -> Result<Bytes, Stopped> {
    let session = session()?;
    let mut text = Bytes::new(alloc);
    build(alloc, session, count, &mut text)?;
    Ok(text)
}

/// The table of the first rows, so many.
pub fn table_of(alloc: Global, count: u32) -> Result<Table<TextView>, Stopped> {
    let text = built(alloc, count)?;
    opened(alloc, view_of(text))
}

/// Whether this is the row with this number.
pub fn is_numbered(row: &Row, number: u32) -> bool {
    row.sequence == numbered_sequence(number)
        && row.key.as_slice() == numbered_key(number).as_slice()
        && has_numbered_value(row, number)
}

fn has_numbered_value(row: &Row, number: u32) -> bool {
    let [_, low] = numbered_key(number);
    if is_deleted(number) {
        has_value(row, None)
    } else {
        has_value(row, Some(&[low; 40]))
    }
}

/// Whether the rows are numbered from this one on, and so many.
pub fn are_numbered(rows: &Rows, first: u32, count: u32) -> bool {
    let mut number = first;
    for row in rows.as_slice() {
        if !is_numbered(row, number) {
            return false;
        }
        number = number.saturating_add(1);
    }
    rows.len() as u64 == u64::from(count)
}
