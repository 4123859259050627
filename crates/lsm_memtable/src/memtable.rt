//! The rows that the tables don't have yet.
ghost use Rattle.std.specs.Prelude.{◌≡◌, List, ◌<◌, ◌≤◌, ◌^◌, ◌+◌, ◌*◌, ◌∷◌, ◌++◌, [], length, take, nat_lt, ◌↔◌, IsTrue, IfOk, OnOk, OnErr, IfSome};
ghost use Rattle.std.specs.List.{filter, sum_by};
ghost use Rattle.std.specs.Option.{option_map};
ghost use Rattle.lsm_rows.specs.declared.rows.Row.{Row};
ghost use Rattle.lsm_rows.specs.Rows.{batch_rows, row_of};
ghost use Rattle.lsm_rows.specs.Contents.{newest, AllBefore};
ghost use Rattle.lsm_block.specs.Runs.{rows_after};
ghost use Rattle.lsm_memtable.specs.Greatest.{greatest_from};
ghost use Rattle.lsm_memtable.specs.Sizes.{row_bytes, op_bytes, room_of};
ghost use Rattle.lsm_memtable.specs.Order.{AreInOrder};
ghost use Rattle.lsm_memtable.specs.Joining.{AreJoined};
ghost use Rattle.lsm_memtable.specs.RowLimits.{RowInLimits, RowsInLimits};

use crate::places::copy_of;
use crate::row_map::RowMap;
use crate::sizes::{Sizes, ops_bytes, row_bytes};
use lsm_bytes::NoMemory;
use lsm_rows::{Batch, MAX_KEY, MAX_VALUE, Op, Row, Rows, SEQUENCES};
use std::alloc::Global;
use std::marker::Model;

// The rows' bytes and a hundred more for each row are fewer than this.
const ROOM: u64 = (1 << 29) - 4;

/// Rows in memory. Contracts see them in the order of internal keys: user keys by their bytes ascending, and of one
/// user key the greater sequence first.
///
/// Their bytes and a hundred more for each row are fewer than 2^29 - 4, so that one table can take them all.
#[derive(Drop)]
pub struct MemTable {
    alloc: Global,
    rows: RowMap,
    sizes: Sizes,
}

impl Model for MemTable {
    ghost use Rattle.std.specs.Prelude.{List};
    ghost use Rattle.lsm_rows.specs.declared.rows.Row.{Row};
    ghost use Rattle.lsm_memtable.specs.Memory.{IsMemory};

    ghost Value = { List Row };

    ghost view = { λ m. m.rows };

    ghost invariant = { λ m. IsMemory m.rows m.sizes.rows m.sizes.bytes };
}

impl MemTable {
    /// No rows. They take their memory from `alloc`.
    pub fn new(alloc: Global) -> Self
        ensures { result ≡ [] }
    {
        MemTable {
            alloc,
            rows: RowMap::new(alloc),
            sizes: Sizes { rows: 0, bytes: 0 },
        }
    }

    /// Copies of rows whose sequences ascend. It is refused where memory is wanting, where the table would pass its limit,
    /// where a sequence isn't past the one before it or is past the last that there is, and where a key or a value is
    /// longer than one may be.
    pub fn of_rows(alloc: Global, rows: &[Row]) -> Result<MemTable, NoMemory>
        ensures joined { IfOk result (λ table. AreJoined [] rows.now table) }
        ensures limits { IfOk result (λ table. RowsInLimits table) }
    {
        let mut table = MemTable::new(alloc);
        let mut next = 0;
        for row in rows {
            next = table.add_row(next, row)?;
        }
        Ok(table)
    }

    // Adds a copy of a row whose sequence is this one or a later one, and gives the one behind it.
    fn add_row(&mut self, next: u64, row: &Row) -> Result<u64, NoMemory>
        requires past { AllBefore next self.old }
        ensures joined { (more : List Row) → AreJoined [] more self.old → OnOk result (AreJoined [] (more ++ row.now ∷ []) self.new) }
        ensures past { IfOk result (λ later. AllBefore later self.new) }
        ensures limits { RowsInLimits self.old → OnOk result (RowsInLimits self.new) }
    {
        if row.sequence < next || row.sequence >= SEQUENCES {
            return Err(NoMemory);
        }
        let sizes = with_row(self.sizes, row)?;
        self.rows.push(self.alloc, copy_of(self.alloc, row)?)?;
        self.sizes = sizes;
        Ok(row.sequence + 1)
    }

    /// Adds the rows of a batch, whose operations have the sequences from `first` on: all of them or none. It is refused
    /// where memory is wanting, and where the table would pass its limit.
    pub fn add(&mut self, first: u64, batch: &Batch) -> Result<(), NoMemory>
        requires past { AllBefore first self.old }
        requires last { first + length batch.now ≤ 2 ^ 56 }
        ensures ok { OnOk result (AreJoined self.old (batch_rows first batch.now) self.new) }
        ensures undo { OnOk result (filter (λ row. nat_lt row.sequence first) self.new ≡ self.old) }
        ensures before { OnOk result (AllBefore (first + length batch.now) self.new) }
        ensures err { OnErr result (self.new ≡ self.old) }
    {
        let sizes = grown(self.sizes, batch)?;
        push_all(self.alloc, &mut self.rows, first, batch.ops())?;
        self.sizes = sizes;
        Ok(())
    }

    /// Takes out the rows with sequences from `first` on. It takes no memory.
    pub fn take_back(&mut self, first: u64)
        ensures { self.new ≡ filter (λ row. nat_lt row.sequence first) self.old }
    {
        self.rows.take_back(first);
        self.sizes = self.rows.sizes();
    }

    /// A key's row with the greatest sequence; None where it has no row. It takes no memory.
    pub fn get(&self, key: &[u8]) -> Option<&Row>
        ensures { option_map (λ row. row.now) result ≡ newest key.now self.now }
    {
        self.rows.get(key)
    }

    /// Whether there are no rows.
    pub fn is_empty(&self) -> bool
        ensures { IsTrue result ↔ (self.now ≡ []) }
    {
        self.sizes.rows == 0
    }

    /// The sum over the rows of the key's length, the value's length and 8. It is kept, and not counted anew.
    pub fn bytes(&self) -> u64
        ensures bytes { result ≡ sum_by row_bytes self.now }
        ensures order { AreInOrder self.now }
    {
        self.sizes.bytes
    }

    /// The greatest sequence of the rows; 0 where there are none. It looks at each row.
    pub fn last_sequence(&self) -> u64
        ensures last { result ≡ greatest_from 0 self.now }
        ensures order { AreInOrder self.now }
    {
        self.rows.last_sequence()
    }

    /// Copies of the next rows after an internal key, from the first where there is none, at most `count`. The key has 8
    /// bytes at least.
    pub fn rows(&self, after: Option<&[u8]>, count: u32) -> Result<Rows, NoMemory>
        requires { IfSome after (λ key. 8 ≤ length key.now) }
        ensures { IfOk result (λ rows. rows ≡ take count (rows_after (option_map (λ key. key.now) after.entry) self.now)) }
    {
        self.rows.rows_after(self.alloc, after, count as usize)
    }

    /// The rows, found by their keys.
    pub(crate) fn row_map(&self) -> &RowMap
        ensures rows { result.now ≡ self.now }
        ensures room { room_of self.now + 4 < 2 ^ 29 }
        ensures order { AreInOrder self.now }
    {
        &self.rows
    }
}

// The sizes with a batch's rows among the others. It is refused where the table would pass its limit.
fn grown(sizes: Sizes, batch: &Batch) -> Result<Sizes, NoMemory>
    requires { sizes.bytes + 100 * sizes.rows < 2 ^ 29 }
    ensures rows { IfOk result (λ new. new.rows ≡ sizes.rows + length batch.now) }
    ensures bytes { IfOk result (λ new. new.bytes ≡ sizes.bytes + sum_by op_bytes batch.now) }
    ensures room { IfOk result (λ new. new.bytes + 100 * new.rows + 4 < 2 ^ 29) }
{
    let rows = sizes.rows + batch.len() as u64;
    let bytes = sizes.bytes + ops_bytes(batch.ops());
    if bytes + 100 * rows >= ROOM {
        return Err(NoMemory);
    }
    Ok(Sizes { rows, bytes })
}

// The sizes with one row more. It is refused where the table would pass its limit, and where the row's key or value is longer
// than one may be.
fn with_row(sizes: Sizes, row: &Row) -> Result<Sizes, NoMemory>
    requires { sizes.bytes + 100 * sizes.rows < 2 ^ 29 }
    ensures limits { OnOk result (RowInLimits row.now) }
    ensures rows { IfOk result (λ new. new.rows ≡ sizes.rows + 1) }
    ensures bytes { IfOk result (λ new. new.bytes ≡ sizes.bytes + row_bytes row.now) }
    ensures room { IfOk result (λ new. new.bytes + 100 * new.rows + 4 < 2 ^ 29) }
{
    if !is_in_limits(row) {
        return Err(NoMemory);
    }
    let new = Sizes {
        rows: sizes.rows + 1,
        bytes: sizes.bytes + row_bytes(row),
    };
    if new.bytes + 100 * new.rows >= ROOM {
        return Err(NoMemory);
    }
    Ok(new)
}

// Whether a row's key and its value are no longer than they may be.
fn is_in_limits(row: &Row) -> bool
    ensures { IsTrue result → RowInLimits row.now }
{
    if row.key.len() > MAX_KEY {
        return false;
    }
    match &row.value {
        Some(value) => value.len() <= MAX_VALUE,
        None => true,
    }
}

// Adds the rows of operations, all of them or none.
fn push_all(alloc: Global, rows: &mut RowMap, first: u64, ops: &[Op]) -> Result<(), NoMemory>
    requires past { AllBefore first rows.old }
    requires last { first + length ops.now ≤ 2 ^ 56 }
    requires order { AreInOrder rows.old }
    ensures ok { OnOk result (AreJoined rows.old (batch_rows first ops.now) rows.new) }
    ensures undo { OnOk result (filter (λ row. nat_lt row.sequence first) rows.new ≡ rows.old) }
    ensures before { OnOk result (AllBefore (first + length ops.now) rows.new) }
    ensures err { OnErr result (rows.new ≡ rows.old) }
{
    match push_each(alloc, rows, first, ops) {
        Ok(()) => Ok(()),
        Err(refused) => {
            rows.take_back(first);
            Err(refused)
        }
    }
}

// Adds the rows of operations. After an error some of them may be there.
fn push_each(alloc: Global, rows: &mut RowMap, first: u64, ops: &[Op]) -> Result<(), NoMemory>
    requires past { AllBefore first rows.old }
    requires last { first + length ops.now ≤ 2 ^ 56 }
    requires order { AreInOrder rows.old }
    ensures ok { OnOk result (AreJoined rows.old (batch_rows first ops.now) rows.new) }
    ensures undo { OnOk result (filter (λ row. nat_lt row.sequence first) rows.new ≡ rows.old) }
    ensures before { OnOk result (AllBefore (first + length ops.now) rows.new) }
    ensures err { OnErr result (filter (λ row. nat_lt row.sequence first) rows.new ≡ rows.old) }
{
    let mut sequence = first;
    for op in ops {
        rows.push(alloc, row_of(alloc, sequence, op)?)?;
        sequence += 1;
    }
    Ok(())
}

// The row that an operation makes.
fn row_of(alloc: Global, sequence: u64, op: &Op) -> Result<Row, NoMemory>
    ensures { IfOk result (λ row. row ≡ row_of sequence op.now) }
{
    match op {
        Op::Put { key, value } => {
            let value = value.copy(alloc)?;
            let key = key.copy(alloc)?;
            Ok(Row {
                key,
                sequence,
                value: Some(value),
            })
        }
        Op::Delete { key } => {
            let key = key.copy(alloc)?;
            Ok(Row {
                key,
                sequence,
                value: None,
            })
        }
    }
}
