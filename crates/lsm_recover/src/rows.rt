//! The rows of a log's batches.
ghost use Rattle.std.specs.Prelude.{◌≡◌, ◌+◌, ◌++◌, ◌^◌, ◌<◌, length, IfOk, OnOk};
ghost use Rattle.lsm_rows.specs.Rows.{row_of, batch_rows};
ghost use Rattle.lsm_recover.specs.Logs.{AddsRows};

use lsm_bytes::NoMemory;
use lsm_rows::{Batch, Op, Row, Rows};
use std::alloc::Global;

// Adds the rows of batches, whose sequences come behind this one. After an error some of them are
// there.
pub(crate) fn push_batches(
    alloc: Global,
    rows: &mut Rows,
    last: u64,
    batches: &[Batch],
) -> Result<(), NoMemory>
    ensures { OnOk result (AddsRows last batches.now rows.old rows.new) }
{
    let mut last = last;
    for batch in batches {
        last = push_batch(alloc, rows, last, batch.ops())?;
    }
    Ok(())
}

// Adds the rows of operations, whose sequences come behind this one, and gives the last sequence.
fn push_batch(alloc: Global, rows: &mut Rows, last: u64, ops: &[Op]) -> Result<u64, NoMemory>
    ensures last { IfOk result (λ found. last + length ops.now < 2 ^ 64 → found ≡ last + length ops.now) }
    ensures rows { OnOk result (last + length ops.now < 2 ^ 64 → rows.new ≡ rows.old ++ batch_rows (last + 1) ops.now) }
{
    let mut last = last;
    for op in ops {
        last = last.saturating_add(1);
        rows.push(row_of(alloc, last, op)?)?;
    }
    Ok(last)
}

// The row that an operation makes.
fn row_of(alloc: Global, sequence: u64, op: &Op) -> Result<Row, NoMemory>
    ensures { IfOk result (λ row. row ≡ row_of sequence op.now) }
{
    match op {
        Op::Put { key, value } => {
            let value = value.copy(alloc)?;
            let key = key.copy(alloc)?;
            Ok(Row {
                key,
                sequence,
                value: Some(value),
            })
        }
        Op::Delete { key } => {
            let key = key.copy(alloc)?;
            Ok(Row {
                key,
                sequence,
                value: None,
            })
        }
    }
}
