//! How much memory's rows count.
ghost use Rattle.std.specs.Prelude.{◌≡◌, ◌+◌, ◌*◌, ◌^◌, ◌<◌, ◌≤◌, All, length};
ghost use Rattle.std.specs.List.{sum_by};
ghost use Rattle.lsm_rows.specs.Limits.{InLimits, OpInLimits};
ghost use Rattle.lsm_memtable.specs.Sizes.{row_bytes, op_bytes};

use lsm_rows::{Op, Row};

/// The number of rows, and their bytes: of each row its key, its value and 8 more.
#[derive(Clone, Copy)]
pub struct Sizes {
    pub rows: u64,
    pub bytes: u64,
}

// What a row counts besides its key and its value.
const FIXED: u64 = 8;

/// What a row counts.
pub fn row_bytes(row: &Row) -> u64
    requires { row_bytes row.now < 2 ^ 29 }
    ensures { result ≡ row_bytes row.now }
{
    let value = match &row.value {
        Some(value) => value.len() as u64,
        None => 0,
    };
    row.key.len() as u64 + value + FIXED
}

/// What the rows of operations count.
pub fn ops_bytes(ops: &[Op]) -> u64
    requires { InLimits ops.now }
    ensures bytes { result ≡ sum_by op_bytes ops.now }
    ensures small { result < 2 ^ 40 }
{
    let mut bytes = 0;
    for op in ops {
        bytes += op_bytes(op);
    }
    bytes
}

// What an operation's row counts.
fn op_bytes(op: &Op) -> u64
    requires { OpInLimits op.now }
    ensures bytes { result ≡ op_bytes op.now }
    ensures small { result < 2 ^ 21 }
{
    match op {
        Op::Put { key, value } => key.len() as u64 + value.len() as u64 + FIXED,
        Op::Delete { key } => key.len() as u64 + FIXED,
    }
}
