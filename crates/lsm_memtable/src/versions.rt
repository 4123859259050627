//! The rows of one key.
ghost use Rattle.std.specs.Prelude.{◌≡◌, ◌<◌, ◌≤◌, ◌^◌, ◌+◌, ◌∷◌, ◌++◌, ◌↔◌, All, [], length, take, nat_lt, slice_get, IsTrue, IfOk, OnOk, OnErr, IfSome};
ghost use Rattle.std.specs.List.{filter, sum_by};
ghost use Rattle.std.specs.Option.{option_map};
ghost use Rattle.lsm_block.specs.Runs.{rows_after};
ghost use Rattle.lsm_memtable.specs.Greatest.{greatest_from};
ghost use Rattle.lsm_memtable.specs.Sizes.{row_bytes};

use crate::places::{copy_of, is_after};
use crate::sizes::{Sizes, row_bytes};
use lsm_bytes::NoMemory;
use lsm_rows::{Row, Rows};
use std::alloc::Global;
use std::marker::Model;

/// The rows of one key. Contracts see first the row that came last.
#[derive(Drop)]
pub struct Versions {
    rows: Vec<Row>,
}

impl Model for Versions {
    ghost use Rattle.std.specs.Prelude.{List, reverse};
    ghost use Rattle.lsm_rows.specs.declared.rows.Row.{Row};

    ghost Value = { List Row };

    ghost view = { λ v. reverse v.rows.items };
}

impl Versions {
    /// The one row.
    pub fn of(alloc: Global, row: Row) -> Result<Self, NoMemory>
        ensures { IfOk result (λ v. v ≡ row ∷ []) }
    {
        let mut rows = Vec::new(alloc);
        rows.push(row)?;
        Ok(Versions { rows })
    }

    /// The row that came last.
    pub fn newest(&self) -> Option<&Row>
        ensures { option_map (λ row. row.now) result ≡ slice_get self.now 0 }
    {
        self.rows.last()
    }

    /// Adds a row. After an error it is let go.
    pub fn push(&mut self, row: Row) -> Result<(), NoMemory>
        ensures ok { OnOk result (self.new ≡ row ∷ self.old) }
        ensures err { OnErr result (self.new ≡ self.old) }
    {
        self.rows.push(row)?;
        Ok(())
    }

    /// Keeps the rows with sequences below `first`, and says whether there are any. It takes no memory.
    pub fn take_back(&mut self, first: u64) -> bool
        ensures rows { self.new ≡ filter (λ row. nat_lt row.sequence first) self.old }
        ensures left { result ≡ nat_lt 0 (length self.new) }
    {
        self.rows.retain(move |row| row.sequence < first);
        0 < self.rows.len()
    }

    /// The number of rows and their bytes.
    pub fn sizes(&self) -> Sizes
        requires { sum_by row_bytes self.now < 2 ^ 29 }
        ensures rows { result.rows ≡ length self.now }
        ensures bytes { result.bytes ≡ sum_by row_bytes self.now }
    {
        let mut bytes = 0;
        for row in &self.rows {
            bytes += row_bytes(row);
        }
        Sizes {
            rows: self.rows.len() as u64,
            bytes,
        }
    }

    /// The greatest of `last` and the rows' sequences.
    pub fn last_from(&self, mut last: u64) -> u64
        ensures { result ≡ greatest_from last self.now }
    {
        for row in self.rows.iter().rev() {
            if last < row.sequence {
                last = row.sequence;
            }
        }
        last
    }

    /// Adds copies of the rows after an internal key, until there are `count` rows.
    pub fn copy_after(
        &self,
        alloc: Global,
        after: Option<&[u8]>,
        count: usize,
        out: &mut Rows,
    ) -> Result<(), NoMemory>
        requires long { IfSome after (λ key. 8 ≤ length key.now) }
        requires below { All (λ row. row.sequence < 2 ^ 56) self.now }
        requires within { length out.old ≤ count }
        ensures ok { OnOk result (out.new ≡ take count (out.old ++ rows_after (option_map (λ key. key.now) after.entry) self.now)) }
        ensures within { OnOk result (length out.new ≤ count) }
    {
        for row in self.rows.iter().rev() {
            if out.len() == count {
                return Ok(());
            }
            if is_after(after, row) {
                out.push(copy_of(alloc, row)?)?;
            }
        }
        Ok(())
    }
}
