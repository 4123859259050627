//! Writing rows in memory as a table, in steps.
ghost use Rattle.std.specs.Prelude.{◌≡◌, ◌<◌, ◌≤◌, length, IfOk, OnErr};
ghost use Rattle.lsm_memtable.specs.Newest.{newest_each};
ghost use Rattle.lsm_memtable.specs.Flushes.{Flushing};

use crate::memtable::MemTable;
use crate::progress::Progress;
use lsm_bytes::{Bytes, NoMemory};
use lsm_names::Session;
use lsm_table::Finished;
use std::alloc::Global;
use std::marker::Model;

/// What a step of a flush gives.
#[derive(Drop)]
pub enum FlushPiece {
    /// Bytes of the table, which may be none, and rows are left.
    Piece(Bytes),
    /// The last of the table, behind all pieces.
    Last(Finished),
}

/// The flush of rows in memory: each key's newest row comes into a table, and a delete stays a delete. Contracts see the
/// rows, the table's number and session, and how many of its rows the steps have added.
#[derive(Drop)]
pub struct Flush {
    alloc: Global,
    rows: MemTable,
    number: u64,
    session: Session,
    from: Option<Vec<u8>>,
    table: Progress,
}

impl Model for Flush {
    ghost use Rattle.lsm_memtable.specs.Flushes.{Flushing};
    ghost use Rattle.lsm_memtable.specs.Flushing.{IsFlush};

    ghost Value = { Flushing };

    ghost view = { λ f. record { rows = f.rows; number = f.number; session = f.session; taken = f.table.taken } };

    ghost invariant = { λ f. IsFlush (record { rows = f.rows; number = f.number; session = f.session; taken = f.table.taken }) f.table f.from };
}

impl Flush {
    ghost use Rattle.lsm_memtable.specs.FlushPieces.{IsStep};

    /// A flush of these rows, one at least, into the table with this number and the session of the store that writes it.
    /// It takes no memory.
    pub fn new(alloc: Global, rows: MemTable, number: u64, session: Session) -> Self
        requires { 1 ≤ length rows }
        ensures flush { result ≡ record { rows = rows; number = number; session = session; taken = 0 } }
        ensures left { result.taken < length (newest_each result.rows) }
    {
        Flush {
            alloc,
            rows,
            number,
            session,
            from: None,
            table: Progress::new(alloc, number, session),
        }
    }

    /// The rows that are flushed, until the flush is dropped. It takes no memory.
    pub fn rows(&self) -> &MemTable
        ensures { result.now ≡ self.now.rows }
    {
        &self.rows
    }

    /// Adds the next 1,024 of the table's rows, fewer where fewer are left. After a refusal the flush is as it was, and the
    /// step may be asked again: what it then gives is the same.
    pub fn step(&mut self) -> Result<FlushPiece, NoMemory>
        requires { self.old.taken < length (newest_each self.old.rows) }
        ensures ok { IfOk result (λ piece. IsStep self.old piece self.new.taken) }
        ensures err { OnErr result (self.new ≡ self.old) }
        ensures rows { self.new.rows ≡ self.old.rows }
        ensures number { self.new.number ≡ self.old.number }
        ensures session { self.new.session ≡ self.old.session }
    {
        let next = self
            .rows
            .row_map()
            .feed(self.alloc, self.from.as_ref(), &mut self.table)?;
        match next {
            Some(key) => {
                let piece = self.table.hand_out(self.alloc);
                self.from = Some(key);
                Ok(FlushPiece::Piece(piece))
            }
            None => {
                let last = self.table.finish(self.alloc, self.number, self.session)?;
                Ok(FlushPiece::Last(last))
            }
        }
    }
}
