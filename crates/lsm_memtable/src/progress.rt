//! A flush's table, as far as it is built.
ghost use Rattle.std.specs.Prelude.{◌≡◌, ◌+◌, ◌^◌, ◌<◌, ◌≤◌, ◌∷◌, ◌++◌, ℕ, List, length, map, IfOk, OnOk, OnErr};
ghost use Rattle.lsm_rows.specs.declared.rows.Row.{Row};
ghost use Rattle.lsm_block.specs.TableText.{row_entry, blocks_of, blocks_text, AreTableRows};
ghost use Rattle.lsm_table.specs.Cuts.{size_of};
ghost use Rattle.lsm_table.specs.WholeTables.{IsTable};
ghost use Rattle.lsm_table.specs.Building.{IsBuilt, IsBehind, IsFinished, row_len};

use lsm_bytes::{Bytes, NoMemory};
use lsm_names::Session;
use lsm_rows::Row;
use lsm_table::{Finished, TableBuilder};
use std::alloc::Global;
use std::mem;

/// How many rows a step adds.
pub const STEP: usize = 1_024;

/// A table whose rows come in run by run. The first `built` rows are in it. Of the blocks that the first `taken` rows
/// end the bytes were handed out. A refused end takes the rows out again, and then fewer are built than taken.
#[derive(Drop)]
pub struct Progress {
    pub builder: TableBuilder,
    pub built: usize,
    pub taken: usize,
}

/// The bytes of blocks that were ended and not handed out yet. It takes no memory.
pub fn ended_bytes(builder: &mut TableBuilder, alloc: Global) -> Bytes
    ensures built { (rows : List Row) (handed : List ℕ) → IsBuilt builder.old rows handed → IsBuilt builder.new rows (handed ++ result) }
    ensures all { (rows : List Row) (handed : List ℕ) → IsBuilt builder.old rows handed
        → handed ++ result ≡ blocks_text (blocks_of (map row_entry rows)).ended }
    ensures size { size_of builder.new.blocks ≡ size_of builder.old.blocks }
    ensures number { builder.new.number ≡ builder.old.number }
    ensures session { builder.new.session ≡ builder.old.session }
{
    match builder.next_piece() {
        Some(piece) => piece,
        None => Bytes::new(alloc),
    }
}

impl Progress {
    ghost use Rattle.lsm_memtable.specs.Flushes.{bytes_of};
    ghost use Rattle.lsm_memtable.specs.Flushing.{IsProgress, IsRowAt};

    /// A table with no rows.
    pub fn new(alloc: Global, number: u64, session: Session) -> Self
        ensures progress { (rows : List Row) → IsProgress result rows }
        ensures number { result.builder.number ≡ number }
        ensures session { result.builder.session ≡ session }
        ensures built { result.built ≡ 0 }
        ensures taken { result.taken ≡ 0 }
    {
        Progress {
            builder: TableBuilder::new(alloc, number, session),
            built: 0,
            taken: 0,
        }
    }

    /// Adds the next row. Bytes that were handed out before are let go. After a refusal the rows are as they were.
    pub fn add(&mut self, alloc: Global, row: &Row) -> Result<(), NoMemory>
        requires sequence { row.now.sequence < 2 ^ 56 }
        requires behind { IsBehind self.old.builder row.now }
        requires room { size_of self.old.builder.blocks + row_len row.now + 108 < 2 ^ 29 }
        requires few { self.old.built < 2 ^ 32 }
        ensures ok { (rows : List Row) → IsProgress self.old rows → IsRowAt rows self.old.built row.now
            → OnOk result (IsProgress self.new rows) }
        ensures err { (rows : List Row) → IsProgress self.old rows → OnErr result (IsProgress self.new rows) }
        ensures built { OnOk result (self.new.built ≡ self.old.built + 1) }
        ensures not_built { OnErr result (self.new.built ≡ self.old.built) }
        ensures taken { self.new.taken ≡ self.old.taken }
        ensures number { self.new.builder.number ≡ self.old.builder.number }
        ensures session { self.new.builder.session ≡ self.old.builder.session }
    {
        self.builder.add(row)?;
        self.built += 1;
        if self.built <= self.taken {
            let _handed_out_before = ended_bytes(&mut self.builder, alloc);
        }
        Ok(())
    }

    /// Hands out the bytes of the blocks that were ended since the last time. It takes no memory.
    pub fn hand_out(&mut self, alloc: Global) -> Bytes
        requires { self.old.taken ≤ self.old.built }
        ensures progress { (rows : List Row) → IsProgress self.old rows → IsProgress self.new rows }
        ensures bytes { (rows : List Row) → IsProgress self.old rows
            → bytes_of rows self.old.taken ++ result ≡ bytes_of rows self.new.taken }
        ensures taken { self.new.taken ≡ self.old.built }
        ensures built { self.new.built ≡ self.old.built }
        ensures number { self.new.builder.number ≡ self.old.builder.number }
        ensures session { self.new.builder.session ≡ self.old.builder.session }
    {
        self.taken = self.built;
        ended_bytes(&mut self.builder, alloc)
    }

    /// Ends the table, whose rows are all built. After a refusal it has no rows, and as many are taken as before.
    pub fn finish(
        &mut self,
        alloc: Global,
        number: u64,
        session: Session,
    ) -> Result<Finished, NoMemory>
        requires some { 1 ≤ self.old.builder.count }
        requires taken { self.old.taken ≤ self.old.built }
        ensures ok { (rows : List Row) → IsProgress self.old rows → self.old.built ≡ length rows
            → IfOk result (λ f. IsFinished self.old.builder rows (bytes_of rows self.old.taken) f.tail f.size f.smallest f.largest) }
        ensures whole { (rows : List Row) → IsProgress self.old rows → self.old.built ≡ length rows → AreTableRows rows
            → IfOk result (λ f. IsTable (bytes_of rows self.old.taken ++ f.tail) rows self.old.builder.number self.old.builder.session) }
        ensures progress { (rows : List Row) → IsProgress self.old rows → IsProgress self.new rows }
        ensures all { OnOk result (self.new.taken ≡ self.old.built) }
        ensures not_taken { OnErr result (self.new.taken ≡ self.old.taken) }
        ensures built { self.new.built ≡ 0 }
        ensures number { self.new.builder.number ≡ number }
        ensures session { self.new.builder.session ≡ session }
    {
        let all = self.built;
        let whole = mem::replace(&mut self.builder, TableBuilder::new(alloc, number, session));
        self.built = 0;
        let finished = whole.finish()?;
        self.taken = all;
        Ok(finished)
    }
}
