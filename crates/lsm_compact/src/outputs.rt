//! The tables that a compaction writes.
ghost use Rattle.std.specs.Prelude.{◌≡◌, ◌≤◌, None, length, ◌∷◌, ◌++◌, [], ℕ, List, Bool, true, false, OnOk, OnErr, IfOk, IfErr, IsTrue, IsFalse};
ghost use Rattle.lsm_rows.specs.declared.rows.Row.{Row};
ghost use Rattle.lsm_compact.specs.declared.outputs.Stage.TheVariants.{Closed, Open};
ghost use Rattle.lsm_compact.specs.Calls.{Called, Files, files_after, no_files};
ghost use Rattle.lsm_compact.specs.Ports.{IsKept};
ghost use Rattle.lsm_compact.specs.Writing.{CanAdd, CanEnd, Goes, HasNoMore, HasNoPiece, IsAppended, IsBegun, IsEnded, IsEndedAs, IsNotToEnd, IsSettled, IsSound, IsToEnd, IsWhole, IsWriting, MayEnd, fault_in, open_rows};

use crate::draft::Draft;
use crate::port::{CompactFault, TablePort};
use lsm_bytes::{Bytes, NoMemory};
use lsm_names::Session;
use lsm_rows::Row;
use lsm_table::Finished;
use lsm_version::{Add, Adds, TableInfo};
use std::alloc::Global;
use std::mem::replace;

// A table is ended with the row with which its ended blocks have this many bytes or more.
const FULL: usize = 2_097_152;

/// The table that is written, and how far it is.
#[derive(Drop)]
pub enum Stage {
    /// No table is open.
    Closed,
    /// Rows come in. The piece isn't appended yet, and the ended blocks have so many bytes.
    Open {
        table: Draft,
        piece: Bytes,
        ended: usize,
    },
    /// The table has all its rows and is among those added. Its last bytes aren't appended yet.
    Ending {
        number: u64,
        tail: Bytes,
    },
    /// All its bytes are appended.
    Sealing {
        number: u64,
    },
}

/// The tables that a compaction writes to its output level, one after another.
#[derive(Drop)]
pub struct Outputs {
    alloc: Global,
    level: u8,
    adds: Adds,
    stage: Stage,
}

impl Outputs {
    /// No tables yet. It takes its memory from `alloc` as rows come in.
    pub fn new(alloc: Global, level: u8) -> Self
        ensures level { result.level ≡ level }
        ensures writing { IsWriting false result no_files [] }
        ensures stage { result.stage ≡ Closed }
    {
        Outputs {
            alloc,
            level,
            adds: Adds::new(alloc),
            stage: Stage::Closed,
        }
    }

    /// Appends what is to be appended, and ends a table that is full. After it a row may come in. After a refusal it may be
    /// asked again.
    pub fn settle<P: TablePort>(&mut self, port: &mut P) -> Result<(), CompactFault>
        requires { IsSound true self.old.stage }
        ensures goes { (over : Bool) (start : P) (calls : List Called) (written : List Row) → P.went start calls port.old
            → IsWriting over self.old (files_after calls) written
            → Goes P.went start calls port.new over self.new written (fault_in result) }
        ensures settled { OnOk result (IsSettled self.new.stage) }
        ensures rows { HasNoMore self.old.stage self.new.stage }
        ensures sound { (over : Bool) → IsSound over self.old.stage → IsSound over self.new.stage }
        ensures port { IsKept P.told P.faults port.old port.new (fault_in result) }
        ensures level { self.new.level ≡ self.old.level }
    {
        match self.append_piece(port) {
            Ok(()) => self.end_full(port),
            Err(fault) => Err(fault),
        }
    }

    // Ends a table that is full.
    fn end_full<P: TablePort>(&mut self, port: &mut P) -> Result<(), CompactFault>
        requires sound { IsSound true self.old.stage }
        requires piece { HasNoPiece self.old.stage }
        ensures goes { (over : Bool) (start : P) (calls : List Called) (written : List Row) → P.went start calls port.old
            → IsWriting over self.old (files_after calls) written
            → Goes P.went start calls port.new over self.new written (fault_in result) }
        ensures settled { OnOk result (IsSettled self.new.stage) }
        ensures rows { HasNoMore self.old.stage self.new.stage }
        ensures sound { (over : Bool) → IsSound over self.old.stage → IsSound over self.new.stage }
        ensures port { IsKept P.told P.faults port.old port.new (fault_in result) }
        ensures level { self.new.level ≡ self.old.level }
    {
        if !self.is_to_end() {
            return Ok(());
        }
        self.close(port)
    }

    /// Hands out the tables that were written, in their order. After it there are none.
    pub fn take_adds(&mut self) -> Adds
        ensures adds { result ≡ self.old.adds }
        ensures whole { (files : Files) (written : List Row) → IsWriting true self.old files written → self.old.stage ≡ Closed
            → IsWhole self.old.level result files written }
        ensures stage { self.new.stage ≡ self.old.stage }
    {
        replace(&mut self.adds, Adds::new(self.alloc))
    }

    /// Adds a row to the table that was begun. Where memory is wanting the row is handed back, and nothing was done.
    pub fn add(&mut self, row: Row) -> Result<(), Row>
        requires { CanAdd row self.old.stage }
        ensures writing { OnOk result ((files : Files) (written : List Row) → IsWriting false self.old files written
            → IsWriting false self.new files (written ++ row ∷ [])) }
        ensures rows { OnOk result (open_rows self.new.stage ≡ open_rows self.old.stage ++ row ∷ []) }
        ensures sound { OnOk result (IsSound false self.new.stage) }
        ensures err { OnErr result (self.new ≡ self.old) }
        ensures row { IfErr result (λ back. back ≡ row) }
        ensures level { self.new.level ≡ self.old.level }
    {
        match &mut self.stage {
            Stage::Open {
                table,
                piece,
                ended,
            } => match table.add(row) {
                Ok(bytes) => {
                    let bytes = bytes.unwrap_or(Bytes::new(self.alloc));
                    *ended += bytes.len();
                    *piece = bytes;
                    Ok(())
                }
                Err(row) => Err(row),
            },
            _ => Err(row),
        }
    }

    /// Ends the table that is open, if there is one. After a refusal it may be asked again.
    pub fn close<P: TablePort>(&mut self, port: &mut P) -> Result<(), CompactFault>
        requires { CanEnd self.old.stage }
        ensures goes { (over next : Bool) (start : P) (calls : List Called) (written : List Row) → (over ≡ true → next ≡ true)
            → MayEnd next self.old.stage → P.went start calls port.old → IsWriting over self.old (files_after calls) written
            → Goes P.went start calls port.new next self.new written (fault_in result) }
        ensures closed { OnOk result (self.new.stage ≡ Closed) }
        ensures rows { HasNoMore self.old.stage self.new.stage }
        ensures sound { (over next : Bool) → (over ≡ true → next ≡ true) → MayEnd next self.old.stage
            → IsSound over self.old.stage
            → IsSound next self.new.stage }
        ensures port { IsKept P.told P.faults port.old port.new (fault_in result) }
        ensures level { self.new.level ≡ self.old.level }
    {
        match self.end() {
            Ok(()) => match self.append_tail(port) {
                Ok(()) => self.seal(port),
                Err(fault) => Err(fault),
            },
            Err(fault) => Err(fault),
        }
    }

    // Whether the table that is open is full, or one is to be sealed.
    fn is_to_end(&self) -> bool
        requires { IsSound true self.now.stage }
        ensures yes { IsTrue result → IsToEnd self.now.stage }
        ensures no { IsFalse result → IsNotToEnd self.now.stage }
    {
        match &self.stage {
            Stage::Closed => false,
            Stage::Open { ended, .. } => *ended >= FULL,
            Stage::Ending { .. } => true,
            Stage::Sealing { .. } => true,
        }
    }

    /// Begins a table, if none is open.
    pub fn begin<P: TablePort>(&mut self, port: &mut P) -> Result<(), CompactFault>
        ensures goes { (start : P) (calls : List Called) (written : List Row) → P.went start calls port.old
            → IsWriting false self.old (files_after calls) written
            → Goes P.went start calls port.new false self.new written (fault_in result) }
        ensures begun { IsSettled self.old.stage → OnOk result (IsBegun self.new.stage) }
        ensures rows { open_rows self.new.stage ≡ open_rows self.old.stage }
        ensures sound { (over : Bool) → IsSound over self.old.stage → IsSound over self.new.stage }
        ensures port { IsKept P.told P.faults port.old port.new (fault_in result) }
        ensures level { self.new.level ≡ self.old.level }
    {
        match &self.stage {
            Stage::Closed => match port.create() {
                Ok(drawn) => {
                    self.stage = open_stage(self.alloc, drawn);
                    Ok(())
                }
                Err(fault) => Err(CompactFault::Port(fault)),
            },
            _ => Ok(()),
        }
    }

    // Ends the table that rows came into, and adds it to the tables written. After a refusal it may be asked again.
    fn end(&mut self) -> Result<(), CompactFault>
        requires { CanEnd self.old.stage }
        ensures writing { (over next : Bool) (files : Files) (written : List Row) → (over ≡ true → next ≡ true)
            → MayEnd next self.old.stage
            → IsWriting over self.old files written → IsWriting next self.new files written }
        ensures ended { OnOk result (IsEnded self.new.stage) }
        ensures fault { fault_in result ≡ None }
        ensures rows { HasNoMore self.old.stage self.new.stage }
        ensures sound { (over next : Bool) → (over ≡ true → next ≡ true) → MayEnd next self.old.stage
            → IsSound over self.old.stage
            → IsSound next self.new.stage }
        ensures level { self.new.level ≡ self.old.level }
    {
        match &mut self.stage {
            Stage::Open { table, .. } => match end_table(self.level, table, &mut self.adds) {
                Ok(ended) => {
                    self.stage = Stage::Ending {
                        number: ended.0,
                        tail: ended.1,
                    };
                    Ok(())
                }
                Err(_) => Err(CompactFault::NoMemory),
            },
            _ => Ok(()),
        }
    }

    // Appends the bytes of blocks that were ended.
    fn append_piece<P: TablePort>(&mut self, port: &mut P) -> Result<(), CompactFault>
        ensures goes { (over : Bool) (start : P) (calls : List Called) (written : List Row) → P.went start calls port.old
            → IsWriting over self.old (files_after calls) written
            → Goes P.went start calls port.new over self.new written (fault_in result) }
        ensures piece { OnOk result (HasNoPiece self.new.stage) }
        ensures rows { HasNoMore self.old.stage self.new.stage }
        ensures sound { (over : Bool) → IsSound over self.old.stage → IsSound over self.new.stage }
        ensures port { IsKept P.told P.faults port.old port.new (fault_in result) }
        ensures level { self.new.level ≡ self.old.level }
    {
        if !self.has_piece() {
            return Ok(());
        }
        match &mut self.stage {
            Stage::Open { table, piece, .. } => match port.append(
                table.number(),
                piece.as_slice(),
            ) {
                Ok(()) => {
                    *piece = Bytes::new(self.alloc);
                    Ok(())
                }
                Err(fault) => Err(CompactFault::Port(fault)),
            },
            _ => Ok(()),
        }
    }

    // Whether bytes of ended blocks are to be appended.
    fn has_piece(&self) -> bool
        ensures { IsFalse result → HasNoPiece self.now.stage }
    {
        match &self.stage {
            Stage::Open { piece, .. } => !piece.is_empty(),
            _ => false,
        }
    }

    // Appends the last bytes of the table.
    fn append_tail<P: TablePort>(&mut self, port: &mut P) -> Result<(), CompactFault>
        ensures goes { (over : Bool) (start : P) (calls : List Called) (written : List Row) → P.went start calls port.old
            → IsWriting over self.old (files_after calls) written
            → Goes P.went start calls port.new over self.new written (fault_in result) }
        ensures appended { IsEnded self.old.stage → OnOk result (IsAppended self.new.stage) }
        ensures rows { HasNoMore self.old.stage self.new.stage }
        ensures sound { (over : Bool) → IsSound over self.old.stage → IsSound over self.new.stage }
        ensures port { IsKept P.told P.faults port.old port.new (fault_in result) }
        ensures level { self.new.level ≡ self.old.level }
    {
        match &self.stage {
            Stage::Ending { number, tail } => {
                let number = *number;
                match port.append(number, tail.as_slice()) {
                    Ok(()) => {
                        self.stage = Stage::Sealing { number };
                        Ok(())
                    }
                    Err(fault) => Err(CompactFault::Port(fault)),
                }
            }
            _ => Ok(()),
        }
    }

    // Syncs the table's file and the names.
    fn seal<P: TablePort>(&mut self, port: &mut P) -> Result<(), CompactFault>
        ensures goes { (over : Bool) (start : P) (calls : List Called) (written : List Row) → P.went start calls port.old
            → IsWriting over self.old (files_after calls) written
            → Goes P.went start calls port.new over self.new written (fault_in result) }
        ensures closed { IsAppended self.old.stage → OnOk result (self.new.stage ≡ Closed) }
        ensures rows { HasNoMore self.old.stage self.new.stage }
        ensures sound { (over : Bool) → IsSound over self.old.stage → IsSound over self.new.stage }
        ensures port { IsKept P.told P.faults port.old port.new (fault_in result) }
        ensures level { self.new.level ≡ self.old.level }
    {
        match &self.stage {
            Stage::Sealing { number } => match port.seal(*number) {
                Ok(()) => {
                    self.stage = Stage::Closed;
                    Ok(())
                }
                Err(fault) => Err(CompactFault::Port(fault)),
            },
            _ => Ok(()),
        }
    }
}

// Ends a table, and adds it. After a refusal it isn't added, and may be ended again.
fn end_table(level: u8, table: &mut Draft, adds: &mut Adds) -> Result<(u64, Bytes), NoMemory>
    requires { 1 ≤ length table.old.rows }
    ensures ok { IfOk result (λ ended. IsEndedAs level table.old adds.old adds.new ended) }
    ensures err { OnErr result (adds.new ≡ adds.old) }
    ensures table { table.new ≡ record table.old { whole = false } }
{
    let Finished {
        tail,
        size,
        smallest,
        largest,
    } = table.finish()?;
    let number = table.number();
    let session = table.session();
    let table = TableInfo {
        number,
        session,
        size,
        smallest,
        largest,
    };
    adds.push(Add { level, table })?;
    Ok((number, tail))
}

// A table with no rows, with the number and the session that were drawn.
fn open_stage(alloc: Global, drawn: (u64, Session)) -> Stage
    ensures { result ≡ Open (record { number = drawn.0; session = drawn.1; rows = []; whole = true }) [] 0 }
{
    Stage::Open {
        table: Draft::new(alloc, drawn.0, drawn.1),
        piece: Bytes::new(alloc),
        ended: 0,
    }
}
