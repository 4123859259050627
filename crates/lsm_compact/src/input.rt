//! The rows of an input, a run at a time.
ghost use Rattle.std.specs.Prelude.{◌≡◌, [], ℕ, List, Bool, true, false, All, take, Some, None, IfOk, IfSome, OnErr, OnOk, ◌<◌, ◌^◌};
ghost use Rattle.lsm_rows.specs.declared.rows.Row.{Row};
ghost use Rattle.lsm_block.specs.Runs.{rows_after};
ghost use Rattle.lsm_block.specs.TableText.{row_entry};
ghost use Rattle.lsm_compact.specs.declared.outputs.Outputs.{Outputs};
ghost use Rattle.lsm_compact.specs.declared.input.Input.TheVariants.{Ended};
ghost use Rattle.lsm_compact.specs.Calls.{Called, IsRowOfStore, IsRun, files_after};
ghost use Rattle.lsm_compact.specs.Ports.{IsKept};
ghost use Rattle.lsm_compact.specs.Reading.{left_rows, is_ended, fault_of, read_to, run_len};
ghost use Rattle.lsm_compact.specs.Writing.{Goes, IsWriting, fault_in};

use crate::port::{CompactFault, TablePort};
use lsm_bytes::NoMemory;
use lsm_merge::RowSource;
use lsm_rows::{InternalKey, Kind, Row, Rows};
use std::alloc::Global;

// How many rows a run has at most.
const RUN: u32 = 16;

/// An input gives no row, since its run is used up: the next run is to be read.
#[derive(Clone, Copy, Debug, Drop, PartialEq, Eq)]
pub struct Unfilled;

/// What an input has of its rows.
#[derive(Drop)]
pub enum Input {
    /// The rows of its last run that weren't given yet, the last one first.
    Run { rows: Vec<Row> },
    /// The run is used up, and a row was asked for.
    Wanting { why: Unfilled },
    /// No row is left, and none follows.
    Ended,
}

impl Input {
    /// An input of which no row was read.
    pub fn new(alloc: Global) -> Self
        ensures left { left_rows result ≡ [] }
        ensures open { is_ended result ≡ false }
        ensures fault { fault_of result ≡ None }
    {
        Input::Run {
            rows: Vec::new(alloc),
        }
    }

    /// Takes the rows of the next run. Where there are none the input is at its end.
    pub fn fill(&mut self, run: Rows)
        requires { left_rows self.old ≡ [] }
        ensures left { left_rows self.new ≡ run }
        ensures end { run ≡ [] → self.new ≡ Ended }
        ensures ended { is_ended self.new ≡ true → run ≡ [] }
        ensures fault { fault_of self.new ≡ None }
    {
        if run.is_empty() {
            *self = Input::Ended;
            return;
        }
        let mut rows = run.into_vec();
        rows.reverse();
        *self = Input::Run { rows };
    }
}

impl RowSource for Input {
    ghost use Rattle.lsm_compact.specs.Reading.{none_at_end};

    type Fault = Unfilled;

    ghost left = { left_rows };

    ghost ended = { is_ended };

    ghost whole = { is_ended };

    ghost fault = { fault_of };

    ghost none_at_end = { none_at_end };

    fn next(&mut self) -> Result<Option<Row>, Unfilled> {
        match self {
            Input::Run { rows } => {
                if let Some(row) = rows.pop() {
                    return Ok(Some(row));
                }
                *self = Input::Wanting { why: Unfilled };
                Err(Unfilled)
            }
            Input::Wanting { why } => Err(*why),
            Input::Ended => Ok(None),
        }
    }
}

/// How far a table is read.
#[derive(Drop)]
pub struct Reading {
    pub number: u64,
    /// The internal key of the row that was read last, if one was.
    pub after: Option<InternalKey>,
}

impl Reading {
    /// The table with this number, of which nothing was read.
    pub fn new(number: u64) -> Self
        ensures { result ≡ record { number = number; after = None } }
    {
        Reading {
            number,
            after: None,
        }
    }

    /// Reads the next run, which has at most 16 rows, and none where none is left. After a refusal it may be asked again.
    pub fn read<P: TablePort>(&mut self, alloc: Global, port: &mut P) -> Result<Rows, CompactFault>
        ensures run { IfOk result (λ run. IsRun self.old.after run_len run) }
        ensures rows { IfOk result (λ run. IfSome (P.told port.old)
            (λ rows. run ≡ take run_len (rows_after self.old.after (rows self.old.number)))) }
        ensures after { IfOk result (λ run. self.new.after ≡ read_to self.old.after run) }
        ensures number { self.new.number ≡ self.old.number }
        ensures err { OnErr result (self.new ≡ self.old) }
        ensures goes { (over : Bool) (start : P) (calls : List Called) (o : Outputs) (written : List Row)
            → P.went start calls port.old
            → IsWriting over o (files_after calls) written → Goes P.went start calls port.new over o written (fault_in result) }
        ensures port { IsKept P.told P.faults port.old port.new (fault_in result) }
    {
        let after = match &self.after {
            Some(key) => Some(key.as_slice()),
            None => None,
        };
        match port.rows(self.number, after, RUN) {
            Ok(run) => self.keep_end(alloc, run),
            Err(fault) => Err(CompactFault::Port(fault)),
        }
    }

    // Keeps the internal key of the last row of a run, if it has rows, and hands it back.
    fn keep_end(&mut self, alloc: Global, run: Rows) -> Result<Rows, CompactFault>
        requires { All IsRowOfStore run }
        ensures run { IfOk result (λ same. same ≡ run) }
        ensures after { OnOk result (self.new.after ≡ read_to self.old.after run) }
        ensures number { self.new.number ≡ self.old.number }
        ensures err { OnErr result (self.new ≡ self.old) }
        ensures fault { fault_in result ≡ None }
    {
        match run.as_slice().last() {
            Some(row) => match key_of(alloc, row) {
                Ok(key) => {
                    self.after = Some(key);
                    Ok(run)
                }
                Err(_) => Err(CompactFault::NoMemory),
            },
            None => Ok(run),
        }
    }
}

// The internal key of a row.
fn key_of(alloc: Global, row: &Row) -> Result<InternalKey, NoMemory>
    requires { row.now.sequence < 2 ^ 56 }
    ensures { IfOk result (λ key. key ≡ (row_entry row.now).key) }
{
    let kind = match &row.value {
        Some(_) => Kind::Put,
        None => Kind::Delete,
    };
    InternalKey::new(alloc, row.key.as_slice(), row.sequence, kind)
}
