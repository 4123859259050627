//! Compaction: the inputs of a choice are merged into tables of the output level.
ghost use Rattle.std.specs.Prelude.{◌≡◌, ◌≢◌, ◌<◌, ◌^◌, ℕ, true, false, length, Some, None, IfOk, OnOk, OnErr};
ghost use Rattle.lsm_rows.specs.declared.rows.Row.{Row};
ghost use Rattle.lsm_version.specs.Orders.{AreLevels};
ghost use Rattle.lsm_compact.specs.Compacting.{HasAdded, HasEnded, HasMoved, IsNew, IsSoundCompaction, IsUsedUp, done_in, is_bare, merged_in};
ghost use Rattle.lsm_compact.specs.Ports.{IsKept};
ghost use Rattle.lsm_compact.specs.Steps.{IsStep};
ghost use Rattle.lsm_compact.specs.Writing.{CanAdd, IsSettled, fault_in};

use crate::deeper::Deeper;
use crate::outputs::Outputs;
use crate::port::{CompactFault, TablePort};
use crate::reader::Reader;
use lsm_bytes::NoMemory;
use lsm_rows::Row;
use lsm_version::{Choice, Drops, Edit, Inputs, Place, Version};
use std::alloc::Global;

/// How far a step has got.
#[derive(Drop)]
pub enum CompactStep {
    /// Rows are left.
    More,
    /// All rows are merged, and this edit installs the outputs.
    Ready(Edit),
}

/// A compaction under way.
#[derive(Drop)]
pub struct Compaction {
    alloc: Global,
    inputs: Inputs,
    deeper: Deeper,
    reader: Reader,
    // A row that was merged and isn't written yet.
    kept: Option<Row>,
    outputs: Outputs,
}

impl Compaction {
    /// A compaction of these inputs of the version, fewer than 2^32. It reads none of their rows.
    pub fn new(alloc: Global, version: &Version, choice: Choice) -> Result<Self, NoMemory>
        requires levels { AreLevels version.now }
        requires few { length choice.inputs < 2 ^ 32 }
        ensures { IfOk result (λ compaction. IsNew version.now choice compaction) }
    {
        let deeper = Deeper::new(alloc, version, &choice)?;
        let reader = Reader::new(alloc, choice.inputs.as_slice())?;
        Ok(Compaction {
            alloc,
            inputs: choice.inputs,
            deeper,
            reader,
            kept: None,
            outputs: Outputs::new(alloc, choice.output),
        })
    }

    /// Merges so many rows, or all that are left and gives the edit. A refusal leaves the rows that were merged done with
    /// and loses none. After `NoMemory`, the port's too, the step may be asked again; after another refusal, and once the
    /// edit was given, the compaction is to be dropped.
    pub fn step<P: TablePort>(
        &mut self,
        port: &mut P,
        rows: u32,
    ) -> Result<CompactStep, CompactFault>
        requires { IsSoundCompaction self.old }
        ensures ok { IfOk result (λ step. IsStep P.went P.told port.old port.new self.old self.new rows step) }
        ensures err { OnErr result ((count : ℕ) × (count < rows)
            × HasMoved P.went P.told port.old port.new self.old self.new (fault_in result) count) }
        ensures sound { IsSoundCompaction self.new }
        ensures port { IsKept P.told P.faults port.old port.new (fault_in result) }
    {
        for _row in 0..rows {
            match self.merge_one(port) {
                Ok(true) => {}
                Ok(false) => {
                    return match self.finish(port) {
                        Ok(edit) => Ok(CompactStep::Ready(edit)),
                        Err(fault) => Err(fault),
                    };
                }
                Err(fault) => return Err(fault),
            }
        }
        Ok(CompactStep::More)
    }

    // Merges the next row, and writes it unless it is left out; false where none is left.
    fn merge_one<P: TablePort>(&mut self, port: &mut P) -> Result<bool, CompactFault>
        requires { IsSoundCompaction self.old }
        ensures moved { HasMoved P.went P.told port.old port.new self.old self.new (fault_in result) (merged_in result) }
        ensures none { IfOk result (λ some. some ≡ false → IsUsedUp self.new × IsSettled self.new.outputs.stage) }
        ensures sound { IsSoundCompaction self.new }
        ensures port { IsKept P.told P.faults port.old port.new (fault_in result) }
    {
        match self.outputs.settle(port) {
            Ok(()) => match self.take_next(port) {
                Ok(true) => match self.write_next(port) {
                    Ok(()) => Ok(true),
                    Err(fault) => Err(fault),
                },
                Ok(false) => Ok(false),
                Err(fault) => Err(fault),
            },
            Err(fault) => Err(fault),
        }
    }

    // Takes the next row of the merge, if none is kept; false where none is left.
    fn take_next<P: TablePort>(&mut self, port: &mut P) -> Result<bool, CompactFault>
        requires { IsSoundCompaction self.old }
        ensures moved { HasMoved P.went P.told port.old port.new self.old self.new (fault_in result) 0 }
        ensures some { IfOk result (λ some. some ≡ true → self.new.kept ≢ None) }
        ensures none { IfOk result (λ some. some ≡ false → IsUsedUp self.new) }
        ensures outputs { self.new.outputs ≡ self.old.outputs }
        ensures sound { IsSoundCompaction self.new }
        ensures port { IsKept P.told P.faults port.old port.new (fault_in result) }
    {
        if self.kept.is_some() {
            return Ok(true);
        }
        match self.reader.next(port) {
            Ok(Some(row)) => {
                self.kept = Some(row);
                Ok(true)
            }
            Ok(None) => Ok(false),
            Err(fault) => Err(fault),
        }
    }

    // Writes the kept row, unless it is a delete under which nothing is hidden.
    fn write_next<P: TablePort>(&mut self, port: &mut P) -> Result<(), CompactFault>
        requires sound { IsSoundCompaction self.old }
        requires some { self.old.kept ≢ None }
        requires settled { IsSettled self.old.outputs.stage }
        ensures moved { HasMoved P.went P.told port.old port.new self.old self.new (fault_in result) (done_in result) }
        ensures sound { IsSoundCompaction self.new }
        ensures port { IsKept P.told P.faults port.old port.new (fault_in result) }
    {
        if self.leaves_out() {
            self.kept = None;
            return Ok(());
        }
        match self.outputs.begin(port) {
            Ok(()) => self.write_kept(),
            Err(fault) => Err(fault),
        }
    }

    // Whether the kept row is a delete under which nothing is hidden.
    fn leaves_out(&self) -> bool
        ensures { (row : Row) → self.now.kept ≡ Some row → is_bare self.now.deeper row ≡ result }
    {
        match &self.kept {
            Some(row) => row.value.is_none() && !self.deeper.has(row.key.as_slice()),
            None => false,
        }
    }

    // Writes the kept row. Where memory is wanting it stays kept.
    fn write_kept(&mut self) -> Result<(), CompactFault>
        requires { (row : Row) → self.old.kept ≡ Some row → CanAdd row self.old.outputs.stage }
        ensures added { OnOk result ((row : Row) → self.old.kept ≡ Some row
            → HasAdded self.old.outputs self.new.outputs row) }
        ensures ok { OnOk result (self.new ≡ record self.old { kept = None; outputs = self.new.outputs }) }
        ensures err { OnErr result (self.new ≡ self.old) }
        ensures fault { fault_in result ≡ None }
    {
        match self.kept.take() {
            Some(row) => match self.outputs.add(row) {
                Ok(()) => Ok(()),
                Err(row) => {
                    self.kept = Some(row);
                    Err(CompactFault::NoMemory)
                }
            },
            None => Ok(()),
        }
    }

    // Ends the last output, and gives the edit. After a refusal it may be asked again.
    fn finish<P: TablePort>(&mut self, port: &mut P) -> Result<Edit, CompactFault>
        requires sound { IsSoundCompaction self.old }
        requires end { IsUsedUp self.old }
        requires settled { IsSettled self.old.outputs.stage }
        ensures ok { IfOk result (λ edit. HasEnded P.went P.told port.old port.new self.old self.new edit 0) }
        ensures err { OnErr result (HasMoved P.went P.told port.old port.new self.old self.new (fault_in result) 0) }
        ensures sound { IsSoundCompaction self.new }
        ensures port { IsKept P.told P.faults port.old port.new (fault_in result) }
    {
        match self.outputs.close(port) {
            Ok(()) => match drops_of(self.alloc, self.inputs.as_slice()) {
                Ok(drops) => Ok(Edit {
                    log: None,
                    next: None,
                    last: None,
                    adds: self.outputs.take_adds(),
                    drops,
                }),
                Err(_) => Err(CompactFault::NoMemory),
            },
            Err(fault) => Err(fault),
        }
    }
}

// The tables at these places are dropped.
fn drops_of(alloc: Global, places: &[Place]) -> Result<Drops, NoMemory>
    ensures { IfOk result (λ drops. drops ≡ places.now) }
{
    let mut drops = Drops::new(alloc);
    for place in places {
        drops.push(*place)?;
    }
    Ok(drops)
}
