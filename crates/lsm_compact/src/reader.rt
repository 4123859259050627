//! The rows of all inputs of a compaction, merged.
ghost use Rattle.std.specs.Prelude.{◌≡◌, ◌<◌, ◌^◌, [], ℕ, List, Bool, length, Some, None, IfOk, IfSome, IfNone, OnOk, OnErr};
ghost use Rattle.lsm_rows.specs.declared.rows.Row.{Row};
ghost use Rattle.lsm_compact.specs.declared.outputs.Outputs.{Outputs};
ghost use Rattle.lsm_compact.specs.Calls.{Called, files_after};
ghost use Rattle.lsm_compact.specs.Given.{AreInOrder, GivesMore, HasGiven, given_in};
ghost use Rattle.lsm_compact.specs.Ports.{IsKept};
ghost use Rattle.lsm_compact.specs.Readers.{IsAtEnd, IsFilled, IsGivenRow, IsLater, IsSoundReader, IsWanting};
ghost use Rattle.lsm_compact.specs.Written.{rows_at};
ghost use Rattle.lsm_compact.specs.Writing.{Goes, IsWriting, fault_in};

use crate::input::{Input, Reading};
use crate::port::{CompactFault, TablePort};
use lsm_bytes::NoMemory;
use lsm_merge::{Merge, MergeFault};
use lsm_rows::Row;
use lsm_version::Place;
use std::alloc::Global;

/// The inputs as they are read, and their merge: each has its place in both lists.
#[derive(Drop)]
pub struct Reader {
    alloc: Global,
    readings: Vec<Reading>,
    merge: Merge<Input>,
}

impl Reader {
    /// The tables at these places, of which no row was read; fewer than 2^32.
    pub fn new(alloc: Global, places: &[Place]) -> Result<Self, NoMemory>
        requires { length places.now < 2 ^ 32 }
        ensures sound { IfOk result (λ reader. IsSoundReader reader) }
        ensures contents { IfOk result (λ reader. (rows : ℕ → List Row) → AreInOrder rows places.now
            → HasGiven (Some rows) (rows_at rows places.now) [] reader) }
    {
        let mut readings = Vec::new(alloc);
        let mut sources = Vec::new(alloc);
        for place in places {
            readings.push(Reading::new(place.number))?;
            sources.push(Input::new(alloc))?;
        }
        Ok(Reader {
            alloc,
            readings,
            merge: Merge::new(alloc, sources),
        })
    }

    /// The next user key's newest row; None where no row is left. After a refusal it may be asked again.
    pub fn next<P: TablePort>(&mut self, port: &mut P) -> Result<Option<Row>, CompactFault>
        requires { IsSoundReader self.old }
        ensures sound { IsSoundReader self.new }
        ensures later { IsLater self.old.merge self.new.merge }
        ensures row { IfOk result (λ next. IfSome next (λ row. IsGivenRow self.old.merge row self.new.merge)) }
        ensures none { IfOk result (λ next. IfNone next (IsAtEnd self.new.merge)) }
        ensures contents { GivesMore (P.told port.old) self.old (P.told port.new) self.new (given_in result) }
        ensures goes { (over : Bool) (start : P) (calls : List Called) (o : Outputs) (written : List Row)
            → P.went start calls port.old
            → IsWriting over o (files_after calls) written → Goes P.went start calls port.new over o written (fault_in result) }
        ensures port { IsKept P.told P.faults port.old port.new (fault_in result) }
    {
        for _fill in 0..u64::MAX {
            match self.merge.next() {
                Ok(next) => return Ok(next),
                Err(MergeFault::Source { place, fault: _ }) => match self.fill(port, place) {
                    Ok(()) => {}
                    Err(fault) => return Err(fault),
                },
                Err(MergeFault::NoMemory) => return Err(CompactFault::NoMemory),
            }
        }
        Err(CompactFault::NoMemory)
    }

    // Reads the next run of the input at a place, whose run is used up.
    fn fill<P: TablePort>(&mut self, port: &mut P, place: u32) -> Result<(), CompactFault>
        requires sound { IsSoundReader self.old }
        requires wanting { IsWanting self.old.merge place }
        ensures sound { IsSoundReader self.new }
        ensures later { IsLater self.old.merge self.new.merge }
        ensures filled { OnOk result (IsFilled self.new.merge place) }
        ensures contents { GivesMore (P.told port.old) self.old (P.told port.new) self.new [] }
        ensures goes { (over : Bool) (start : P) (calls : List Called) (o : Outputs) (written : List Row)
            → P.went start calls port.old
            → IsWriting over o (files_after calls) written → Goes P.went start calls port.new over o written (fault_in result) }
        ensures port { IsKept P.told P.faults port.old port.new (fault_in result) }
    {
        match self.readings[place as usize].read(self.alloc, port) {
            Ok(run) => {
                self.merge.source(place).fill(run);
                Ok(())
            }
            Err(fault) => Err(fault),
        }
    }
}
