//! The opening of a folder that stands, from its reading to the new log.
ghost use Rattle.std.specs.Prelude.{◌≡◌, ◌∷◌, ◌++◌, [], Some, Ok, All, IsTrue, IfOk, OnErr, IfErr};
ghost use Rattle.std.specs.FinMap as finmap;
ghost use Rattle.lsm_names.specs.FileNames.{IsFileName};
ghost use Rattle.lsm_names.specs.Numbers.{is_file_number};
ghost use Rattle.lsm_names.specs.declared.file_names.FileName.TheVariants.{Table as TableName};
ghost use Rattle.lsm_disk.specs.State.{Story, state_of};
ghost use Rattle.lsm_version.specs.Edits.{IsTable};
ghost use Rattle.lsm_version.specs.Versions.{applied};
ghost use Rattle.lsm_refine.specs.Flushed.{at_top};
ghost use Rattle.lsm_refine.specs.Sane.{AreFiles};
ghost use Rattle.lsm_refine.specs.WholeEdits.{AreInRange};
ghost use Rattle.lsm_recover.specs.Causes.{IsOfBytes};
ghost use Rattle.lsm_recover.specs.Listed.{AreBefore};
ghost use Rattle.lsm_recover.specs.Stated.{AreSaid};
ghost use Rattle.lsm_opening.specs.Edits.{top_edit};
ghost use Rattle.lsm_opening.specs.Finding.{HasFound};
ghost use Rattle.lsm_opening.specs.Numbers.{IsDrawn};
ghost use Rattle.lsm_opening.specs.Recovering.{HasOpenCause, HasWritten, WroteAtMost, IsReady, KeepsImages, HasRecoveredFrom, IsSoundRecovered};

use crate::errors::OpenError;
use crate::found::{Found, read_found};
use crate::installing::{Recovered, install};
use crate::numbers::{Numbers, draw};
use crate::row_table::write_rows;
use lsm_bytes::NoMemory;
use lsm_disk::Disk;
use lsm_names::{FileName, Folder, Session};
use lsm_recover::{FolderError, Known};
use lsm_rows::{Rows, SEQUENCES};
use lsm_version::{Add, Adds, ApplyError, Drops, Edit, TableInfo, Version};
use std::alloc::Global;

/// Opens a folder that has `CURRENT`. It is read first. Then the rows of its logs, if there are
/// any, are written into a table of their own; a new manifest says all tables, and `CURRENT` names
/// it from then on; and a new empty log is begun. Files that aren't needed any more stay. A refusal
/// leaves the folder as it was for each reader.
pub fn recover<D: Disk>(
    alloc: Global,
    disk: &mut D,
    dir: &Folder,
    session: Session,
) -> Result<Recovered, OpenError>
    // On every disk it has what a store asks that is built of it.
    ensures sound { IfOk result (IsSoundRecovered dir.now) }

    // Where the disk tells and names are synced, an Ok has read the folder and gone whole.
    ensures recovered { IfOk result (λ r. (mid : Story) → (D.seen disk.old).told ≡ Some mid → IsReady dir.now mid
        → HasRecoveredFrom dir.now mid (D.seen disk.new).told r) }

    // At every exit each image on the way is kept from where the opening began.
    ensures images { (mid : Story) → (D.seen disk.old).told ≡ Some mid → IsReady dir.now mid
        → KeepsImages dir.now mid (D.seen disk.new).told }
    ensures cause { HasOpenCause dir.now (D.seen disk.old) (D.seen disk.new) result }
{
    let _name = dir.as_bytes();
    match read_found(alloc, disk, dir) {
        Ok(found) => match draw(&found) {
            Ok(numbers) => write_found(alloc, disk, dir, found, numbers, session),
            Err(error) => Err(error),
        },
        Err(error) => Err(error),
    }
}

// Writes what an opening makes of what was read.
fn write_found<D: Disk>(
    alloc: Global,
    disk: &mut D,
    dir: &Folder,
    found: Found,
    numbers: Numbers,
    session: Session,
) -> Result<Recovered, OpenError>
    requires drawn { IsDrawn found numbers }
    requires said { AreSaid found.version }
    requires fit { All IsFileName found.names }
    requires behind { AreBefore found.next found.names }
    ensures sound { IfOk result (IsSoundRecovered dir.now) }
    ensures recovered { IfOk result (λ r. (mid : Story) → HasFound dir.now mid (D.seen disk.old).told found
        → AreFiles (state_of mid) dir.now → HasRecoveredFrom dir.now mid (D.seen disk.new).told r) }
    ensures images { (mid : Story) → HasFound dir.now mid (D.seen disk.old).told found → IsReady dir.now mid
        → KeepsImages dir.now mid (D.seen disk.new).told }
    ensures cause { HasOpenCause dir.now (D.seen disk.old) (D.seen disk.new) result }
{
    let _name = dir.as_bytes();
    let Found {
        version,
        rows,
        sequence,
        next: _,
        names,
    } = found;
    if sequence >= SEQUENCES {
        return Err(OpenError::Folder(FolderError::NoMemory));
    }
    match write_logs(
        alloc,
        disk,
        dir,
        version,
        names,
        &rows,
        numbers.first,
        session,
    ) {
        Ok(logged) => {
            let Logged { version, names } = logged;
            match install(alloc, disk, dir, version, names, numbers, sequence) {
                Ok(recovered) => Ok(recovered),
                Err(refused) => Err(OpenError::Disk(refused)),
            }
        }
        Err(error) => Err(error),
    }
}

// The live tables with that of the logs' rows, and the names with its name.
#[derive(Drop)]
struct Logged {
    version: Version,
    names: Known,
}

// Writes the table of the logs' rows under this number, where there are any.
fn write_logs<D: Disk>(
    alloc: Global,
    disk: &mut D,
    dir: &Folder,
    version: Version,
    names: Known,
    rows: &Rows,
    number: u64,
    session: Session,
) -> Result<Logged, OpenError>
    requires range { AreInRange version }
    requires number { IsTrue (is_file_number number) }
    ensures written { IfOk result (λ logged. HasWritten dir.now version names rows.now number (D.seen disk.old).told
        (D.seen disk.new).told logged.version logged.names) }
    ensures range { IfOk result (λ logged. AreInRange logged.version) }
    ensures stopped { OnErr result (WroteAtMost dir.now number (D.seen disk.old).told (D.seen disk.new).told) }
    ensures cause { HasOpenCause dir.now (D.seen disk.old) (D.seen disk.new) result }
{
    if rows.is_empty() {
        return Ok(Logged { version, names });
    }
    match with_name(names, number) {
        Ok(names) => match write_rows(alloc, disk, dir, rows.as_slice(), number, session) {
            Ok(info) => match with_table(alloc, &version, info) {
                Ok(version) => Ok(Logged { version, names }),
                Err(error) => Err(OpenError::Folder(error)),
            },
            Err(refused) => Err(OpenError::Disk(refused)),
        },
        Err(NoMemory) => Err(OpenError::Folder(FolderError::NoMemory)),
    }
}

// The names with that of a table.
fn with_name(names: Known, number: u64) -> Result<Known, NoMemory>
    ensures { IfOk result (λ more. more ≡ names ++ TableName number ∷ []) }
{
    let mut names = names;
    names.push(FileName::Table(number))?;
    Ok(names)
}

// The version with a table at level 0.
fn with_table(alloc: Global, version: &Version, info: TableInfo) -> Result<Version, FolderError>
    requires range { AreInRange version.now }
    requires number { IsTrue (is_file_number info.number) }
    requires said { IsTable info }
    ensures with { IfOk result (λ now. now ≡ finmap.insert version.now info.number (at_top info)) }
    ensures range { IfOk result (λ now. AreInRange now) }
    ensures bytes { IfErr result IsOfBytes }
{
    let name = FileName::Table(info.number);
    match add_table(alloc, version, info) {
        Ok(version) => Ok(version),
        Err(ApplyError::BadEdit { .. }) => Err(FolderError::Malformed { name, place: 0 }),
        Err(ApplyError::BadLevels { level, left, right }) => {
            Err(FolderError::BadLevels { level, left, right })
        }
        Err(ApplyError::NoMemory) => Err(FolderError::NoMemory),
    }
}

// The version after the edit that adds a table at level 0.
fn add_table(alloc: Global, version: &Version, info: TableInfo) -> Result<Version, ApplyError>
    ensures { IfOk result (λ now. applied version.now (top_edit info) ≡ Ok now) }
{
    let mut adds = Adds::new(alloc);
    adds.push(Add {
        level: 0,
        table: info,
    })?;
    let edit = Edit {
        log: None,
        next: None,
        last: None,
        adds,
        drops: Drops::new(alloc),
    };
    match version.apply(alloc, &edit) {
        Ok(version) => Ok(version),
        Err(error) => Err(error),
    }
}
