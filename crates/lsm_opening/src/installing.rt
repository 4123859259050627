//! The new manifest and the new log of a folder that is opened.
ghost use Rattle.std.specs.Prelude.{◌≡◌, ◌+◌, ◌^◌, ◌<◌, ◌≤◌, ◌⊎◌, ◌∷◌, ◌++◌, [], Some, IfOk, IfErr};
ghost use Rattle.lsm_names.specs.declared.file_names.FileName.TheVariants as name;
ghost use Rattle.lsm_disk.specs.State.{Story};
ghost use Rattle.lsm_disk.specs.Answers.{HasDiskCause};
ghost use Rattle.lsm_manifest.specs.Texts.{IsTaken};
ghost use Rattle.lsm_refine.specs.WholeEdits.{AreInRange};
ghost use Rattle.lsm_opening.specs.Edits.{IsWholeEdit};
ghost use Rattle.lsm_opening.specs.Installing.{HasInstalled, WasCutOff, IsInstalledBy, HasGoneOn, WasStopped};

use crate::edits::whole_edit;
use crate::numbers::Numbers;
use lsm_bytes::NoMemory;
use lsm_disk::{Disk, DiskCall, DiskError, DiskRefusal, Halt};
use lsm_manifest::Manifest;
use lsm_names::{FileName, Folder};
use lsm_recover::Known;
use lsm_version::{Edit, Version};
use lsm_wal::Wal;
use std::alloc::Global;

/// What a store goes on with: its live tables, the names of its files, its manifest, and its last
/// log with its number. The next file number comes behind the log's, and the last sequence is that
/// of a row in a table.
#[derive(Drop)]
pub struct Recovered {
    pub version: Version,
    pub names: Known,
    pub manifest: Manifest,
    pub wal: Wal,
    pub log: u64,
    pub sequence: u64,
}

// A new manifest and an empty log.
#[derive(Drop)]
struct Installed {
    manifest: Manifest,
    wal: Wal,
}

// Lets `CURRENT` name a new manifest of all tables, and makes the new log. The names get those of
// the two.
pub(crate) fn install<D: Disk>(
    alloc: Global,
    disk: &mut D,
    dir: &Folder,
    version: Version,
    names: Known,
    numbers: Numbers,
    sequence: u64,
) -> Result<Recovered, DiskRefusal>
    requires range { AreInRange version }
    requires some { 1 ≤ numbers.manifest }
    requires log { numbers.log ≡ numbers.manifest + 1 }
    requires most { numbers.log + 1 < 2 ^ 56 }
    requires last { sequence < 2 ^ 56 }
    ensures gone_on { IfOk result (HasGoneOn dir.now version names numbers sequence (D.seen disk.old).told
        (D.seen disk.new).told) }
    ensures stopped { IfErr result (λ _. ((D.seen disk.new).told ≡ (D.seen disk.old).told)
        ⊎ WasStopped dir.now version numbers sequence (D.seen disk.old).told (D.seen disk.new).told) }
    ensures cause { HasDiskCause (D.seen disk.old) (D.seen disk.new) result }
{
    match prepare(alloc, &version, names, numbers, sequence) {
        Ok(prepared) => match write_manifest(alloc, disk, dir, numbers, &prepared.edit) {
            Ok(installed) => Ok(Recovered {
                version,
                names: prepared.names,
                manifest: installed.manifest,
                wal: installed.wal,
                log: numbers.log,
                sequence,
            }),
            Err(refused) => Err(refused),
        },
        Err(NoMemory) => Err(DiskRefusal {
            at: Halt {
                call: DiskCall::SyncNames,
                path: dir.path(),
            },
            why: DiskError::NoMemory,
        }),
    }
}

// The manifest of this edit, and then the log.
fn write_manifest<D: Disk>(
    alloc: Global,
    disk: &mut D,
    dir: &Folder,
    numbers: Numbers,
    edit: &Edit,
) -> Result<Installed, DiskRefusal>
    requires some { 1 ≤ numbers.manifest }
    requires log { numbers.log ≡ numbers.manifest + 1 }
    requires most { numbers.log + 1 < 2 ^ 56 }
    requires taken { IsTaken edit.now }
    ensures parts { IfOk result (IsInstalledBy dir.now numbers edit.now) }
    ensures made { IfOk result (λ _. (start : Story) → (D.seen disk.old).told ≡ Some start
        → HasInstalled dir.now numbers.manifest numbers.log edit.now start (D.seen disk.new).told) }
    ensures stopped { IfErr result (λ _. (start : Story) → (D.seen disk.old).told ≡ Some start
        → WasCutOff dir.now numbers.manifest numbers.log edit.now start (D.seen disk.new).told) }
    ensures cause { HasDiskCause (D.seen disk.old) (D.seen disk.new) result }
{
    let _name = dir.as_bytes();
    let path = dir.path();
    match Manifest::create(alloc, disk, &path, numbers.manifest, edit) {
        Ok(manifest) => match Wal::create(alloc, disk, dir.file(&FileName::Log(numbers.log))) {
            Ok(wal) => Ok(Installed { manifest, wal }),
            Err(refused) => Err(refused),
        },
        Err(refused) => Err(refused),
    }
}

// A new manifest's edit, and the names with those of the new files.
#[derive(Drop)]
struct Prepared {
    names: Known,
    edit: Edit,
}

// Takes the memory that a new manifest and a new log want.
fn prepare(
    alloc: Global,
    version: &Version,
    names: Known,
    numbers: Numbers,
    sequence: u64,
) -> Result<Prepared, NoMemory>
    requires range { AreInRange version.now }
    requires most { numbers.log + 1 < 2 ^ 56 }
    ensures names { IfOk result (λ p. p.names ≡ names ++ name.Manifest numbers.manifest ∷ name.Log numbers.log ∷ []) }
    ensures edit { IfOk result (λ p. IsWholeEdit version.now numbers.log (numbers.log + 1) sequence p.edit) }
{
    let mut names = names;
    names.push(FileName::Manifest(numbers.manifest))?;
    names.push(FileName::Log(numbers.log))?;
    let edit = whole_edit(alloc, version, numbers.log, numbers.log + 1, sequence)?;
    Ok(Prepared { names, edit })
}
