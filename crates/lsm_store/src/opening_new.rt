//! The making of a new store: in a fresh folder that stands, or in a folder that is made for it.
ghost use Rattle.std.specs.Prelude.{◌≡◌, ℕ, ◌+◌, ◌^◌, ◌<◌, ◌≤◌, [], List, Some, IfOk, IfErr, MatchResult};
ghost use Rattle.lsm_names.specs.declared.file_names.FileName.{FileName};
ghost use Rattle.lsm_disk.specs.State.{Story, state_of};
ghost use Rattle.lsm_disk.specs.Answers.{HasDiskCause};
ghost use Rattle.lsm_disk.specs.Halts.{IsAmong};
ghost use Rattle.lsm_disk.specs.Tree.{TellsLawful};
ghost use Rattle.lsm_refine.specs.New.{first_edit, new_names};
ghost use Rattle.lsm_refine.specs.Vacant.{IsVacant};
ghost use Rattle.lsm_store.specs.NewStores.{AreNewFiles, FilesGo, FolderGoes, HasNewCause, IsFree, IsNewParts, MakesAnew, MakesBeside, anew_calls, file_calls, folder_calls};

use crate::refused::error_of;
use lsm_bytes::NoMemory;
use lsm_disk::{Disk, DiskCall, DiskError, DiskRefusal, Halt};
use lsm_manifest::Manifest;
use lsm_model::StoreError;
use lsm_names::{FileName, Folder, LAST_FILE_NUMBER, Path};
use lsm_recover::Known;
use lsm_version::{Adds, Drops, Edit};
use lsm_wal::Wal;
use std::alloc::Global;

/// What a new store has of its own: its manifest, its empty log, whose number is the next one, and
/// the names that it knows.
#[derive(Drop)]
pub(crate) struct NewParts {
    pub(crate) manifest: Manifest,
    pub(crate) wal: Wal,
    pub(crate) known: Vec<FileName>,
}

/// Makes a new store in a folder that stands, whose files have these names and numbers before this
/// one: the manifest gets the number, and the log the next one. All names have been synced.
///
/// It is refused where the numbers don't suffice, where memory is wanting, and where the disk
/// fails.
pub(crate) fn make_beside<D: Disk>(
    alloc: Global,
    disk: &mut D,
    home: &Folder,
    names: &Known,
    number: u64,
) -> Result<NewParts, StoreError>
    requires { 1 ≤ number }
    ensures parts { IfOk result (IsNewParts home.now number names.now) }

    // Where the folder was fit for it, an Ok leaves a new store. Each image on the way has no
    // `CURRENT` there, or the first manifest whole.
    ensures went { (story : Story) → (D.seen disk.old).told ≡ Some story → IsVacant (state_of story) home.now number names.now
        → MakesBeside home.now number names.now story (D.seen disk.new).told result }

    // Where the numbers don't suffice no disk call is made.
    ensures idle { 2 ^ 56 ≤ number + 2 → D.seen disk.new ≡ D.seen disk.old }
    ensures cause { HasNewCause (file_calls home.now number) number (D.seen disk.old) (D.seen disk.new) result }
{
    if number >= LAST_FILE_NUMBER {
        return Err(StoreError::NumbersFull {
            next: LAST_FILE_NUMBER + 1,
        });
    }
    let Ok(known) = new_names(alloc, names.as_slice(), number) else {
        return Err(StoreError::NoMemory);
    };
    match make_files(alloc, disk, home, number) {
        Ok(files) => Ok(NewParts {
            manifest: files.manifest,
            wal: files.wal,
            known,
        }),
        Err(refused) => Err(error_of(&refused)),
    }
}

/// Makes the folder, whose name nothing has, and then a new store in it, by the first numbers. All
/// names have been synced.
///
/// It is refused where memory is wanting and where the disk fails.
pub(crate) fn make_anew<D: Disk>(
    alloc: Global,
    disk: &mut D,
    home: &Folder,
) -> Result<NewParts, StoreError>
    ensures parts { IfOk result (IsNewParts home.now 1 []) }

    // Where nothing had the name, an Ok leaves a new store. The disk comes on the way as it was, or
    // with the new folder, and then it goes as beside other files.
    ensures went { (story : Story) → (D.seen disk.old).told ≡ Some story → IsFree (state_of story) home.now
        → MakesAnew home.now story (D.seen disk.new).told result }
    ensures cause { HasNewCause (anew_calls home.now) 1 (D.seen disk.old) (D.seen disk.new) result }
{
    let _name = home.as_bytes();
    match make_folder(disk, &home.path()) {
        Ok(()) => make_beside(alloc, disk, home, &Known::new(alloc), 1),
        Err(refused) => Err(error_of(&refused)),
    }
}

// The names of a new store's files, before those of others.
fn new_names(alloc: Global, others: &[FileName], number: u64) -> Result<Vec<FileName>, NoMemory>
    requires { number + 1 < 2 ^ 64 }
    ensures { IfOk result (λ names. names.items ≡ new_names number others.now) }
{
    let mut names = Vec::new(alloc);
    names.push(FileName::Current)?;
    names.push(FileName::Manifest(number))?;
    names.push(FileName::Log(number + 1))?;
    names.extend_from_slice(others)?;
    Ok(names)
}

// The edit of a new store, whose manifest has this number.
fn first_edit(alloc: Global, number: u64) -> Edit
    requires { number + 2 < 2 ^ 64 }
    ensures { result ≡ first_edit number }
{
    Edit {
        log: Some(number + 1),
        next: Some(number + 2),
        last: Some(0),
        adds: Adds::new(alloc),
        drops: Drops::new(alloc),
    }
}

// The files that a new store goes on with.
#[derive(Drop)]
struct NewFiles {
    manifest: Manifest,
    wal: Wal,
}

// Makes the first manifest of a folder, which gives it `CURRENT`, and then the empty log.
fn make_files<D: Disk>(
    alloc: Global,
    disk: &mut D,
    home: &Folder,
    number: u64,
) -> Result<NewFiles, DiskRefusal>
    requires some { 1 ≤ number }
    requires small { number + 2 < 2 ^ 56 }
    ensures files { IfOk result (AreNewFiles home.now number) }
    ensures went { (story : Story) (names : List FileName) → (D.seen disk.old).told ≡ Some story
        → IsVacant (state_of story) home.now number names
        → FilesGo home.now number names story (D.seen disk.new).told result }
    ensures at { IfErr result (λ r. IsAmong r.at (file_calls home.now number)) }
    ensures cause { HasDiskCause (D.seen disk.old) (D.seen disk.new) result }
{
    let _name = home.as_bytes();
    let edit = first_edit(alloc, number);
    match Manifest::create(alloc, disk, &home.path(), number, &edit) {
        Ok(manifest) => match Wal::create(alloc, disk, home.file(&FileName::Log(number + 1))) {
            Ok(wal) => Ok(NewFiles { manifest, wal }),
            Err(refused) => Err(refused),
        },
        Err(refused) => Err(refused),
    }
}

pub(crate) fn refusal(call: DiskCall, path: &Path, why: DiskError) -> DiskRefusal
    ensures { result ≡ record { at = record { call = call; path = path.now }; why = why } }
{
    DiskRefusal {
        at: Halt { call, path: *path },
        why,
    }
}

// Makes the folder, and its name sure.
fn make_folder<D: Disk>(disk: &mut D, path: &Path) -> Result<(), DiskRefusal>
    ensures went { (story : Story) → (D.seen disk.old).told ≡ Some story
        → FolderGoes path.now story (D.seen disk.new).told result }
    ensures at { IfErr result (λ r. IsAmong r.at (folder_calls path.now)) }
    ensures cause { HasDiskCause (D.seen disk.old) (D.seen disk.new) result }
{
    if let Err(why) = disk.make_folder(path) {
        return Err(refusal(DiskCall::MakeFolder, path, why));
    }
    if let Err(why) = disk.sync_names() {
        return Err(refusal(DiskCall::SyncNames, path, why));
    }
    Ok(())
}
