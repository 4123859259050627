//! What is read of a folder that stands.
ghost use Rattle.std.specs.Prelude.{◌≡◌, ◌≤◌, Some, All, IsTrue, OnOk, OnErr, IfOk};
ghost use Rattle.lsm_names.specs.FileNames.{IsFileName};
ghost use Rattle.lsm_names.specs.Numbers.{is_file_number};
ghost use Rattle.lsm_disk.specs.State.{Story};
ghost use Rattle.lsm_recover.specs.Listed.{AreBefore};
ghost use Rattle.lsm_recover.specs.Stated.{AreSaid};
ghost use Rattle.lsm_opening.specs.Finding.{HasFound, IsSynced, MayBeSynced};
ghost use Rattle.lsm_opening.specs.Recovering.{HasOpenCause, sync_error};

use crate::errors::OpenError;
use lsm_disk::{Disk, DiskCall, DiskError, DiskRefusal, Halt};
use lsm_names::{FileName, Folder, Path};
use lsm_recover::{
    FolderError, Known, Opened, OpenedFolder, close_tables, open_folder, read_current,
};
use lsm_rows::Rows;
use lsm_version::Version;
use std::alloc::Global;

/// What an opening reads of a folder: the live tables, the rows of the logs, the last sequence, the
/// next file number, and the names of a store's files that stand there.
#[derive(Drop)]
pub struct Found {
    pub version: Version,
    pub rows: Rows,
    pub sequence: u64,
    pub next: u64,
    pub names: Known,
}

/// Reads a folder that has `CURRENT`. The file of the manifest is synced before it is read, so that
/// a crash leaves what was read. Each table is opened, and closed again.
pub fn read_found<D: Disk>(alloc: Global, disk: &mut D, dir: &Folder) -> Result<Found, OpenError>
    ensures found { IfOk result (λ found. (start : Story) → (D.seen disk.old).told ≡ Some start
        → HasFound dir.now start (D.seen disk.new).told found) }
    ensures synced { OnErr result ((start : Story) → (D.seen disk.old).told ≡ Some start
        → MayBeSynced start (D.seen disk.new).told) }
    ensures said { IfOk result (λ found. AreSaid found.version) }
    ensures fit { IfOk result (λ found. All IsFileName found.names) }
    ensures behind { IfOk result (λ found. AreBefore found.next found.names) }
    ensures cause { HasOpenCause dir.now (D.seen disk.old) (D.seen disk.new) result }
{
    match sync_manifest(disk, dir) {
        Ok(()) => {
            let _name = dir.as_bytes();
            match open_folder(alloc, disk, &dir.path()) {
                Ok(folder) => Ok(close_found(disk, folder)),
                Err(error) => Err(OpenError::Folder(error)),
            }
        }
        Err(error) => Err(error),
    }
}

// What a folder that is open holds, whose tables are closed.
fn close_found<D: Disk>(disk: &mut D, folder: OpenedFolder<D::View>) -> Found
    ensures told { (D.seen disk.new).told ≡ (D.seen disk.old).told }
    ensures faults { (D.seen disk.old).faults ≤ (D.seen disk.new).faults }
    ensures refusals { (D.seen disk.old).refusals ≤ (D.seen disk.new).refusals }
    ensures found { result ≡ record {
      version = folder.opened.version;
      rows = folder.opened.rows;
      sequence = folder.opened.sequence;
      next = folder.next;
      names = folder.names;
    } }
{
    let OpenedFolder {
        opened,
        log: _,
        next,
        names,
    } = folder;
    let Opened {
        version,
        rows,
        sequence,
        tables,
    } = opened;
    close_tables(disk, tables);
    Found {
        version,
        rows,
        sequence,
        next,
        names,
    }
}

// The bytes of the manifest that `CURRENT` names outlive a crash.
fn sync_manifest<D: Disk>(disk: &mut D, dir: &Folder) -> Result<(), OpenError>
    ensures ok { OnOk result ((start : Story) → (D.seen disk.old).told ≡ Some start → IsSynced start (D.seen disk.new).told) }
    ensures err { OnErr result ((start : Story) → (D.seen disk.old).told ≡ Some start
        → MayBeSynced start (D.seen disk.new).told) }
    ensures cause { HasOpenCause dir.now (D.seen disk.old) (D.seen disk.new) result }
{
    let _name = dir.as_bytes();
    match read_current(disk, &dir.path()) {
        Ok(number) => sync_numbered(disk, dir, number),
        Err(error) => Err(OpenError::Folder(error)),
    }
}

// The bytes of the manifest of this number outlive a crash.
fn sync_numbered<D: Disk>(disk: &mut D, dir: &Folder, number: u64) -> Result<(), OpenError>
    requires { IsTrue (is_file_number number) }
    ensures ok { OnOk result ((start : Story) → (D.seen disk.old).told ≡ Some start → IsSynced start (D.seen disk.new).told) }
    ensures err { OnErr result ((start : Story) → (D.seen disk.old).told ≡ Some start
        → MayBeSynced start (D.seen disk.new).told) }
    ensures cause { HasOpenCause dir.now (D.seen disk.old) (D.seen disk.new) result }
{
    let name = FileName::Manifest(number);
    let path = dir.file(&name);
    match disk.sync(&path) {
        Ok(()) => Ok(()),
        Err(why) => Err(sync_error(name, &path, why)),
    }
}

// How a refused sync of a file is told: as the file's own lack, or as the disk's refusal.
fn sync_error(name: FileName, path: &Path, why: DiskError) -> OpenError
    ensures { result ≡ sync_error name path.now why }
{
    match why {
        DiskError::NotThere => OpenError::Folder(FolderError::Missing { name }),
        DiskError::Fault
        | DiskError::Exists
        | DiskError::NoLinks
        | DiskError::NotEmpty
        | DiskError::Short { .. }
        | DiskError::NoMemory => {
            let call = DiskCall::Sync;
            OpenError::Disk(DiskRefusal {
                at: Halt { call, path: *path },
                why,
            })
        }
    }
}
