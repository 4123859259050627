//! A folder that is built and read back, and what a crash leaves of one that is being finished.
ghost use Rattle.std.specs.Prelude.{◌≡◌, ◌∷◌, [], OnOk, Some, None};
ghost use Rattle.lsm_names.specs.declared.file_names.FileName.TheVariants.{Manifest};

use crate::claims::sure;
use crate::probe::path;
use lsm_bytes::NoMemory;
use lsm_dest::FolderDest;
use lsm_disk::{Dest, DestError, Disk, DiskError, View};
use lsm_memdisk::{MemDisk, MemView};
use lsm_names::{FileName, Folder};
use std::alloc::Global;

/// Whether some crash leaves no `CURRENT`, whether some crash leaves it with the manifest, and
/// whether some crash leaves anything else.
#[derive(Copy, Clone, PartialEq)]
struct Left {
    none: bool,
    all: bool,
    else_left: bool,
}

const NONE: Left = Left {
    none: true,
    all: false,
    else_left: false,
};

const NONE_OR_ALL: Left = Left {
    none: true,
    all: true,
    else_left: false,
};

const ALL: Left = Left {
    none: false,
    all: true,
    else_left: false,
};

/// From which call on the disk stops, and what is left then.
const STOPS: &[(u64, Left)] = &[
    (1, NONE),
    (6, NONE),
    (7, NONE),
    (11, NONE),
    (12, NONE),
    (13, NONE_OR_ALL),
    (14, ALL),
];

fn stopping(alloc: Global, stop: u64) -> Result<FolderDest<MemDisk>, NoMemory> {
    let mut disk = MemDisk::new(alloc, true)?;
    disk.stop_at(stop);
    Ok(FolderDest::new(alloc, disk))
}

/// Begins a folder, and makes its first file, the manifest.
fn begin_with_manifest<D: Dest>(dest: &mut D, folder: &Folder) -> Result<(), DestError>
    ensures begun { OnOk result ((D.seen dest.new).begun ≡ Some (record { folder = folder.now; names = Manifest 1 ∷ [] })) }
    ensures free { OnOk result ((D.seen dest.new).hand ≡ None) }
{
    dest.begin(folder)?;
    dest.file(&FileName::Manifest(1))?;
    dest.append(b"edits")?;
    dest.seal()?;
    Ok(())
}

/// Makes the second file, the log, and ends the folder.
fn finish_with_log<D: Dest>(dest: &mut D, folder: &Folder) -> Result<(), DestError>
    requires begun { (D.seen dest.old).begun ≡ Some (record { folder = folder.now; names = Manifest 1 ∷ [] }) }
    requires free { (D.seen dest.old).hand ≡ None }
{
    dest.file(&FileName::Log(2))?;
    dest.seal()?;
    dest.finish(b"MANIFEST-000001\n")?;
    Ok(())
}

/// Builds a folder of two files, and tells whether no call was refused.
fn is_built(dest: &mut FolderDest<MemDisk>, folder: &Folder) -> bool {
    match begin_with_manifest(dest, folder) {
        Ok(()) => finish_with_log(dest, folder).is_ok(),
        Err(_) => false,
    }
}

fn build(dest: &mut FolderDest<MemDisk>) -> bool {
    match Folder::parse(b"r") {
        Ok(folder) => is_built(dest, &folder),
        Err(_) => false,
    }
}

fn disk_of(dest: FolderDest<MemDisk>) -> MemDisk {
    dest.into_disk()
}

fn crashed(disk: &MemDisk, pick: u64) -> Result<MemDisk, NoMemory> {
    disk.crash(pick)
}

fn size(disk: &mut MemDisk, name: &[u8]) -> Result<u64, DiskError> {
    disk.size(&path(name))
}

fn four_of(view: &mut MemView) -> Option<[u8; 4]> {
    if view.len() < 4 {
        return None;
    }
    let mut into = [0u8; 4];
    match view.read_at(0, &mut into) {
        Ok(()) => Some(into),
        Err(_) => None,
    }
}

/// The first bytes of a file.
fn first_bytes(disk: &mut MemDisk, name: &[u8]) -> Option<[u8; 4]> {
    match disk.open(&path(name), 4) {
        Ok(mut view) => four_of(&mut view),
        Err(_) => None,
    }
}

/// Notes what one crash left.
fn note(left: &mut Left, disk: &mut MemDisk) {
    match size(disk, b"r/CURRENT") {
        Ok(16) => note_manifest(left, size(disk, b"r/MANIFEST-000001") == Ok(5)),
        Err(DiskError::NotThere) => left.none = true,
        _ => left.else_left = true,
    }
}

fn note_manifest(left: &mut Left, is_whole: bool) {
    if is_whole {
        left.all = true;
    } else {
        left.else_left = true;
    }
}

fn left_after(disk: &MemDisk) -> Result<Left, NoMemory> {
    let mut left = Left {
        none: false,
        all: false,
        else_left: false,
    };
    for pick in 0..100u64 {
        note(&mut left, &mut crashed(disk, pick)?);
    }
    Ok(left)
}

fn is_left(alloc: Global, stop: u64, want: Left) -> Result<bool, NoMemory> {
    let mut dest = stopping(alloc, stop)?;
    let is_done = build(&mut dest);
    Ok(is_done == (stop == 14) && left_after(&disk_of(dest))? == want)
}

fn are_left(alloc: Global, rows: &[(u64, Left)]) -> Result<bool, NoMemory> {
    for (stop, want) in rows {
        if !is_left(alloc, *stop, *want)? {
            return Ok(false);
        }
    }
    Ok(true)
}

fn a_folder_is_read_back(alloc: Global) -> Result<bool, NoMemory> {
    let mut dest = stopping(alloc, 100)?;
    let is_done = build(&mut dest);
    let mut disk = disk_of(dest);
    let is_manifest = first_bytes(&mut disk, b"r/MANIFEST-000001") == Some(*b"edit");
    let is_log = size(&mut disk, b"r/000002.log") == Ok(0);
    Ok(is_done && is_manifest && is_log && size(&mut disk, b"r/CURRENT") == Ok(16))
}

#[test]
fn a_folder_of_two_files_is_read_back(rt: HostRuntime) {
    sure(&rt, a_folder_is_read_back(rt.alloc()));
}

#[test]
fn each_crash_leaves_no_current_or_all(rt: HostRuntime) {
    sure(&rt, are_left(rt.alloc(), STOPS));
}
