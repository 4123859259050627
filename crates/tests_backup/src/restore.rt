//! A backup of two files, restored from a disk in memory to a folder of another.

use crate::disks::{disk_of, folder, make, path, put, size};
use crate::sure::sure;
use bk_meta::laws::read_meta_is_printed;
use bk_meta::read_meta;
use bk_restore::{RestoreError, restore};
use lsm_bytes::NoMemory;
use lsm_dest::FolderDest;
use lsm_memdisk::MemDisk;
use lsm_names::Folder;
use std::alloc::Global;

const META: &[u8] =
    b"1700000000\n2\n2\nprivate/1/CURRENT crc32 3505765120\nprivate/1/MANIFEST-000001 crc32 2656356251\n";

/// The disk with the backup, whose manifest has these bytes.
fn backup(alloc: Global, manifest: &[u8]) -> Result<MemDisk, NoMemory> {
    let mut disk = disk_of(alloc)?;
    make(&mut disk, b"private")?;
    make(&mut disk, b"private/1")?;
    put(&mut disk, b"private/1/CURRENT", b"MANIFEST-000001\n")?;
    put(&mut disk, b"private/1/MANIFEST-000001", manifest)?;
    Ok(disk)
}

/// The answer of the restore of the backup.
fn answer_of(
    alloc: Global,
    from: &mut MemDisk,
    dest: &mut FolderDest<MemDisk>,
    dir: &Folder,
) -> Result<u64, RestoreError> {
    match read_meta(alloc, 1, META) {
        Ok(meta) => {
            read_meta_is_printed();
            restore(alloc, from, &meta, dest, dir)
        }
        Err(_) => Err(RestoreError::NoMemory),
    }
}

/// Whether the backup with this manifest is restored so, and `CURRENT` has so many bytes then.
fn is_restored(
    alloc: Global,
    manifest: &[u8],
    want: Result<u64, RestoreError>,
    current: Option<u64>,
) -> Result<bool, NoMemory> {
    let mut from = backup(alloc, manifest)?;
    let mut dest = FolderDest::new(alloc, disk_of(alloc)?);
    let answer = answer_of(alloc, &mut from, &mut dest, &folder(b"r")?);
    let mut disk = dest.into_disk();
    Ok(answer == want && size(&mut disk, b"r/CURRENT") == current)
}

fn a_whole_one_is_restored(alloc: Global) -> Result<bool, NoMemory> {
    is_restored(alloc, b"edits", Ok(2), Some(16))
}

fn a_damaged_one_is_named(alloc: Global) -> Result<bool, NoMemory> {
    let damaged = RestoreError::Damaged {
        name: path(b"private/1/MANIFEST-000001"),
        kept: 2656356251,
        found: 0,
    };
    is_restored(alloc, b"", Err(damaged), None)
}

#[test]
fn a_backup_is_restored_or_its_damage_named(rt: HostRuntime) {
    sure(&rt, a_whole_one_is_restored(rt.alloc()));
    sure(&rt, a_damaged_one_is_named(rt.alloc()));
}
