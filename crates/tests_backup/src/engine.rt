//! A backup on a disk in memory, listed, and restored to a folder of another.

use crate::disks::{disk_of, folder, path, size, view_of};
use crate::sure::sure;
use bk_engine::{BackupEngine, EngineError, PlainFile, PlainFiles};
use lsm_bytes::NoMemory;
use lsm_dest::FolderDest;
use lsm_memdisk::{MemDisk, MemView};
use std::alloc::Global;

/// The files of a store that has no log.
fn plain_files(alloc: Global) -> Result<PlainFiles<MemView>, NoMemory> {
    let mut source = disk_of(alloc)?;
    let current = view_of(&mut source, b"b", b"MANIFEST-000001\n")?;
    let view = view_of(&mut source, b"c", b"edits")?;
    Ok(PlainFiles {
        log: None,
        current,
        manifest: PlainFile { number: 1, view },
    })
}

/// The files of a store that has a log.
fn logged_files(alloc: Global) -> Result<PlainFiles<MemView>, NoMemory> {
    let mut files = plain_files(alloc)?;
    let mut source = disk_of(alloc)?;
    let view = view_of(&mut source, b"d", b"log")?;
    files.log = Some(PlainFile { number: 2, view });
    Ok(files)
}

fn opened(alloc: Global) -> Result<BackupEngine<MemDisk>, NoMemory> {
    match BackupEngine::open(alloc, disk_of(alloc)?) {
        Ok(engine) => Ok(engine),
        Err(_) => Err(NoMemory),
    }
}

/// Makes a backup of these files at sequence 7.
fn add(engine: &mut BackupEngine<MemDisk>, files: PlainFiles<MemView>) -> Result<(), NoMemory> {
    if files.manifest.number != 1 || files.log.as_ref().is_some_and(|log| log.number != 2) {
        return Err(NoMemory);
    }
    match engine.create_plain(files, 7, 1_700_000_000) {
        Ok(_) => Ok(()),
        Err(_) => Err(NoMemory),
    }
}

/// An engine with one backup of these files.
fn engine_of(alloc: Global, files: PlainFiles<MemView>) -> Result<BackupEngine<MemDisk>, NoMemory> {
    let mut engine = opened(alloc)?;
    add(&mut engine, files)?;
    Ok(engine)
}

/// How many files the only backup has, by the list.
fn listed(alloc: Global, engine: &BackupEngine<MemDisk>) -> Result<Option<u32>, NoMemory> {
    match engine.list(alloc) {
        Ok(infos) => match infos.as_slice() {
            [info] => Ok(Some(info.files)),
            _ => Ok(None),
        },
        Err(_) => Err(NoMemory),
    }
}

/// The answer of the restore of a backup to the folder `r`.
fn restored(
    engine: &mut BackupEngine<MemDisk>,
    id: u32,
    dest: &mut FolderDest<MemDisk>,
) -> Result<u64, EngineError> {
    match folder(b"r") {
        Ok(dir) => engine.restore(id, dest, &dir),
        Err(_) => Err(EngineError::NoMemory),
    }
}

fn answers(
    engine: &mut BackupEngine<MemDisk>,
    id: u32,
    dest: &mut FolderDest<MemDisk>,
    want: Result<u64, EngineError>,
) -> bool {
    restored(engine, id, dest) == want
}

/// Why the engine's disk isn't opened again.
fn reopened(alloc: Global, engine: BackupEngine<MemDisk>) -> Option<EngineError> {
    match BackupEngine::open(alloc, engine.into_disk()) {
        Ok(_) => None,
        Err(refused) => Some(refused.why),
    }
}

fn a_backup_is_listed(alloc: Global) -> Result<bool, NoMemory> {
    let engine = engine_of(alloc, plain_files(alloc)?)?;
    Ok(listed(alloc, &engine)? == Some(2))
}

fn a_log_is_listed(alloc: Global) -> Result<bool, NoMemory> {
    let engine = engine_of(alloc, logged_files(alloc)?)?;
    Ok(listed(alloc, &engine)? == Some(3))
}

fn restores_are_answered(alloc: Global) -> Result<bool, NoMemory> {
    let mut engine = engine_of(alloc, plain_files(alloc)?)?;
    let mut dest = FolderDest::new(alloc, disk_of(alloc)?);
    let dir = folder(b"r")?;
    let is_missed = answers(
        &mut engine,
        2,
        &mut dest,
        Err(EngineError::NoSuchBackup { id: 2 }),
    );
    let is_restored = answers(&mut engine, 1, &mut dest, Ok(7));
    let is_taken = answers(
        &mut engine,
        1,
        &mut dest,
        Err(EngineError::DestinationExists { dir }),
    );
    Ok(is_missed && is_restored && is_taken)
}

fn restored_files_are_there(alloc: Global) -> Result<bool, NoMemory> {
    let mut engine = engine_of(alloc, plain_files(alloc)?)?;
    let mut dest = FolderDest::new(alloc, disk_of(alloc)?);
    let is_restored = answers(&mut engine, 1, &mut dest, Ok(7));
    let mut disk = dest.into_disk();
    let current = size(&mut disk, b"r/CURRENT");
    let manifest = size(&mut disk, b"r/MANIFEST-000001");
    Ok(is_restored && current == Some(16) && manifest == Some(5))
}

fn backups_are_found(alloc: Global) -> Result<bool, NoMemory> {
    let engine = engine_of(alloc, plain_files(alloc)?)?;
    let want = EngineError::Found {
        path: path(b"meta"),
    };
    Ok(reopened(alloc, engine) == Some(want))
}

#[test]
fn a_backup_is_listed_and_restored(rt: HostRuntime) {
    sure(&rt, a_backup_is_listed(rt.alloc()));
    sure(&rt, restores_are_answered(rt.alloc()));
    sure(&rt, restored_files_are_there(rt.alloc()));
    sure(&rt, backups_are_found(rt.alloc()));
}

#[test]
fn a_backup_has_its_log(rt: HostRuntime) {
    sure(&rt, a_log_is_listed(rt.alloc()));
}
