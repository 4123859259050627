//! Folders of a disk in memory, and what they read as.

use crate::texts::{Cut, bytes_of};
use lsm_bytes::NoMemory;
use lsm_disk::{Disk, DiskError};
use lsm_folder::Refusal;
use lsm_memdisk::MemDisk;
use lsm_names::{FileName, Path};
use lsm_recover::{FolderError, Found, read_folder};
use std::alloc::Global;

/// What a folder reads as: its last sequence with the values of `a`, `b` and `c`, or a refusal.
/// Each value is one byte, and a point stands where there is none.
#[derive(Copy, Clone, PartialEq)]
pub enum Shown {
    Reads(u64, [u8; 3]),
    NoFolder,
    NoCurrent,
    Refused(Refusal),
    Other,
}

/// A file of the folder `a`: its path, and a part of a text.
pub type File = (&'static [u8], Cut);

/// The path of this text.
pub fn path(name: &[u8]) -> Path {
    match Path::parse(name) {
        Ok(path) => path,
        Err(_) => FileName::Current.path(),
    }
}

fn made(disk: &mut MemDisk, name: &[u8]) -> Result<(), DiskError> {
    disk.make_folder(&path(name))
}

fn filled(disk: &mut MemDisk, name: &[u8], text: &[u8]) -> Result<(), DiskError> {
    let path = path(name);
    disk.create(&path)?;
    disk.append(&path, text)
}

/// Makes a folder.
pub fn make(disk: &mut MemDisk, name: &[u8]) -> Result<(), NoMemory> {
    match made(disk, name) {
        Ok(()) => Ok(()),
        Err(_) => Err(NoMemory),
    }
}

/// Makes a file with these bytes.
pub fn fill(disk: &mut MemDisk, name: &[u8], text: &[u8]) -> Result<(), NoMemory> {
    match filled(disk, name, text) {
        Ok(()) => Ok(()),
        Err(_) => Err(NoMemory),
    }
}

/// A disk with a folder `a` and these files in it.
pub fn disk_of(alloc: Global, files: &[File]) -> Result<MemDisk, NoMemory> {
    let mut disk = MemDisk::new(alloc, true)?;
    make(&mut disk, b"a")?;
    for (name, cut) in files {
        fill(&mut disk, name, bytes_of(*cut))?;
    }
    Ok(disk)
}

/// The first byte of a key's value, or a point.
fn value_of(found: &Found, key: &[u8]) -> u8 {
    match found.contents.get(key) {
        Some(value) => match value.first() {
            Some(byte) => *byte,
            None => b'-',
        },
        None => b'.',
    }
}

fn count(values: [u8; 3]) -> usize {
    let mut count = 0usize;
    for value in values {
        if value != b'.' {
            count = count.wrapping_add(1);
        }
    }
    count
}

/// What was found, where it has no other keys.
fn shown_by(found: &Found) -> Shown {
    let values = [
        value_of(found, b"a"),
        value_of(found, b"b"),
        value_of(found, b"c"),
    ];
    if found.contents.count() == count(values) {
        Shown::Reads(found.sequence, values)
    } else {
        Shown::Other
    }
}

/// An answer that is of this folder, or another.
fn of_folder(named: &Path, dir: &Path, shown: Shown) -> Shown {
    if named == dir { shown } else { Shown::Other }
}

/// A refusal that names a file or tables.
fn refusal_of(why: FolderError) -> Option<Refusal> {
    match why {
        FolderError::Missing { name } => Some(Refusal::Missing { name }),
        FolderError::Short { name, kept, found } => Some(Refusal::Short { name, kept, found }),
        FolderError::Damaged {
            name,
            place,
            kept,
            found,
        } => Some(Refusal::Damaged {
            name,
            place,
            kept,
            found,
        }),
        FolderError::Malformed { name, place } => Some(Refusal::Malformed { name, place }),
        FolderError::TornLog { name, place } => Some(Refusal::TornLog { name, place }),
        FolderError::Gap { name, kept, found } => Some(Refusal::Gap { name, kept, found }),
        FolderError::BadLevels { level, left, right } => {
            Some(Refusal::BadLevels { level, left, right })
        }
        _ => None,
    }
}

/// What a folder is refused with, by its own name.
pub fn refused(dir: &Path, why: FolderError) -> Shown {
    match why {
        FolderError::NoFolder { dir: named } => of_folder(&named, dir, Shown::NoFolder),
        FolderError::NoCurrent { dir: named } => of_folder(&named, dir, Shown::NoCurrent),
        _ => match refusal_of(why) {
            Some(refusal) => Shown::Refused(refusal),
            None => Shown::Other,
        },
    }
}

fn outcome(alloc: Global, disk: &mut MemDisk, dir: &Path) -> Shown {
    if dir.as_bytes().len() > 130 {
        return Shown::Other;
    }
    match read_folder(alloc, disk, dir) {
        Ok(found) => shown_by(&found),
        Err(why) => refused(dir, why),
    }
}

/// What the folder `a` of the disk reads as.
pub fn answer(alloc: Global, disk: &mut MemDisk) -> Shown {
    outcome(alloc, disk, &path(b"a"))
}

/// The numbers that are found: the log's, the next one, and how many names there are.
fn numbers_of(found: &Found) -> (u64, u64, usize) {
    (found.log, found.next, found.names.len())
}

fn found_numbers(alloc: Global, disk: &mut MemDisk, dir: &Path) -> (u64, u64, usize) {
    if dir.as_bytes().len() > 130 {
        return (0, 0, 0);
    }
    match read_folder(alloc, disk, dir) {
        Ok(found) => numbers_of(&found),
        Err(_) => (0, 0, 0),
    }
}

/// The log's number, the next number and the count of names of the folder of these files.
pub fn numbers(alloc: Global, files: &[File]) -> Result<(u64, u64, usize), NoMemory> {
    let mut disk = disk_of(alloc, files)?;
    Ok(found_numbers(alloc, &mut disk, &path(b"a")))
}

/// Whether the folder of these files reads so.
pub fn reads(alloc: Global, files: &[File], want: Shown) -> Result<bool, NoMemory> {
    let mut disk = disk_of(alloc, files)?;
    Ok(answer(alloc, &mut disk) == want)
}

/// Whether each folder reads as it is said.
pub fn each_reads(alloc: Global, rows: &[(&[File], Shown)]) -> Result<bool, NoMemory> {
    for (files, want) in rows {
        if !reads(alloc, files, *want)? {
            return Ok(false);
        }
    }
    Ok(true)
}

/// What the folder of these files and one more reads as.
pub fn answer_with(
    alloc: Global,
    files: &[File],
    name: &[u8],
    text: &[u8],
) -> Result<Shown, NoMemory> {
    let mut disk = disk_of(alloc, files)?;
    fill(&mut disk, name, text)?;
    Ok(answer(alloc, &mut disk))
}
