//! Disks in memory. No function here has a clause, so a caller's proof carries no fact about a
//! disk.

use lsm_bytes::NoMemory;
use lsm_disk::Disk;
use lsm_memdisk::{MemDisk, MemView};
use lsm_names::{FileName, Folder, Path};
use std::alloc::Global;

/// The path of these bytes.
pub fn path(name: &[u8]) -> Path {
    match Path::parse(name) {
        Ok(path) => path,
        Err(_) => FileName::Current.path(),
    }
}

/// An empty disk.
pub fn disk_of(alloc: Global) -> Result<MemDisk, NoMemory> {
    Ok(MemDisk::new(alloc, true)?)
}

pub fn make(disk: &mut MemDisk, name: &[u8]) -> Result<(), NoMemory> {
    match disk.make_folder(&path(name)) {
        Ok(()) => Ok(()),
        Err(_) => Err(NoMemory),
    }
}

/// Makes a file of these bytes.
pub fn put(disk: &mut MemDisk, name: &[u8], bytes: &[u8]) -> Result<(), NoMemory> {
    let path = path(name);
    match (disk.create(&path), disk.append(&path, bytes)) {
        (Ok(()), Ok(())) => Ok(()),
        _ => Err(NoMemory),
    }
}

/// A view of a new file of these bytes.
pub fn view_of(disk: &mut MemDisk, name: &[u8], bytes: &[u8]) -> Result<MemView, NoMemory> {
    put(disk, name, bytes)?;
    match disk.open(&path(name), bytes.len() as u64) {
        Ok(view) => Ok(view),
        Err(_) => Err(NoMemory),
    }
}

/// How many bytes the file has, if it is there.
pub fn size(disk: &mut MemDisk, name: &[u8]) -> Option<u64> {
    match disk.size(&path(name)) {
        Ok(size) => Some(size),
        Err(_) => None,
    }
}

/// The folder of this name.
pub fn folder(name: &[u8]) -> Result<Folder, NoMemory> {
    match Folder::parse(name) {
        Ok(folder) => Ok(folder),
        Err(_) => Err(NoMemory),
    }
}
