//! A store of the folder `db` of a disk in memory, and what it holds.

use lsm_bytes::NoMemory;
use lsm_disk::{Disk, DiskError};
use lsm_memdisk::MemDisk;
use lsm_names::{FileName, Folder, Path, Session};
use lsm_rows::Batch;
use lsm_store::{Flushed, OpenRefusal, Store, StoreError};
use std::alloc::Global;
use std::process::Abort;

/// A call refused that was to go well.
#[derive(Clone, Copy, Debug, PartialEq, Eq)]
pub struct Stopped;

impl From<NoMemory> for Stopped {
    fn from(_: NoMemory) -> Self {
        Stopped
    }
}

/// A key with its value.
pub type Pair = (&'static [u8], &'static [u8]);

/// A test's claim. What it claims is no fact for the proof of the test.
pub fn sure(rt: &impl Abort, holds: Result<bool, Stopped>) {
    assert!(rt; matches!(holds, Ok(true)));
}

/// The path of this text.
pub fn path(name: &[u8]) -> Path {
    match Path::parse(name) {
        Ok(path) => path,
        Err(_) => FileName::Current.path(),
    }
}

/// An empty disk.
pub fn blank(alloc: Global) -> Result<MemDisk, Stopped> {
    Ok(MemDisk::new(alloc, true)?)
}

/// Makes the folder `db`.
pub fn make(disk: &mut MemDisk) -> Result<(), Stopped> {
    match disk.make_folder(&path(b"db")) {
        Ok(()) => Ok(()),
        Err(_) => Err(Stopped),
    }
}

fn filled(disk: &mut MemDisk, name: &[u8], text: &[u8]) -> Result<(), DiskError> {
    let path = path(name);
    disk.create(&path)?;
    disk.append(&path, text)
}

/// Makes a file with these bytes.
pub fn fill(disk: &mut MemDisk, name: &[u8], text: &[u8]) -> Result<(), Stopped> {
    match filled(disk, name, text) {
        Ok(()) => Ok(()),
        Err(_) => Err(Stopped),
    }
}

/// How long the file of this name is.
pub fn length(disk: &mut MemDisk, name: &[u8]) -> Result<u64, Stopped> {
    match disk.size(&path(name)) {
        Ok(size) => Ok(size),
        Err(_) => Err(Stopped),
    }
}

/// Whether a file of this name stands.
pub fn has(disk: &mut MemDisk, name: &[u8]) -> Result<bool, Stopped> {
    match disk.size(&path(name)) {
        Ok(_) => Ok(true),
        Err(DiskError::NotThere) => Ok(false),
        Err(_) => Err(Stopped),
    }
}

// The store's session: twenty times this letter.
fn session(letter: u8) -> Result<Session, Stopped> {
    match Session::new([letter; 20]) {
        Some(session) => Ok(session),
        None => Err(Stopped),
    }
}

fn home() -> Result<Folder, Stopped> {
    match Folder::parse(b"db") {
        Ok(folder) => Ok(folder),
        Err(_) => Err(Stopped),
    }
}

/// What an opening came to.
pub enum Opening {
    Opened(Store<MemDisk>),
    Refused(StoreError, MemDisk),
}

/// Opens the folder `db`. The session is twenty times this letter.
pub fn try_open(alloc: Global, disk: MemDisk, letter: u8) -> Result<Opening, Stopped> {
    let session = session(letter)?;
    let home = home()?;
    match Store::open(alloc, disk, &home, session) {
        Ok(store) => Ok(Opening::Opened(store)),
        Err(OpenRefusal { why, disk }) => Ok(Opening::Refused(why, disk)),
    }
}

/// Opens the folder `db`, which is to go well.
pub fn open(alloc: Global, disk: MemDisk, letter: u8) -> Result<Store<MemDisk>, Stopped> {
    match try_open(alloc, disk, letter)? {
        Opening::Opened(store) => Ok(store),
        Opening::Refused(_, _) => Err(Stopped),
    }
}

/// Why the folder `db` isn't opened.
pub fn refused(alloc: Global, disk: MemDisk) -> Result<StoreError, Stopped> {
    match try_open(alloc, disk, b'A')? {
        Opening::Opened(store) => {
            let _disk = store.into_disk();
            Err(Stopped)
        }
        Opening::Refused(why, _) => Ok(why),
    }
}

/// Writes one pair.
pub fn put(
    alloc: Global,
    store: &mut Store<MemDisk>,
    pair: Pair,
    sync: bool,
) -> Result<(), Stopped> {
    let mut batch = Batch::new(alloc);
    let Ok(()) = batch.put(pair.0, pair.1) else {
        return Err(Stopped);
    };
    if batch.is_empty() {
        return Err(Stopped);
    }
    match store.write(&batch, sync) {
        Ok(_) => Ok(()),
        Err(_) => Err(Stopped),
    }
}

/// Deletes one key.
pub fn delete(alloc: Global, store: &mut Store<MemDisk>, key: &[u8]) -> Result<(), Stopped> {
    let mut batch = Batch::new(alloc);
    let Ok(()) = batch.delete(key) else {
        return Err(Stopped);
    };
    if batch.is_empty() {
        return Err(Stopped);
    }
    match store.write(&batch, false) {
        Ok(_) => Ok(()),
        Err(_) => Err(Stopped),
    }
}

/// Freezes the rows in memory, if there are any.
pub fn freeze(store: &mut Store<MemDisk>) -> Result<(), Stopped> {
    match store.freeze() {
        Ok(_) => Ok(()),
        Err(_) => Err(Stopped),
    }
}

/// Flushes the frozen rows, and tells how many steps came before the one that installed their table.
pub fn flush(store: &mut Store<MemDisk>) -> Result<u32, Stopped> {
    for more in 0..1_000 {
        match store.flush_step() {
            Ok(Flushed::More) => {}
            Ok(Flushed::Installed) => return Ok(more),
            Ok(Flushed::NoJob) | Err(_) => return Err(Stopped),
        }
    }
    Err(Stopped)
}

/// Closes the store, in which all went well until now.
pub fn close(store: Store<MemDisk>, told: Result<(), Stopped>) -> Result<MemDisk, Stopped> {
    let closed = match store.close() {
        Ok(disk) => Ok(disk),
        Err(OpenRefusal { why: _, disk: _ }) => Err(Stopped),
    };
    told?;
    closed
}

/// Gives the store up, in which all went well until now.
pub fn leave<T>(store: Store<MemDisk>, told: Result<T, Stopped>) -> Result<T, Stopped> {
    let _disk = store.into_disk();
    told
}

/// Whether the store holds exactly these pairs: by a scan, and by a lookup of each.
pub fn holds(store: &mut Store<MemDisk>, pairs: &[Pair]) -> Result<bool, Stopped> {
    if !scans(store, pairs)? {
        return Ok(false);
    }
    for pair in pairs {
        if !gets(store, *pair)? {
            return Ok(false);
        }
    }
    Ok(true)
}

fn scans(store: &mut Store<MemDisk>, pairs: &[Pair]) -> Result<bool, Stopped> {
    let Ok(found) = store.scan() else {
        return Err(Stopped);
    };
    if found.count() != pairs.len() {
        return Ok(false);
    }
    for (key, value) in pairs {
        if found.get(key) != Some(*value) {
            return Ok(false);
        }
    }
    Ok(true)
}

fn gets(store: &mut Store<MemDisk>, pair: Pair) -> Result<bool, Stopped> {
    match store.get(pair.0) {
        Ok(Some(value)) => Ok(value.as_slice() == pair.1),
        Ok(None) => Ok(false),
        Err(_) => Err(Stopped),
    }
}
