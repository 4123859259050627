//! A manifest from its making to its reading, against bytes that another program computed.
ghost use Rattle.std.specs.Prelude.{IfOk};
ghost use Rattle.lsm_manifest.specs.Texts.{IsTaken};

use lsm_bytes::NoMemory;
use lsm_disk::{Disk, View};
use lsm_manifest::{Manifest, read_manifest};
use lsm_memdisk::{MemDisk, MemView};
use lsm_names::{FileName, Path, is_file_number};
use lsm_version::{Edit, decode_edit};
use std::alloc::Global;
use std::process::Abort;

/// A call refused that was to go well.
#[derive(Clone, Copy, Debug, PartialEq, Eq)]
struct Stopped;

impl From<NoMemory> for Stopped {
    fn from(_: NoMemory) -> Self {
        Stopped
    }
}

/// A claim of a test. What it claims is no fact for the proof of the test.
fn sure(rt: &impl Abort, holds: Result<bool, Stopped>) {
    assert!(rt; matches!(holds, Ok(true)));
}

/// The edit of a new store: log 2, next number 3, last sequence 0.
const FIRST: &[u8] = b"\x01\x02\x02\x03\x03\0";

/// The next edit of a log: log 4, next number 5, last sequence 2.
const SECOND: &[u8] = b"\x01\x04\x02\x05\x03\x02";

/// The manifest of the first edit alone: masked checksum, length, kind, edit.
const MANIFEST: &[u8] = b"\xdb\x45\xa1\x15\x06\0\x01\x01\x02\x02\x03\x03\0";

// The edit of this text, which a manifest takes.
fn edit_of(alloc: Global, text: &[u8]) -> Result<Edit, Stopped>
    ensures { IfOk result IsTaken }
{
    if text.is_empty() {
        return Err(Stopped);
    }
    match decode_edit(alloc, text) {
        Ok(edit) => Ok(edit),
        Err(_) => Err(Stopped),
    }
}

fn path_of(name: &[u8]) -> Path {
    match Path::parse(name) {
        Ok(path) => path,
        Err(_) => FileName::Current.path(),
    }
}

fn new_disk(alloc: Global) -> Result<MemDisk, Stopped> {
    let mut disk = MemDisk::new(alloc, true)?;
    match disk.make_folder(&path_of(b"db")) {
        Ok(()) => Ok(disk),
        Err(_) => Err(Stopped),
    }
}

// The manifest with this number in the folder `db`, of this edit.
fn made(alloc: Global, disk: &mut MemDisk, number: u64, text: &[u8]) -> Result<Manifest, Stopped> {
    let edit = edit_of(alloc, text)?;
    let dir = path_of(b"db");
    if dir.as_bytes().len() > 130 || !is_file_number(number) {
        return Err(Stopped);
    }
    match Manifest::create(alloc, disk, &dir, number, &edit) {
        Ok(manifest) => Ok(manifest),
        Err(_) => Err(Stopped),
    }
}

fn append(
    alloc: Global,
    disk: &mut MemDisk,
    manifest: &mut Manifest,
    text: &[u8],
) -> Result<bool, Stopped> {
    let edit = edit_of(alloc, text)?;
    if manifest.len() >= 1 << 62 {
        return Err(Stopped);
    }
    match manifest.append_edit(disk, &edit) {
        Ok(()) => Ok(true),
        Err(_) => Ok(false),
    }
}

fn view_of(disk: &mut MemDisk, path: &Path, len: u64) -> Result<MemView, Stopped> {
    match disk.open(path, len) {
        Ok(view) => Ok(view),
        Err(_) => Err(Stopped),
    }
}

fn read_into(view: &mut MemView, into: &mut [u8]) -> bool {
    if view.len() < into.len() as u64 {
        return false;
    }
    match view.read_at(0, into) {
        Ok(()) => true,
        Err(_) => false,
    }
}

// Whether the file of this name has exactly these bytes.
fn has_bytes(
    alloc: Global,
    disk: &mut MemDisk,
    name: &[u8],
    bytes: &[u8],
) -> Result<bool, Stopped> {
    let mut view = view_of(disk, &path_of(name), bytes.len() as u64)?;
    let Ok(mut found) = vec![in alloc; 0u8; bytes.len()] else {
        return Err(Stopped);
    };
    Ok(read_into(&mut view, found.as_mut_slice()) && found.as_slice() == bytes)
}

// How many edits the file of this name reads to, where no record is torn.
fn count_edits(alloc: Global, disk: &mut MemDisk, name: &[u8], len: u64) -> Result<usize, Stopped> {
    let view = view_of(disk, &path_of(name), len)?;
    match read_manifest(alloc, view) {
        Ok(read) => {
            if read.torn.is_some() {
                return Err(Stopped);
            }
            Ok(read.edits.len())
        }
        Err(_) => Err(Stopped),
    }
}

fn first_has_these_bytes(alloc: Global) -> Result<bool, Stopped> {
    let mut disk = new_disk(alloc)?;
    let manifest = made(alloc, &mut disk, 1, FIRST)?;
    let is_named = has_bytes(alloc, &mut disk, b"db/CURRENT", b"MANIFEST-000001\n")?;
    let is_written = has_bytes(alloc, &mut disk, b"db/MANIFEST-000001", MANIFEST)?;
    Ok(is_named && is_written && manifest.len() == 13 && manifest.number() == 1)
}

fn appended_is_read(alloc: Global) -> Result<bool, Stopped> {
    let mut disk = new_disk(alloc)?;
    let mut manifest = made(alloc, &mut disk, 1, FIRST)?;
    let is_appended = append(alloc, &mut disk, &mut manifest, SECOND)?;
    let len = manifest.len();
    let count = count_edits(alloc, &mut disk, b"db/MANIFEST-000001", len)?;
    Ok(is_appended && len == 26 && count == 2)
}

// A manifest of this edit in the folder `db`, and then another one with this number.
fn made_and_rolled(
    alloc: Global,
    disk: &mut MemDisk,
    number: u64,
    text: &[u8],
) -> Result<Manifest, Stopped> {
    let edit = edit_of(alloc, text)?;
    let dir = path_of(b"db");
    if dir.as_bytes().len() > 130 || !is_file_number(number) {
        return Err(Stopped);
    }
    let Ok(mut manifest) = Manifest::create(alloc, disk, &dir, 1, &edit) else {
        return Err(Stopped);
    };
    match manifest.roll(disk, number, &edit) {
        Ok(()) => Ok(manifest),
        Err(_) => Err(Stopped),
    }
}

fn rolled_is_named(alloc: Global) -> Result<bool, Stopped> {
    let mut disk = new_disk(alloc)?;
    let manifest = made_and_rolled(alloc, &mut disk, 7, FIRST)?;
    let is_named = has_bytes(alloc, &mut disk, b"db/CURRENT", b"MANIFEST-000007\n")?;
    let count = count_edits(alloc, &mut disk, b"db/MANIFEST-000007", 13)?;
    let is_kept = has_bytes(alloc, &mut disk, b"db/MANIFEST-000001", MANIFEST)?;
    Ok(is_named && count == 1 && is_kept && manifest.number() == 7)
}

#[test]
fn a_first_manifest_has_these_bytes(rt: HostRuntime) {
    sure(&rt, first_has_these_bytes(rt.alloc()));
}

#[test]
fn an_appended_edit_is_read(rt: HostRuntime) {
    sure(&rt, appended_is_read(rt.alloc()));
}

#[test]
fn a_rolled_manifest_is_named_and_the_old_one_stays(rt: HostRuntime) {
    sure(&rt, rolled_is_named(rt.alloc()));
}
