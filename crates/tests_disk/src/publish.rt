//! What a crash leaves of a name whose file is published again.

use crate::claims::sure;
use crate::probe::path;
use lsm_bytes::NoMemory;
use lsm_disk::Disk;
use lsm_memdisk::MemDisk;
use lsm_publish::{publish, switch, write_temporary};
use std::alloc::Global;

/// Whether some crash leaves the old 3 bytes under the name, whether some crash leaves the 5 new
/// ones, and whether some crash leaves anything else.
#[derive(Copy, Clone, PartialEq)]
struct Left {
    old: bool,
    new: bool,
    else_left: bool,
}

const OLD: Left = Left {
    old: true,
    new: false,
    else_left: false,
};

const OLD_OR_NEW: Left = Left {
    old: true,
    new: true,
    else_left: false,
};

const NEW: Left = Left {
    old: false,
    new: true,
    else_left: false,
};

/// From which call on the disk stops, and what is left then.
const STOPS: &[(u64, Left)] = &[
    (7, OLD),
    (8, OLD),
    (9, OLD),
    (10, OLD),
    (11, OLD),
    (12, OLD_OR_NEW),
    (13, NEW),
];

fn stopping(alloc: Global, stop: u64) -> Result<MemDisk, NoMemory> {
    let mut disk = MemDisk::new(alloc, true)?;
    disk.stop_at(stop);
    Ok(disk)
}

fn published(disk: &mut MemDisk, bytes: &[u8]) -> bool {
    publish(disk, &path(b"t"), &path(b"c"), bytes).is_ok()
}

fn written(disk: &mut MemDisk, bytes: &[u8]) -> bool {
    write_temporary(disk, &path(b"t"), bytes).is_ok()
}

fn switched(disk: &mut MemDisk) -> bool {
    switch(disk, &path(b"t"), &path(b"c")).is_ok()
}

fn crashed(disk: &MemDisk, pick: u64) -> Result<MemDisk, NoMemory> {
    disk.crash(pick)
}

/// The size of the file under the name.
fn size(disk: &mut MemDisk) -> Option<u64> {
    disk.size(&path(b"c")).ok()
}

fn left_after(disk: &MemDisk) -> Result<Left, NoMemory> {
    let mut left = Left {
        old: false,
        new: false,
        else_left: false,
    };
    for pick in 0..100u64 {
        match size(&mut crashed(disk, pick)?) {
            Some(3) => left.old = true,
            Some(5) => left.new = true,
            _ => left.else_left = true,
        }
    }
    Ok(left)
}

fn is_left(alloc: Global, stop: u64, want: Left) -> Result<bool, NoMemory> {
    let mut disk = stopping(alloc, stop)?;
    let first = published(&mut disk, b"old");
    let again = published(&mut disk, b"newer");
    Ok(first && again == (stop == 13) && left_after(&disk)? == want)
}

fn are_left(alloc: Global, rows: &[(u64, Left)]) -> Result<bool, NoMemory> {
    for (stop, want) in rows {
        if !is_left(alloc, *stop, *want)? {
            return Ok(false);
        }
    }
    Ok(true)
}

fn a_name_is_switched(alloc: Global) -> Result<bool, NoMemory> {
    let mut disk = stopping(alloc, 100)?;
    let is_written = written(&mut disk, b"newer") && size(&mut disk) == None;
    Ok(is_written && switched(&mut disk) && left_after(&disk)? == NEW)
}

#[test]
fn each_crash_leaves_the_old_or_the_new_bytes(rt: HostRuntime) {
    sure(&rt, are_left(rt.alloc(), STOPS));
}

#[test]
fn a_written_file_takes_its_name_at_the_switch(rt: HostRuntime) {
    sure(&rt, a_name_is_switched(rt.alloc()));
}
