//! Folders with two logs, or without files that are needed.

use crate::folders::{File, Shown, answer, each_reads, reads};
use crate::sure::sure;
use crate::texts::{CURRENT, LOG, MANIFEST};
use lsm_bytes::NoMemory;
use lsm_folder::Refusal;
use lsm_memdisk::MemDisk;
use lsm_names::FileName;
use std::alloc::Global;

const NAMED: File = (b"a/CURRENT", (CURRENT, 0, 16));

const EDITED: File = (b"a/MANIFEST-000001", (MANIFEST, 0, 13));

const LOGGED: File = (b"a/000002.log", (LOG, 0, 48));

const NOTHING: File = (b"a/000003.log", (LOG, 0, 0));

const ROWS: &[(&[File], Shown)] = &[
    (&[NAMED, EDITED, LOGGED, NOTHING], Shown::Reads(2, *b"12.")),
    (
        &[
            NAMED,
            EDITED,
            (b"a/000002.log", (LOG, 0, 24)),
            (b"a/000003.log", (LOG, 24, 48)),
        ],
        Shown::Reads(2, *b"12."),
    ),
    (
        &[
            NAMED,
            EDITED,
            (b"a/000002.log", (LOG, 0, 24)),
            (b"a/000003.log", (LOG, 24, 47)),
        ],
        Shown::Reads(1, *b"1.."),
    ),
    (
        &[NAMED, EDITED, (b"a/000002.log", (LOG, 0, 47)), NOTHING],
        Shown::Refused(Refusal::TornLog {
            name: FileName::Log(2),
            place: 24,
        }),
    ),
    (
        &[NAMED, (b"a/x", (LOG, 0, 0)), LOGGED, NOTHING],
        Shown::Refused(Refusal::Missing {
            name: FileName::Manifest(1),
        }),
    ),
];

fn folders_read(alloc: Global) -> Result<bool, NoMemory> {
    each_reads(alloc, ROWS)
}

fn a_folder_has_no_current(alloc: Global) -> Result<bool, NoMemory> {
    let files: [File; 4] = [
        (b"a/y", (LOG, 0, 0)),
        (b"a/x", (LOG, 0, 0)),
        LOGGED,
        NOTHING,
    ];
    reads(alloc, &files, Shown::NoCurrent)
}

fn no_folder_is_told(alloc: Global) -> Result<bool, NoMemory> {
    let mut disk = MemDisk::new(alloc, true)?;
    Ok(answer(alloc, &mut disk) == Shown::NoFolder)
}

#[test]
fn a_folder_reads_to_its_batches(rt: HostRuntime) {
    sure(&rt, folders_read(rt.alloc()));
    sure(&rt, a_folder_has_no_current(rt.alloc()));
}

#[test]
fn a_folder_that_isnt_there_is_told(rt: HostRuntime) {
    sure(&rt, no_folder_is_told(rt.alloc()));
}
