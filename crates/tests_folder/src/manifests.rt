//! New stores with another `CURRENT` or manifest, or with a folder in a file's place.

use crate::folders::{File, Shown, answer, answer_with, disk_of, each_reads, make};
use crate::sure::sure;
use crate::table_texts::{AGAIN, DROPPED, MOVED, NO_EDIT, NOT_LIVE, ONE_NUMBER};
use crate::texts::{CURRENT, Cut, LOG, MANIFEST, TABLE, bytes_of};
use lsm_bytes::NoMemory;
use lsm_folder::Refusal;
use lsm_names::FileName;
use std::alloc::Global;

/// The manifest of a new store, twice.
const TWICE: &[u8] = &[
    0xDB, 0x45, 0xA1, 0x15, 0x06, 0x00, 0x01, 0x01, 0x02, 0x02, 0x03, 0x03, 0x00, 0xDB, 0x45, 0xA1,
    0x15, 0x06, 0x00, 0x01, 0x01, 0x02, 0x02, 0x03, 0x03, 0x00,
];

/// The manifest of a new store, and the edit of one whose last sequence is 1.
const OTHER: &[u8] = &[
    0xDB, 0x45, 0xA1, 0x15, 0x06, 0x00, 0x01, 0x01, 0x02, 0x02, 0x03, 0x03, 0x00, 0xAC, 0xAA, 0x9C,
    0x17, 0x06, 0x00, 0x01, 0x01, 0x02, 0x02, 0x03, 0x03, 0x01,
];

/// The manifest of a new store with its last bit turned.
const DAMAGED: &[u8] = &[
    0xDB, 0x45, 0xA1, 0x15, 0x06, 0x00, 0x01, 0x01, 0x02, 0x02, 0x03, 0x03, 0x01,
];

const NAMED: File = (b"a/CURRENT", (CURRENT, 0, 16));

const EDITED: File = (b"a/MANIFEST-000001", (MANIFEST, 0, 13));

const LOGGED: File = (b"a/000002.log", (LOG, 0, 48));

const CURRENTS: &[&[u8]] = &[
    b"MANIFEST-000001",
    b"MANIFEST-1\n",
    b"MANIFEST-000001\n\n",
    b"000001.log\n",
    b"",
];

/// What the new store reads as with this `CURRENT`.
fn current_answer(alloc: Global, current: &[u8]) -> Result<Shown, NoMemory> {
    let files: [File; 2] = [EDITED, LOGGED];
    answer_with(alloc, &files, b"a/CURRENT", current)
}

fn currents_are_refused(alloc: Global) -> Result<bool, NoMemory> {
    let want = Shown::Refused(Refusal::Malformed {
        name: FileName::Current,
        place: 0,
    });
    for current in CURRENTS {
        if current_answer(alloc, current)? != want {
            return Ok(false);
        }
    }
    Ok(true)
}

fn a_manifest_is_missed(alloc: Global) -> Result<bool, NoMemory> {
    let want = Shown::Refused(Refusal::Missing {
        name: FileName::Manifest(2),
    });
    Ok(current_answer(alloc, b"MANIFEST-000002\n")? == want)
}

/// A refusal of the manifest at its start, at its second record, and at its third.
const AT_FIRST: Shown = Shown::Refused(Refusal::Malformed {
    name: FileName::Manifest(1),
    place: 0,
});

const AT_SECOND: Shown = Shown::Refused(Refusal::Malformed {
    name: FileName::Manifest(1),
    place: 13,
});

const AT_THIRD: Shown = Shown::Refused(Refusal::Malformed {
    name: FileName::Manifest(1),
    place: 71,
});

const MANIFESTS: &[(Cut, Shown)] = &[
    ((MANIFEST, 0, 13), Shown::Reads(2, *b"12.")),
    ((TWICE, 0, 26), Shown::Reads(2, *b"12.")),
    ((TWICE, 0, 25), Shown::Reads(2, *b"12.")),
    (
        (OTHER, 0, 26),
        Shown::Refused(Refusal::Gap {
            name: FileName::Log(2),
            kept: 2,
            found: 1,
        }),
    ),
    ((NO_EDIT, 0, 23), AT_SECOND),
    ((ONE_NUMBER, 0, 9), AT_FIRST),
    ((NOT_LIVE, 0, 23), AT_SECOND),
    ((AGAIN, 0, 129), AT_THIRD),
    ((MANIFEST, 0, 0), AT_FIRST),
    ((TWICE, 0, 12), AT_FIRST),
    (
        (DAMAGED, 0, 13),
        Shown::Refused(Refusal::Damaged {
            name: FileName::Manifest(1),
            place: 0,
            kept: 0x15A1_45DB,
            found: 0x179C_AAAC,
        }),
    ),
];

/// What the store of two puts reads as with this manifest.
fn manifest_answer(alloc: Global, manifest: &[u8]) -> Result<Shown, NoMemory> {
    let files: [File; 2] = [NAMED, LOGGED];
    answer_with(alloc, &files, b"a/MANIFEST-000001", manifest)
}

fn manifests_have_edits(alloc: Global) -> Result<bool, NoMemory> {
    for (cut, want) in MANIFESTS {
        if manifest_answer(alloc, bytes_of(*cut))? != *want {
            return Ok(false);
        }
    }
    Ok(true)
}

const WITH_TABLES: &[(&[File], Shown)] = &[
    (
        &[
            NAMED,
            (b"a/MANIFEST-000001", (MOVED, 0, 132)),
            (b"a/000004.sst", (TABLE, 0, 130)),
        ],
        Shown::Reads(1, *b"1.."),
    ),
    (
        &[NAMED, (b"a/MANIFEST-000001", (DROPPED, 0, 81))],
        Shown::Reads(1, *b"..."),
    ),
    (
        &[
            NAMED,
            (b"a/MANIFEST-000001", (OTHER, 13, 26)),
            (b"a/000002.log", (LOG, 24, 48)),
        ],
        Shown::Reads(2, *b".2."),
    ),
];

fn edits_are_applied(alloc: Global) -> Result<bool, NoMemory> {
    each_reads(alloc, WITH_TABLES)
}

/// What these files and a folder of this name read as.
fn folder_answer(alloc: Global, files: &[File], name: &[u8]) -> Result<Shown, NoMemory> {
    let mut disk = disk_of(alloc, files)?;
    make(&mut disk, name)?;
    Ok(answer(alloc, &mut disk))
}

fn a_folder_is_no_log(alloc: Global) -> Result<bool, NoMemory> {
    let files: [File; 2] = [NAMED, EDITED];
    Ok(folder_answer(alloc, &files, b"a/000002.log")? == Shown::Reads(0, *b"..."))
}

fn a_folder_is_no_manifest(alloc: Global) -> Result<bool, NoMemory> {
    let files: [File; 2] = [NAMED, LOGGED];
    let want = Shown::Refused(Refusal::Missing {
        name: FileName::Manifest(1),
    });
    Ok(folder_answer(alloc, &files, b"a/MANIFEST-000001")? == want)
}

fn a_folder_is_no_current(alloc: Global) -> Result<bool, NoMemory> {
    let files: [File; 2] = [EDITED, LOGGED];
    Ok(folder_answer(alloc, &files, b"a/CURRENT")? == Shown::NoCurrent)
}

fn a_folder_is_no_table(alloc: Global) -> Result<bool, NoMemory> {
    let files: [File; 2] = [NAMED, (b"a/MANIFEST-000001", (MOVED, 0, 132))];
    let want = Shown::Refused(Refusal::Missing {
        name: FileName::Table(4),
    });
    Ok(folder_answer(alloc, &files, b"a/000004.sst")? == want)
}

#[test]
fn current_names_a_manifest_and_ends_its_line(rt: HostRuntime) {
    sure(&rt, currents_are_refused(rt.alloc()));
    sure(&rt, a_manifest_is_missed(rt.alloc()));
}

#[test]
fn a_manifest_has_edits_alone(rt: HostRuntime) {
    sure(&rt, manifests_have_edits(rt.alloc()));
    sure(&rt, edits_are_applied(rt.alloc()));
}

#[test]
fn a_folder_is_no_file(rt: HostRuntime) {
    sure(&rt, a_folder_is_no_log(rt.alloc()));
    sure(&rt, a_folder_is_no_manifest(rt.alloc()));
    sure(&rt, a_folder_is_no_current(rt.alloc()));
    sure(&rt, a_folder_is_no_table(rt.alloc()));
}
