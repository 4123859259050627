//! Stores that are opened. An opening reads a folder but for the data blocks of its tables, so it
//! has the same refusals, save that damage in a data block is not seen.

use crate::folders::{File, Shown, disk_of, path, refused};
use crate::sure::sure;
use crate::table_texts::{BROKEN, NEWER, OF_TWO, OTHER_SESSION, TWO_LEVELS};
use crate::texts::{BEHIND, CURRENT, FLUSHED, TABLE, THIRD};
use lsm_bytes::NoMemory;
use lsm_folder::Refusal;
use lsm_memdisk::MemDisk;
use lsm_names::{FileName, Path};
use lsm_recover::open_folder;
use std::alloc::Global;

/// What a folder opens to: its last sequence, how many rows its logs have, and how many tables
/// there are; or a refusal.
#[derive(Copy, Clone, PartialEq)]
enum Opens {
    With(u64, usize, usize),
    Refused(Shown),
}

fn outcome(alloc: Global, disk: &mut MemDisk, dir: &Path) -> Opens {
    if dir.as_bytes().len() > 130 {
        return Opens::Refused(Shown::Other);
    }
    match open_folder(alloc, disk, dir) {
        Ok(folder) => {
            let found = folder.opened;
            Opens::With(found.sequence, found.rows.len(), found.tables.len())
        }
        Err(why) => Opens::Refused(refused(dir, why)),
    }
}

fn opens_so(alloc: Global, files: &[File], want: Opens) -> Result<bool, NoMemory> {
    let mut disk = disk_of(alloc, files)?;
    Ok(outcome(alloc, &mut disk, &path(b"a")) == want)
}

const NAMED: File = (b"a/CURRENT", (CURRENT, 0, 16));

const EDITED: File = (b"a/MANIFEST-000001", (FLUSHED, 0, 71));

const TABLED: File = (b"a/000004.sst", (TABLE, 0, 130));

const ROWS: &[(&[File], Opens)] = &[
    (&[NAMED, EDITED, TABLED], Opens::With(1, 0, 1)),
    (
        &[
            NAMED,
            EDITED,
            TABLED,
            (b"a/000003.log", (BEHIND, 0, 24)),
            (b"a/000005.log", (BEHIND, 24, 48)),
        ],
        Opens::With(3, 2, 1),
    ),
    (
        &[
            NAMED,
            TABLED,
            (b"a/MANIFEST-000001", (TWO_LEVELS, 0, 116)),
            (b"a/000005.sst", (NEWER, 0, 130)),
        ],
        Opens::With(2, 0, 2),
    ),
    (
        &[
            NAMED,
            (b"a/MANIFEST-000001", (OF_TWO, 0, 71)),
            (b"a/000004.sst", (BROKEN, 0, 170)),
        ],
        Opens::With(2, 0, 1),
    ),
    (&[EDITED, TABLED], Opens::Refused(Shown::NoCurrent)),
    (
        &[NAMED, EDITED],
        Opens::Refused(Shown::Refused(Refusal::Missing {
            name: FileName::Table(4),
        })),
    ),
    (
        &[NAMED, EDITED, (b"a/000004.sst", (TABLE, 0, 129))],
        Opens::Refused(Shown::Refused(Refusal::Short {
            name: FileName::Table(4),
            kept: 130,
            found: 129,
        })),
    ),
    (
        &[NAMED, EDITED, (b"a/000004.sst", (OTHER_SESSION, 0, 130))],
        Opens::Refused(Shown::Refused(Refusal::Malformed {
            name: FileName::Table(4),
            place: 53,
        })),
    ),
    (
        &[NAMED, EDITED, TABLED, (b"a/000003.log", (THIRD, 0, 24))],
        Opens::Refused(Shown::Refused(Refusal::Gap {
            name: FileName::Log(3),
            kept: 2,
            found: 3,
        })),
    ),
];

fn each_opens(alloc: Global) -> Result<bool, NoMemory> {
    for (files, want) in ROWS {
        if !opens_so(alloc, files, *want)? {
            return Ok(false);
        }
    }
    Ok(true)
}

#[test]
fn stores_are_opened(rt: HostRuntime) {
    sure(&rt, each_opens(rt.alloc()));
}
