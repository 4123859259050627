//! Stores with tables: whole, missing, of another length, of another store, damaged, and at two
//! levels, with logs behind them.

use crate::folders::{File, Shown, each_reads, numbers};
use crate::sure::sure;
use crate::table_texts::{
    BROKEN, CHANGED, FIVE, GONE, HIDING, LONGER, NEWER, NEWER_FOUR, OF_TWO, ONE_LEVEL,
    OTHER_SESSION, OVERLAP, OVERLAPS, TWO, TWO_LEVELS,
};
use crate::texts::{BEHIND, CURRENT, FLUSHED, LOG, TABLE, THIRD};
use lsm_bytes::NoMemory;
use lsm_folder::Refusal;
use lsm_names::FileName;
use std::alloc::Global;

const NAMED: File = (b"a/CURRENT", (CURRENT, 0, 16));

const EDITED: File = (b"a/MANIFEST-000001", (FLUSHED, 0, 71));

const TABLED: File = (b"a/000004.sst", (TABLE, 0, 130));

const EMPTY: File = (b"a/000003.log", (BEHIND, 0, 0));

const OLD: File = (b"a/000002.log", (LOG, 0, 24));

const TABLES: &[(&[File], Shown)] = &[
    (
        &[NAMED, EDITED, TABLED, EMPTY, OLD],
        Shown::Reads(1, *b"1.."),
    ),
    (
        &[NAMED, EDITED, EMPTY],
        Shown::Refused(Refusal::Missing {
            name: FileName::Table(4),
        }),
    ),
    (
        &[NAMED, EDITED, EMPTY, (b"a/000004.sst", (LONGER, 0, 131))],
        Shown::Refused(Refusal::Short {
            name: FileName::Table(4),
            kept: 130,
            found: 131,
        }),
    ),
    (
        &[NAMED, EDITED, EMPTY, (b"a/000004.sst", (TABLE, 0, 129))],
        Shown::Refused(Refusal::Short {
            name: FileName::Table(4),
            kept: 130,
            found: 129,
        }),
    ),
    (
        &[NAMED, EDITED, (b"a/000004.sst", (OTHER_SESSION, 0, 130))],
        Shown::Refused(Refusal::Malformed {
            name: FileName::Table(4),
            place: 53,
        }),
    ),
    (
        &[NAMED, EDITED, (b"a/000004.sst", (FIVE, 0, 130))],
        Shown::Refused(Refusal::Malformed {
            name: FileName::Table(4),
            place: 53,
        }),
    ),
];

const OF_TWO_BLOCKS: File = (b"a/MANIFEST-000001", (OF_TWO, 0, 71));

const BLOCKS: &[(&[File], Shown)] = &[
    (
        &[NAMED, OF_TWO_BLOCKS, (b"a/000004.sst", (TWO, 0, 170))],
        Shown::Reads(2, *b"12."),
    ),
    (
        &[NAMED, OF_TWO_BLOCKS, (b"a/000004.sst", (BROKEN, 0, 170))],
        Shown::Refused(Refusal::Damaged {
            name: FileName::Table(4),
            place: 26,
            kept: 0x84BB_6976,
            found: 0x7559_44B3,
        }),
    ),
];

const LEVELS: &[(&[File], Shown)] = &[
    (
        &[
            NAMED,
            TABLED,
            (b"a/MANIFEST-000001", (OVERLAP, 0, 116)),
            (b"a/000005.sst", (NEWER, 0, 130)),
        ],
        Shown::Refused(Refusal::BadLevels {
            level: 1,
            left: 4,
            right: 5,
        }),
    ),
    (
        &[NAMED, TABLED, (b"a/MANIFEST-000001", (OVERLAPS, 0, 251))],
        Shown::Refused(Refusal::BadLevels {
            level: 1,
            left: 6,
            right: 7,
        }),
    ),
    (
        &[
            NAMED,
            TABLED,
            (b"a/MANIFEST-000001", (TWO_LEVELS, 0, 116)),
            (b"a/000005.sst", (NEWER, 0, 130)),
        ],
        Shown::Reads(2, *b"2.."),
    ),
    (
        &[
            NAMED,
            (b"a/MANIFEST-000001", (ONE_LEVEL, 0, 116)),
            (b"a/000004.sst", (NEWER_FOUR, 0, 130)),
            (b"a/000005.sst", (FIVE, 0, 130)),
        ],
        Shown::Reads(2, *b"2.."),
    ),
    (
        &[
            NAMED,
            TABLED,
            (b"a/MANIFEST-000001", (HIDING, 0, 116)),
            (b"a/000005.sst", (GONE, 0, 129)),
        ],
        Shown::Reads(2, *b"..."),
    ),
];

const LOGS: &[(&[File], Shown)] = &[
    (
        &[NAMED, EDITED, TABLED, (b"a/000003.log", (CHANGED, 0, 24))],
        Shown::Reads(2, *b"2.."),
    ),
    (
        &[
            NAMED,
            EDITED,
            TABLED,
            (b"a/000003.log", (BEHIND, 0, 24)),
            (b"a/000005.log", (BEHIND, 24, 48)),
        ],
        Shown::Reads(3, *b"123"),
    ),
    (
        &[
            NAMED,
            EDITED,
            TABLED,
            (b"a/000003.log", (BEHIND, 0, 47)),
            (b"a/000005.log", (BEHIND, 0, 0)),
        ],
        Shown::Refused(Refusal::TornLog {
            name: FileName::Log(3),
            place: 24,
        }),
    ),
    (
        &[NAMED, EDITED, TABLED, (b"a/000003.log", (THIRD, 0, 24))],
        Shown::Refused(Refusal::Gap {
            name: FileName::Log(3),
            kept: 2,
            found: 3,
        }),
    ),
    (
        &[NAMED, EDITED, TABLED, (b"a/000003.log", (LOG, 0, 24))],
        Shown::Refused(Refusal::Gap {
            name: FileName::Log(3),
            kept: 2,
            found: 1,
        }),
    ),
];

fn tables_are_theirs(alloc: Global) -> Result<bool, NoMemory> {
    each_reads(alloc, TABLES)
}

fn blocks_are_read(alloc: Global) -> Result<bool, NoMemory> {
    each_reads(alloc, BLOCKS)
}

fn the_newest_is_found(alloc: Global) -> Result<bool, NoMemory> {
    each_reads(alloc, LEVELS)
}

fn logs_go_on(alloc: Global) -> Result<bool, NoMemory> {
    each_reads(alloc, LOGS)
}

/// The next number is the manifest's, or one more than the greatest that a file has.
fn numbers_are_found(alloc: Global) -> Result<bool, NoMemory> {
    let files: [File; 4] = [NAMED, EDITED, TABLED, EMPTY];
    let plain = numbers(alloc, &files)?;
    let more: [File; 5] = [
        NAMED,
        EDITED,
        TABLED,
        (b"a/000008.dbtmp", (LOG, 0, 0)),
        (b"a/x", (LOG, 0, 0)),
    ];
    Ok(plain == (3, 5, 4) && numbers(alloc, &more)? == (3, 9, 4))
}

#[test]
fn a_table_is_the_one_of_the_version(rt: HostRuntime) {
    sure(&rt, tables_are_theirs(rt.alloc()));
}

#[test]
fn each_block_of_a_table_is_read(rt: HostRuntime) {
    sure(&rt, blocks_are_read(rt.alloc()));
}

#[test]
fn the_newest_row_of_a_key_counts(rt: HostRuntime) {
    sure(&rt, the_newest_is_found(rt.alloc()));
}

#[test]
fn logs_go_on_behind_tables(rt: HostRuntime) {
    sure(&rt, logs_go_on(rt.alloc()));
}

#[test]
fn the_next_number_is_found(rt: HostRuntime) {
    sure(&rt, numbers_are_found(rt.alloc()));
}
