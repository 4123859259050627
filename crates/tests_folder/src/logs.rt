//! New stores with logs that are cut, damaged, split, or don't go on from each other.

use crate::folders::{File, Shown, answer_with, each_reads, reads};
use crate::sure::sure;
use crate::texts::{CURRENT, LOG, MANIFEST, THIRD};
use lsm_bytes::NoMemory;
use lsm_folder::Refusal;
use lsm_names::FileName;
use std::alloc::Global;

const NAMED: File = (b"a/CURRENT", (CURRENT, 0, 16));

const EDITED: File = (b"a/MANIFEST-000001", (MANIFEST, 0, 13));

/// The masked checksum of the first record where the bit of this number is turned in its last byte.
const TURNED: [u32; 8] = [
    0x1375_3C9E,
    0x399D_623F,
    0xFB4D_24FC,
    0x69ED_8B7B,
    0x9AAE_8084,
    0x0DCC_DF42,
    0xF010_22BF,
    0xA287_9BD5,
];

/// What the new store reads as whose log is cut at this place.
fn want_cut(len: usize) -> Shown {
    match len / 24 {
        0 => Shown::Reads(0, *b"..."),
        1 => Shown::Reads(1, *b"1.."),
        _ => Shown::Reads(2, *b"12."),
    }
}

fn each_cut_reads(alloc: Global) -> Result<bool, NoMemory> {
    for len in 0..49usize {
        let files: [File; 3] = [NAMED, EDITED, (b"a/000002.log", (LOG, 0, len))];
        if !reads(alloc, &files, want_cut(len))? {
            return Ok(false);
        }
    }
    Ok(true)
}

/// The log with bits of the first record's last byte turned.
fn turned_log(bits: u8) -> [u8; 48] {
    let mut turned = [0u8; 48];
    turned.copy_from_slice(LOG);
    turned[23] ^= bits;
    turned
}

fn is_damage(alloc: Global, bits: u8, found: u32) -> Result<bool, NoMemory> {
    let want = Shown::Refused(Refusal::Damaged {
        name: FileName::Log(2),
        place: 0,
        kept: 0x1978_9FE9,
        found,
    });
    let files: [File; 2] = [NAMED, EDITED];
    let shown = answer_with(alloc, &files, b"a/000002.log", &turned_log(bits))?;
    Ok(shown == want)
}

fn each_turned_bit_is_damage(alloc: Global) -> Result<bool, NoMemory> {
    let mut bits = 1u8;
    for found in TURNED.iter() {
        if bits == 0 || !is_damage(alloc, bits, *found)? {
            return Ok(false);
        }
        bits = bits.wrapping_mul(2);
    }
    Ok(bits == 0)
}

const LOGS: &[(&[File], Shown)] = &[
    (
        &[
            NAMED,
            EDITED,
            (b"a/000001.log", (LOG, 0, 48)),
            (b"a/000002.log", (LOG, 0, 0)),
        ],
        Shown::Reads(0, *b"..."),
    ),
    (
        &[
            NAMED,
            EDITED,
            (b"a/000003.log", (LOG, 24, 48)),
            (b"a/000002.log", (LOG, 0, 24)),
        ],
        Shown::Reads(2, *b"12."),
    ),
    (
        &[
            NAMED,
            EDITED,
            (b"a/000002.log", (LOG, 0, 0)),
            (b"a/000010.log", (LOG, 0, 48)),
        ],
        Shown::Reads(2, *b"12."),
    ),
    (
        &[
            NAMED,
            EDITED,
            (b"a/000002.log", (LOG, 0, 48)),
            (b"a/000003.log", (THIRD, 0, 10)),
        ],
        Shown::Reads(2, *b"12."),
    ),
    (
        &[
            NAMED,
            EDITED,
            (b"a/000002.log", (LOG, 0, 24)),
            (b"a/000003.log", (THIRD, 0, 24)),
        ],
        Shown::Refused(Refusal::Gap {
            name: FileName::Log(3),
            kept: 2,
            found: 3,
        }),
    ),
    (
        &[
            NAMED,
            EDITED,
            (b"a/000002.log", (LOG, 0, 47)),
            (b"a/000003.log", (THIRD, 0, 24)),
        ],
        Shown::Refused(Refusal::TornLog {
            name: FileName::Log(2),
            place: 24,
        }),
    ),
    (
        &[
            NAMED,
            EDITED,
            (b"a/000002.log", (MANIFEST, 0, 13)),
            (b"a/000003.log", (LOG, 0, 0)),
        ],
        Shown::Refused(Refusal::Malformed {
            name: FileName::Log(2),
            place: 0,
        }),
    ),
    (&[NAMED, EDITED], Shown::Reads(0, *b"...")),
];

fn logs_go_on(alloc: Global) -> Result<bool, NoMemory> {
    each_reads(alloc, LOGS)
}

#[test]
fn a_log_cut_anywhere_reads_to_a_prefix(rt: HostRuntime) {
    sure(&rt, each_cut_reads(rt.alloc()));
}

#[test]
fn a_turned_bit_is_damage(rt: HostRuntime) {
    sure(&rt, each_turned_bit_is_damage(rt.alloc()));
}

#[test]
fn logs_go_on_from_each_other(rt: HostRuntime) {
    sure(&rt, logs_go_on(rt.alloc()));
}
