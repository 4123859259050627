//! The folder of a store that put `a` and flushed: each file of it cut at each byte, and with a bit
//! turned in each byte, once with an empty log and once with one of a put of `b`.
//!
//! The expected counts are the lines that `tools/read-folder --table` prints, in their order. It is
//! a second reader in another language, written from docs/FORMATS.md.

use crate::folders::{File, Shown, answer_with};
use crate::sure::sure;
use crate::texts::{BEHIND, CURRENT, Cut, FLUSHED, TABLE, bytes_of};
use lsm_bytes::NoMemory;
use lsm_folder::Refusal;
use std::alloc::Global;

/// How many folders read, how many answered `Missing`, `Short`, `Damaged`, `Malformed` and `Gap`,
/// and the sum of the places that were told.
type Counts = [u64; 7];

/// A file that is changed, the others, and the counts of its cuts and of its turned bits.
struct Row {
    others: &'static [File],
    name: &'static [u8],
    text: Cut,
    cut: Counts,
    turned: Counts,
}

/// The place of an answer's count, and the place in the file that it tells.
fn told(shown: Shown) -> (usize, u64) {
    match shown {
        Shown::Reads(_, _) => (0, 0),
        Shown::Refused(why) => told_by(why),
        _ => (7, 0),
    }
}

fn told_by(why: Refusal) -> (usize, u64) {
    match why {
        Refusal::Missing { .. } => (1, 0),
        Refusal::Short { .. } => (2, 0),
        Refusal::Damaged { place, .. } => (3, place),
        Refusal::Malformed { place, .. } => (4, place),
        Refusal::Gap { .. } => (5, 0),
        _ => (7, 0),
    }
}

/// Adds to a count, if there is one at this place.
fn raise(counts: &mut Counts, nth: usize, by: u64) {
    if let Some(count) = counts.get_mut(nth) {
        *count = count.wrapping_add(by);
    }
}

/// Counts what the folder reads as where the file of the row has this text.
fn add(alloc: Global, row: &Row, text: &[u8], counts: &mut Counts) -> Result<(), NoMemory> {
    let (nth, place) = told(answer_with(alloc, row.others, row.name, text)?);
    raise(counts, nth, 1);
    raise(counts, 6, place);
    Ok(())
}

fn cut_counts(alloc: Global, row: &Row) -> Result<Counts, NoMemory> {
    let (text, from, to) = row.text;
    let mut counts = [0; 7];
    for end in from..to {
        add(alloc, row, bytes_of((text, from, end)), &mut counts)?;
    }
    Ok(counts)
}

/// The text with these bits of a byte turned.
fn turned(alloc: Global, text: &[u8], at: usize, bits: u8) -> Result<Vec<u8>, NoMemory> {
    let mut turned = Vec::from_slice(alloc, text)?;
    if let Some(byte) = turned.get_mut(at) {
        *byte ^= bits;
    }
    Ok(turned)
}

fn turned_counts(alloc: Global, row: &Row) -> Result<Counts, NoMemory> {
    let text = bytes_of(row.text);
    let mut counts = [0; 7];
    let mut bits = 1u8;
    for at in 0..text.len() {
        add(
            alloc,
            row,
            turned(alloc, text, at, bits)?.as_slice(),
            &mut counts,
        )?;
        bits = bits.rotate_left(1);
    }
    Ok(counts)
}

const NAMED: File = (b"a/CURRENT", (CURRENT, 0, 16));

const EDITED: File = (b"a/MANIFEST-000001", (FLUSHED, 0, 71));

const TABLED: File = (b"a/000004.sst", (TABLE, 0, 130));

const EMPTY: File = (b"a/000003.log", (BEHIND, 0, 0));

const LOGGED: File = (b"a/000003.log", (BEHIND, 0, 24));

const ROWS: &[Row] = &[
    Row {
        others: &[EDITED, TABLED, EMPTY],
        name: b"a/CURRENT",
        text: (CURRENT, 0, 16),
        cut: [0, 0, 0, 0, 16, 0, 0],
        turned: [0, 3, 0, 0, 13, 0, 0],
    },
    Row {
        others: &[NAMED, TABLED, EMPTY],
        name: b"a/MANIFEST-000001",
        text: (FLUSHED, 0, 71),
        cut: [58, 0, 0, 0, 13, 0, 0],
        turned: [1, 0, 0, 69, 1, 0, 741],
    },
    Row {
        others: &[NAMED, EDITED, EMPTY],
        name: b"a/000004.sst",
        text: (TABLE, 0, 130),
        cut: [0, 0, 130, 0, 0, 0, 0],
        turned: [0, 0, 0, 119, 11, 0, 6259],
    },
    Row {
        others: &[EDITED, TABLED, LOGGED],
        name: b"a/CURRENT",
        text: (CURRENT, 0, 16),
        cut: [0, 0, 0, 0, 16, 0, 0],
        turned: [0, 3, 0, 0, 13, 0, 0],
    },
    Row {
        others: &[NAMED, TABLED, LOGGED],
        name: b"a/MANIFEST-000001",
        text: (FLUSHED, 0, 71),
        cut: [0, 0, 0, 0, 13, 58, 0],
        turned: [0, 0, 0, 69, 1, 1, 741],
    },
    Row {
        others: &[NAMED, EDITED, TABLED],
        name: b"a/000003.log",
        text: (BEHIND, 0, 24),
        cut: [24, 0, 0, 0, 0, 0, 0],
        turned: [1, 0, 0, 23, 0, 0, 0],
    },
    Row {
        others: &[NAMED, EDITED, LOGGED],
        name: b"a/000004.sst",
        text: (TABLE, 0, 130),
        cut: [0, 0, 130, 0, 0, 0, 0],
        turned: [0, 0, 0, 119, 11, 0, 6259],
    },
];

fn each_cut_is_told(alloc: Global) -> Result<bool, NoMemory> {
    for row in ROWS {
        if cut_counts(alloc, row)? != row.cut {
            return Ok(false);
        }
    }
    Ok(true)
}

fn each_turned_bit_is_told(alloc: Global) -> Result<bool, NoMemory> {
    for row in ROWS {
        if turned_counts(alloc, row)? != row.turned {
            return Ok(false);
        }
    }
    Ok(true)
}

#[test]
fn every_cut_is_told(rt: HostRuntime) {
    sure(&rt, each_cut_is_told(rt.alloc()));
}

#[test]
fn every_turned_bit_is_told(rt: HostRuntime) {
    sure(&rt, each_turned_bit_is_told(rt.alloc()));
}
