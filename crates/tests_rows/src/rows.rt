//! Rows in a list.
use crate::claims::{Stopped, sure};
use lsm_bytes::Bytes;
use lsm_rows::{Row, Rows};
use std::alloc::Global;

/// The sequence of the row at a place, and 0 where none is.
pub fn sequence_at(rows: &Rows, place: usize) -> u64 {
    match rows.as_slice().get(place) {
        Some(row) => row.sequence,
        None => 0,
    }
}

fn deleted(alloc: Global, sequence: u64) -> Result<Row, Stopped> {
    let key = Bytes::from_slice(alloc, b"k")?;
    Ok(Row {
        key,
        sequence,
        value: None,
    })
}

fn push(alloc: Global, rows: &mut Rows, sequence: u64) -> Result<(), Stopped> {
    let row = deleted(alloc, sequence)?;
    Ok(rows.push(row)?)
}

// Two rows of one key, with the sequences 1 and 2.
fn two_rows(alloc: Global) -> Result<Rows, Stopped> {
    let mut rows = Rows::new(alloc);
    for sequence in 1..3u64 {
        push(alloc, &mut rows, sequence)?;
    }
    Ok(rows)
}

// Whether these are the two rows.
fn are_two(rows: &Rows) -> bool {
    rows.len() == 2 && !rows.is_empty() && sequence_at(rows, 0) == 1 && sequence_at(rows, 1) == 2
}

fn two_come_out(alloc: Global) -> Result<bool, Stopped> {
    let rows = two_rows(alloc)?;
    Ok(are_two(&rows) && sequence_at(&rows, 2) == 0)
}

fn none_are_empty(alloc: Global) -> bool {
    let rows = Rows::new(alloc);
    rows.is_empty() && rows.len() == 0
}

fn two_of_a_vec(alloc: Global) -> Result<bool, Stopped> {
    let again = Rows::from_vec(two_rows(alloc)?.into_vec());
    Ok(are_two(&again))
}

#[test]
fn rows_come_out_in_their_order(rt: HostRuntime) {
    sure(&rt, two_come_out(rt.alloc()));
}

#[test]
fn no_rows_are_empty(rt: HostRuntime) {
    sure(&rt, Ok(none_are_empty(rt.alloc())));
}

#[test]
fn rows_of_a_vec_are_its_rows(rt: HostRuntime) {
    sure(&rt, two_of_a_vec(rt.alloc()));
}
