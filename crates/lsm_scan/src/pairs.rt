//! The pairs that rows stand for.
ghost use Rattle.std.specs.Prelude.{◌≡◌, ◌<◌, ◌+◌, Bool, true, false, length, take, slice_index_or, IsPermutation, IfOk, OnOk};
ghost use Rattle.std.specs.List.Sorted.{IsSorted, IsStable};
ghost use Rattle.lsm_rows.specs.Contents.{contents_of};
ghost use Rattle.lsm_merge.specs.Order.{row_cmp};
ghost use Rattle.lsm_scan.specs.Firsts.{IsFirstOfKey, IsNotFirst};

use lsm_bytes::NoMemory;
use lsm_rows::{Pairs, Row, Rows};
use std::alloc::Global;
use std::cmp::Ordering;

// How rows are ordered: user keys by their bytes ascending, and of one user key the greater
// sequence first.
fn compare_rows(a: &Row, b: &Row) -> Ordering
    ensures { result ≡ row_cmp a.now b.now }
{
    let keys = a.key.as_slice().cmp(b.key.as_slice());
    keys.then(b.sequence.cmp(&a.sequence))
}

// Puts rows in that order. Rows of one user key and one sequence keep theirs. It takes about as
// many comparisons as there are rows, where these are few sorted runs.
fn sort_rows(rows: &mut Vec<Row>) -> Result<(), NoMemory>
    ensures permutation { IsPermutation rows.old.items rows.new.items }
    ensures stable { IsStable row_cmp rows.old.items rows.new.items }
    ensures sorted { OnOk result (IsSorted row_cmp rows.new.items) }
{
    rows.sort_by(|a: &Row, b: &Row| compare_rows(a, b))?;
    Ok(())
}

// Whether the row at a place is the first of its key, where rows are sorted.
fn is_first_of_key(rows: &[Row], place: usize) -> bool
    requires { place < length rows.now }
    ensures first { result ≡ true → IsFirstOfKey rows.now place }
    ensures not_first { result ≡ false → IsNotFirst rows.now place }
{
    if place == 0 {
        return true;
    }
    rows[place - 1].key != rows[place].key
}

// Adds the pair of a row at a place to the pairs of those before it, where rows are sorted: the
// first row of a key is its newest.
fn add_row(pairs: &mut Pairs, rows: &[Row], place: usize) -> Result<(), NoMemory>
    requires sorted { IsSorted row_cmp rows.now }
    requires place { place < length rows.now }
    requires before { pairs.old ≡ contents_of (take place rows.now) }
    ensures { OnOk result (pairs.new ≡ contents_of (take (place + 1) rows.now)) }
{
    if !is_first_of_key(rows, place) {
        return Ok(());
    }
    let row = &rows[place];
    match &row.value {
        Some(value) => pairs.put(row.key.as_slice(), value.as_slice()),
        None => Ok(()),
    }
}

// The pairs of sorted rows.
fn sorted_pairs(alloc: Global, rows: &[Row]) -> Result<Pairs, NoMemory>
    requires { IsSorted row_cmp rows.now }
    ensures { IfOk result (λ pairs. pairs ≡ contents_of rows.now) }
{
    let mut pairs = Pairs::new(alloc);
    for place in 0..rows.len() {
        add_row(&mut pairs, rows, place)?;
    }
    Ok(pairs)
}

/// The pairs that rows stand for: each key has the value of its row with the greatest sequence, and
/// of several such rows that of the first. A key whose row is a delete has none.
///
/// The rows are sorted first, so that it is fastest where they come in few sorted runs. It takes
/// memory for the pairs, and to sort room for as many rows.
pub fn pairs_of(alloc: Global, rows: Rows) -> Result<Pairs, NoMemory>
    ensures { IfOk result (λ pairs. pairs ≡ contents_of rows) }
{
    let mut rows = rows.into_vec();
    sort_rows(&mut rows)?;
    sorted_pairs(alloc, rows.as_slice())
}
