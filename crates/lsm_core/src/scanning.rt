//! Reading all rows of live tables.
ghost use Rattle.std.specs.Prelude.{◌≡◌, ◌++◌, ℕ, List, Some, true, is_some};
ghost use Rattle.std.specs.FinMap as finmap;
ghost use Rattle.lsm_version.specs.declared.tables.Placed.{Placed as IsPlaced};
ghost use Rattle.lsm_version.specs.Levels.{Tables};
ghost use Rattle.lsm_folder.specs.Parts.{rows_of_tables};
ghost use Rattle.lsm_core.specs.Reading.{Reads, seen_with};

use crate::searching::{ensure_open, refuse};
use crate::tables::OpenTables;
use lsm_disk::Disk;
use lsm_model::StoreError;
use lsm_names::Folder;
use lsm_rows::{Row, Rows};
use lsm_version::{Placed, Version};
use std::alloc::Global;

// All rows of an open table. A view that fails is closed.
fn read_open<D: Disk>(
    disk: &mut D,
    tables: &mut OpenTables<D::View>,
    number: u64,
) -> Result<Rows, StoreError>
    requires is_open { is_some (finmap.get tables.old number) ≡ true }
    ensures { (home : List ℕ) (version : Tables) (placed : IsPlaced) → finmap.get version number ≡ Some placed
        → Reads (λ rows all. all ≡ rows number)
        (seen_with (D.seen disk.old) home version tables.old) (seen_with (D.seen disk.new) home version tables.new) result }
{
    match tables.rows(number) {
        Ok(rows) => Ok(rows),
        Err(fault) => Err(refuse(disk, tables, number, fault)),
    }
}

// All rows of a live table.
fn read_live<D: Disk>(
    alloc: Global,
    disk: &mut D,
    home: &Folder,
    tables: &mut OpenTables<D::View>,
    number: u64,
    placed: &Placed,
) -> Result<Rows, StoreError>
    ensures { (version : Tables) → finmap.get version number ≡ Some placed.now → Reads (λ rows all. all ≡ rows number)
        (seen_with (D.seen disk.old) home.now version tables.old) (seen_with (D.seen disk.new) home.now version tables.new)
        result }
{
    match ensure_open(alloc, disk, home, tables, number, placed) {
        Ok(()) => read_open(disk, tables, number),
        Err(refused) => Err(refused),
    }
}

// Adds the rows of a live table behind others.
fn add_rows<D: Disk>(
    alloc: Global,
    disk: &mut D,
    home: &Folder,
    tables: &mut OpenTables<D::View>,
    number: u64,
    placed: &Placed,
    all: &mut Vec<Row>,
) -> Result<(), StoreError>
    ensures { (version : Tables) → finmap.get version number ≡ Some placed.now
        → Reads (λ rows value. all.new.items ≡ all.old.items ++ rows number)
        (seen_with (D.seen disk.old) home.now version tables.old) (seen_with (D.seen disk.new) home.now version tables.new)
        result }
{
    match read_live(alloc, disk, home, tables, number, placed) {
        Ok(rows) => match all.append(&mut rows.into_vec()) {
            Ok(()) => Ok(()),
            Err(_) => Err(StoreError::NoMemory),
        },
        Err(refused) => Err(refused),
    }
}

/// All rows of the live tables, table by table in the order of their numbers. Each table is read in
/// full, through a view that is opened where none is, and that stays open; a view that fails is
/// closed. It takes memory for all rows, and beside them for the rows of one table.
pub(crate) fn rows_of_tables<D: Disk>(
    alloc: Global,
    disk: &mut D,
    home: &Folder,
    version: &Version,
    tables: &mut OpenTables<D::View>,
) -> Result<Rows, StoreError>
    ensures { Reads (λ rows all. all ≡ rows_of_tables version.now rows)
        (seen_with (D.seen disk.old) home.now version.now tables.old) (seen_with (D.seen disk.new) home.now version.now
        tables.new) result }
{
    let mut all = Vec::new(alloc);
    for (number, placed) in version.tables() {
        match add_rows(alloc, disk, home, tables, *number, placed, &mut all) {
            Ok(()) => {}
            Err(refused) => return Err(refused),
        }
    }
    Ok(Rows::from_vec(all))
}
