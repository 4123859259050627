//! The tables of a folder's version, each read in full, one block in memory at a time.
ghost use Rattle.std.specs.Prelude.{◌≡◌, ◌+◌, ◌<◌, ◌≤◌, ℕ, List, length, OnOk, IfErr, IfSome, IsTrue};
ghost use Rattle.std.specs.FinMap as finmap;
ghost use Rattle.lsm_names.specs.FileNames.{is_file_number};
ghost use Rattle.lsm_frame.specs.Reader.{Tells, Stays};
ghost use Rattle.lsm_folder.specs.Tables.{is_of, table_said};
ghost use Rattle.lsm_folder.specs.Reading.{table_of, tables_in};
ghost use Rattle.lsm_recover.specs.Answers.{files_now};
ghost use Rattle.lsm_recover.specs.Causes.{HasFolderCause, HasRisenIn, table_error};
ghost use Rattle.lsm_recover.specs.Stated.{AreNumbered};
ghost use Rattle.lsm_recover.specs.Tables.{AnswersTable, AnswersTables, GathersBlock, HasGathered, IsBlockTrouble, IsWalkTrouble};

use crate::errors::{FolderError, error_by};
use crate::newest::NewestRows;
use crate::opening::{file_path, open_whole};
use lsm_disk::{Disk, View};
use lsm_names::{FileName, Path};
use lsm_table::{Properties, Table, TableFault, rows_of};
use lsm_version::{Placed, TableInfo, Version};
use std::alloc::Global;

// How far before a table's end its properties begin, in bytes: 41 of their own, and the footer's
// 36.
pub(crate) const PROPERTIES_BEFORE_END: u64 = 77;

// Gathers the rows of all tables of a version.
pub(crate) fn read_tables<D: Disk>(
    alloc: Global,
    disk: &mut D,
    dir: &Path,
    version: &Version,
    rows: &mut NewestRows,
) -> Result<(), FolderError>
    requires room { length dir.now + 30 ≤ 160 }
    requires numbered { AreNumbered version.now }
    ensures told { (D.seen disk.new).told ≡ (D.seen disk.old).told }
    ensures answer { IfSome (D.seen disk.old).told (λ story.
        AnswersTables (tables_in (files_now dir.now story) (finmap.entries version.now)) rows.old rows.new result) }
    ensures cause { HasFolderCause dir.now (D.seen disk.old) (D.seen disk.new) result }
{
    for (number, placed) in version.tables() {
        read_table(alloc, disk, dir, *number, placed, rows)?;
    }
    Ok(())
}

// Gathers the rows of the table of a number, which a version has so.
fn read_table<D: Disk>(
    alloc: Global,
    disk: &mut D,
    dir: &Path,
    number: u64,
    placed: &Placed,
    rows: &mut NewestRows,
) -> Result<(), FolderError>
    requires room { length dir.now + 30 ≤ 160 }
    requires number { IsTrue (is_file_number number) }
    ensures told { (D.seen disk.new).told ≡ (D.seen disk.old).told }
    ensures answer { IfSome (D.seen disk.old).told (λ story.
        AnswersTable (table_of (files_now dir.now story) number placed.now) rows.old rows.new result) }
    ensures cause { HasFolderCause dir.now (D.seen disk.old) (D.seen disk.new) result }
{
    let name = FileName::Table(number);
    let path = file_path(dir, name);
    match open_whole(disk, &path) {
        Ok(view) => {
            let walked = read_whole(alloc, view, number, &placed.info, rows);
            disk.close(walked.view);
            walked.read
        }
        Err(refused) => Err(error_by(FolderError::Missing { name }, refused)),
    }
}

// How a table was read, and its view, handed back.
#[derive(Drop)]
struct Walked<V> {
    read: Result<(), FolderError>,
    view: V,
}

// Gathers the rows of the table that a view shows, whose length is tested before anything is read.
fn read_whole<V: View>(
    alloc: Global,
    view: V,
    number: u64,
    info: &TableInfo,
    rows: &mut NewestRows,
) -> Walked<V>
    ensures answer { (text : List ℕ) → Tells (V.viewed view) text
        → AnswersTable (table_said number info.now text) rows.old rows.new result.read }
    ensures view { Stays (V.viewed view) (V.viewed result.view) }
    ensures cause { IfErr result.read (HasRisenIn (V.viewed view) (V.viewed result.view)) }
{
    let name = FileName::Table(number);
    let found = view.len();
    if found != info.size {
        let read = Err(FolderError::Short {
            name,
            kept: info.size,
            found,
        });
        return Walked { read, view };
    }
    match Table::open(alloc, view) {
        Ok(mut table) => {
            let read = read_rows(alloc, &mut table, number, info, rows);
            Walked {
                read,
                view: table.into_view(),
            }
        }
        Err(error) => Walked {
            read: Err(table_error(name, error.why)),
            view: error.view,
        },
    }
}

// Gathers the rows of an open table, if it is the one that a version has.
fn read_rows<V: View>(
    alloc: Global,
    table: &mut Table<V>,
    number: u64,
    info: &TableInfo,
    rows: &mut NewestRows,
) -> Result<(), FolderError>
    requires { table.old.viewed.len ≡ info.now.size }
    ensures answer { (text : List ℕ) → Tells table.old.viewed text
        → AnswersTable (table_said number info.now text) rows.old rows.new result }
    ensures view { Stays table.old.viewed table.new.viewed }
    ensures cause { IfErr result (HasRisenIn table.old.viewed table.new.viewed) }
{
    let name = FileName::Table(number);
    if !is_of(number, info, table.properties()) {
        let place = info.size.saturating_sub(PROPERTIES_BEFORE_END);
        return Err(FolderError::Malformed { name, place });
    }
    walk(alloc, table, name, rows)
}

// Whether properties are of the table of a number that a version has so.
pub(crate) fn is_of(number: u64, info: &TableInfo, properties: Properties) -> bool
    ensures { result ≡ is_of number info.now properties }
{
    properties.number == number && properties.session == info.session
}

// How a table's fault is told of its folder.
pub(crate) fn table_error(name: FileName, fault: TableFault) -> FolderError
    ensures { result ≡ table_error name fault }
{
    match fault {
        TableFault::ReadFault => FolderError::DiskFault,
        TableFault::Damaged { place, kept, found } => FolderError::Damaged {
            name,
            place,
            kept,
            found,
        },
        TableFault::Malformed { place } => FolderError::Malformed { name, place },
        TableFault::NoMemory => FolderError::NoMemory,
    }
}

// Gathers the rows of all data blocks of an open table, block by block.
fn walk<V: View>(
    alloc: Global,
    table: &mut Table<V>,
    name: FileName,
    rows: &mut NewestRows,
) -> Result<(), FolderError>
    ensures whole { OnOk result ((text : List ℕ) → Tells table.old.viewed text
        → HasGathered text table.old.index (length table.old.index) rows.old rows.new) }
    ensures stopped { IfErr result (λ e. (text : List ℕ) → Tells table.old.viewed text
        → IsWalkTrouble name text table.old.index e) }
    ensures view { Stays table.old.viewed table.new.viewed }
    ensures cause { IfErr result (HasRisenIn table.old.viewed table.new.viewed) }
{
    for nth in 0..table.blocks() {
        read_nth(alloc, table, name, nth, rows)?;
    }
    Ok(())
}

// Gathers the rows of the data block of this number, counted from 0 in the order of the index.
fn read_nth<V: View>(
    alloc: Global,
    table: &mut Table<V>,
    name: FileName,
    nth: usize,
    rows: &mut NewestRows,
) -> Result<(), FolderError>
    requires { nth < length table.old.index }
    ensures read { OnOk result ((text : List ℕ) → Tells table.old.viewed text
        → GathersBlock text table.old.index nth rows.old rows.new) }
    ensures trouble { IfErr result (λ e. (text : List ℕ) → Tells table.old.viewed text
        → IsBlockTrouble name text table.old.index nth e) }
    ensures index { table.new.index ≡ table.old.index }
    ensures view { Stays table.old.viewed table.new.viewed }
    ensures cause { IfErr result (HasRisenIn table.old.viewed table.new.viewed) }
{
    match table.nth_block(nth) {
        Ok(block) => {
            let found = rows_of(alloc, &block)?;
            rows.add_all(found.as_slice())?;
            Ok(())
        }
        Err(fault) => Err(table_error(name, fault)),
    }
}
