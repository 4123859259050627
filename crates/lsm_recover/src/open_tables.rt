//! The tables of a folder's version, each opened and left open: its index stays in memory, its data
//! blocks are not read.
ghost use Rattle.std.specs.Prelude.{◌≡◌, ◌+◌, ◌≤◌, ℕ, List, Ok, length, OnOk, IfOk, IfErr, IfSome, IsTrue};
ghost use Rattle.std.specs.FinMap as finmap;
ghost use Rattle.lsm_names.specs.FileNames.{is_file_number};
ghost use Rattle.lsm_frame.specs.Reader.{Tells, Stays};
ghost use Rattle.lsm_recover.specs.Answers.{IsRefusedBy, files_now};
ghost use Rattle.lsm_recover.specs.Causes.{HasFolderCause, HasRisenIn, IsOfBytes};
ghost use Rattle.lsm_recover.specs.Opening.{IsOpenOn, IsOpenBehind, all_opened, opened_of, opened_said};
ghost use Rattle.lsm_recover.specs.Stated.{AreNumbered};

use crate::errors::{FolderError, error_by};
use crate::opening::{file_path, open_whole};
use crate::tables::{PROPERTIES_BEFORE_END, is_of, table_error};
use lsm_disk::{Disk, View};
use lsm_names::{FileName, Path};
use lsm_table::{Table, Tables};
use lsm_version::{Placed, TableInfo, Version};
use std::alloc::Global;

// Opens all tables of a version, in the order of their numbers, behind those that are open. After a
// refusal those before it are left open.
pub(crate) fn open_tables<D: Disk>(
    alloc: Global,
    disk: &mut D,
    dir: &Path,
    version: &Version,
    tables: &mut Tables<D::View>,
) -> Result<(), FolderError>
    requires room { length dir.now + 30 ≤ 160 }
    requires numbered { AreNumbered version.now }
    ensures told { (D.seen disk.new).told ≡ (D.seen disk.old).told }
    ensures opened { OnOk result (IfSome (D.seen disk.old).told (λ story.
        IsOpenBehind (files_now dir.now story) (finmap.entries version.now) tables.old tables.new)) }
    ensures refused { IfErr result (λ e. IfSome (D.seen disk.old).told (λ story.
        IsRefusedBy (all_opened (files_now dir.now story) (finmap.entries version.now)) e)) }
    ensures cause { HasFolderCause dir.now (D.seen disk.old) (D.seen disk.new) result }
{
    for (number, placed) in version.tables() {
        let table = open_table(alloc, disk, dir, *number, placed)?;
        if let Err(table) = tables.push(table) {
            disk.close(table.into_view());
            return Err(FolderError::NoMemory);
        }
    }
    Ok(())
}

// Opens the table of a number, which a version has so.
fn open_table<D: Disk>(
    alloc: Global,
    disk: &mut D,
    dir: &Path,
    number: u64,
    placed: &Placed,
) -> Result<Table<D::View>, FolderError>
    requires room { length dir.now + 30 ≤ 160 }
    requires number { IsTrue (is_file_number number) }
    ensures told { (D.seen disk.new).told ≡ (D.seen disk.old).told }
    ensures opened { IfOk result (λ table. IfSome (D.seen disk.old).told (λ story.
        IsOpenOn (files_now dir.now story) number placed.now table)) }
    ensures refused { IfErr result (λ e. IfSome (D.seen disk.old).told (λ story.
        IsRefusedBy (opened_of (files_now dir.now story) number placed.now) e)) }
    ensures cause { HasFolderCause dir.now (D.seen disk.old) (D.seen disk.new) result }
{
    let name = FileName::Table(number);
    let path = file_path(dir, name);
    match open_whole(disk, &path) {
        Ok(view) => match open_view(alloc, view, number, &placed.info) {
            Ok(table) => Ok(table),
            Err(refused) => {
                disk.close(refused.view);
                Err(refused.why)
            }
        },
        Err(refused) => Err(error_by(FolderError::Missing { name }, refused)),
    }
}

// Why a table was not opened, and its view, handed back.
#[derive(Drop)]
struct NotOpened<V> {
    why: FolderError,
    view: V,
}

// Opens the table that a view shows, whose length is tested before anything is read, if it is the
// one that a version has.
fn open_view<V: View>(
    alloc: Global,
    view: V,
    number: u64,
    info: &TableInfo,
) -> Result<Table<V>, NotOpened<V>>
    ensures opened { IfOk result (λ table. (text : List ℕ) → Tells (V.viewed view) text
        → opened_said number info.now text ≡ Ok table.properties) }
    ensures kept { IfOk result (λ table. Stays (V.viewed view) table.viewed) }
    ensures refused { IfErr result (λ e. (text : List ℕ) → Tells (V.viewed view) text
        → IsRefusedBy (opened_said number info.now text) e.why) }
    ensures cause { IfErr result (λ e. HasRisenIn (V.viewed view) (V.viewed e.view) e.why) }
{
    let name = FileName::Table(number);
    let found = view.len();
    if found != info.size {
        let why = FolderError::Short {
            name,
            kept: info.size,
            found,
        };
        return Err(NotOpened { why, view });
    }
    match Table::open(alloc, view) {
        Ok(table) => own_table(table, number, info),
        Err(error) => Err(NotOpened {
            why: table_error(name, error.why),
            view: error.view,
        }),
    }
}

// An open table, if it is the one that a version has.
fn own_table<V: View>(
    table: Table<V>,
    number: u64,
    info: &TableInfo,
) -> Result<Table<V>, NotOpened<V>>
    requires { table.viewed.len ≡ info.now.size }
    ensures opened { IfOk result (λ own. (own ≡ table) × ((text : List ℕ) → Tells table.viewed text
        → opened_said number info.now text ≡ Ok table.properties)) }
    ensures refused { IfErr result (λ e. (text : List ℕ) → Tells table.viewed text
        → IsRefusedBy (opened_said number info.now text) e.why) }
    ensures inside { IfErr result (λ e. IsOfBytes e.why) }
{
    if is_of(number, info, table.properties()) {
        return Ok(table);
    }
    let place = info.size.saturating_sub(PROPERTIES_BEFORE_END);
    Err(NotOpened {
        why: FolderError::Malformed {
            name: FileName::Table(number),
            place,
        },
        view: table.into_view(),
    })
}

/// Closes the views of open tables.
pub fn close_tables<D: Disk>(disk: &mut D, tables: Tables<D::View>)
    ensures told { (D.seen disk.new).told ≡ (D.seen disk.old).told }
    ensures faults { (D.seen disk.old).faults ≤ (D.seen disk.new).faults }
    ensures refusals { (D.seen disk.old).refusals ≤ (D.seen disk.new).refusals }
{
    let mut tables = tables;
    while let Some(table) = tables.pop() {
        disk.close(table.into_view());
    }
}
