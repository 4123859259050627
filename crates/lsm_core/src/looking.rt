//! Tables that are opened for one key, so that the key can be looked for without the store.
ghost use Rattle.std.specs.Prelude.{◌≡◌, ◌≢◌, ◌<◌, ◌≤◌, true, false, ◌++◌, ◌∷◌, [], ℕ, List, Option, Some, All, Contains, take, MatchResult, IfOk, IfErr, OnOk, OnErr};
ghost use Rattle.std.specs.List.{AllZip};
ghost use Rattle.std.specs.FinMap as finmap;
ghost use Rattle.lsm_io.specs.Causes.{Rose};
ghost use Rattle.lsm_rows.specs.declared.rows.Row.{Row as IsRow};
ghost use Rattle.lsm_rows.specs.Contents.{newest};
ghost use Rattle.lsm_table.specs.declared.faults.TableFault.TheVariants.{ReadFault};
ghost use Rattle.lsm_table.specs.Opening.{IsOutside};
ghost use Rattle.lsm_version.specs.declared.tables.Place.{Place as IsPlace};
ghost use Rattle.lsm_version.specs.Orders.{AreLevels, Stands};
ghost use Rattle.lsm_model.specs.declared.errors.StoreError.TheVariants as error;
ghost use Rattle.lsm_core.specs.Catalogs.{IsWholeView};
ghost use Rattle.lsm_core.specs.Reading.{Keeps, Reads, Views, seen_with};
ghost use Rattle.lsm_core.specs.Looking.{Leveled, TellsTable, AreOpened, TellsValue, StaysTable, HasFailed};
ghost use Rattle.lsm_core.specs.Searching.{better, goes_deeper, row_met, value_met, looked_at};

use crate::meeting::Met;
use crate::opening::open_table;
use crate::searching::{better, goes_deeper, looked_at};
use lsm_bytes::{Bytes, NoMemory};
use lsm_disk::{Disk, View};
use lsm_model::StoreError;
use lsm_names::Folder;
use lsm_table::{Table, TableFault};
use lsm_version::{Place, Version};
use std::alloc::{AllocFailed, Global};
use std::marker::Model;

/// An open table with its level.
#[derive(Drop)]
struct LevelTable<V: View> {
    level: u8,
    table: Table<V>,
}

impl<V: View> Model for LevelTable<V> {
    ghost use Rattle.lsm_core.specs.Looking.{Leveled};

    ghost Value = { Leveled };

    ghost view = { λ t. record { level = t.level; table = t.table } };
}

/// The tables that may have a key, newest rows first. Each has a view of its own. Contracts see
/// them in that order.
#[derive(Drop)]
pub struct Tables<V: View> {
    items: Vec<LevelTable<V>>,
}

impl<V: View> Model for Tables<V> {
    ghost use Rattle.std.specs.Prelude.{List, All};
    ghost use Rattle.lsm_core.specs.Catalogs.{IsWholeView};
    ghost use Rattle.lsm_core.specs.Looking.{Leveled};

    ghost Value = { List Leveled };

    ghost view = { λ t. t.items.items };

    ghost invariant = { λ t. All (λ (t : Leveled). IsWholeView t.table.viewed) t.items.items };
}

// ---- looking

// What a look has met once it has looked into one table more.
fn look_in<V: View>(
    table: &mut LevelTable<V>,
    key: &[u8],
    met: Option<Met>,
) -> Result<Option<Met>, TableFault>
    requires whole { IsWholeView table.old.table.viewed }
    ensures exact { (rows : List IsRow) → TellsTable rows table.old → MatchResult result
        (λ now. (goes_deeper met table.old.level ≡ true → now ≡ met)
        × (goes_deeper met table.old.level ≡ false → now ≡ better met table.old.level (newest key.now rows))) IsOutside }
    ensures stays { StaysTable table.old table.new }
    ensures cause { IfErr result (λ e. e ≡ ReadFault → Rose table.old.table.viewed.faults table.new.table.viewed.faults) }
{
    if goes_deeper(&met, table.level) {
        return Ok(met);
    }
    match table.table.get(key) {
        Ok(row) => Ok(better(met, table.level, row)),
        Err(fault) => Err(fault),
    }
}

// What the row that was met gives its key.
fn value_met(met: Option<Met>) -> Option<Bytes>
    ensures { result ≡ value_met met }
{
    match met {
        Some(met) => met.row.value,
        None => None,
    }
}

/// The value that the contents had at the key for which the tables were opened, when they were. It
/// reads at most one data block of each, and none behind a row that was met at a level above. After
/// a refusal it may be asked again.
pub fn look<V: View>(tables: &mut Tables<V>, key: &[u8]) -> Result<Option<Bytes>, TableFault>
    ensures exact { (value : Option (List ℕ)) → TellsValue tables.old key.now value → MatchResult result (λ found. found ≡
        value) IsOutside }
    ensures stays { AllZip StaysTable tables.old tables.new }
    ensures cause { IfErr result (λ e. e ≡ ReadFault → HasFailed tables.old tables.new) }
{
    let mut met = None;
    for place in 0..tables.items.as_slice().len() {
        match look_in(&mut tables.items[place], key, met) {
            Ok(now) => met = now,
            Err(fault) => return Err(fault),
        }
    }
    Ok(value_met(met))
}

// ---- opening and closing

// The table's view.
fn view_of<V: View>(table: LevelTable<V>) -> V
    ensures { V.viewed result ≡ table.table.viewed }
{
    table.table.into_view()
}

/// Hands the tables' views to the disk's `close`.
pub fn close_looked<D: Disk>(disk: &mut D, tables: Tables<D::View>)
    ensures disk { Keeps (D.seen disk.old) (D.seen disk.new) }
    ensures rose { (t : Leveled) → Contains tables t → 0 < t.table.viewed.faults → Rose (D.seen disk.old).faults (D.seen
        disk.new).faults }
{
    let Tables { mut items } = tables;
    while let Some(table) = items.pop() {
        disk.close(view_of(table));
    }
}

// Opens the live table of one place more, behind those that were opened.
fn open_further<D: Disk>(
    alloc: Global,
    disk: &mut D,
    home: &Folder,
    version: &Version,
    tables: &mut Tables<D::View>,
    place: Place,
) -> Result<(), StoreError>
    ensures { (views : Views) (places : List IsPlace) → Reads (λ rows value. Stands version.now place → AreOpened rows places
        tables.old
        → AreOpened rows (places ++ place ∷ []) tables.new)
        (seen_with (D.seen disk.old) home.now version.now views) (seen_with (D.seen disk.new) home.now version.now views)
        result }
{
    let Some(placed) = version.get(place.number) else {
        return Ok(());
    };
    match open_table(alloc, disk, home, place.number, placed) {
        Ok(table) => push_table(disk, tables, place.level, table),
        Err(refused) => Err(refused),
    }
}

// Puts an open table behind the others. Where memory is wanting its view is closed.
fn push_table<D: Disk>(
    disk: &mut D,
    tables: &mut Tables<D::View>,
    level: u8,
    table: Table<D::View>,
) -> Result<(), StoreError>
    requires whole { IsWholeView table.viewed }
    ensures disk { Keeps (D.seen disk.old) (D.seen disk.new) }
    ensures ok { OnOk result (tables.new ≡ tables.old ++ record { level = level; table = table } ∷ []) }
    ensures err { IfErr result (λ e. e ≡ error.NoMemory) }
{
    match tables.items.push(LevelTable { level, table }) {
        Ok(()) => Ok(()),
        Err(AllocFailed { value }) => {
            disk.close(view_of(value));
            Err(StoreError::NoMemory)
        }
    }
}

// Opens the live tables of these places. Where it is refused, none of them stays open.
fn open_places<D: Disk>(
    alloc: Global,
    disk: &mut D,
    home: &Folder,
    version: &Version,
    places: &[Place],
) -> Result<Tables<D::View>, StoreError>
    ensures { (views : Views) → Reads (λ rows tables. All (Stands version.now) places.now → AreOpened rows places.now tables)
        (seen_with (D.seen disk.old) home.now version.now views) (seen_with (D.seen disk.new) home.now version.now views)
        result }
{
    let mut tables = Tables {
        items: Vec::new(alloc),
    };
    for place in places {
        if let Err(refused) = open_further(alloc, disk, home, version, &mut tables, *place) {
            close_looked(disk, tables);
            return Err(refused);
        }
    }
    Ok(tables)
}

/// Opens the live tables that may have a key, each with a view of its own. Where it is refused,
/// none of them stays open.
pub(crate) fn open_looked<D: Disk>(
    alloc: Global,
    disk: &mut D,
    home: &Folder,
    version: &Version,
    key: &[u8],
) -> Result<Tables<D::View>, StoreError>
    ensures { (views : Views) → Reads (λ rows tables. AreLevels version.now → AreOpened rows (looked_at version.now key.now)
        tables)
        (seen_with (D.seen disk.old) home.now version.now views) (seen_with (D.seen disk.new) home.now version.now views)
        result }
{
    match looked_at(alloc, version, key) {
        Ok(places) => open_places(alloc, disk, home, version, places.as_slice()),
        Err(NoMemory) => Err(StoreError::NoMemory),
    }
}
