//! Looking for a key through live tables.
ghost use Rattle.std.specs.Prelude.{◌≡◌, ◌≤◌, ◌<◌, ◌++◌, ◌∷◌, [], ℕ, List, Some, None, Ok, Err, true, is_some, take, All, IfOk, IfErr, OnOk};
ghost use Rattle.std.specs.FinMap as finmap;
ghost use Rattle.lsm_io.specs.Causes.{Rose};
ghost use Rattle.lsm_rows.specs.Contents.{newest};
ghost use Rattle.lsm_rows.specs.InternalKeys.{user_key};
ghost use Rattle.lsm_disk.specs.Viewed.{Viewed};
ghost use Rattle.lsm_model.specs.declared.errors.StoreError.TheVariants as error;
ghost use Rattle.lsm_names.specs.declared.file_names.FileName.TheVariants.{Table as Named};
ghost use Rattle.lsm_version.specs.declared.tables.Placed.{Placed as IsPlaced};
ghost use Rattle.lsm_version.specs.Levels.{Tables};
ghost use Rattle.lsm_core.specs.Catalogs.{IsWholeView};
ghost use Rattle.lsm_core.specs.Reading.{Keeps, ClosesFailed, Reads, read_error, seen_with};
ghost use Rattle.lsm_core.specs.Searching.{may_have, has_in_range, looked_at, better, row_met, goes_deeper, MeetsMore, MeetsAll, FindsNewest};

use crate::meeting::Met;
use crate::opening::{open_table, read_error};
use crate::tables::OpenTables;
use lsm_bytes::NoMemory;
use lsm_disk::Disk;
use lsm_model::StoreError;
use lsm_names::{FileName, Folder};
use lsm_rows::Row;
use lsm_table::{Table, TableFault};
use lsm_version::{Inputs, Place, Placed, TableInfo, Version};
use std::alloc::Global;

// The bytes behind the user key in an internal key.
const TRAILER: usize = 8;

// ---- where to look

// All but the last 8 bytes of an internal key.
fn user_key(key: &[u8]) -> &[u8]
    ensures { result.now ≡ user_key key.now }
{
    let len = key.len().saturating_sub(TRAILER);
    key.split_at(len).0
}

// Whether a table's range of user keys has the key.
#[tactic(auto, unfolding(crate::specs::Searching::may_have))]
fn may_have(key: &[u8], info: &TableInfo) -> bool
    ensures { result ≡ may_have key.now info.now }
{
    user_key(info.smallest.as_slice()).cmp(key).is_le()
        && key.cmp(user_key(info.largest.as_slice())).is_le()
}

// Whether the range of the table that stands there has the key.
fn has_in_range(version: &Version, key: &[u8], place: Place) -> bool
    ensures { result ≡ has_in_range key.now (finmap.get version.now place.number) }
{
    match version.get(place.number) {
        Some(placed) => may_have(key, &placed.info),
        None => false,
    }
}

/// The places at which a search for a key looks, newest rows first: those of the tables whose
/// ranges of user keys have it. It goes through the version's tables once for each level.
pub(crate) fn looked_at(alloc: Global, version: &Version, key: &[u8]) -> Result<Inputs, NoMemory>
    ensures { IfOk result (λ places. places ≡ looked_at version.now key.now) }
{
    let all = version.search_order(alloc)?;
    let mut places = Inputs::new(alloc);
    for place in all.as_slice() {
        if has_in_range(version, key, *place) {
            places.push(*place)?;
        }
    }
    Ok(places)
}

// ---- one table

// Keeps a table that was opened. Where memory is wanting its view is closed.
fn keep_open<D: Disk>(
    disk: &mut D,
    tables: &mut OpenTables<D::View>,
    table: Table<D::View>,
) -> Result<(), StoreError>
    requires free { finmap.get tables.old table.properties.number ≡ None }
    requires whole { IsWholeView table.viewed }
    ensures disk { Keeps (D.seen disk.old) (D.seen disk.new) }
    ensures kept { OnOk result (tables.new ≡ finmap.insert tables.old table.properties.number table.viewed) }
    ensures refused { IfErr result (λ e. (e ≡ error.NoMemory) × (tables.new ≡ tables.old)) }
{
    match tables.keep(table) {
        Ok(()) => Ok(()),
        Err(view) => {
            disk.close(view);
            Err(StoreError::NoMemory)
        }
    }
}

/// Opens a live table, unless it is open.
pub(crate) fn ensure_open<D: Disk>(
    alloc: Global,
    disk: &mut D,
    home: &Folder,
    tables: &mut OpenTables<D::View>,
    number: u64,
    placed: &Placed,
) -> Result<(), StoreError>
    ensures reads { (version : Tables) → finmap.get version number ≡ Some placed.now → Reads (λ rows value. Unit {0})
        (seen_with (D.seen disk.old) home.now version tables.old) (seen_with (D.seen disk.new) home.now version tables.new)
        result }
    ensures is_open { OnOk result (is_some (finmap.get tables.new number) ≡ true) }
{
    if tables.is_open(number) {
        return Ok(());
    }
    match open_table(alloc, disk, home, number, placed) {
        Ok(table) => keep_open(disk, tables, table),
        Err(refused) => Err(refused),
    }
}

// Closes an open table's view.
fn close_table<D: Disk>(disk: &mut D, tables: &mut OpenTables<D::View>, number: u64)
    ensures disk { Keeps (D.seen disk.old) (D.seen disk.new) }
    ensures rest { tables.new ≡ finmap.remove tables.old number }
    ensures rose { (view : Viewed) → finmap.get tables.old number ≡ Some view → 0 < view.faults
        → Rose (D.seen disk.old).faults (D.seen disk.new).faults }
{
    match tables.take(number) {
        Some(view) => disk.close(view),
        None => {}
    }
}

/// The store's answer where an open table can't be read. A view that failed is closed before.
pub(crate) fn refuse<D: Disk>(
    disk: &mut D,
    tables: &mut OpenTables<D::View>,
    number: u64,
    fault: TableFault,
) -> StoreError
    ensures answer { result ≡ read_error (Named number) fault }
    ensures closes { ClosesFailed number fault (D.seen disk.old) (D.seen disk.new) tables.old tables.new }
{
    match fault {
        TableFault::ReadFault => {
            close_table(disk, tables, number);
            StoreError::DiskFault
        }
        TableFault::Damaged { .. } | TableFault::Malformed { .. } | TableFault::NoMemory => {
            read_error(FileName::Table(number), fault)
        }
    }
}

// The newest row that an open table has of a key. A view that fails is closed.
fn look_into<D: Disk>(
    alloc: Global,
    disk: &mut D,
    tables: &mut OpenTables<D::View>,
    number: u64,
    key: &[u8],
) -> Result<Option<Row>, StoreError>
    requires is_open { is_some (finmap.get tables.old number) ≡ true }
    ensures { (home : List ℕ) (version : Tables) (placed : IsPlaced) → finmap.get version number ≡ Some placed
        → Reads (λ rows row. row ≡ newest key.now (rows number))
        (seen_with (D.seen disk.old) home version tables.old) (seen_with (D.seen disk.new) home version tables.new) result }
{
    match tables.get(alloc, number, key) {
        Ok(row) => Ok(row),
        Err(fault) => Err(refuse(disk, tables, number, fault)),
    }
}

// The newest row that a live table has of a key.
fn look_at<D: Disk>(
    alloc: Global,
    disk: &mut D,
    home: &Folder,
    tables: &mut OpenTables<D::View>,
    number: u64,
    placed: &Placed,
    key: &[u8],
) -> Result<Option<Row>, StoreError>
    ensures { (version : Tables) → finmap.get version number ≡ Some placed.now → Reads (λ rows row. row ≡ newest key.now
        (rows number))
        (seen_with (D.seen disk.old) home.now version tables.old) (seen_with (D.seen disk.new) home.now version tables.new)
        result }
{
    match ensure_open(alloc, disk, home, tables, number, placed) {
        Ok(()) => look_into(alloc, disk, tables, number, key),
        Err(refused) => Err(refused),
    }
}

// ---- all of them

/// Of two rows that were met the one with the greater sequence.
#[tactic(auto, unfolding(crate::specs::Searching::better))]
pub(crate) fn better(met: Option<Met>, level: u8, row: Option<Row>) -> Option<Met>
    ensures { result ≡ better met level row }
{
    match (met, row) {
        (met, None) => met,
        (None, Some(row)) => Some(Met { row, level }),
        (Some(met), Some(row)) => {
            if met.row.sequence < row.sequence {
                Some(Met { row, level })
            } else {
                Some(met)
            }
        }
    }
}

/// Whether a row was met at a level above this one.
pub(crate) fn goes_deeper(met: &Option<Met>, level: u8) -> bool
    ensures { result ≡ goes_deeper met.now level }
{
    match met {
        Some(met) => met.level < level,
        None => false,
    }
}

// The row that was met.
fn row_met(met: Option<Met>) -> Option<Row>
    ensures { result ≡ row_met met }
{
    match met {
        Some(met) => Some(met.row),
        None => None,
    }
}

// What a search has met once it has looked at one place more.
fn look_further<D: Disk>(
    alloc: Global,
    disk: &mut D,
    home: &Folder,
    version: &Version,
    tables: &mut OpenTables<D::View>,
    place: Place,
    key: &[u8],
    met: Option<Met>,
) -> Result<Option<Met>, StoreError>
    ensures { Reads (MeetsMore version.now key.now place met)
        (seen_with (D.seen disk.old) home.now version.now tables.old) (seen_with (D.seen disk.new) home.now version.now
        tables.new) result }
{
    if goes_deeper(&met, place.level) {
        return Ok(met);
    }
    match version.get(place.number) {
        Some(placed) => match look_at(alloc, disk, home, tables, place.number, placed, key) {
            Ok(row) => Ok(better(met, place.level, row)),
            Err(refused) => Err(refused),
        },
        None => Ok(met),
    }
}

// What a search meets at these places.
fn meet<D: Disk>(
    alloc: Global,
    disk: &mut D,
    home: &Folder,
    version: &Version,
    tables: &mut OpenTables<D::View>,
    places: &[Place],
    key: &[u8],
) -> Result<Option<Met>, StoreError>
    ensures { Reads (MeetsAll version.now key.now places.now)
        (seen_with (D.seen disk.old) home.now version.now tables.old) (seen_with (D.seen disk.new) home.now version.now
        tables.new) result }
{
    let mut met = None;
    for place in places {
        match look_further(alloc, disk, home, version, tables, *place, key, met) {
            Ok(now) => met = now,
            Err(refused) => return Err(refused),
        }
    }
    Ok(met)
}

/// The newest row that live tables have of a key. Tables are opened as they are looked into, and
/// only those whose ranges of user keys have the key; behind a row that was met, no deeper level is
/// looked at. A view that fails is closed.
pub(crate) fn search<D: Disk>(
    alloc: Global,
    disk: &mut D,
    home: &Folder,
    version: &Version,
    tables: &mut OpenTables<D::View>,
    key: &[u8],
) -> Result<Option<Row>, StoreError>
    ensures { Reads (FindsNewest version.now key.now)
        (seen_with (D.seen disk.old) home.now version.now tables.old) (seen_with (D.seen disk.new) home.now version.now
        tables.new) result }
{
    let Ok(places) = looked_at(alloc, version, key) else {
        return Err(StoreError::NoMemory);
    };
    match meet(alloc, disk, home, version, tables, places.as_slice(), key) {
        Ok(met) => Ok(row_met(met)),
        Err(refused) => Err(refused),
    }
}
