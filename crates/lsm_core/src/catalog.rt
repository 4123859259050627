//! The catalog of a store.
ghost use Rattle.std.specs.Prelude.{◌≡◌, ◌==◌, ℕ, [], if◌then◌else◌, None, IfOk, is_some};
ghost use Rattle.std.specs.FinMap as finmap;
ghost use Rattle.lsm_version.specs.declared.tables.TableInfo.{TableInfo};
ghost use Rattle.lsm_version.specs.Edits.{IsFileNumber, IsTable};
ghost use Rattle.lsm_version.specs.Orders.{AreLevels};
ghost use Rattle.lsm_refine.specs.Flushed.{flush_edit};
ghost use Rattle.lsm_refine.specs.WholeEdits.{AreInRange};
ghost use Rattle.lsm_core.specs.Catalogs.{HoldNoCurrent, AreOfLive, AreStill, HasTableMore};
ghost use Rattle.lsm_core.specs.Looking.{AreOpened};
ghost use Rattle.lsm_core.specs.Catalogs.{kept_with};
ghost use Rattle.lsm_core.specs.Closing.{HasHandedBack};
ghost use Rattle.lsm_core.specs.Obsolete.{are_holding};
ghost use Rattle.lsm_core.specs.Reading.{Reads, seen_of};
ghost use Rattle.lsm_folder.specs.Parts.{rows_of_tables};
ghost use Rattle.lsm_core.specs.Searching.{FindsNewest, looked_at};
ghost use Rattle.lsm_refine.specs.Calls.{is_own_kept};
ghost use Rattle.lsm_refine.specs.Caused.{kept_pin_of, unpinned};

use crate::looking::{Tables, open_looked};
use crate::pins::{Pin, are_holding, has_own};
use crate::scanning::rows_of_tables;
use crate::searching::search;
use crate::tables::{OpenTables, close_all};
use lsm_bytes::NoMemory;
use lsm_disk::{Disk, View};
use lsm_model::StoreError;
use lsm_names::{FileName, Folder};
use lsm_rows::{Row, Rows};
use lsm_version::{ApplyError, Edit, Version};
use std::alloc::Global;
use std::marker::Model;

/// What a store keeps of itself beside its disk, its last log, its manifest and its rows in memory:
/// the version with the tables that are open, from which number on logs are needed and up to which
/// sequence rows are in tables, the pins, and how often the deletion of files is disabled.
///
/// Contracts see it as a part of all that a store keeps. What the store keeps elsewhere is empty or
/// 0 there: rows, logs, the manifest, the next number and the known names. So is what may be under
/// way, a flush, a compaction or a restore, since there is none yet.
#[derive(Drop)]
pub struct Catalog<V: View> {
    version: Version,
    tables: OpenTables<V>,
    log: u64,
    last: u64,
    pins: Vec<Pin>,
    greatest_pin: u64,
    disables: u32,
}

impl<V: View> Model for Catalog<V> {
    ghost use Rattle.lsm_refine.specs.Kept.{Kept};
    ghost use Rattle.lsm_refine.specs.Codes.{coded_kept};
    ghost use Rattle.lsm_core.specs.Catalogs.{IsCatalog, kept_with};

    ghost Value = { Kept };

    ghost coded = { coded_kept };

    ghost view = { λ c. kept_with c.version c.tables c.log c.last c.pins.items c.greatest_pin c.disables };

    ghost invariant = { λ c. IsCatalog c.version c.tables c.pins.items c.greatest_pin };
}

impl<V: View> Catalog<V> {
    /// A catalog of these live tables, of which some are open, with no pin: logs are needed from the number `log` on, and
    /// rows up to the sequence `last` are in tables.
    pub fn new(alloc: Global, version: Version, tables: OpenTables<V>, log: u64, last: u64) -> Self
        requires range { AreInRange version }
        requires open { AreOfLive version tables }
        ensures { result ≡ kept_with version tables log last [] 0 0 }
    {
        Catalog {
            version,
            tables,
            log,
            last,
            pins: Vec::new(alloc),
            greatest_pin: 0,
            disables: 0,
        }
    }

    /// Ends the pin of this number, where one is there and its caller's own, and says whether it is
    /// so. It takes no memory.
    pub fn unpin(&mut self, number: u64) -> bool
        ensures own { result ≡ is_own_kept (kept_pin_of number self.old.pins) }
        ensures kept { self.new ≡ (if result then unpinned number self.old else self.old) }
    {
        if !has_own(&self.pins, number) {
            return false;
        }
        self.pins.retain(move |pin| pin.number() != number);
        true
    }

    /// The live tables with their levels.
    pub fn version(&self) -> &Version
        ensures tables { result.now ≡ self.now.version }
        ensures range { AreInRange self.now.version }
        ensures pins { HoldNoCurrent self.now.pins }
        ensures open { AreOfLive self.now.version self.now.views }
    {
        &self.version
    }

    /// The version with the table that a flush's edit adds, whose number no live table has. This
    /// catalog stays as it was. Whatever refuses the edit is told as want of memory.
    pub fn with_table(&self, alloc: Global, edit: &Edit) -> Result<Version, NoMemory>
        ensures { (info : TableInfo) (log next last : ℕ) → edit.now ≡ flush_edit info log next last
            → finmap.get self.now.version info.number ≡ None → IsFileNumber info.number → IsTable info
            → IfOk result (HasTableMore self.now.version info) }
    {
        match self.version.apply(alloc, edit) {
            Ok(version) => Ok(version),
            // The contract says nothing of other edits, which may be refused for other reasons.
            Err(ApplyError::NoMemory | ApplyError::BadEdit { .. } | ApplyError::BadLevels { .. }) =>
                { Err(NoMemory) }
        }
    }

    /// From now on these tables are live, logs are needed from this number on, and rows up to this
    /// sequence are in tables. It takes no memory.
    pub fn install(&mut self, version: Version, log: u64, last: u64)
        requires range { AreInRange version }
        requires still { AreStill self.old.version version }
        ensures { self.new ≡ record self.old { version = version; log = log; last = last } }
    {
        self.version = version;
        self.log = log;
        self.last = last;
    }

    /// From this number on logs are needed.
    pub fn log(&self) -> u64
        ensures { result ≡ self.now.log }
    {
        self.log
    }

    /// Whether the table of this number is live.
    pub fn has_table(&self, number: u64) -> bool
        ensures { result ≡ is_some (finmap.get self.now.version number) }
    {
        self.version.get(number).is_some()
    }

    /// Whether a pin holds the file of this name. Its time grows with the number of pinned files.
    pub fn is_pinned(&self, name: FileName) -> bool
        ensures { result ≡ are_holding self.now.pins name }
    {
        are_holding(&self.pins, name)
    }

    /// Whether no table is live.
    pub fn has_no_table(&self) -> bool
        ensures { result ≡ (finmap.len self.now.version == 0) }
    {
        self.version.len() == 0
    }

    /// How often the deletion of files is disabled.
    pub fn disables(&self) -> u32
        ensures { result ≡ self.now.disables }
    {
        self.disables
    }

    /// From now on the deletion of files is disabled so often.
    pub fn set_disables(&mut self, count: u32)
        ensures { self.new ≡ record self.old { disables = count } }
    {
        self.disables = count;
    }
}

/// The newest row that the live tables have of a key, as [`search`] finds it.
pub fn find_row<D: Disk>(
    alloc: Global,
    disk: &mut D,
    home: &Folder,
    catalog: &mut Catalog<D::View>,
    key: &[u8],
) -> Result<Option<Row>, StoreError>
    ensures { Reads (FindsNewest catalog.old.version key.now) (seen_of (D.seen disk.old) home.now catalog.old)
        (seen_of (D.seen disk.new) home.now catalog.new) result }
{
    search(
        alloc,
        disk,
        home,
        &catalog.version,
        &mut catalog.tables,
        key,
    )
}

/// All rows of the live tables, as [`rows_of_tables`] reads them.
pub fn read_rows<D: Disk>(
    alloc: Global,
    disk: &mut D,
    home: &Folder,
    catalog: &mut Catalog<D::View>,
) -> Result<Rows, StoreError>
    ensures { Reads (λ rows all. all ≡ rows_of_tables catalog.old.version rows) (seen_of (D.seen disk.old) home.now catalog.old)
        (seen_of (D.seen disk.new) home.now catalog.new) result }
{
    rows_of_tables(alloc, disk, home, &catalog.version, &mut catalog.tables)
}

/// Opens the live tables that may have a key, each with a view of its own. Where it is refused,
/// none of them stays open.
pub fn open_tables<D: Disk>(
    alloc: Global,
    disk: &mut D,
    home: &Folder,
    catalog: &Catalog<D::View>,
    key: &[u8],
) -> Result<Tables<D::View>, StoreError>
    ensures { Reads (λ rows tables. AreLevels catalog.now.version → AreOpened rows (looked_at catalog.now.version key.now)
        tables)
        (seen_of (D.seen disk.old) home.now catalog.now) (seen_of (D.seen disk.new) home.now catalog.now) result }
{
    open_looked(alloc, disk, home, &catalog.version, key)
}

/// Ends a catalog: the view of each open table goes to the disk's `close`.
pub fn close_tables<D: Disk>(catalog: Catalog<D::View>, disk: &mut D)
    ensures { HasHandedBack catalog.views (D.seen disk.old) (D.seen disk.new) }
{
    let Catalog {
        version: _version,
        tables,
        log: _,
        last: _,
        pins: _pins,
        greatest_pin: _,
        disables: _,
    } = catalog;
    close_all(tables, disk);
}
