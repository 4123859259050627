//! Frozen rows, and how far the table came that they become.
ghost use Rattle.std.specs.Prelude.{◌≡◌, ◌↔◌, ◌≤◌, [], List, None, Some, IsTrue, length, option_map};
ghost use Rattle.lsm_rows.specs.declared.rows.Row.{Row};
ghost use Rattle.lsm_version.specs.declared.tables.TableInfo.{TableInfo};
ghost use Rattle.lsm_disk.specs.Answers.{HasDiskCause};
ghost use Rattle.lsm_flush.specs.Writing.{Written, begun, whole, IsWholeTable};
ghost use Rattle.lsm_flush.specs.Frozen.{rows_of, number_of, whole_table, WritesOn};

use crate::writing::Writing;
use lsm_disk::{Disk, DiskRefusal};
use lsm_memtable::MemTable;
use lsm_names::{Path, Session};
use lsm_version::TableInfo;
use std::alloc::Global;
use std::marker::Model;
use std::mem::replace;

/// The rows in memory, or the table that they are written to.
#[derive(Drop)]
pub enum Held {
    Rows(MemTable),
    Table(Writing),
}

/// Rows that no new ones join. Contracts see them, or the table that they are written to, once it is begun.
#[derive(Drop)]
pub struct Frozen {
    held: Held,
}

impl Model for Frozen {
    ghost use Rattle.lsm_flush.specs.declared.frozen.Held.{Held};

    ghost Value = { Held };

    ghost view = { λ f. f.held };
}

impl Frozen {
    ghost use Rattle.lsm_flush.specs.declared.frozen.Held.TheVariants as held;

    /// These rows, of which none are written. It takes no memory.
    pub fn new(rows: MemTable) -> Self
        ensures { result ≡ held.Rows rows }
    {
        Frozen {
            held: Held::Rows(rows),
        }
    }

    /// Holds these rows from now on, and lets the earlier ones go. It takes no memory.
    pub fn hold(&mut self, rows: MemTable)
        ensures { self.new ≡ held.Rows rows }
    {
        self.held = Held::Rows(rows);
    }

    /// The rows.
    pub fn rows(&self) -> &MemTable
        ensures { result.now ≡ rows_of self.now }
    {
        match &self.held {
            Held::Rows(rows) => rows,
            Held::Table(table) => table.rows(),
        }
    }

    /// Whether there are no rows. No table is begun then.
    pub fn is_empty(&self) -> bool
        ensures rows { IsTrue result ↔ (rows_of self.now ≡ []) }
        ensures idle { IsTrue result ↔ (self.now ≡ held.Rows []) }
    {
        match &self.held {
            Held::Rows(rows) => rows.is_empty(),
            Held::Table(table) => table.is_empty(),
        }
    }

    /// The number of the table that is begun.
    pub fn number(&self) -> Option<u64>
        ensures { result ≡ number_of self.now }
    {
        match &self.held {
            Held::Rows(_) => None,
            Held::Table(table) => Some(table.number()),
        }
    }

    /// What an edit says of the table, once its file is whole.
    pub fn whole(&self) -> Option<&TableInfo>
        ensures whole { option_map (λ info. info.now) result ≡ whole_table self.now }
        ensures is { (w : Written) (info : TableInfo) → self.now ≡ held.Table w → whole w ≡ Some info
            → IsWholeTable w.rows w.number w.session info }
    {
        match &self.held {
            Held::Rows(_) => None,
            Held::Table(table) => table.whole(),
        }
    }

    /// Begins the table of the rows, one at least, with its number and the session that writes it. Its file is empty. It
    /// takes no memory.
    pub fn begin(&mut self, alloc: Global, number: u64, session: Session)
        requires some { 1 ≤ length (rows_of self.old) }
        ensures { (rows : List Row) → self.old ≡ held.Rows rows → self.new ≡ held.Table (begun rows number session) }
    {
        match replace(&mut self.held, Held::Rows(MemTable::new(alloc))) {
            Held::Rows(rows) => {
                self.held = Held::Table(Writing::new(alloc, rows, number, session));
            }
            Held::Table(table) => self.held = Held::Table(table),
        }
    }

    /// Adds the next rows to the file of the table, which is begun and isn't whole. It takes one call of the disk. After want
    /// of memory it may be asked again.
    pub fn write_on<D: Disk>(&mut self, disk: &mut D, path: &Path) -> Result<(), DiskRefusal>
        requires { whole_table self.old ≡ None }
        ensures did { (w : Written) → self.old ≡ held.Table w
            → WritesOn path.now (D.seen disk.old) (D.seen disk.new) w self.new result }
        ensures cause { HasDiskCause (D.seen disk.old) (D.seen disk.new) result }
    {
        match &mut self.held {
            Held::Rows(_) => Ok(()),
            Held::Table(table) => table.write_on(disk, path),
        }
    }
}
