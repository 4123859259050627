//! The tables that are open, and the blocks of them that are kept.
ghost use Rattle.std.specs.Prelude.{◌≡◌, None, true, is_some, option_map, OnOk, OnErr, IfOk, IfErr};
ghost use Rattle.std.specs.FinMap as finmap;
ghost use Rattle.lsm_core.specs.Catalogs.{IsWholeView};
ghost use Rattle.lsm_core.specs.Closing.{HasHandedBack};
ghost use Rattle.lsm_core.specs.Reading.{LooksInto, ReadsTable};

use lsm_bytes::NoMemory;
use lsm_cache::{BlockCache, cached_get};
use lsm_disk::{Disk, View};
use lsm_rows::{Row, Rows};
use lsm_table::{Table, TableFault};
use std::alloc::{AllocFailed, Global};
use std::collections::BTreeMap;
use std::marker::Model;

/// Live tables that are open, each by its number, with the data blocks that were read of them.
/// Contracts see what is seen of the tables' views, by the tables' numbers.
#[derive(Drop)]
pub struct OpenTables<V: View> {
    tables: BTreeMap<u64, Table<V>>,
    blocks: BlockCache,
}

impl<V: View> Model for OpenTables<V> {
    ghost use Rattle.std.specs.FinMap as finmap;
    ghost use Rattle.std.specs.Ordering.{nat_cmp};
    ghost use Rattle.lsm_disk.specs.Viewed.{Viewed};
    ghost use Rattle.lsm_refine.specs.Codes.{coded_views};
    ghost use Rattle.lsm_core.specs.Catalogs.{views_of, AreKeptTables};

    ghost Value = { finmap.FinMap nat_cmp Viewed };

    ghost coded = { coded_views };

    ghost view = { λ t. views_of t.tables.entries };

    ghost invariant = { λ t. AreKeptTables t.tables.entries t.blocks };
}

// So many data blocks are kept at most.
const KEPT_BLOCKS: usize = 256;

impl<V: View> OpenTables<V> {
    /// No tables. It takes memory at once for the places of the blocks that are kept.
    pub fn new(alloc: Global) -> Result<Self, NoMemory>
        ensures { IfOk result (λ tables. tables ≡ finmap.empty) }
    {
        let blocks = BlockCache::new(alloc, KEPT_BLOCKS)?;
        Ok(OpenTables {
            tables: BTreeMap::new(alloc),
            blocks,
        })
    }

    /// Whether the table of this number is open.
    pub(crate) fn is_open(&self, number: u64) -> bool
        ensures { result ≡ is_some (finmap.get self.now number) }
    {
        self.tables.contains_key(&number)
    }

    /// Keeps an open table by the number that it says of itself. Where memory is wanting it hands
    /// the view back.
    pub(crate) fn keep(&mut self, table: Table<V>) -> Result<(), V>
        requires free { finmap.get self.old table.properties.number ≡ None }
        requires whole { IsWholeView table.viewed }
        ensures ok { OnOk result (self.new ≡ finmap.insert self.old table.properties.number table.viewed) }
        ensures err { OnErr result (self.new ≡ self.old) }
        ensures handed_back { IfErr result (λ view. V.viewed view ≡ table.viewed) }
    {
        let number = table.properties().number;
        self.blocks.forget(number);
        match self.tables.insert(number, table) {
            Ok(_) => Ok(()),
            Err(AllocFailed { value: (_, table) }) => Err(table.into_view()),
        }
    }

    /// The newest row that the open table of this number has of a key.
    pub(crate) fn get(
        &mut self,
        alloc: Global,
        number: u64,
        key: &[u8],
    ) -> Result<Option<Row>, TableFault>
        requires is_open { is_some (finmap.get self.old number) ≡ true }
        ensures { LooksInto number key.now self.old self.new result }
    {
        match self.tables.get_mut(&number) {
            Some(table) => cached_get(alloc, &mut self.blocks, table, key),
            None => Ok(None),
        }
    }

    /// All rows of the open table of this number, in their order. No block of it is kept.
    pub(crate) fn rows(&mut self, number: u64) -> Result<Rows, TableFault>
        requires is_open { is_some (finmap.get self.old number) ≡ true }
        ensures { ReadsTable (λ rows all. all ≡ rows) number self.old self.new result }
    {
        match self.tables.get_mut(&number) {
            Some(table) => table.rows(None, u32::MAX),
            None => return Err(TableFault::NoMemory),
        }
    }

    /// Takes the table of this number out, and hands its view back.
    pub(crate) fn take(&mut self, number: u64) -> Option<V>
        ensures view { option_map V.viewed result ≡ finmap.get self.old number }
        ensures rest { self.new ≡ finmap.remove self.old number }
    {
        match self.tables.remove(&number) {
            Some(table) => Some(table.into_view()),
            None => None,
        }
    }
}

/// Hands the view of each table to the disk's `close`.
pub(crate) fn close_all<D: Disk>(all: OpenTables<D::View>, disk: &mut D)
    ensures { HasHandedBack all (D.seen disk.old) (D.seen disk.new) }
{
    let OpenTables {
        mut tables,
        blocks: _blocks,
    } = all;
    while let Some((_number, table)) = tables.pop_first() {
        disk.close(table.into_view());
    }
}
