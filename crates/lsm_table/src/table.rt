//! A table that is open to be read.
ghost use Rattle.std.specs.Prelude.{◌≡◌, ℕ, List, length, IfOk, IfErr, MatchResult};
ghost use Rattle.lsm_rows.specs.declared.rows.Row.{Row};
ghost use Rattle.lsm_rows.specs.Contents.{newest};
ghost use Rattle.lsm_block.specs.declared.entries.Entry.{Entry};
ghost use Rattle.lsm_block.specs.TableText.{data_blocks, index_from};
ghost use Rattle.lsm_io.specs.Causes.{Rose};
ghost use Rattle.lsm_frame.specs.Reader.{Tells, Stays};
ghost use Rattle.lsm_table.specs.declared.faults.TableFault.TheVariants.{ReadFault};
ghost use Rattle.lsm_table.specs.Opening.{Opens, IsRefused, IsOutside};
ghost use Rattle.lsm_table.specs.DataBlocks.{IsDataBlock, IsBlockRefused, IsGot, IsNotGot};
ghost use Rattle.lsm_table.specs.Tables.{Shows, IsLocated};
ghost use Rattle.lsm_table.specs.WholeTables.{IsTable, StandsAt};

use crate::faults::{TableError, TableFault};
use crate::index::{block_place, len_at};
use crate::opening::{read_block, read_ends};
use crate::parts::Properties;
use crate::searching::row_of;
use lsm_block::Block;
use lsm_bytes::NoMemory;
use lsm_disk::View;
use lsm_rows::Row;
use std::alloc::Global;
use std::marker::Model;

/// A table that is open, with its index in memory. Contracts see what is seen of its view, its properties and the
/// entries of its index.
#[derive(Drop)]
pub struct Table<V: View> {
    pub(crate) alloc: Global,
    pub(crate) view: V,
    properties: Properties,
    pub(crate) index: Block,
}

impl<V: View> Model for Table<V> {
    ghost use Rattle.lsm_table.specs.Tables.{Opened, AreParts};

    ghost Value = { Opened };

    ghost view = { λ t. record { viewed = V.viewed t.view; properties = t.properties; index = t.index } };

    ghost invariant = { λ t. AreParts (V.viewed t.view) t.properties t.index };
}

impl<V: View> Table<V> {
    /// Opens the table that a view shows: its footer is read, then its index, then its properties. Memory is taken for
    /// parts that the view has, and the index stays in memory. A refusal hands the view back.
    pub fn open(alloc: Global, view: V) -> Result<Table<V>, TableError<V>>
        ensures opened { IfOk result (λ table. (text : List ℕ) → Tells (V.viewed view) text → Opens text table.properties table.index) }
        ensures refused { IfErr result (λ error. (text : List ℕ) → Tells (V.viewed view) text → IsRefused text error.why) }
        ensures whole { (text : List ℕ) (rows : List Row) (number : ℕ) (session : List ℕ) → Tells (V.viewed view) text
            → IsTable text rows number session
            → MatchResult result (λ table. (table.properties ≡ record { number = number; session = session; rows = length rows })
            × (table.index ≡ index_from 0 (data_blocks rows))) (λ error. IsOutside error.why) }
        ensures kept { IfOk result (λ table. Stays (V.viewed view) table.viewed) }
        ensures handed_back { IfErr result (λ error. Stays (V.viewed view) (V.viewed error.view)) }
        ensures cause { IfErr result (λ error. error.why ≡ ReadFault → Rose (V.viewed view).faults (V.viewed error.view).faults) }
    {
        let mut view = view;
        match read_ends(alloc, &mut view) {
            Ok((properties, index)) => Ok(Table {
                alloc,
                view,
                properties,
                index,
            }),
            Err(why) => Err(TableError { why, view }),
        }
    }

    /// What the table says of itself.
    pub fn properties(&self) -> Properties
        ensures properties { result ≡ self.now.properties }
        ensures shows { Shows self.now.viewed self.now.properties self.now.index }
    {
        self.properties
    }

    /// The place of the first data block whose last user key is at or past the key, in bytes from the table's start. It
    /// takes no memory and reads nothing.
    pub fn locate(&self, key: &[u8]) -> Option<u64>
        ensures place { IsLocated key.now self.now.index result }
        ensures shows { Shows self.now.viewed self.now.properties self.now.index }
    {
        let (_, value) = self.index.seek_user(key)?;
        let (place, _) = block_place(value)?;
        Some(place)
    }

    /// Reads the data block at a place that `locate` gave. A place at which the index tells no block is `Malformed`.
    /// Where the places ascend, as in a table of ours, it looks at about log2 of the index's entries to find the place.
    pub fn block(&mut self, place: u64) -> Result<Block, TableFault>
        ensures ok { IfOk result (λ block. (text : List ℕ) → Tells self.old.viewed text → IsDataBlock text self.old.index place block) }
        ensures err { IfErr result (λ e. (text : List ℕ) → Tells self.old.viewed text → IsBlockRefused text self.old.index place e) }
        ensures whole { (text : List ℕ) (rows : List Row) (number : ℕ) (session : List ℕ) (block : List Entry)
            → Tells self.old.viewed text → IsTable text rows number session
            → StandsAt (data_blocks rows) place block → MatchResult result (λ got. got ≡ block) IsOutside }
        ensures view { Stays self.old.viewed self.new.viewed }
        ensures cause { IfErr result (λ e. e ≡ ReadFault → Rose self.old.viewed.faults self.new.viewed.faults) }
        ensures index { self.new.index ≡ self.old.index }
        ensures properties { self.new.properties ≡ self.old.properties }
    {
        match len_at(self.index.entries(), place) {
            Some(len) => read_block(self.alloc, &mut self.view, place, len),
            None => Err(TableFault::Malformed { place }),
        }
    }

    /// The newest row that the table has of a user key, as `locate`, `block` and `row_of` give it in turn. Where the view
    /// tells a whole table, that is the newest of its rows, and None exactly where no row has the key.
    #[tactic(auto, unfolding(crate::specs::Opening::IsOutside))]
    pub fn get(&mut self, key: &[u8]) -> Result<Option<Row>, TableFault>
        ensures ok { IfOk result (λ row. (text : List ℕ) → Tells self.old.viewed text → IsGot text self.old.index key.now row) }
        ensures err { IfErr result (λ e. (text : List ℕ) → Tells self.old.viewed text → IsNotGot text self.old.index key.now e) }
        ensures whole { (text : List ℕ) (rows : List Row) (number : ℕ) (session : List ℕ) → Tells self.old.viewed text
            → IsTable text rows number session
            → MatchResult result (λ row. row ≡ newest key.now rows) IsOutside }
        ensures view { Stays self.old.viewed self.new.viewed }
        ensures cause { IfErr result (λ e. e ≡ ReadFault → Rose self.old.viewed.faults self.new.viewed.faults) }
        ensures index { self.new.index ≡ self.old.index }
        ensures properties { self.new.properties ≡ self.old.properties }
    {
        let Some(place) = self.locate(key) else {
            return Ok(None);
        };
        let block = self.block(place)?;
        match row_of(self.alloc, &block, key) {
            Ok(row) => Ok(row),
            Err(NoMemory) => Err(TableFault::NoMemory),
        }
    }

    /// Hands the view back.
    pub fn into_view(self) -> V
        ensures { V.viewed result ≡ self.viewed }
    {
        self.view
    }
}
