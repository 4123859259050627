//! The data blocks of a table in the order of its index, one by one, whatever each of them is.
ghost use Rattle.std.specs.Prelude.{◌≡◌, ◌<◌, ℕ, List, Some, length, slice_get, IfOk, IfErr, MatchResult};
ghost use Rattle.lsm_io.specs.Causes.{Rose};
ghost use Rattle.lsm_frame.specs.Reader.{Tells, Stays};
ghost use Rattle.lsm_rows.specs.declared.rows.Row.{Row};
ghost use Rattle.lsm_block.specs.TableText.{data_blocks};
ghost use Rattle.lsm_table.specs.declared.faults.TableFault.TheVariants.{ReadFault};
ghost use Rattle.lsm_table.specs.Opening.{TellsBlock, IsOutside};
ghost use Rattle.lsm_table.specs.DataBlocks.{StoresBlock, StoresFault, IsNthBlock, IsNthFault};
ghost use Rattle.lsm_table.specs.Tables.{Shows};
ghost use Rattle.lsm_table.specs.WholeTables.{IsTable};

use crate::faults::TableFault;
use crate::index::block_place;
use crate::opening::read_block;
use crate::table::Table;
use lsm_block::{Block, Entry};
use lsm_disk::View;
use std::alloc::Global;

impl<V: View> Table<V> {
    /// The number of data blocks that the index tells. It reads nothing.
    pub fn blocks(&self) -> usize
        ensures count { result ≡ length self.now.index }
        ensures shows { Shows self.now.viewed self.now.properties self.now.index }
    {
        self.index.entries().len()
    }

    /// Reads the data block of this number, counted from 0 in the order of the index. A fault says what is wrong with this
    /// block alone: those before it and behind it may be whole. Memory is taken for one block.
    pub fn nth_block(&mut self, nth: usize) -> Result<Block, TableFault>
        requires { nth < length self.old.index }
        ensures ok { IfOk result (λ block. (text : List ℕ) → Tells self.old.viewed text → IsNthBlock text self.old.index nth block) }
        ensures err { IfErr result (λ e. (text : List ℕ) → Tells self.old.viewed text → IsNthFault text self.old.index nth e) }
        ensures whole { (text : List ℕ) (rows : List Row) (number : ℕ) (session : List ℕ) → Tells self.old.viewed text
            → IsTable text rows number session
            → MatchResult result (λ block. slice_get (data_blocks rows) nth ≡ Some block) IsOutside }
        ensures view { Stays self.old.viewed self.new.viewed }
        ensures cause { IfErr result (λ e. e ≡ ReadFault → Rose self.old.viewed.faults self.new.viewed.faults) }
        ensures index { self.new.index ≡ self.old.index }
        ensures properties { self.new.properties ≡ self.old.properties }
    {
        read_told(self.alloc, &mut self.view, &self.index.entries()[nth])
    }
}

/// The block that an entry of an index tells.
pub(crate) fn read_told<V: View>(
    alloc: Global,
    view: &mut V,
    entry: &Entry,
) -> Result<Block, TableFault>
    requires { TellsBlock entry.now }
    ensures ok { IfOk result (λ block. (text : List ℕ) → Tells (V.viewed view.old) text → StoresBlock text entry.now block) }
    ensures err { IfErr result (λ e. (text : List ℕ) → Tells (V.viewed view.old) text → StoresFault text entry.now e) }
    ensures view { Stays (V.viewed view.old) (V.viewed view.new) }
    ensures cause { IfErr result (λ e. e ≡ ReadFault → Rose (V.viewed view.old).faults (V.viewed view.new).faults) }
{
    let Some((place, len)) = block_place(entry.value.as_slice()) else {
        unreachable!()
    };
    read_block(alloc, view, place, len)
}
