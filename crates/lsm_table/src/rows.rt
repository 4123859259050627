//! The rows of a table in runs, each after a key, and those of one block.
ghost use Rattle.std.specs.Prelude.{◌≡◌, ◌≤◌, ℕ, List, All, ◌++◌, take, length, map, flat_map, IfOk, IfErr, OnOk, MatchResult};
ghost use Rattle.std.specs.Option.{ForSome, option_map};
ghost use Rattle.lsm_io.specs.Causes.{Rose};
ghost use Rattle.lsm_frame.specs.Reader.{Tells, Stays};
ghost use Rattle.lsm_rows.specs.declared.rows.Row.{Row};
ghost use Rattle.lsm_block.specs.declared.entries.Entry.{Entry};
ghost use Rattle.lsm_block.specs.Blocks.{IsKey, AreEntries};
ghost use Rattle.lsm_block.specs.Runs.{rows_after};
ghost use Rattle.lsm_table.specs.declared.faults.TableFault.TheVariants.{ReadFault};
ghost use Rattle.lsm_table.specs.Opening.{TellsBlock, IsOutside};
ghost use Rattle.lsm_table.specs.Rows.{entries_after, IsCutAfter, AreOfBlocks, row_at};
ghost use Rattle.lsm_table.specs.WholeTables.{IsTable};

use crate::faults::TableFault;
use crate::searching::value_of;
use crate::table::Table;
use crate::walk::read_told;
use lsm_block::{Block, Entry};
use lsm_bytes::{Bytes, NoMemory};
use lsm_disk::View;
use lsm_rows::{InternalParts, Row, Rows, compare_internal_keys, parse_internal_key};
use std::alloc::Global;
use std::cmp::Ordering;

impl<V: View> Table<V> {
    /// The next rows after an internal key, which has 8 bytes at least, in the order of internal keys; where there is
    /// none the first. There are at most so many, and none exactly where none is left or the count is 0. It keeps these
    /// rows and one block, and reads only blocks that have some of them.
    pub fn rows(&mut self, after: Option<&[u8]>, count: u32) -> Result<Rows, TableFault>
        requires { ForSome (option_map (λ key. key.now) after) (λ key. 8 ≤ length key) }
        ensures whole { (text : List ℕ) (rows : List Row) (number : ℕ) (session : List ℕ) → Tells self.old.viewed text
            → IsTable text rows number session
            → MatchResult result (λ run. run ≡ take count (rows_after (option_map (λ key. key.now) after.entry) rows)) IsOutside }
        ensures view { Stays self.old.viewed self.new.viewed }
        ensures cause { IfErr result (λ e. e ≡ ReadFault → Rose self.old.viewed.faults self.new.viewed.faults) }
        ensures index { self.new.index ≡ self.old.index }
        ensures properties { self.new.properties ≡ self.old.properties }
    {
        let index = self.index.entries();
        let first = count_up_to(index, after);
        read_rows(
            self.alloc,
            &mut self.view,
            index.split_at(first).1,
            after,
            count as usize,
        )
    }
}

// How many entries don't come after a key, and stand before all that do.
fn count_up_to(entries: &[Entry], after: Option<&[u8]>) -> usize
    requires entries { AreEntries entries.now }
    requires long { ForSome (option_map (λ key. key.now) after) (λ key. 8 ≤ length key) }
    ensures { IsCutAfter (option_map (λ key. key.now) after.entry) entries.now result }
{
    let Some(key) = after else {
        return 0;
    };
    let mut low = 0;
    let mut high = entries.len();
    while low < high {
        let middle = low + (high - low) / 2;
        if compare_internal_keys(key, entries[middle].key.as_slice()) == Ordering::Less {
            high = middle;
        } else {
            low = middle + 1;
        }
    }
    low
}

// The first entries after a key, so many at most.
fn first_after<'a>(entries: &'a [Entry], after: Option<&[u8]>, most: usize) -> &'a [Entry]
    requires entries { AreEntries entries.now }
    requires long { ForSome (option_map (λ key. key.now) after) (λ key. 8 ≤ length key) }
    ensures { result.now ≡ take most (entries_after (option_map (λ key. key.now) after.entry) entries.now) }
{
    let past = entries.split_at(count_up_to(entries, after)).1;
    past.split_at(most.min(past.len())).0
}

// The row that an entry is of.
fn row_at(alloc: Global, entry: &Entry) -> Result<Row, NoMemory>
    requires { IsKey entry.now.key }
    ensures { IfOk result (λ row. row ≡ row_at entry.now) }
{
    let Some(
        InternalParts {
            key,
            sequence,
            kind,
        },
    ) = parse_internal_key(entry.key.as_slice())
    else {
        unreachable!()
    };
    let key = Bytes::from_slice(alloc, key)?;
    let value = value_of(alloc, kind, entry.value.as_slice())?;
    Ok(Row {
        key,
        sequence,
        value,
    })
}

/// The rows that a block's entries are of, in their order. The block may be one of a table that isn't whole.
pub fn rows_of(alloc: Global, block: &Block) -> Result<Rows, NoMemory>
    ensures { IfOk result (λ rows. rows ≡ map row_at block.now) }
{
    let mut rows = Rows::new(alloc);
    push_rows(alloc, &mut rows, block.entries())?;
    Ok(rows)
}

// Adds the rows that these entries are of.
fn push_rows(alloc: Global, rows: &mut Rows, entries: &[Entry]) -> Result<(), NoMemory>
    requires { All (λ e. IsKey e.key) entries.now }
    ensures { OnOk result (rows.new ≡ rows.old ++ map row_at entries.now) }
{
    for entry in entries {
        let row = row_at(alloc, entry)?;
        rows.push(row)?;
    }
    Ok(())
}

// The first rows after a key, so many at most, in the blocks that these entries of an index tell.
fn read_rows<V: View>(
    alloc: Global,
    view: &mut V,
    index: &[Entry],
    after: Option<&[u8]>,
    count: usize,
) -> Result<Rows, TableFault>
    requires places { All TellsBlock index.now }
    requires long { ForSome (option_map (λ key. key.now) after) (λ key. 8 ≤ length key) }
    ensures ok { IfOk result (λ run. (text : List ℕ) (blocks : List (List Entry)) → Tells (V.viewed view.old) text
        → AreOfBlocks text index.now blocks
        → run ≡ map row_at (take count (entries_after (option_map (λ key. key.now) after.entry) (flat_map (λ es. es) blocks)))) }
    ensures err { IfErr result (λ e. (text : List ℕ) (blocks : List (List Entry)) → Tells (V.viewed view.old) text
        → AreOfBlocks text index.now blocks → IsOutside e) }
    ensures view { Stays (V.viewed view.old) (V.viewed view.new) }
    ensures cause { IfErr result (λ e. e ≡ ReadFault → Rose (V.viewed view.old).faults (V.viewed view.new).faults) }
{
    let mut rows = Rows::new(alloc);
    for entry in index {
        let left = count - rows.len();
        if left == 0 {
            return Ok(rows);
        }
        let block = read_told(alloc, view, entry)?;
        push_rows(alloc, &mut rows, first_after(block.entries(), after, left))?;
    }
    Ok(rows)
}
