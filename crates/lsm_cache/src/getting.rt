//! Rows out of kept blocks.
ghost use Rattle.std.specs.Prelude.{◌≡◌, ◌≢◌, ℕ, List, None, Some, Ok, IfOk, IfErr, MatchResult, Contains};
ghost use Rattle.std.specs.Map.{lookup};
ghost use Rattle.lsm_io.specs.Causes.{Rose};
ghost use Rattle.lsm_frame.specs.Reader.{Tells, Stays};
ghost use Rattle.lsm_rows.specs.declared.rows.Row.{Row};
ghost use Rattle.lsm_rows.specs.Contents.{newest};
ghost use Rattle.lsm_block.specs.declared.entries.Entry.{Entry};
ghost use Rattle.lsm_block.specs.Seek.{first_of_user};
ghost use Rattle.lsm_table.specs.declared.faults.TableFault.TheVariants.{ReadFault};
ghost use Rattle.lsm_table.specs.DataBlocks.{IsGot, IsNotGot};
ghost use Rattle.lsm_table.specs.Opening.{IsOutside};
ghost use Rattle.lsm_table.specs.Tables.{IsLocated};
ghost use Rattle.lsm_table.specs.WholeTables.{IsTable};
ghost use Rattle.lsm_cache.specs.declared.blocks.BlockPlace.{BlockPlace};
ghost use Rattle.lsm_cache.specs.Kept.{is_at};
ghost use Rattle.lsm_cache.specs.Getting.{AreBlocksOf, IsAnswerOf, IsFromKept, IsFromTable};

use crate::blocks::BlockCache;
use lsm_block::Block;
use lsm_disk::View;
use lsm_rows::Row;
use lsm_table::{Table, TableFault, row_of};
use std::alloc::Global;

/// The newest row that a table has of a user key, as [`Table::get`] gives it. A block that is kept isn't read again,
/// and one that was read is kept; where it finds no room, it is dropped.
pub fn cached_get<V: View>(
    alloc: Global,
    cache: &mut BlockCache,
    table: &mut Table<V>,
    key: &[u8],
) -> Result<Option<Row>, TableFault>
    ensures ok { AreBlocksOf table.old cache.old → IfOk result
        (λ row. (text : List ℕ) → Tells table.old.viewed text → IsGot text table.old.index key.now row) }
    ensures err { IfErr result (λ e. (text : List ℕ) → Tells table.old.viewed text → IsNotGot text table.old.index key.now e) }
    ensures whole { AreBlocksOf table.old cache.old → (text : List ℕ) (rows : List Row) (number : ℕ) (session : List ℕ)
        → Tells table.old.viewed text → IsTable text rows number session
        → MatchResult result (λ row. row ≡ newest key.now rows) IsOutside }
    ensures cause { IfErr result (λ e. e ≡ ReadFault → Rose table.old.viewed.faults table.new.viewed.faults) }
    ensures view { Stays table.old.viewed table.new.viewed }
    ensures index { table.new.index ≡ table.old.index }
    ensures properties { table.new.properties ≡ table.old.properties }
    ensures outside { first_of_user key.now table.old.index ≡ None
        → (result ≡ Ok None) × (table.new ≡ table.old) × (cache.new ≡ cache.old) }
    ensures kept { (place : ℕ) (block : List Entry) → IsLocated key.now table.old.index (Some place)
        → lookup (is_at table.old.properties.number place) cache.old.entries ≡ Some block
        → IsFromKept place block key.now table.old cache.old table.new cache.new result }
    ensures read { (place : ℕ) → IsLocated key.now table.old.index (Some place)
        → lookup (is_at table.old.properties.number place) cache.old.entries ≡ None
        → IsFromTable place key.now table.old cache.old cache.new result }
    ensures blocks { AreBlocksOf table.old cache.old → AreBlocksOf table.new cache.new }
    ensures others { (e : BlockPlace × List Entry) → Contains cache.new.entries e → e.0.number ≢ table.old.properties.number
        → Contains cache.old.entries e }
{
    let Some(place) = table.locate(key) else {
        return Ok(None);
    };
    let number = table.properties().number;
    if let Some(block) = cache.get(number, place) {
        return answer_of(alloc, block, key);
    }
    let read = table.block(place)?;
    let answer = answer_of(alloc, &read, key);
    let _ = cache.put(number, place, read);
    answer
}

// What a block has of a key.
fn answer_of(alloc: Global, block: &Block, key: &[u8]) -> Result<Option<Row>, TableFault>
    ensures { IsAnswerOf block.now key.now result }
{
    Ok(row_of(alloc, block, key)?)
}
