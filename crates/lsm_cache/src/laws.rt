//! Laws of the definitions that contracts cite. The functions do nothing: their contracts are the laws.
ghost use Rattle.std.specs.Prelude.{◌≡◌, ◌≢◌, ℕ, List, Contains};
ghost use Rattle.lsm_frame.specs.Reader.{Stays};
ghost use Rattle.lsm_block.specs.declared.entries.Entry.{Entry};
ghost use Rattle.lsm_table.specs.Tables.{Opened};
ghost use Rattle.lsm_cache.specs.declared.blocks.BlockPlace.{BlockPlace};
ghost use Rattle.lsm_cache.specs.Kept.{Kept, no_blocks, with_block, without_table};
ghost use Rattle.lsm_cache.specs.Getting.{IsBlockOf, AreBlocksOf};

/// Where nothing is kept, what is kept for a table is the table's.
pub fn no_blocks_are_those_of_a_table()
    ensures { (table : Opened) (room : ℕ) → AreBlocksOf table (no_blocks room) }
{}

/// A block of a table may be put for it.
pub fn a_block_may_be_put_for_its_table()
    ensures { (table : Opened) (kept : Kept) (place : ℕ) (block : List Entry) → IsBlockOf table place block → AreBlocksOf table kept
        → AreBlocksOf table (with_block table.properties.number place block kept) }
{}

/// What is put for a table is nothing to a table of another number.
pub fn a_put_block_is_of_no_other_table()
    ensures { (table : Opened) (kept : Kept) (number place : ℕ) (block : List Entry) → number ≢ table.properties.number
        → AreBlocksOf table kept
        → AreBlocksOf table (with_block number place block kept) }
{}

/// Where blocks of one table alone came, what was kept for the others is still theirs.
pub fn blocks_of_one_table_change_no_other()
    ensures { (other : Opened) (before now : Kept) (number : ℕ)
        → ((e : BlockPlace × List Entry) → Contains now.entries e → e.0.number ≢ number → Contains before.entries e)
        → other.properties.number ≢ number → AreBlocksOf other before → AreBlocksOf other now }
{}

/// A table whose view stays has the blocks that it had.
pub fn a_table_that_stays_keeps_its_blocks()
    ensures { (before now : Opened) (kept : Kept) → Stays before.viewed now.viewed → now.index ≡ before.index
        → now.properties ≡ before.properties
        → AreBlocksOf before kept → AreBlocksOf now kept }
{}

/// What is left after a table was forgotten is as it was, for each table.
pub fn forgetting_keeps_what_is_left()
    ensures { (table : Opened) (kept : Kept) (number : ℕ) → AreBlocksOf table kept → AreBlocksOf table (without_table number kept) }
{}

/// Whatever was kept for a table's number, nothing is after it was forgotten: the number may be another table's.
pub fn a_forgotten_number_may_be_given_again()
    ensures { (table : Opened) (kept : Kept) → AreBlocksOf table (without_table table.properties.number kept) }
{}
