//! Laws of the definitions that contracts cite. The functions do nothing: their contracts are the laws.
ghost use Rattle.std.specs.Prelude.{◌≡◌, ℕ, ◌+◌, ◌^◌, ◌<◌, ◌≤◌, List, ◌∷◌, ◌++◌, [], length};
ghost use Rattle.lsm_block.specs.declared.entries.Entry.{Entry};
ghost use Rattle.lsm_block.specs.BlockText.{entries_text, block_text};
ghost use Rattle.lsm_rows.specs.declared.rows.Row.{Row};
ghost use Rattle.lsm_block.specs.TableText.{IsTableText};
ghost use Rattle.lsm_block.specs.Blocks.{IsBlock, IsBlockText, IsMalformed};

/// What was written is a block's text, so a reading of it gives the block and never a refusal.
pub fn written_block_is_read()
    ensures { (es : List Entry) → IsBlock es → IsBlockText (block_text es) es }
{}

/// A text is that of one block, so a reading of it has one answer.
#[tactic(auto, using(crate::proofs::Readings::block_once))]
pub fn a_text_is_of_one_block()
    ensures { (text : List ℕ) (es others : List Entry) → IsBlockText text es → IsBlockText text others → es ≡ others }
{}

/// Bytes that are no block's leave the grammar at one place.
pub fn a_refusal_has_one_place()
    ensures { (text : List ℕ) (place other : ℕ) → IsMalformed text place → IsMalformed text other → place ≡ other }
{}

/// An entry takes its own bytes and 30 more at most. So whoever knows how long keys and values are knows that there is
/// room for one more.
#[tactic(auto, using(crate::proofs::Writings::entry_most))]
pub fn an_entry_takes_thirty_bytes_more_at_most()
    ensures { (es : List Entry) (e : Entry) → length e.key < 2 ^ 64 → length e.value < 2 ^ 64
        → length (entries_text (es ++ e ∷ [])) ≤ length (entries_text es) + 30 + length e.key + length e.value }
{}

/// A table's text is a function of its rows, number and session: two texts of the same are one.
pub fn a_table_has_one_text()
    ensures { (text other : List ℕ) (rows : List Row) (number : ℕ) (session : List ℕ)
        → IsTableText text rows number session → IsTableText other rows number session → text ≡ other }
{}
