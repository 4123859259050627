//! Laws of the definitions that contracts cite. The functions do nothing: their contracts are the laws.
ghost use Rattle.std.specs.Prelude.{◌≡◌, ◌+◌, ◌^◌, ◌<◌, ◌↔◌, ℕ, List, ◌∷◌, ◌++◌, [], length, map, Option, Ok};
ghost use Rattle.std.specs.List.{flat_map};
ghost use Rattle.lsm_rows.specs.declared.rows.Row.{Row};
ghost use Rattle.lsm_rows.specs.Contents.{newest};
ghost use Rattle.lsm_block.specs.declared.entries.Entry.{Entry};
ghost use Rattle.lsm_block.specs.TableText.{AreTableRows, row_entry, data_blocks, index_from, stored, footer_text};
ghost use Rattle.lsm_table.specs.declared.faults.TableFault.{TableFault};
ghost use Rattle.lsm_table.specs.declared.parts.Properties.{Properties};
ghost use Rattle.lsm_table.specs.Opening.{contents_in, footer_in, Opens, IsRefused, IsOutside};
ghost use Rattle.lsm_table.specs.DataBlocks.{IsDataBlock, IsGot, IsNotGot};
ghost use Rattle.lsm_table.specs.Building.{Built, IsBuilt, IsBehind, IsFinished};
ghost use Rattle.lsm_table.specs.WholeTables.{IsTable, StandsAt};

/// A row whose user key is past those of the rows so far may come into their table.
pub fn a_row_with_a_later_key_may_be_added()
    ensures { (v : Built) (rows : List Row) (row : Row) (handed : List ℕ) → IsBuilt v rows handed
        → AreTableRows (rows ++ row ∷ []) → IsBehind v row }
{}

/// What was stored is read back, wherever it stands.
pub fn stored_contents_are_read()
    ensures { (place : ℕ) (contents : List ℕ) → contents_in place (stored contents) ≡ Ok contents }
{}

/// A footer behind an index and properties that lie in turn tells where they are.
pub fn a_footer_is_read()
    ensures { (index len properties place : ℕ) → index + len + 5 ≡ properties → properties + 41 ≡ place → place < 2 ^ 64
        → footer_in place (footer_text index len properties) ≡ Ok (record { index = index; len = len; properties = properties }) }
{}

/// The entries of a table's data blocks, one block after another, are those of its rows.
pub fn data_blocks_have_the_rows()
    ensures { (rows : List Row) → flat_map (λ (es : List Entry). es) (data_blocks rows) ≡ map row_entry rows }
{}

/// A table's text opens, to what was written.
pub fn a_table_opens()
    ensures { (text : List ℕ) (rows : List Row) (number : ℕ) (session : List ℕ) → IsTable text rows number session
        → Opens text (record { number = number; session = session; rows = length rows }) (index_from 0 (data_blocks rows)) }
{}

/// A text is the table of one list of rows, one number and one session.
pub fn a_text_is_of_one_table()
    ensures { (text : List ℕ) (rows others : List Row) (number other : ℕ) (session name : List ℕ)
        → IsTable text rows number session → IsTable text others other name → (rows ≡ others) × (number ≡ other) × (session ≡ name) }
{}

/// A text opens in one way.
pub fn a_text_opens_in_one_way()
    ensures { (text : List ℕ) (properties other : Properties) (index others : List Entry)
        → Opens text properties index → Opens text other others → (properties ≡ other) × (index ≡ others) }
{}

/// A text that opens is refused for nothing that it says.
pub fn a_text_that_opens_is_not_refused()
    ensures { (text : List ℕ) (properties : Properties) (index : List Entry) (fault : TableFault)
        → Opens text properties index → IsRefused text fault → IsOutside fault }
{}

/// A text is refused in one way, but for faults of the view and want of memory.
pub fn a_text_is_refused_in_one_way()
    ensures { (text : List ℕ) (fault other : TableFault) → IsRefused text fault → IsRefused text other
        → ¬ IsOutside fault → ¬ IsOutside other → fault ≡ other }
{}

/// Where a table's index tells a data block stands one of its blocks, and each of them stands where the index tells it.
pub fn data_blocks_stand_where_the_index_tells()
    ensures { (text : List ℕ) (rows : List Row) (number : ℕ) (session : List ℕ) → IsTable text rows number session
        → (place : ℕ) (block : List Entry) → IsDataBlock text (index_from 0 (data_blocks rows)) place block
        ↔ StandsAt (data_blocks rows) place block }
{}

/// What a table has of a key is the key's newest row, and nothing where no row has the key.
pub fn a_table_has_the_newest_row_of_a_key()
    ensures { (text : List ℕ) (rows : List Row) (number : ℕ) (session : List ℕ) → IsTable text rows number session
        → (key : List ℕ) (row : Option Row) → IsGot text (index_from 0 (data_blocks rows)) key row → row ≡ newest key rows }
{}

/// Of a table no key is refused for what its text says.
pub fn a_table_refuses_no_key()
    ensures { (text : List ℕ) (rows : List Row) (number : ℕ) (session : List ℕ) → IsTable text rows number session
        → (key : List ℕ) (fault : TableFault) → IsNotGot text (index_from 0 (data_blocks rows)) key fault → IsOutside fault }
{}
