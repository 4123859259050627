//! Laws of the definitions that contracts cite. The functions do nothing: their contracts are the laws.
ghost use Rattle.std.specs.Prelude.{◌≡◌, ◌≤◌, ℕ, List, [], length};
ghost use Rattle.lsm_rows.specs.declared.rows.Row.{Row};
ghost use Rattle.lsm_rows.specs.Contents.{newest};
ghost use Rattle.lsm_block.specs.TableText.{AreTableRows};
ghost use Rattle.lsm_memtable.specs.Newest.{newest_each};
ghost use Rattle.lsm_memtable.specs.Order.{AreInOrder};
ghost use Rattle.lsm_memtable.specs.Flushes.{bytes_of};

/// Each key's newest row is its newest among the newest rows of all keys, so a flush keeps the contents.
#[tactic(auto, using(crate::proofs::NewestRows::newest_stays))]
pub fn the_newest_of_each_key_stay_newest()
    ensures { (rows : List Row) (key : List ℕ) → newest key (newest_each rows) ≡ newest key rows }
{}

/// The newest rows of all keys are the rows of a table, where there are any.
#[tactic(auto, using(crate::proofs::NewestRows::newest_rows_are_a_table))]
pub fn newest_rows_make_a_table()
    ensures { (rows : List Row) → AreInOrder rows → 1 ≤ length rows → AreTableRows (newest_each rows) }
{}

/// No bytes of a table come before its first row, so the pieces of a flush and its last one are the whole table.
#[tactic(auto, using(crate::proofs::Progresses::bytes_none))]
pub fn no_bytes_before_the_first_row()
    ensures { (rows : List Row) → bytes_of rows 0 ≡ [] }
{}
