//! Laws of compactions. The functions do nothing: their contracts are the laws.
ghost use Rattle.std.specs.Prelude.{◌≡◌, ◌<◌, ℕ, List, Contains, Some};
ghost use Rattle.std.specs.FinMap as finite;
ghost use Rattle.lsm_rows.specs.declared.rows.Row.{Row};
ghost use Rattle.lsm_rows.specs.Contents.{contents_of};
ghost use Rattle.lsm_version.specs.declared.choices.Choice.{Choice};
ghost use Rattle.lsm_version.specs.declared.edits.Edit.{Edit};
ghost use Rattle.lsm_version.specs.declared.tables.Placed.{Placed};
ghost use Rattle.lsm_version.specs.Edits.{last_level};
ghost use Rattle.lsm_version.specs.Levels.{Tables, IsLeveled};
ghost use Rattle.lsm_version.specs.Orders.{AreLevels, places_of};
ghost use Rattle.lsm_pick.specs.Picked.{picked};
ghost use Rattle.lsm_compact.specs.Closed.{IsClosed};
ghost use Rattle.lsm_compact.specs.Grown.{IsGrown};
ghost use Rattle.lsm_compact.specs.Installed.{AreFree, IsInstalled, added_rows};
ghost use Rattle.lsm_compact.specs.Orderly.{IsOrderly, AreListed, HaveOwnSequences, rows_of_tables};
ghost use Rattle.lsm_compact.specs.Outputs.{IsEditOf};
ghost use Rattle.lsm_compact.specs.RowWeight.{row_weight};
ghost use Rattle.lsm_compact.specs.Written.{input_rows};

/// The tables stand for the same contents before and after a compaction.
#[tactic(auto, using(crate::proofs::Keeping::contents_stay))]
pub fn compactions_keep_contents()
    ensures { (tables after : Tables) (rows later : ℕ → List Row) (choice : Choice) (edit : Edit) → IsOrderly tables rows
        → IsClosed tables rows choice → IsEditOf tables choice (input_rows rows choice) (added_rows later edit.adds) edit
        → IsInstalled tables after rows later edit
        → contents_of (rows_of_tables after later) ≡ contents_of (rows_of_tables tables rows) }
{}

/// The tables are in order after a compaction, where they were before it.
pub fn compactions_keep_the_order()
    ensures { (tables after : Tables) (rows later : ℕ → List Row) (choice : Choice) (edit : Edit) → IsOrderly tables rows
        → IsClosed tables rows choice → IsEditOf tables choice (input_rows rows choice) (added_rows later edit.adds) edit
        → IsInstalled tables after rows later edit → IsOrderly after later }
{}

/// The tables are listed with the keys of their rows after a compaction, where they were before it.
pub fn compactions_keep_the_listing()
    ensures { (tables after : Tables) (rows later : ℕ → List Row) (choice : Choice) (edit : Edit) → IsOrderly tables rows
        → IsClosed tables rows choice → IsEditOf tables choice (input_rows rows choice) (added_rows later edit.adds) edit
        → IsInstalled tables after rows later edit → AreListed tables rows → AreListed after later }
{}

/// Each row after a compaction was there before it.
pub fn compactions_make_no_rows()
    ensures { (tables after : Tables) (rows later : ℕ → List Row) (choice : Choice) (edit : Edit) → IsOrderly tables rows
        → IsClosed tables rows choice → IsEditOf tables choice (input_rows rows choice) (added_rows later edit.adds) edit
        → IsInstalled tables after rows later edit → (row : Row) → Contains (rows_of_tables after later) row
        → Contains (rows_of_tables tables rows) row }
{}

/// What the shape of the levels picks may be merged.
pub fn picked_inputs_are_closed()
    ensures { (tables : Tables) (rows : ℕ → List Row) (choice : Choice) → IsOrderly tables rows
        → picked tables ≡ Some choice → IsClosed tables rows choice }
{}

/// Each compaction of what the shape picks lowers the weight by rows, so a line of them ends.
pub fn compactions_lower_the_row_weight()
    ensures { (tables after : Tables) (rows later : ℕ → List Row) (choice : Choice) (edit : Edit) → picked tables ≡ Some choice
        → IsOrderly tables rows → IsEditOf tables choice (input_rows rows choice) (added_rows later edit.adds) edit
        → IsInstalled tables after rows later edit → row_weight after later < row_weight tables rows }
{}

/// All tables may be merged into the last level.
pub fn all_tables_are_closed()
    ensures { (tables : Tables) (rows : ℕ → List Row) → AreLevels tables
        → IsClosed tables rows (record { inputs = places_of tables; output = last_level }) }
{}

/// Flushes while a compaction runs change nothing: its inputs may still be merged.
pub fn flushes_leave_inputs_closed()
    ensures { (tables more : Tables) (rows : ℕ → List Row) (choice : Choice) → IsClosed tables rows choice
        → IsGrown tables more rows → IsClosed more rows choice }
{}

/// Flushes while a compaction runs change nothing: its edit is that of the grown version too.
pub fn flushes_leave_the_edit()
    ensures { (tables more : Tables) (rows : ℕ → List Row) (choice : Choice) (inputs : List Row) (outputs : List (List Row))
        (edit : Edit) → IsClosed tables rows choice → IsGrown tables more rows
        → IsEditOf tables choice inputs outputs edit → IsEditOf more choice inputs outputs edit }
{}

/// A compaction's edit is never refused, where the numbers of its outputs are free.
pub fn edits_of_compactions_apply()
    ensures { (tables : Tables) (rows later : ℕ → List Row) (choice : Choice) (edit : Edit) → IsOrderly tables rows
        → IsClosed tables rows choice → IsEditOf tables choice (input_rows rows choice) (added_rows later edit.adds) edit
        → AreFree tables edit.adds
        → ((number : ℕ) (placed : Placed) → finite.get tables number ≡ Some placed → later number ≡ rows number)
        → (after : Tables) × IsInstalled tables after rows later edit }
{}

/// Tables are in order where their levels are, where each is listed with the keys of its rows, and where each row has its
/// own sequence.
pub fn listed_tables_are_orderly()
    ensures { (tables : Tables) (rows : ℕ → List Row) → IsLeveled tables rows → AreListed tables rows
        → HaveOwnSequences (rows_of_tables tables rows) → IsOrderly tables rows }
{}

/// In tables that are in order each row has its own sequence.
pub fn orderly_tables_have_own_sequences()
    ensures { (tables : Tables) (rows : ℕ → List Row) → IsOrderly tables rows → AreListed tables rows
        → HaveOwnSequences (rows_of_tables tables rows) }
{}
