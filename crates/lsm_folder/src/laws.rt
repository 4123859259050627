//! Laws of the definitions that contracts cite. The functions do nothing: their contracts are the laws.
ghost use Rattle.std.specs.Prelude.{◌≡◌, ◌≢◌, ◌⊎◌, ℕ, ◌+◌, ◌-◌, ◌≤◌, Bool, true, false, List, [], ◌∷◌, ◌++◌, map, length, take, All, Option, Some, None, Ok, Err, IsTrue};
ghost use Rattle.std.specs.Ordering.{nat_cmp};
ghost use Rattle.std.specs.FinMap as finmap;
ghost use Rattle.lsm_names.specs.declared.file_names.FileName.{FileName};
ghost use Rattle.lsm_names.specs.declared.file_names.FileName.TheVariants.{Log, Table};
ghost use Rattle.lsm_names.specs.FileNames.{spelled, IsFileName, is_file_number};
ghost use Rattle.lsm_rows.specs.declared.operations.Op.{Op};
ghost use Rattle.lsm_rows.specs.declared.rows.Row.{Row};
ghost use Rattle.lsm_rows.specs.Contents.{contents_of};
ghost use Rattle.lsm_rows.specs.Decoding.{IsBatchText, IsSomeBatch};
ghost use Rattle.lsm_rows.specs.Replay.{replayed, sequence_after};
ghost use Rattle.lsm_block.specs.declared.entries.Entry.{Entry};
ghost use Rattle.lsm_block.specs.Blocks.{IsBlockText};
ghost use Rattle.lsm_disk.specs.Names.{Folder_node, File_node, stands};
ghost use Rattle.lsm_disk.specs.Images.{Tree, bytes_at};
ghost use Rattle.lsm_frame.specs.Records.{front};
ghost use Rattle.lsm_wal.specs.Batches.{Logged, IsLogged, in_sequence, wal_text};
ghost use Rattle.lsm_wal.specs.Reading.{Stop, At_end, IsReading, ReadsToFront, open_end};
ghost use Rattle.lsm_table.specs.declared.faults.TableFault.{TableFault};
ghost use Rattle.lsm_table.specs.Opening.{Opens, IsRefused, IsOutside};
ghost use Rattle.lsm_table.specs.declared.parts.Properties.{Properties};
ghost use Rattle.lsm_table.specs.DataBlocks.{IsNthBlock, IsNthFault};
ghost use Rattle.lsm_table.specs.Rows.{row_at};
ghost use Rattle.lsm_table.specs.WholeTables.{IsTable};
ghost use Rattle.lsm_version.specs.declared.edits.Edit.{Edit};
ghost use Rattle.lsm_version.specs.declared.tables.TableInfo.{TableInfo};
ghost use Rattle.lsm_version.specs.Edits.{IsEditText};
ghost use Rattle.lsm_version.specs.Orders.{AreLevels};
ghost use Rattle.lsm_folder.specs.declared.refusals.Refusal.TheVariants.{NoFolder, NoCurrent, Short, Malformed};
ghost use Rattle.lsm_folder.specs.Batches.{batch_of};
ghost use Rattle.lsm_folder.specs.Blocks.{block_of};
ghost use Rattle.lsm_folder.specs.Edits.{edit_of};
ghost use Rattle.lsm_folder.specs.Files.{Item, A_file, Files, Place, Nothing, Not_a_folder, Stands_with, item_at, files_in, place_of};
ghost use Rattle.lsm_folder.specs.Logs.{log_of, batches_of, outcome};
ghost use Rattle.lsm_folder.specs.Manifests.{manifest_text, edits_said, tables_after, last_after};
ghost use Rattle.lsm_folder.specs.Names.{name_of, current_text, manifest_in};
ghost use Rattle.lsm_folder.specs.Needed.{HasNeeded, HasNoTables, HasOneLog, HasOneLogAt, Lawful, Stands, IsPrefixShown, IsFresh, needed};
ghost use Rattle.lsm_folder.specs.Parts.{AreEdits, AreLawful, IsManifest, HasParts, all_of, names_of_parts, rows_of_all};
ghost use Rattle.lsm_folder.specs.Reading.{texts_in, reading, shown_of};
ghost use Rattle.lsm_folder.specs.Steps.{table_says};
ghost use Rattle.lsm_folder.specs.Tables.{is_of, table_in, table_said};
ghost use Rattle.lsm_folder.specs.Walks.{HasWalked};

/// A name's spelling is read back as the name, and no other text is read as one; so is the text that `CURRENT` has for a
/// manifest.
#[tactic(auto, using(crate::proofs::NameLemmas::name_again, crate::proofs::NameLemmas::manifest_again))]
pub fn names_are_read_back()
    ensures again { (name : FileName) → IsFileName name → name_of (spelled name) ≡ Some name }
    ensures only { (text : List ℕ) (name : FileName) → name_of text ≡ Some name → IsFileName name × (text ≡ spelled name) }
    ensures current { (number : ℕ) → IsTrue (is_file_number number) → manifest_in (current_text number) ≡ Some number }
    ensures only_current { (text : List ℕ) (number : ℕ) → manifest_in text ≡ Some number
        → IsTrue (is_file_number number) × (text ≡ current_text number) }
{}

/// A batch's text is read back as the batch, and no other text is read as one.
#[tactic(auto, using(crate::proofs::BatchLemmas::batch_found, crate::proofs::BatchLemmas::batch_is, crate::proofs::BatchLemmas::batch_none))]
pub fn batches_are_read_back()
    ensures again { (text : List ℕ) (first : ℕ) (ops : List Op) → IsBatchText text first ops
        → batch_of text ≡ Some (record { first = first; ops = ops }) }
    ensures only { (text : List ℕ) (batch : Logged) → batch_of text ≡ Some batch → IsBatchText text batch.first batch.ops }
    ensures none { (text : List ℕ) → ¬ IsSomeBatch text → batch_of text ≡ None }
{}

/// An edit's text is read back as the edit, and no other text is read as one.
#[tactic(auto, using(crate::proofs::EditLemmas::edit_back, crate::proofs::EditLemmas::edit_only))]
pub fn edits_are_read_back()
    ensures again { (text : List ℕ) (edit : Edit) → IsEditText text edit → edit_of text ≡ Some edit }
    ensures only { (text : List ℕ) (edit : Edit) → edit_of text ≡ Some edit → IsEditText text edit }
{}

/// A block's contents are read back as its entries, and no other bytes are read as a block.
#[tactic(auto, using(crate::proofs::BlockLemmas::block_back, crate::proofs::BlockLemmas::block_only))]
pub fn blocks_are_read_back()
    ensures again { (bytes : List ℕ) (es : List Entry) → IsBlockText bytes es → block_of bytes ≡ Some es }
    ensures only { (bytes : List ℕ) (es : List Entry) → block_of bytes ≡ Some es → IsBlockText bytes es }
{}

/// What a folder has under a name is what its tree has at the name's path, below a folder that isn't the root.
#[tactic(auto, using(crate::proofs::FileLemmas::files_are, crate::proofs::FileLemmas::file_is, crate::proofs::FileLemmas::file_names))]
pub fn names_meet_paths()
    ensures item { (dir : List ℕ) (tree : Tree) (name : FileName) → 1 ≤ length dir → IsFileName name
        → finmap.get (files_in dir tree) name ≡ item_at tree (dir ++ 47 ∷ spelled name) }
    ensures file { (dir : List ℕ) (tree : Tree) (name : FileName) (bytes : List ℕ) → 1 ≤ length dir → IsFileName name
        → bytes_at tree (dir ++ 47 ∷ spelled name) ≡ Some bytes → finmap.get (files_in dir tree) name ≡ Some (A_file bytes) }
    ensures only { (dir : List ℕ) (tree : Tree) (name : FileName) (item : Item) → 1 ≤ length dir
        → finmap.get (files_in dir tree) name ≡ Some item → IsFileName name }
{}

/// What stands at a path of a tree.
#[tactic(auto, using(crate::proofs::FileLemmas::no_place, crate::proofs::FileLemmas::file_place, crate::proofs::FileLemmas::folder_place))]
pub fn places_are_seen()
    ensures none { (dir : List ℕ) (tree : Tree) → stands tree.names dir ≡ None → place_of dir tree ≡ Nothing }
    ensures file { (dir : List ℕ) (tree : Tree) (id : ℕ) → stands tree.names dir ≡ Some (File_node id) → place_of dir tree ≡ Not_a_folder }
    ensures folder { (dir : List ℕ) (tree : Tree) → stands tree.names dir ≡ Some Folder_node
        → place_of dir tree ≡ Stands_with (files_in dir tree) }
{}

/// How a log was read, to its end or to its first trouble, says what becomes of it in a folder.
#[tactic(auto, using(crate::proofs::LogLemmas::read_log))]
pub fn a_log_counts_as_it_was_read()
    ensures { (is_last : Bool) (number expected : ℕ) (text : List ℕ) (batches : List (List Op)) (stop : Stop)
        → IsReading expected text batches stop
        → batches_of is_last expected number (log_of text) ≡ outcome is_last (Log number) expected batches stop }
{}

/// A whole table with the session and the size that a version has of it says its rows.
#[tactic(auto, using(crate::proofs::TableLemmas::table_says_rows))]
pub fn a_whole_table_says_its_rows()
    ensures { (bytes : List ℕ) (rows : List Row) (number : ℕ) (session : List ℕ) (info : TableInfo) → IsTable bytes rows number session
        → info.session ≡ session → length bytes ≡ info.size → table_said number info bytes ≡ Ok (record { rows = rows }) }
{}

/// A table that has the size that the version says, and isn't opened for a fault of its bytes, is refused for this fault.
#[tactic(auto, using(crate::proofs::OpeningLemmas::opening_refused))]
pub fn a_table_is_refused_as_its_opening()
    ensures { (number : ℕ) (info : TableInfo) (bytes : List ℕ) (fault : TableFault) → length bytes ≡ info.size → IsRefused bytes fault
        → ¬ IsOutside fault → table_said number info bytes ≡ table_says (Table number) (Err fault) }
{}

/// What a table's bytes say, where its data blocks are read one by one in the order of its index: a whole walk gives its rows;
/// a walk that meets a fault of the bytes stops there, and the fault is the table's refusal. No walk begins where the opening
/// is refused; where the properties, 77 bytes before the end, are those of another table; or where the bytes aren't as many as
/// the version says.
pub fn a_walked_table_says_its_rows()
    ensures begins { (bytes : List ℕ) (index : List Entry) → HasWalked bytes index 0 [] }
    ensures goes_on { (bytes : List ℕ) (index : List Entry) (nth : ℕ) (rows : List Row) (block : List Entry)
        → HasWalked bytes index nth rows → IsNthBlock bytes index nth block → HasWalked bytes index (nth + 1) (rows ++ map row_at block) }
    ensures whole { (number : ℕ) (info : TableInfo) (bytes : List ℕ) (properties : Properties) (index : List Entry)
        → Opens bytes properties index → is_of number info properties ≡ true
        → (rows : List Row) → HasWalked bytes index (length index) rows → table_in number info bytes ≡ Ok (record { rows = rows }) }
    ensures stops { (number : ℕ) (info : TableInfo) (bytes : List ℕ) (properties : Properties) (index : List Entry)
        → Opens bytes properties index → is_of number info properties ≡ true
        → (nth : ℕ) (rows : List Row) (fault : TableFault) → HasWalked bytes index nth rows → IsNthFault bytes index nth fault
        → ¬ IsOutside fault → table_in number info bytes ≡ table_says (Table number) (Err fault) }
    ensures refused { (number : ℕ) (info : TableInfo) (bytes : List ℕ) (fault : TableFault) → IsRefused bytes fault → ¬ IsOutside fault
        → table_in number info bytes ≡ table_says (Table number) (Err fault) }
    ensures other { (number : ℕ) (info : TableInfo) (bytes : List ℕ) (properties : Properties) (index : List Entry)
        → Opens bytes properties index → is_of number info properties ≡ false
        → table_in number info bytes ≡ Err (Malformed (Table number) (length bytes - 77)) }
    ensures sized { (number : ℕ) (info : TableInfo) (bytes : List ℕ) → length bytes ≡ info.size
        → table_said number info bytes ≡ table_in number info bytes }
    ensures short { (number : ℕ) (info : TableInfo) (bytes : List ℕ) → length bytes ≢ info.size
        → table_said number info bytes ≡ Err (Short (Table number) info.size (length bytes)) }
{}

/// A text says edits exactly where its records are these edits' texts, the edits are in the grammar and make a version, the
/// first gives all three numbers, and its end is open. So does the text that a store writes.
#[tactic(auto, using(crate::proofs::ManifestLemmas::manifest_says, crate::proofs::ManifestLemmas::manifest_written))]
pub fn a_manifest_says_its_edits()
    ensures says { (name : FileName) (text : List ℕ) (edits : List Edit) → IsManifest text edits → edits_said name text ≡ Ok edits }
    ensures only { (name : FileName) (text : List ℕ) (edits : List Edit) → edits_said name text ≡ Ok edits → IsManifest text edits }
    ensures written { (edits : List Edit) → AreEdits edits → IsManifest (manifest_text edits) edits }
{}

/// A manifest that is cut anywhere says the first of its edits, those that lie whole before the cut, if there is one.
pub fn a_cut_manifest_says_the_first_edits()
    ensures { (edits : List Edit) (cut : ℕ) → AreEdits edits → 1 ≤ length (front (take cut (manifest_text edits)))
        → IsManifest (take cut (manifest_text edits)) (take (length (front (take cut (manifest_text edits)))) edits) }
{}

/// What a folder with these parts needs are their names.
pub fn a_folder_needs_its_parts()
    ensures { (files : Files) (edits : List Edit) (rows : ℕ → List Row) (logs : finmap.FinMap nat_cmp (List ℕ))
        (batches : List (List (List Op)))
        → (has : HasParts files edits rows logs batches) → needed files ≡ names_of_parts has.manifest edits logs }
{}

/// From what the parts of a folder say, it reads so: as the rows of its tables and, behind them, those of its logs.
pub fn a_folder_reads_as_its_parts()
    ensures { (files : Files) (edits : List Edit) (rows : ℕ → List Row) (logs : finmap.FinMap nat_cmp (List ℕ))
        (batches : List (List (List Op)))
        → HasParts files edits rows logs batches
        → reading (Stands_with files) ≡ Ok (record {
          sequence = sequence_after (last_after edits)
              (all_of batches);
          contents = contents_of (rows_of_all edits rows batches);
        }) }
{}

/// A folder with such parts stands for their rows, where these are lawful.
pub fn a_folder_stands_as_its_parts()
    ensures { (files : Files) (edits : List Edit) (rows : ℕ → List Row) (logs : finmap.FinMap nat_cmp (List ℕ))
        (batches : List (List (List Op)))
        → HasParts files edits rows logs batches → AreLawful edits rows
        → Stands files (contents_of (rows_of_all edits rows batches)) (sequence_after (last_after edits) (all_of batches)) }
{}

/// A folder that has what another one needs, and no more logs from the log number on, reads as that one does, whatever else
/// it holds.
#[tactic(auto, using(crate::proofs::AlikeLemmas::texts_same, crate::proofs::AlikeLemmas::reads_same))]
pub fn needed_files_suffice()
    ensures texts { (files others : Files) → HasNeeded files others → texts_in others ≡ texts_in files }
    ensures reading { (files others : Files) → HasNeeded files others → reading (Stands_with others) ≡ reading (Stands_with files) }
{}

/// A folder with a new store's manifest and one log reads as its log does, to contents or to the log's refusal.
#[tactic(auto, using(crate::proofs::OneLogLemmas::one_log_reads))]
pub fn one_log_is_read()
    ensures { (files : Files) (text : List ℕ) (batches : List (List Op)) (stop : Stop) → HasOneLog files text
        → IsReading 1 text batches stop
        → reading (Stands_with files) ≡ shown_of (outcome true (Log 2) 1 batches stop) }
{}

/// Such a folder stands for the batches that its log reads to, where nothing is wrong behind them; so it does where an image
/// of the log reads to the first of the batches.
pub fn one_log_stands()
    ensures whole { (files : Files) (text : List ℕ) (accepted : List (List Op)) (torn : Option ℕ) → HasOneLog files text
        → IsReading 1 text accepted (At_end (open_end torn)) → Stands files (replayed finmap.empty accepted) (sequence_after 0 accepted) }
    ensures front { (files : Files) (text : List ℕ) (accepted : List (List Op)) (durable : ℕ) → HasOneLog files text
        → (front : ReadsToFront 1 accepted durable text) → Stands files (replayed finmap.empty front.read) (sequence_after 0 front.read) }
{}

/// A folder of a tree that has these files at their paths has them by their names.
pub fn one_log_is_there()
    ensures { (dir : List ℕ) (tree : Tree) (text : List ℕ) → HasOneLogAt dir tree text → HasOneLog (files_in dir tree) text }
{}

/// A log that is cut at any length stands for the first of its batches, and for all that lie whole before the cut.
#[tactic(auto, using(crate::proofs::StandingLemmas::cut_shows))]
pub fn a_cut_log_stands_for_a_prefix()
    ensures { (files : Files) (accepted : List (List Op)) (cut : ℕ) → All IsLogged (in_sequence 1 accepted)
        → HasOneLog files (take cut (wal_text (in_sequence 1 accepted))) → IsPrefixShown files accepted cut }
{}

/// A new store's folder, with an empty log, stands for nothing.
pub fn a_new_store_is_empty()
    ensures { (files : Files) → HasOneLog files [] → Stands files finmap.empty 0 }
{}

/// A folder whose version has no tables is lawful: no two rows of its logs have one sequence. Such a folder is one with a
/// new store's manifest and one log.
pub fn logs_are_lawful()
    ensures lawful { (files : Files) → HasNoTables files → Lawful files }
    ensures one_log { (files : Files) (text : List ℕ) → HasOneLog files text → HasNoTables files }
{}

/// A fresh place holds no store.
#[tactic(auto, using(crate::proofs::FreshLemmas::fresh_is_none))]
pub fn a_fresh_place_holds_no_store()
    ensures { (place : Place) → IsFresh place → (reading place ≡ Err NoFolder) ⊎ (reading place ≡ Err NoCurrent) }
{}

/// The edits of a manifest make a version whose tables stand at the seven levels, so that a search over it meets each of them.
pub fn versions_have_seven_levels()
    ensures { (edits : List Edit) → AreEdits edits → AreLevels (tables_after edits) }
{}
