//! Laws of the opening of a folder that stands. The functions do nothing: their contracts are
//! the laws.
ghost use Rattle.std.specs.Prelude.{◌≡◌, ℕ, true, List, Some};
ghost use Rattle.std.specs.FinMap as finmap;
ghost use Rattle.std.specs.Ordering.{nat_cmp};
ghost use Rattle.lsm_names.specs.Folders.{is_folder_name};
ghost use Rattle.lsm_names.specs.declared.file_names.FileName.{FileName};
ghost use Rattle.lsm_names.specs.declared.file_names.FileName.TheVariants.{Log};
ghost use Rattle.lsm_rows.specs.Replay.{Contents};
ghost use Rattle.lsm_disk.specs.State as disk;
ghost use Rattle.lsm_disk.specs.State.{Seen, Story, Names_synced, after, state_of};
ghost use Rattle.lsm_disk.specs.Images.{tree_now};
ghost use Rattle.lsm_disk.specs.Dest.{path_in};
ghost use Rattle.lsm_disk.specs.Viewed.{Viewed};
ghost use Rattle.lsm_wal.specs.Making.{with_made};
ghost use Rattle.lsm_folder.specs.Files.{files_in};
ghost use Rattle.lsm_folder.specs.Needed.{Stands};
ghost use Rattle.lsm_model.specs.declared.states.State.{State};
ghost use Rattle.lsm_refine.specs.Among.{ChangesAmong, switched_names};
ghost use Rattle.lsm_refine.specs.Beside.{LeadToFiles};
ghost use Rattle.lsm_refine.specs.Folders.{ChangesInside};
ghost use Rattle.lsm_refine.specs.FoundFolder.{Recovery, IsPlanned, IsRecovery, SaysFound, HasNewTable, HasSwitched, HasRecovered, TellTables, HasAdded, new_manifest, new_log, table_names, opening_edits, recovered_store};
ghost use Rattle.lsm_refine.specs.Naming.{HasReplaced};
ghost use Rattle.lsm_refine.specs.Openings.{IsFound, OpensTo};

/// Where an opening of a folder that stands has gone whole, the store is good, whatever state was
/// found: for what the opening makes of it.
pub fn a_folder_that_stands_is_opened()
    ensures { (before : Story) (dir : List ℕ) → is_folder_name dir ≡ true → (r : Recovery) → IsRecovery (state_of before) dir r
        → (story : Story) (seen : Seen) → seen.told ≡ Some story → HasRecovered (state_of before) (state_of story) dir r
        → (views : finmap.FinMap nat_cmp Viewed) → TellTables (state_of before) (state_of story) dir r views
        → (known : List FileName) → HasAdded r known
        → (s : State) → s.own ≡ dir → IsFound (state_of before) s → OpensTo s (recovered_store seen dir r views known) }
{}

/// What a folder stood for is in the new manifest that an opening writes of it: a key's newest row
/// is in one of its tables. So the folder stands for the same where `CURRENT` names that manifest.
pub fn a_new_manifest_says_what_was_found()
    ensures { (d : disk.State) (dir : List ℕ) → is_folder_name dir ≡ true → (r : Recovery) → IsRecovery d dir r
        → (contents : Contents) (sequence : ℕ) → Stands (files_in dir (tree_now d)) contents sequence
        → SaysFound (files_in dir (tree_now d)) r contents sequence }
{}

/// The parts of an opening make the whole: a sync of names changes nothing at any name, the table
/// is written and then the new manifest takes the place, and then the empty log is made.
pub fn an_opening_goes_part_by_part()
    ensures synced { (dir : List ℕ) (names : List FileName) (d : disk.State) → ChangesAmong dir names d (after d Names_synced)
        × ChangesInside dir d (after d Names_synced) }
    ensures switched { (dir : List ℕ) → is_folder_name dir ≡ true → (r : Recovery) → IsPlanned r → (d mid later : disk.State)
        → ChangesAmong dir (table_names r.table) d mid → ChangesInside dir d mid → HasNewTable mid dir r.table
        → ChangesAmong dir (switched_names (new_manifest r) (new_manifest r)) mid later → ChangesInside dir mid later
        → HasReplaced later dir (new_manifest r) (opening_edits r) → HasSwitched d later dir r }
    ensures recovered { (dir : List ℕ) → is_folder_name dir ≡ true → (r : Recovery) → IsPlanned r → (d mid : disk.State)
        → HasSwitched d mid dir r → LeadToFiles mid → (later : disk.State)
        → later ≡ with_made (path_in dir (Log (new_log r))) mid → HasRecovered d later dir r }
{}
