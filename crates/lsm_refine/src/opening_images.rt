//! Laws of the images on the way of an opening: each shows the folder as it was, or the new store
//! that is made of a fresh one. The functions do nothing: their contracts are the laws.
ghost use Rattle.std.specs.Prelude.{◌≡◌, ℕ, ◌+◌, ◌^◌, ◌<◌, ◌≤◌, true, is_some, List, [], ◌∷◌, Option, Some, None, Ok};
ghost use Rattle.std.specs.FinMap as finmap;
ghost use Rattle.lsm_names.specs.Folders.{is_folder_name};
ghost use Rattle.lsm_names.specs.FileNames.{IsFileName};
ghost use Rattle.lsm_names.specs.declared.file_names.FileName.TheVariants.{Log, Table, Manifest, Temp, Current};
ghost use Rattle.lsm_rows.specs.Replay.{Contents};
ghost use Rattle.lsm_disk.specs.Names.{Folder_node};
ghost use Rattle.lsm_disk.specs.State as disk;
ghost use Rattle.lsm_disk.specs.State.{Story, after, state_of, names_now, names_synced, file_synced, folder_made};
ghost use Rattle.lsm_disk.specs.Images.{Tree, IsImage, tree_now};
ghost use Rattle.lsm_disk.specs.Tree.{IsLawful};
ghost use Rattle.lsm_disk.specs.Goes.{Went};
ghost use Rattle.lsm_disk.specs.Dest.{path_in};
ghost use Rattle.lsm_wal.specs.Making.{MayHaveNew};
ghost use Rattle.lsm_version.specs.declared.edits.Edit.{Edit};
ghost use Rattle.lsm_folder.specs.Files.{files_in, place_of};
ghost use Rattle.lsm_folder.specs.Names.{current_text};
ghost use Rattle.lsm_folder.specs.Manifests.{manifest_text, log_after};
ghost use Rattle.lsm_folder.specs.Needed.{IsFresh};
ghost use Rattle.lsm_folder.specs.Reading.{current_of};
ghost use Rattle.lsm_model.specs.declared.states.State.{State};
ghost use Rattle.lsm_refine.specs.Sane.{IsWholeFile, TablesAreSynced};
ghost use Rattle.lsm_refine.specs.Pins.{AreClearable};
ghost use Rattle.lsm_refine.specs.Beside.{LeadToFiles, MakesAt};
ghost use Rattle.lsm_refine.specs.Among.{ChangesAmong};
ghost use Rattle.lsm_refine.specs.Naming.{ReplacesAt, HasReplaced};
ghost use Rattle.lsm_refine.specs.New.{first_edit};
ghost use Rattle.lsm_refine.specs.Vacant.{with_folder};
ghost use Rattle.lsm_refine.specs.Openings.{IsFound, StandsAs, IsKeptImage, LosesNothing};
ghost use Rattle.lsm_refine.specs.OpeningImages.{KeepsFolder, IsAtRest, AllStand, AllFresh, SaysAs, MayBecome, HasOldOrNamesNew, HasNoneOrNamesNew, MaySwitch, MayBegin, MayMakeLog};
ghost use Rattle.lsm_refine.specs.FoundFolder.{NewTable, Recovery, IsRecovery, HasNewTable, new_manifest, new_log, table_names, opening_edits};

/// An opening begins with the disk as it was found. A sync of names or of a file brings no image
/// that wasn't there before, and what was found is found still.
pub fn an_opening_may_begin()
    ensures found { (d : disk.State) (s : State) (dir : List ℕ) → is_folder_name dir ≡ true → s.own ≡ dir → IsFound d s
        → KeepsFolder dir d d }
    ensures rest { (d : disk.State) (s : State) (dir : List ℕ) → s.own ≡ dir → IsFound d s → d.pending ≡ [] → LeadToFiles d
        → IsAtRest dir d × TablesAreSynced d dir }
    ensures names { (dir : List ℕ) (d later : disk.State) → KeepsFolder dir d later
        → KeepsFolder dir d (after later (names_synced later)) }
    ensures file { (dir path : List ℕ) (d later : disk.State) → KeepsFolder dir d later
        → KeepsFolder dir d (after later (file_synced path later)) }
    ensures names_found { (d : disk.State) (s : State) → IsFound d s → IsFound (after d (names_synced d)) s }
    ensures file_found { (path : List ℕ) (d : disk.State) (s : State) → IsFound d s → IsFound (after d (file_synced path d)) s }
{}

/// One part of an opening goes on where the one before it ended. Where each image on the way is
/// one that may be left of whatever was found, the opening loses nothing.
pub fn an_opening_may_go_on()
    ensures both { (dir : List ℕ) → is_folder_name dir ≡ true → (d mid later : disk.State) → KeepsFolder dir d mid
        → KeepsFolder dir mid later → KeepsFolder dir d later }
    ensures rest { (dir : List ℕ) (d later : disk.State) → IsAtRest dir d → KeepsFolder dir d later → later.pending ≡ []
        → LeadToFiles later → IsAtRest dir later }
    ensures stand { (dir : List ℕ) → is_folder_name dir ≡ true → (d later : disk.State) → AllStand dir d
        → KeepsFolder dir d later → AllStand dir later }
    ensures loses { (before : Story) (dir : List ℕ) (told : Option Story) → is_folder_name dir ≡ true
        → ((s : State) → s.own ≡ dir → IsFound (state_of before) s
        → Went before told (λ c. Unit {0}) (λ d t. IsKeptImage dir (state_of before) t) (λ d. Unit {0}))
        → LosesNothing before dir told }
{}

/// Where all names are synced the folder stands in each image, if `CURRENT` is there, and else is
/// fresh in each. So an opening may make a folder that stands for what it stands for, or a new
/// store of a fresh one.
pub fn a_read_folder_would_stand()
    ensures stands { (dir : List ℕ) → is_folder_name dir ≡ true → (d later : disk.State) → KeepsFolder dir d later
        → later.pending ≡ [] → finmap.get (names_now later) dir ≡ Some Folder_node
        → is_some (finmap.get (names_now later) (path_in dir Current)) ≡ true → AllStand dir later }
    ensures fresh { (dir : List ℕ) → is_folder_name dir ≡ true → (d later : disk.State) → KeepsFolder dir d later
        → later.pending ≡ [] → IsFresh (place_of dir (tree_now later)) → AllFresh dir later }
    ensures same { (dir : List ℕ) → is_folder_name dir ≡ true → (d later : disk.State) → KeepsFolder dir d later
        → (contents : Contents) (sequence : ℕ) → StandsAs dir contents sequence (tree_now later)
        → MayBecome dir d contents sequence }
    ensures new { (dir : List ℕ) → is_folder_name dir ≡ true → (d later : disk.State) → KeepsFolder dir d later
        → IsFresh (place_of dir (tree_now later)) → MayBecome dir d finmap.empty 0 }
{}

/// Where the folder stands in each image and all names are synced, `CURRENT` is wholly synced.
pub fn what_was_found_is_whole()
    ensures { (dir : List ℕ) → is_folder_name dir ≡ true → (d : disk.State) → d.pending ≡ [] → AllStand dir d → (number : ℕ)
        → current_of (files_in dir (tree_now d)) ≡ Ok number → IsWholeFile d (path_in dir Current) (current_text number) }
{}

/// Where nothing has the folder's name, it is made: it is fresh in each image, before and behind.
pub fn a_new_folder_is_fresh()
    ensures before { (dir : List ℕ) → is_folder_name dir ≡ true → (d : disk.State) → d.pending ≡ []
        → finmap.get (names_now d) dir ≡ None → AllFresh dir d }
    ensures made { (dir : List ℕ) → is_folder_name dir ≡ true → (d : disk.State) → IsLawful d → d.pending ≡ []
        → finmap.get (names_now d) dir ≡ None → AreClearable d → KeepsFolder dir d (after d (folder_made dir d)) }
    ensures synced { (dir : List ℕ) → is_folder_name dir ≡ true → (d : disk.State) → IsLawful d
        → finmap.get (names_now d) dir ≡ None → AreClearable d
        → AllFresh dir (with_folder dir d) × IsAtRest dir (with_folder dir d) }
{}

/// A table's file that is made and written beside the others, under a free name, leaves the folder
/// that stands as it was.
pub fn a_new_file_beside_keeps_the_folder()
    ensures { (dir : List ℕ) → is_folder_name dir ≡ true → (d : disk.State) → IsAtRest dir d → AllStand dir d → (number : ℕ)
        → IsFileName (Table number) → finmap.get (names_now d) (path_in dir (Table number)) ≡ None
        → (later : disk.State) → MakesAt dir (Table number) d later → KeepsFolder dir d later }
{}

/// The new manifest of an opening says what was found, also with the table of the logs' rows on
/// the disk; the names that it and the new log take are free.
pub fn a_new_manifest_would_say_the_same()
    ensures says { (dir : List ℕ) → is_folder_name dir ≡ true → (d : disk.State) → IsAtRest dir d → TablesAreSynced d dir
        → (r : Recovery) → IsRecovery d dir r
        → (contents : Contents) (sequence : ℕ) → StandsAs dir contents sequence (tree_now d)
        → (later : disk.State) → ChangesAmong dir (table_names r.table) d later → HasNewTable later dir r.table
        → SaysAs later dir (opening_edits r) contents sequence }
    ensures free { (dir : List ℕ) → is_folder_name dir ≡ true → (d : disk.State) (r : Recovery) → IsRecovery d dir r
        → (later : disk.State) → ChangesAmong dir (table_names r.table) d later
        → (finmap.get (names_now later) (path_in dir (Manifest (new_manifest r))) ≡ None)
        × (finmap.get (names_now later) (path_in dir (Temp (new_manifest r))) ≡ None)
        × (finmap.get (names_now later) (path_in dir (Log (new_log r))) ≡ None) }
    ensures first { (dir : List ℕ) → is_folder_name dir ≡ true → (d : disk.State) → AllFresh dir d
        → finmap.get (names_now d) dir ≡ Some Folder_node → (m : ℕ) → 1 ≤ m → m + 2 < 2 ^ 56
        → SaysAs d dir (first_edit m ∷ []) finmap.empty 0 }
{}

/// While a new manifest is made and `CURRENT` comes to name it, each image shows the folder as it
/// was: it has the old `CURRENT`, or none yet, or the new manifest, which says the same.
pub fn a_new_manifest_keeps_the_folder()
    ensures stands { (dir : List ℕ) → is_folder_name dir ≡ true → (start d : disk.State) → KeepsFolder dir start d
        → IsAtRest dir d → AllStand dir d → (bytes : List ℕ) → IsWholeFile d (path_in dir Current) bytes → (number : ℕ)
        → IsFileName (Manifest number)
        → finmap.get (names_now d) (path_in dir (Manifest number)) ≡ None
        → finmap.get (names_now d) (path_in dir (Temp number)) ≡ None
        → (contents : Contents) (sequence : ℕ) → MayBecome dir start contents sequence
        → (edits : List Edit) → SaysAs d dir edits contents sequence
        → (later : disk.State) → ReplacesAt dir number d later → (t : Tree) → IsImage later t
        → HasOldOrNamesNew dir bytes number edits t → IsKeptImage dir start t }
    ensures fresh { (dir : List ℕ) → is_folder_name dir ≡ true → (start d : disk.State) → KeepsFolder dir start d
        → IsAtRest dir d → AllFresh dir d → finmap.get (names_now d) dir ≡ Some Folder_node → (number : ℕ)
        → IsFileName (Manifest number)
        → (contents : Contents) (sequence : ℕ) → MayBecome dir start contents sequence
        → (edits : List Edit) → SaysAs d dir edits contents sequence
        → (later : disk.State) → ReplacesAt dir number d later → (t : Tree) → IsImage later t
        → HasNoneOrNamesNew dir number edits t → IsKeptImage dir start t }
    ensures says { (dir : List ℕ) → is_folder_name dir ≡ true → (d : disk.State) (number : ℕ) → IsFileName (Manifest number)
        → (contents : Contents) (sequence : ℕ) (edits : List Edit) → SaysAs d dir edits contents sequence
        → (later : disk.State) → ReplacesAt dir number d later → SaysAs later dir edits contents sequence }
{}

/// Behind the new manifest an empty log is made, from whose number on no log was there.
pub fn an_empty_log_keeps_the_folder()
    ensures { (dir : List ℕ) → is_folder_name dir ≡ true → (start d : disk.State) → KeepsFolder dir start d → IsAtRest dir d
        → finmap.get (names_now d) dir ≡ Some Folder_node → (number : ℕ) → IsFileName (Manifest number)
        → (edits : List Edit) → IsWholeFile d (path_in dir Current) (current_text number)
        → IsWholeFile d (path_in dir (Manifest number)) (manifest_text edits)
        → (contents : Contents) (sequence : ℕ) → MayBecome dir start contents sequence → SaysAs d dir edits contents sequence
        → IsFileName (Log (log_after edits))
        → (later : disk.State) → MakesAt dir (Log (log_after edits)) d later → (t : Tree) → IsImage later t
        → MayHaveNew d (path_in dir (Log (log_after edits))) later t → IsKeptImage dir start t }
{}

/// Behind each part of an opening the next one may go on: where the folder is read, the new manifest
/// may be made, also behind the table of the logs' rows; in a fresh folder the first manifest may
/// be; and behind the manifest the empty log.
pub fn a_part_of_an_opening_leads_to_the_next()
    ensures plain { (dir : List ℕ) → is_folder_name dir ≡ true → (start d : disk.State) → KeepsFolder dir start d
        → IsAtRest dir d → TablesAreSynced d dir → (r : Recovery) → IsRecovery d dir r → r.table ≡ None
        → MaySwitch dir start d (new_manifest r) (opening_edits r) }
    ensures writing { (dir : List ℕ) → is_folder_name dir ≡ true → (start d : disk.State) → KeepsFolder dir start d
        → IsAtRest dir d → TablesAreSynced d dir → (r : Recovery) → IsRecovery d dir r → (new : NewTable) → r.table ≡ Some new
        → (later : disk.State) → MakesAt dir (Table new.info.number) d later → KeepsFolder dir start later }
    ensures table { (dir : List ℕ) → is_folder_name dir ≡ true → (start d : disk.State) → KeepsFolder dir start d
        → IsAtRest dir d → TablesAreSynced d dir → (r : Recovery) → IsRecovery d dir r → (new : NewTable) → r.table ≡ Some new
        → (later : disk.State) → MakesAt dir (Table new.info.number) d later → later.pending ≡ []
        → HasNewTable later dir r.table → MaySwitch dir start later (new_manifest r) (opening_edits r) }
    ensures fresh { (dir : List ℕ) → is_folder_name dir ≡ true → (start d : disk.State) → KeepsFolder dir start d
        → IsAtRest dir d → finmap.get (names_now d) dir ≡ Some Folder_node → IsFresh (place_of dir (tree_now d)) → (m : ℕ) → 1 ≤ m
        → m + 2 < 2 ^ 56 → MayBegin dir start d m }
    ensures switched { (dir : List ℕ) → is_folder_name dir ≡ true → (start d : disk.State) (number : ℕ) (edits : List Edit)
        → MaySwitch dir start d number edits → (later : disk.State) → KeepsFolder dir start later
        → ReplacesAt dir number d later → HasReplaced later dir number edits → MayMakeLog dir start later number edits }
    ensures begun { (dir : List ℕ) → is_folder_name dir ≡ true → (start d : disk.State) (number : ℕ)
        → MayBegin dir start d number → (later : disk.State) → KeepsFolder dir start later → ReplacesAt dir number d later
        → HasReplaced later dir number (first_edit number ∷ []) → MayMakeLog dir start later number (first_edit number ∷ []) }
{}
