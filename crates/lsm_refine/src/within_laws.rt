//! Laws of what stays while a restore builds its folder, which is another than the store's. The functions do nothing: their
//! contracts are the laws.
ghost use Rattle.std.specs.Prelude.{◌≡◌, ◌≢◌, ℕ, true, is_some, List, length, All, Option};
ghost use Rattle.std.specs.FinMap as finmap;
ghost use Rattle.lsm_names.specs.Folders.{is_folder_name};
ghost use Rattle.lsm_rows.specs.declared.rows.Row.{Row};
ghost use Rattle.lsm_disk.specs.State as disk;
ghost use Rattle.lsm_disk.specs.State.{Story, Change, after, state_of};
ghost use Rattle.lsm_disk.specs.Images.{Tree, IsImage, tree_now};
ghost use Rattle.lsm_disk.specs.Goes.{Went};
ghost use Rattle.lsm_disk.specs.Building.{IsWithin};
ghost use Rattle.lsm_version.specs.declared.edits.Edit.{Edit};
ghost use Rattle.lsm_model.specs.declared.states.State.{State};
ghost use Rattle.lsm_model.specs.declared.states.FolderRead.{FolderRead};
ghost use Rattle.lsm_model.specs.declared.states.PinnedFile.{PinnedFile};
ghost use Rattle.lsm_model.specs.States.{folder_of};
ghost use Rattle.lsm_refine.specs.Kept.{Kept, KeptPin};
ghost use Rattle.lsm_refine.specs.Parts.{Parts};
ghost use Rattle.lsm_refine.specs.Sane.{IsAlone, IsCurrent, HasEdits, HasTables, HasLogs, IsQuiet, AreKnown, AreFiles, AreWritten, RestoreBuilds, Sane, in_hand};
ghost use Rattle.lsm_refine.specs.Pins.{AreClearable, PinFiles, JobsBuild};
ghost use Rattle.lsm_refine.specs.Folders.{folder_reading, StandsFrom, IsSure, FoldersRead, AreAlikeOutside, ChangesInside};
ghost use Rattle.lsm_refine.specs.Beside.{LeadToFiles};
ghost use Rattle.lsm_refine.specs.Within.{AreOlderOutside, ChangesWithin, BuildsWithin, without_restore, IsNamedJob, SaneOutside, AreOthers, ReadsHere};

/// What changes in one folder alone: nothing, one such change behind another, and each change that a destination makes in the
/// folder, where the names outside lead to files that were made before. So it is behind a run of such changes, and at each
/// moment on the way.
pub fn changes_within_a_folder()
    ensures none { (folder : List ℕ) (first : ℕ) → is_folder_name folder ≡ true → (d : disk.State) → AreOlderOutside folder first d
        → BuildsWithin folder first d d }
    ensures both { (folder : List ℕ) (first : ℕ) → is_folder_name folder ≡ true → (d mid later : disk.State)
        → BuildsWithin folder first d mid → BuildsWithin folder first mid later → BuildsWithin folder first d later }
    ensures once { (folder : List ℕ) (first : ℕ) → is_folder_name folder ≡ true → (d : disk.State) (c : Change)
        → AreOlderOutside folder first d → IsWithin folder first c → BuildsWithin folder first d (after d c) }
    ensures run { (folder : List ℕ) (first : ℕ) → is_folder_name folder ≡ true → (before : Story) (told : Option Story)
        → AreOlderOutside folder first (state_of before)
        → Went before told (IsWithin folder first) (λ s t. Unit {0}) (λ s. Unit {0})
        → Went before told (IsWithin folder first) (λ s t. BuildsWithin folder first (state_of before) s)
        (λ s. BuildsWithin folder first (state_of before) s) }
    ensures older { (folder : List ℕ) (d : disk.State) → LeadToFiles d → AreOlderOutside folder (length d.files) d }
{}

/// What changes in another folder alone leaves all that a running store says of its own: each part of it, and the whole but for
/// what it says of the folder that a restore builds.
pub fn the_stores_own_folder_stays()
    ensures current { (folder dir : List ℕ) → is_folder_name folder ≡ true → is_folder_name dir ≡ true → folder ≢ dir
        → (d later : disk.State) → ChangesWithin folder d later → (kept : Kept) → IsCurrent d dir kept → IsCurrent later dir kept }
    ensures edits { (folder dir : List ℕ) → is_folder_name folder ≡ true → is_folder_name dir ≡ true → folder ≢ dir
        → (d later : disk.State) → ChangesWithin folder d later → (kept : Kept) (edits : List Edit)
        → HasEdits d dir kept edits → HasEdits later dir kept edits }
    ensures tables { (folder dir : List ℕ) → is_folder_name folder ≡ true → is_folder_name dir ≡ true → folder ≢ dir
        → (d later : disk.State) → ChangesWithin folder d later → (kept : Kept) (rows : ℕ → List Row)
        → HasTables d dir kept rows → HasTables later dir kept rows }
    ensures logs { (folder dir : List ℕ) → is_folder_name folder ≡ true → is_folder_name dir ≡ true → folder ≢ dir
        → (d later : disk.State) → ChangesWithin folder d later → (kept : Kept) (parts : Parts)
        → HasLogs d dir kept parts → HasLogs later dir kept parts }
    ensures quiet { (folder dir : List ℕ) → is_folder_name folder ≡ true → is_folder_name dir ≡ true → folder ≢ dir
        → (d later : disk.State) → ChangesWithin folder d later → (kept : Kept) → IsQuiet d dir kept → IsQuiet later dir kept }
    ensures known { (folder dir : List ℕ) → is_folder_name folder ≡ true → is_folder_name dir ≡ true → folder ≢ dir
        → (d later : disk.State) → ChangesWithin folder d later → (kept : Kept) → AreKnown d dir kept → AreKnown later dir kept }
    ensures files { (folder dir : List ℕ) → is_folder_name folder ≡ true → is_folder_name dir ≡ true → folder ≢ dir
        → (d later : disk.State) → ChangesWithin folder d later → AreFiles d dir → AreFiles later dir }
    ensures written { (folder dir : List ℕ) → is_folder_name folder ≡ true → is_folder_name dir ≡ true → folder ≢ dir
        → (d later : disk.State) → ChangesWithin folder d later → (kept : Kept) (log : ℕ)
        → AreWritten d dir (without_restore kept) log → AreWritten later dir (without_restore kept) log }
    ensures sane { (folder dir : List ℕ) → is_folder_name folder ≡ true → is_folder_name dir ≡ true → folder ≢ dir
        → (d later : disk.State) → ChangesWithin folder d later → (kept : Kept) (parts : Parts)
        → SaneOutside d dir kept parts → SaneOutside later dir kept parts }
{}

/// A running store's parts are so but for the restore's folder; and all of them are so again where that folder is as it is
/// kept, and the file in hand has no other name.
pub fn a_restores_folder_is_one_part()
    ensures taken { (d : disk.State) (dir : List ℕ) (kept : Kept) (parts : Parts) → Sane d dir kept parts → SaneOutside d dir kept parts }
    ensures put { (d : disk.State) (dir : List ℕ) (kept : Kept) (parts : Parts) → SaneOutside d dir kept parts
        → RestoreBuilds d dir kept.begun kept.hand → All (IsAlone d) (in_hand kept.begun kept.hand) → Sane d dir kept parts }
{}

/// Nor does it touch a pinned file or the checkpoints under way, whose folders have a folder's name, or bring anything in the
/// way of one.
pub fn pins_and_checkpoints_stay()
    ensures pinned { (folder dir : List ℕ) → is_folder_name folder ≡ true → is_folder_name dir ≡ true → folder ≢ dir
        → (d later : disk.State) → ChangesWithin folder d later → (files : List PinnedFile)
        → PinFiles d dir files → PinFiles later dir files }
    ensures clear { (folder dir : List ℕ) → is_folder_name folder ≡ true → is_folder_name dir ≡ true → folder ≢ dir
        → (d later : disk.State) → ChangesWithin folder d later → AreClearable d → AreClearable later }
    ensures jobs { (folder dir : List ℕ) → is_folder_name folder ≡ true → is_folder_name dir ≡ true → folder ≢ dir
        → (d later : disk.State) → ChangesWithin folder d later → (kept : List KeptPin) (s : State)
        → All (λ (pin : KeptPin). IsNamedJob pin.job) kept → JobsBuild d dir kept s → JobsBuild later dir kept s }
{}

/// Every other folder reads as it did, now, and in each image as in one of the earlier disk; so it is sure still where it was,
/// and the store's own stands for the same batches. All folders read as another state says that differs in this one's entry
/// alone, where the folder itself reads so.
pub fn folders_beside_read_as_before()
    ensures reads { (folder : List ℕ) (d later : disk.State) → ChangesInside folder d later → (name : List ℕ)
        → is_folder_name name ≡ true → name ≢ folder → folder_reading name (tree_now later) ≡ folder_reading name (tree_now d) }
    ensures there { (folder : List ℕ) (d later : disk.State) → ChangesInside folder d later → (name : List ℕ)
        → is_folder_name name ≡ true → name ≢ folder
        → is_some (finmap.get (tree_now later).names name) ≡ is_some (finmap.get (tree_now d).names name) }
    ensures images { (folder : List ℕ) (d later : disk.State) → ChangesInside folder d later → (name : List ℕ)
        → is_folder_name name ≡ true → name ≢ folder → (u : Tree) → IsImage later u → (t : Tree) × IsImage d t
        × (folder_reading name u ≡ folder_reading name t)
        × (is_some (finmap.get u.names name) ≡ is_some (finmap.get t.names name)) }
    ensures sure { (folder : List ℕ) (d later : disk.State) → ChangesInside folder d later → (entry : FolderRead)
        → is_folder_name entry.name ≡ true → entry.name ≢ folder → IsSure d entry → IsSure later entry }
    ensures own { (folder : List ℕ) (t u : Tree) → AreAlikeOutside folder t u → (s : State) (least : ℕ)
        → is_folder_name s.own ≡ true → s.own ≢ folder → StandsFrom s least t → StandsFrom s least u }
    ensures all { (folder : List ℕ) (d later : disk.State) (s t : State) → ChangesInside folder d later → t.own ≡ s.own
        → ((name : List ℕ) → name ≢ folder → folder_of name t.folders ≡ folder_of name s.folders) → FoldersRead d s
        → AreOthers t → ReadsHere folder later t → FoldersRead later t }
{}
