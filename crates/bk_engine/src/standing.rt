//! Laws of what backups and restored folders stand for: each is the contract of a function that does nothing.
ghost use Rattle.std.specs.Prelude.{◌≡◌, ◌≢◌, ℕ, ◌<◌, ◌≤◌, List, length, All, Option, Some, None, Ok, IsTrue};
ghost use Rattle.std.specs.FinMap as finmap;
ghost use Rattle.lsm_names.specs.FileNames.{IsFileName};
ghost use Rattle.lsm_names.specs.Paths.{is_component};
ghost use Rattle.lsm_rows.specs.declared.operations.Op.{Op};
ghost use Rattle.lsm_rows.specs.Replay.{Contents, replayed, sequence_after};
ghost use Rattle.lsm_disk.specs.Names.{stands};
ghost use Rattle.lsm_disk.specs.State.{State, Story, Change, after, state_of, names_now};
ghost use Rattle.lsm_disk.specs.Tree.{IsLawful};
ghost use Rattle.lsm_disk.specs.Images.{Tree, IsImage, tree_now};
ghost use Rattle.lsm_disk.specs.Goes.{Went};
ghost use Rattle.lsm_disk.specs.Kept.{InFile};
ghost use Rattle.lsm_disk.specs.Building.{Part, names_of, IsWithin, IsWhole, IsBuilt};
ghost use Rattle.lsm_wal.specs.Batches.{IsLogged, in_sequence};
ghost use Rattle.lsm_folder.specs.Files.{Files, Stands_with, place_of};
ghost use Rattle.lsm_folder.specs.Reading.{reading};
ghost use Rattle.lsm_folder.specs.Needed.{Stands};
ghost use Rattle.bk_meta.specs.declared.metas.Meta.{Meta};
ghost use Rattle.bk_tree.specs.Holds.{meta_in, held, folder_of};
ghost use Rattle.bk_tree.specs.Kept.{IsKeptBackup};
ghost use Rattle.bk_tree.specs.Sound.{IsSoundBackup};
ghost use Rattle.bk_restore.specs.Restored.{IsFolderOf};
ghost use Rattle.bk_restore.specs.Held.{files_of};
ghost use Rattle.bk_engine.specs.Copying.{Whatever, Anything};
ghost use Rattle.bk_engine.specs.Standing.{plain_texts, backup_meta, HasNoLog};
ghost use Rattle.bk_engine.specs.Leaving.{LeavesFolder, SparesFolder, HasNoNameOf};

/// A store's folder that has a new store's manifest and no log stands for nothing.
pub fn no_log_stands()
    ensures { (files : Files) → HasNoLog files → Stands files finmap.empty 0 }
{}

/// The folder that a backup without tables makes of its files stands for the batches of the store, at their last sequence.
pub fn plain_backup_stands()
    ensures { (id timestamp sequence : ℕ) (accepted : List (List Op)) → All IsLogged (in_sequence 1 accepted)
        → (files : Files) × (folder_of (backup_meta id timestamp sequence accepted) (plain_texts accepted) ≡ Some files)
        × Stands files (replayed finmap.empty accepted) (sequence_after 0 accepted) }
{}

/// Where such a backup outlives each crash, each image holds a folder that stands for the batches; and if the meta has their
/// last sequence, the backup is sound there.
pub fn kept_plain_backup_stands()
    ensures holds { (s : State) (id timestamp sequence : ℕ) (accepted : List (List Op)) (t : Tree) → All IsLogged (in_sequence 1 accepted)
        → IsKeptBackup s (backup_meta id timestamp sequence accepted) (plain_texts accepted) → IsImage s t
        → (files : Files) × (held t id ≡ Some files) × Stands files (replayed finmap.empty accepted) (sequence_after 0 accepted) }
    ensures sound { (s : State) (id timestamp : ℕ) (accepted : List (List Op)) (t : Tree) → All IsLogged (in_sequence 1 accepted)
        → IsKeptBackup s (backup_meta id timestamp (sequence_after 0 accepted) accepted) (plain_texts accepted) → IsImage s t
        → IsSoundBackup t id }
{}

/// The parts of a restored folder have names of files, and are the files that the backup disk's tree holds under the meta's
/// identifier. So they stand for what the backup stands for.
pub fn restored_parts_are_files()
    ensures names { (meta : Meta) (told : Option Story) (whole : List Part) → IsFolderOf meta told whole → All IsFileName (names_of whole) }
    ensures held { (story : Story) (meta : Meta) (whole : List Part) → meta_in (tree_now (state_of story)) meta.id ≡ Some meta
        → IsFolderOf meta (Some story) whole
        → held (tree_now (state_of story)) meta.id ≡ Some (files_of whole) }
    ensures stands { (story : Story) (meta : Meta) (whole : List Part) (files : Files) (contents : Contents) (sequence : ℕ)
        → meta_in (tree_now (state_of story)) meta.id ≡ Some meta → held (tree_now (state_of story)) meta.id ≡ Some files
        → Stands files contents sequence → IsFolderOf meta (Some story) whole → Stands (files_of whole) contents sequence }
{}

/// A restored folder has its parts and nothing else in each image, and reads as they do. So it does now.
pub fn restored_folder_stands()
    ensures place { (s : State) (dir : List ℕ) (whole : List Part) (t : Tree) → 1 ≤ length dir → All IsFileName (names_of whole)
        → IsBuilt dir whole s → IsImage s t → place_of dir t ≡ Stands_with (files_of whole) }
    ensures image { (s : State) (dir : List ℕ) (whole : List Part) (contents : Contents) (sequence : ℕ) (t : Tree)
        → 1 ≤ length dir → All IsFileName (names_of whole)
        → IsBuilt dir whole s → Stands (files_of whole) contents sequence → IsImage s t
        → reading (place_of dir t) ≡ Ok (record { sequence = sequence; contents = contents }) }
    ensures now { (s : State) (dir : List ℕ) (whole : List Part) (contents : Contents) (sequence : ℕ) → 1 ≤ length dir
        → All IsFileName (names_of whole)
        → IsBuilt dir whole s → Stands (files_of whole) contents sequence
        → reading (place_of dir (tree_now s)) ≡ Ok (record { sequence = sequence; contents = contents }) }
{}

/// A restored folder stays built, whole in each image on the way, while its names and its files are left alone: by one change;
/// by changes that leave its names and the files that are there; by those of one file that none of its names leads to; and
/// while another folder is built in the root.
pub fn built_folder_stays()
    ensures change { (s : State) (c : Change) (dir : List ℕ) (parts : List Part) → IsBuilt dir parts s → LeavesFolder dir s c
        → IsBuilt dir parts (after s c) }
    ensures kind { (dir : List ℕ) (parts : List Part) (story : Story) (told : Option Story) → IsBuilt dir parts (state_of story)
        → Went story told (SparesFolder dir (length (state_of story).files)) Anything Whatever
        → Went story told (SparesFolder dir (length (state_of story).files)) (λ s t. IsWhole dir parts t) (λ s. IsBuilt dir parts s) }
    ensures file { (dir : List ℕ) (parts : List Part) (story : Story) (told : Option Story) (id : ℕ) → HasNoNameOf dir
        (state_of story) id → IsBuilt dir parts (state_of story)
        → Went story told (InFile id) Anything Whatever
        → Went story told (InFile id) (λ s t. IsWhole dir parts t) (λ s. IsBuilt dir parts s) }
    ensures folder { (dir other : List ℕ) (parts : List Part) (story : Story) (told : Option Story) → IsTrue (is_component dir)
        → IsTrue (is_component other) → other ≢ dir
        → IsBuilt dir parts (state_of story) → Went story told (IsWithin other (length (state_of story).files)) Anything Whatever
        → Went story told (IsWithin other (length (state_of story).files)) (λ s t. IsWhole dir parts t) (λ s. IsBuilt dir parts s) }
{}

/// No name at a folder or in it comes to lead to a file, while the names are left alone: by changes that leave them; by those of
/// one file; and while another folder is built in the root.
pub fn no_name_of_a_file_comes()
    ensures kind { (dir : List ℕ) (story : Story) (told : Option Story) (id first : ℕ) → HasNoNameOf dir (state_of story) id
        → Went story told (SparesFolder dir first) Anything Whatever
        → Went story told (SparesFolder dir first) Anything (λ s. HasNoNameOf dir s id) }
    ensures file { (dir : List ℕ) (story : Story) (told : Option Story) (id other : ℕ) → HasNoNameOf dir (state_of story) id
        → Went story told (InFile other) Anything Whatever
        → Went story told (InFile other) Anything (λ s. HasNoNameOf dir s id) }
    ensures folder { (dir other : List ℕ) (story : Story) (told : Option Story) (id first : ℕ) → IsTrue (is_component dir)
        → IsTrue (is_component other) → other ≢ dir
        → HasNoNameOf dir (state_of story) id → Went story told (IsWithin other first) Anything Whatever
        → Went story told (IsWithin other first) Anything (λ s. HasNoNameOf dir s id) }
{}

/// While a folder is built whose name was free, no name at it or in it leads to an older file.
pub fn a_new_folder_has_new_files()
    ensures { (dir : List ℕ) (story : Story) (told : Option Story) → IsLawful (state_of story) → stands
        (names_now (state_of story)) dir ≡ None
        → Went story told (IsWithin dir (length (state_of story).files)) Anything Whatever
        → Went story told (IsWithin dir (length (state_of story).files)) Anything
        (λ s. (id : ℕ) → id < length (state_of story).files → HasNoNameOf dir s id) }
{}
