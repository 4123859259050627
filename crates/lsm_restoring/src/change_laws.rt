//! Laws of what the disk calls of a restore change. The function does nothing: its contracts are the laws.
ghost use Rattle.std.specs.Prelude.{◌≡◌, ℕ, true, List, length, Option, Some};
ghost use Rattle.lsm_names.specs.Folders.{is_folder_name};
ghost use Rattle.lsm_names.specs.FileNames.{IsFileName};
ghost use Rattle.lsm_names.specs.declared.file_names.FileName.{FileName};
ghost use Rattle.lsm_disk.specs.Names.{Folder_node, Put};
ghost use Rattle.lsm_disk.specs.State.{State, Story, Change, Created, Named, after, state_of, file_at};
ghost use Rattle.lsm_disk.specs.Images.{Tree};
ghost use Rattle.lsm_disk.specs.Goes.{Went};
ghost use Rattle.lsm_disk.specs.Kept.{InFile};
ghost use Rattle.lsm_disk.specs.Dest.{path_in};
ghost use Rattle.lsm_disk.specs.Building.{IsWithin};
ghost use Rattle.lsm_refine.specs.Sane.{IsAlone};
ghost use Rattle.lsm_refine.specs.Beside.{LeadToFiles};
ghost use Rattle.lsm_restoring.specs.Restoring.{ChangesOnly};

/// Each disk call of a restore changes its folder alone: none, the folder's making, a file's making, and what is done to a file
/// that has no other name, which keeps it its only one. So it is behind a run of such changes, in files that were made on the
/// way, and at each moment of it.
pub fn a_restores_calls_change_its_folder_alone()
    ensures none { (folder : List ℕ) (d : State) → ChangesOnly folder d d }
    ensures folder { (folder : List ℕ) → is_folder_name folder ≡ true → (d : State) → LeadToFiles d
        → ChangesOnly folder d (after d (Named (Put folder Folder_node))) }
    ensures created { (folder : List ℕ) → is_folder_name folder ≡ true → (name : FileName) → IsFileName name → (d : State)
        → LeadToFiles d → ChangesOnly folder d (after d (Created (path_in folder name))) }
    ensures created_alone { (folder : List ℕ) → is_folder_name folder ≡ true → (name : FileName) → IsFileName name →
        (d : State)
        → LeadToFiles d → IsAlone (after d (Created (path_in folder name))) (path_in folder name) }
    ensures written { (folder : List ℕ) → is_folder_name folder ≡ true → (name : FileName) → IsFileName name → (d : State)
        (id : ℕ)
        → file_at d (path_in folder name) ≡ Some id → IsAlone d (path_in folder name) → (c : Change) → InFile id c
        → ChangesOnly folder d (after d c) × IsAlone (after d c) (path_in folder name) }
    ensures run { (folder : List ℕ) → is_folder_name folder ≡ true → (before : Story) (told : Option Story)
        → LeadToFiles (state_of before)
        → Went before told (IsWithin folder (length (state_of before).files)) (λ (x : State) (t : Tree). Unit {0})
        (λ (x : State). Unit {0})
        → Went before told (IsWithin folder (length (state_of before).files))
        (λ (x : State) (t : Tree). ChangesOnly folder (state_of before) x)
        (λ (x : State). ChangesOnly folder (state_of before) x) }
{}
