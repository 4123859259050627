//! Laws of a restore onto a store's own disk. The functions do nothing: their contracts are the laws.
ghost use Rattle.std.specs.Prelude.{◌≡◌, ◌⊎◌, ℕ, Bool, true, List, Option, Some, None, Err};
ghost use Rattle.std.specs.FinMap as finmap;
ghost use Rattle.lsm_names.specs.Folders.{is_folder_name};
ghost use Rattle.lsm_names.specs.declared.file_names.FileName.{FileName};
ghost use Rattle.lsm_names.specs.declared.file_names.FileName.TheVariants.{Current};
ghost use Rattle.lsm_disk.specs.Names.{Folder_node};
ghost use Rattle.lsm_disk.specs.State as disk;
ghost use Rattle.lsm_disk.specs.State.{Seen, Story, Change, after, state_of};
ghost use Rattle.lsm_disk.specs.Images.{Tree, IsImage, tree_now};
ghost use Rattle.lsm_disk.specs.Goes.{Went};
ghost use Rattle.lsm_disk.specs.Answers.{Makes};
ghost use Rattle.lsm_disk.specs.Dest.{Begun, path_in};
ghost use Rattle.lsm_disk.specs.Building.{Part, HoldsNames, IsBuilt};
ghost use Rattle.lsm_disk.specs.declared.calls.Halt.{Halt};
ghost use Rattle.lsm_model.specs.declared.errors.StoreError.TheVariants as error;
ghost use Rattle.lsm_model.specs.declared.states.State.{State};
ghost use Rattle.lsm_model.specs.declared.states.FolderRead.{FolderRead};
ghost use Rattle.lsm_model.specs.Counts.{IsThere};
ghost use Rattle.lsm_refine.specs.Kept.{Shown};
ghost use Rattle.lsm_refine.specs.Folders.{folder_reading, IsSure, FoldersRead, ChangesInside};
ghost use Rattle.lsm_refine.specs.Good.{Good, stopped};
ghost use Rattle.lsm_refine.specs.Grown.{halted_shown};
ghost use Rattle.lsm_refine.specs.Moments.{ReadsAsCrashed, ImagesShow};
ghost use Rattle.lsm_restoring.specs.Restoring.{ChangesOnly, LacksCurrentNow, MayRestore, IsRestoring, folder_begun, restored_shown, restored_state};

/// A good store whose disk changed within a restore's folder alone is good for the state that lists the folders as they read
/// now. Where a disk call failed on the way it is halted, and good too.
pub fn a_restore_leaves_a_good_store()
    ensures goes_on { (v : Shown) (s : State) (good : Good v s) → v.halt ≡ None → (folder : List ℕ)
        → MayRestore folder v s → (seen : Seen) (story : Story) → seen.told ≡ Some story
        → ChangesOnly folder (state_of good.story) (state_of story) → (begun : Option Begun) (hand : Option FileName)
        → IsRestoring (state_of story) v.dir begun hand → (folders : List FolderRead)
        → FoldersRead (state_of story) (restored_state seen folders (folder_begun begun) s) → IsThere folders
        (folder_begun begun)
        → Good (restored_shown seen begun hand v) (restored_state seen folders (folder_begun begun) s) }
    ensures failed { (v : Shown) (s : State) (good : Good v s) → v.halt ≡ None → (folder : List ℕ)
        → MayRestore folder v s → (seen : Seen) (story : Story) → seen.told ≡ Some story
        → ChangesOnly folder (state_of good.story) (state_of story) → (at : Halt) (folders : List FolderRead)
        → FoldersRead (state_of story) (restored_state seen folders None s) → IsThere folders (folder_begun v.kept.begun)
        → Good (halted_shown seen at v) (stopped at (restored_state seen folders (folder_begun v.kept.begun) s)) }
{}

/// A folder that stands without `CURRENT` reads so, and it does while it is built. One that was built whole reads in each
/// image as it does now.
pub fn a_restores_folder_reads_so()
    ensures lacks { (folder : List ℕ) → is_folder_name folder ≡ true → (t : Tree)
        → finmap.get t.names folder ≡ Some Folder_node
        → finmap.get t.names (path_in folder Current) ≡ None → folder_reading folder t ≡ Err (error.NoCurrent folder) }
    ensures building { (start : disk.State) (folder : List ℕ) (names : List FileName) (d : disk.State)
        → HoldsNames start folder names d → LacksCurrentNow folder d }
    ensures whole { (folder : List ℕ) → is_folder_name folder ≡ true → (parts : List Part) (x : disk.State)
        → IsBuilt folder parts x
        → (sure : Bool) → IsSure x (record { name = folder; reading = folder_reading folder (tree_now x); sure = sure }) }
{}

/// While all that changes is within a restore's folder, each image of the disk reads as a crash leaves the state before; so do
/// all images of a call whose changes are such, whatever the state behind it.
pub fn images_of_a_restore_show_the_state()
    ensures image { (v : Shown) (s : State) (good : Good v s) → v.halt ≡ None → (folder : List ℕ)
        → MayRestore folder v s → (x : disk.State) → ChangesInside folder (state_of good.story) x
        → (u : Tree) → IsImage x u → ReadsAsCrashed s u }
    ensures run { (v : Shown) (s : State) (good : Good v s) → v.halt ≡ None → (folder : List ℕ)
        → MayRestore folder v s → (told : Option Story)
        → Went good.story told (λ (c : Change). Unit {0})
        (λ (x : disk.State) (t : Tree). ChangesOnly folder (state_of good.story) x) (λ (x : disk.State). Unit {0})
        → (later : State) → ImagesShow good.story told s later }
    ensures call { (v : Shown) (s : State) (good : Good v s) → v.halt ≡ None → (folder : List ℕ)
        → MayRestore folder v s → (c : disk.State → Change) → ChangesOnly folder (state_of good.story)
        (after (state_of good.story) (c (state_of good.story)))
        → (told : Option Story) → (told ≡ v.disk.told) ⊎ Makes v.disk.told c told → (later : State)
        → ImagesShow good.story told s later }
{}
