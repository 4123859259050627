//! Laws of every story: each is the contract of a function that does nothing.
ghost use Rattle.std.specs.Prelude.{◌≡◌, ◌≢◌, ℕ, ◌<◌, false, List, [], ◌∷◌, ◌++◌, length, Some, None};
ghost use Rattle.std.specs.FinMap as map;
ghost use Rattle.lsm_names.specs.declared.file_names.FileName.TheVariants.{Current};
ghost use Rattle.lsm_disk.specs.Names.{Node, Folder_node, File_node, Names, stands, is_in, under, renamed};
ghost use Rattle.lsm_disk.specs.State.{State, FileState, Story, Change, Created, after, state_of, names_now, new_file, longer, sure, file_at, folder_made, appended, linked, renamed_by, unnamed, file_synced, names_synced};
ghost use Rattle.lsm_disk.specs.Tree.{IsTree, LeadsToFiles, IsLawful};
ghost use Rattle.lsm_disk.specs.Refusals.{no_room, no_file, no_link, no_rename, no_removal};
ghost use Rattle.lsm_disk.specs.Answers.{then_change};
ghost use Rattle.lsm_disk.specs.Images.{Tree, IsImage, IsCut, tree_now, bytes_at};
ghost use Rattle.lsm_disk.specs.Kept.{IsKeptName, IsKeptFile, Spares, SparesName, Everywhere};
ghost use Rattle.lsm_disk.specs.Dest.{path_in};
ghost use Rattle.lsm_disk.specs.Building.{Part, IsWithin, MayHaveFolder, HasNoCurrent, LacksCurrent, IsBuilt, IsWhole};

/// A disk as it reads is one of its images.
pub fn reads_as_an_image()
    ensures { (s : State) → IsImage s (tree_now s) }
{}

/// A kept file stands in each image, cut.
pub fn kept_file_everywhere()
    ensures { (s : State) (path : List ℕ) (id : ℕ) (f : FileState) → IsKeptFile s path id f → Everywhere s path (IsCut f) }
{}

/// A change that doesn't touch a kept file keeps it.
pub fn spared_file_kept()
    ensures { (s : State) (path : List ℕ) (id : ℕ) (f : FileState) (c : Change) → IsKeptFile s path id f → Spares path id c
        → IsKeptFile (after s c) path id f }
{}

/// A story that is longer by one change leads to the state after it.
pub fn story_grows_by_one()
    ensures { (story : Story) (c : Change) → state_of (then_change story c) ≡ after (state_of story) c }
{}

/// A new file is empty.
pub fn bytes_after_created()
    ensures { (s : State) (path : List ℕ) → bytes_at (tree_now (after s (Created path))) path ≡ Some [] }
{}

/// An append adds its bytes at the end.
pub fn bytes_after_appended()
    ensures { (s : State) (path more old : List ℕ) → bytes_at (tree_now s) path ≡ Some old
        → bytes_at (tree_now (after s (appended path more s))) path ≡ Some (old ++ more) }
{}

/// The other files keep their bytes: where a file or a folder is made under another name, and
/// where another file is appended to.
pub fn bytes_of_others()
    ensures created { (s : State) (path other old : List ℕ) → path ≢ other → bytes_at (tree_now s) path ≡ Some old
        → bytes_at (tree_now (after s (Created other))) path ≡ Some old }
    ensures folder_made { (s : State) (path other : List ℕ) → path ≢ other
        → bytes_at (tree_now (after s (folder_made other s))) path ≡ bytes_at (tree_now s) path }
    ensures appended { (s : State) (path other more : List ℕ) → file_at s path ≢ file_at s other
        → bytes_at (tree_now (after s (appended other more s))) path ≡ bytes_at (tree_now s) path }
{}

/// What was made stands, and the other names lead where they led.
pub fn made_names_stand()
    ensures folder { (s : State) (path : List ℕ) → stands (names_now (after s (folder_made path s))) path ≡ Some Folder_node }
    ensures file { (s : State) (path : List ℕ) → map.get (names_now (after s (Created path))) path ≡ Some (File_node (length s.files)) }
    ensures past_folder { (s : State) (path other : List ℕ) → path ≢ other
        → stands (names_now (after s (folder_made other s))) path ≡ stands (names_now s) path }
    ensures past_file { (s : State) (path other : List ℕ) → path ≢ other
        → stands (names_now (after s (Created other))) path ≡ stands (names_now s) path }
{}

/// On a lawful disk nothing stands inside a folder that isn't there, so each name in a folder
/// that was just made is free.
pub fn free_below_free()
    ensures absent { (s : State) (dir rest : List ℕ) → IsLawful s → stands (names_now s) dir ≡ None
        → stands (names_now s) (dir ++ 47 ∷ rest) ≡ None }
    ensures made { (s : State) (dir rest : List ℕ) → IsLawful s → no_room dir s ≡ None
        → stands (names_now (after s (folder_made dir s))) (dir ++ 47 ∷ rest) ≡ None }
{}

/// A disk stays lawful where a file or a folder is made, and under each change that names nothing.
pub fn lawful_after_made()
    ensures created { (s : State) (path : List ℕ) → IsLawful s → no_room path s ≡ None → IsLawful (after s (Created path)) }
    ensures folder_made { (s : State) (path : List ℕ) → IsLawful s → no_room path s ≡ None → IsLawful (after s (folder_made path s)) }
    ensures appended { (s : State) (path more : List ℕ) → IsLawful s → IsLawful (after s (appended path more s)) }
{}

/// A disk stays lawful under each call that isn't refused, and so does each image.
pub fn lawful_after_calls()
    ensures linked { (s : State) (from to : List ℕ) → IsLawful s → no_link from to s ≡ None → IsLawful (after s (linked from to s)) }
    ensures renamed { (s : State) (from to : List ℕ) → IsLawful s → no_rename from to s ≡ None → IsLawful (after s (renamed_by from to s)) }
    ensures unlinked { (s : State) (path : List ℕ) → IsLawful s → no_file path s ≡ None → IsLawful (after s (unnamed path s)) }
    ensures removed { (s : State) (path : List ℕ) → IsLawful s → no_removal path s ≡ None → IsLawful (after s (unnamed path s)) }
    ensures synced { (s : State) (path : List ℕ) → IsLawful s → IsLawful (after s (file_synced path s)) }
    ensures names_synced { (s : State) → IsLawful s → IsLawful (after s (names_synced s)) }
    ensures images { (s : State) (t : Tree) → IsLawful s → IsImage s t → IsTree t.names × LeadsToFiles t.names (length t.contents) }
{}

/// A sync makes a file whole in each image, and a sync of names makes its name sure: a new file
/// that was made and whose names were synced is kept, and its bytes are sure once it was synced.
pub fn kept_after_syncs()
    ensures created { (s : State) (path : List ℕ) → IsKeptFile
        (after (after s (Created path)) (names_synced (after s (Created path)))) path (length s.files) new_file }
    ensures appended { (s : State) (path : List ℕ) (id : ℕ) (f : FileState) (bytes : List ℕ) → IsKeptFile s path id f
        → IsKeptFile (after s (appended path bytes s)) path id (longer bytes f) }
    ensures synced { (s : State) (path : List ℕ) (id : ℕ) (f : FileState) → IsKeptFile s path id f
        → IsKeptFile (after s (file_synced path s)) path id (sure f) }
    ensures names_synced { (s : State) (path : List ℕ) (id : ℕ) (f : FileState) → IsKeptFile s path id f
        → IsKeptFile (after s (names_synced s)) path id f }
{}

/// Where a folder moves to a name at and inside which nothing stands, what stood inside it stands
/// inside the new name.
pub fn folder_moves_whole()
    ensures { (names : Names) (from to rest : List ℕ) → ((r : List ℕ) → under [] r ≡ Some r → map.get names (to ++ r) ≡ None)
        → under [] rest ≡ Some rest
        → map.get (renamed from to (Some Folder_node) names) (to ++ rest) ≡ map.get names (from ++ rest) }
{}

/// What a destination's calls leave of all outside the folder: each other name, and each file
/// that was there before.
pub fn building_spares_others()
    ensures names { (folder path : List ℕ) (first : ℕ) (c : Change) → IsWithin folder first c → is_in folder path ≡ false
        → SparesName path c }
    ensures files { (folder path : List ℕ) (first id : ℕ) (c : Change) → IsWithin folder first c → is_in folder path ≡ false
        → id < first → Spares path id c }
{}

/// A folder whose name was free for good before it was begun has no `CURRENT` until it is whole.
pub fn begun_folder_lacks_current()
    ensures begun { (start s : State) (folder : List ℕ) (t : Tree) → MayHaveFolder start folder s t → HasNoCurrent start folder s t }
    ensures free { (start : State) (folder : List ℕ) (names : Names) → IsLawful start → folder ≢ []
        → IsKeptName start folder None → LacksCurrent start folder names
        → map.get names (path_in folder Current) ≡ None }
{}

/// A finished folder is whole in each image.
pub fn built_folder_is_whole()
    ensures { (s : State) (folder : List ℕ) (parts : List Part) (t : Tree) → IsBuilt folder parts s → IsImage s t → IsWhole folder parts t }
{}
