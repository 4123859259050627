//! Laws of the making of a new store.
ghost use Rattle.std.specs.Prelude.{◌≡◌, ◌↔◌, ℕ, ◌+◌, ◌^◌, ◌<◌, true, is_some, List, [], ◌∷◌, All, Contains, Some, None};
ghost use Rattle.std.specs.FinMap as finmap;
ghost use Rattle.lsm_names.specs.Folders.{is_folder_name};
ghost use Rattle.lsm_names.specs.declared.file_names.FileName.{FileName};
ghost use Rattle.lsm_names.specs.FileNames.{IsFileName};
ghost use Rattle.lsm_disk.specs.Names.{Folder_node};
ghost use Rattle.lsm_disk.specs.Dest.{path_in};
ghost use Rattle.lsm_disk.specs.Images.{tree_now};
ghost use Rattle.lsm_disk.specs.State as disk;
ghost use Rattle.lsm_disk.specs.State.{names_now};
ghost use Rattle.lsm_disk.specs.Tree.{IsLawful};
ghost use Rattle.lsm_folder.specs.Files.{place_of};
ghost use Rattle.lsm_folder.specs.Needed.{IsFresh};
ghost use Rattle.lsm_refine.specs.Beside.{LeadToFiles};
ghost use Rattle.lsm_refine.specs.Pins.{AreClearable};
ghost use Rattle.lsm_refine.specs.Naming.{ReplacesAt, HasReplaced};
ghost use Rattle.lsm_refine.specs.New.{next_number, first_edit, HasNewStore};
ghost use Rattle.lsm_refine.specs.Openings.{names_in};
ghost use Rattle.lsm_refine.specs.Vacant.{IsVacant, with_folder, with_log};

/// Where nothing has a folder's name, a new folder is one in which a new store may be made.
pub fn a_new_folder_is_vacant()
    ensures { (d : disk.State) (dir : List ℕ) → is_folder_name dir ≡ true → IsLawful d → finmap.get (names_now d) dir ≡ None
        → AreClearable d → IsVacant (with_folder dir d) dir 1 [] }
{}

/// In a fresh folder that stands where all names are synced a new store may be made under the next number of its names.
pub fn a_fresh_folder_is_vacant()
    ensures vacant { (d : disk.State) (dir : List ℕ) → is_folder_name dir ≡ true → (names : List FileName)
        → ((name : FileName) → IsFileName name
        → Contains names name ↔ (is_some (finmap.get (names_now d) (path_in dir name)) ≡ true)) → All IsFileName names
        → d.pending ≡ [] → finmap.get (names_now d) dir ≡ Some Folder_node → IsFresh (place_of dir (tree_now d))
        → LeadToFiles d → AreClearable d → next_number names + 2 < 2 ^ 56 → IsVacant d dir (next_number names) names }
    ensures number { (d : disk.State) (dir : List ℕ) → is_folder_name dir ≡ true → (names : List FileName)
        → ((name : FileName) → IsFileName name
        → Contains names name ↔ (is_some (finmap.get (names_now d) (path_in dir name)) ≡ true)) → All IsFileName names
        → next_number names ≡ next_number (names_in dir (tree_now d)) }
    ensures nothing { (d : disk.State) (dir : List ℕ) → is_folder_name dir ≡ true → IsLawful d
        → finmap.get (names_now d) dir ≡ None → next_number (names_in dir (tree_now d)) ≡ 1 }
{}

/// Where a new store may be made, the first manifest and then an empty log make it.
pub fn a_new_store_is_made()
    ensures { (d mid : disk.State) (dir : List ℕ) (m : ℕ) (beside : List FileName) → is_folder_name dir ≡ true
        → IsVacant d dir m beside → ReplacesAt dir m d mid → HasReplaced mid dir m (first_edit m ∷ [])
        → HasNewStore (with_log dir (m + 1) mid) dir m beside }
{}
