//! Laws of backup folders: each is the contract of a function that does nothing.
ghost use Rattle.std.specs.Prelude.{◌≡◌, ◌↔◌, ℕ, List, length, IsTrue};
ghost use Rattle.std.specs.List.{Contains};
ghost use Rattle.lsm_disk.specs.State.{State, Change, after};
ghost use Rattle.lsm_disk.specs.Images.{Tree, IsImage};
ghost use Rattle.bk_meta.specs.declared.metas.Meta.{Meta};
ghost use Rattle.bk_tree.specs.Listed.{listed, is_listed};
ghost use Rattle.bk_tree.specs.Holds.{held, folder_of};
ghost use Rattle.bk_tree.specs.Reached.{reached_by, AgreeAt};
ghost use Rattle.bk_tree.specs.Kept.{IsKeptBackup, LeavesAlone, paths_of};

/// The list of the identifiers has those of the listed backups.
pub fn listed_are_those_listed()
    ensures { (t : Tree) (id : ℕ) → Contains (listed t) id ↔ IsTrue (is_listed t id) }
{}

/// What a backup holds depends on its meta and on the files that it reaches alone.
pub fn held_by_reached_paths()
    ensures { (t u : Tree) (id : ℕ) → AgreeAt (reached_by t id) t u → held t id ≡ held u id }
{}

/// A backup that outlives each crash is held in each image, with the bytes that were kept.
pub fn kept_backup_is_held()
    ensures { (s : State) (meta : Meta) (texts : List (List ℕ)) (t : Tree) → IsKeptBackup s meta texts → IsImage s t
        → held t meta.id ≡ folder_of meta texts }
{}

/// A change that touches neither the names of a backup nor a file that is there keeps the backup.
pub fn kept_backup_stays()
    ensures { (s : State) (c : Change) (meta : Meta) (texts : List (List ℕ)) → IsKeptBackup s meta texts
        → LeavesAlone (paths_of meta) (length s.files) c → IsKeptBackup (after s c) meta texts }
{}
