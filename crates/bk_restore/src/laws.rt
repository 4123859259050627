//! Laws of restored folders: each is the contract of a function that does nothing.
ghost use Rattle.std.specs.Prelude.{◌≡◌, List, Some, None};
ghost use Rattle.lsm_disk.specs.State.{Story, state_of};
ghost use Rattle.lsm_disk.specs.Images.{Tree, tree_now};
ghost use Rattle.lsm_disk.specs.Building.{Part};
ghost use Rattle.bk_meta.specs.declared.metas.Meta.{Meta};
ghost use Rattle.bk_tree.specs.Holds.{meta_in, held};
ghost use Rattle.lsm_folder.specs.Files.{Files};
ghost use Rattle.bk_restore.specs.Wrong.{first_wrong, in_order};
ghost use Rattle.bk_restore.specs.Restored.{IsFolderOf};
ghost use Rattle.bk_restore.specs.Held.{files_of, current_first};

/// The parts of a restored folder are the files that the backup disk's tree holds under the
/// meta's identifier, but that `CURRENT` comes first.
pub fn restored_parts_are_held()
    ensures { (story : Story) (meta : Meta) (whole : List Part) → meta_in (tree_now (state_of story)) meta.id ≡ Some meta
        → IsFolderOf meta (Some story) whole
        → (parts : List Part) × (whole ≡ current_first parts) × (held (tree_now (state_of story)) meta.id ≡ Some (files_of parts)) }
{}

/// A backup that the tree holds has no file that is missing, damaged or of a wrong size.
pub fn held_backup_is_right()
    ensures { (t : Tree) (meta : Meta) (files : Files) → meta_in t meta.id ≡ Some meta → held t meta.id ≡ Some files
        → first_wrong meta.id t (in_order meta.id meta.files) ≡ None }
{}
