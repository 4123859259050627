//! Laws of the making of backups: each is the contract of a function that does nothing.
ghost use Rattle.std.specs.Prelude.{◌≡◌, ◌≢◌, ◌^◌, ◌<◌, ℕ, List, length, Option, None, false};
ghost use Rattle.std.specs.List.{All};
ghost use Rattle.lsm_disk.specs.State.{Story, state_of};
ghost use Rattle.lsm_disk.specs.Kept.{IsKeptName};
ghost use Rattle.lsm_disk.specs.Goes.{Went};
ghost use Rattle.bk_meta.specs.declared.metas.Meta.{Meta};
ghost use Rattle.bk_tree.specs.Places.{meta_path};
ghost use Rattle.bk_tree.specs.Listed.{is_listed};
ghost use Rattle.bk_tree.specs.Holds.{held, folder_of};
ghost use Rattle.bk_tree.specs.Kept.{IsKeptBackup};
ghost use Rattle.bk_engine.specs.Copying.{Anything, Whatever};
ghost use Rattle.bk_engine.specs.Publishing.{Creates};

/// A backup that outlives each crash does so still while another one is made: each image of each moment holds it, with the
/// bytes that were kept.
pub fn other_backups_stay()
    ensures { (id : ℕ) (meta : Meta) (texts : List (List ℕ)) (story : Story) (told : Option Story) → id < 2 ^ 32 → meta.id ≢ id
        → IsKeptBackup (state_of story) meta texts
        → Went story told (Creates id (length (state_of story).files)) Anything Whatever
        → Went story told (Creates id (length (state_of story).files)) (λ s t. held t meta.id ≡ folder_of meta texts)
        (λ s. IsKeptBackup s meta texts) }
{}

/// The same of all the backups of a list at once.
pub fn other_backups_stay_held()
    ensures { (id : ℕ) (backups : List (Meta × List (List ℕ))) (story : Story) (told : Option Story) → id < 2 ^ 32 → All
        (λ b. IsKeptBackup (state_of story) b.0 b.1 × (b.0.id ≢ id)) backups
        → Went story told (Creates id (length (state_of story).files)) Anything Whatever
        → Went story told (Creates id (length (state_of story).files))
        (λ s t. All (λ b. held t b.0.id ≡ folder_of b.0 b.1) backups) (λ s. All (λ b. IsKeptBackup s b.0 b.1) backups) }
{}

/// While a backup is made, no image of any moment lists another identifier that had no meta at the start, nor after a crash
/// there.
pub fn no_other_is_listed()
    ensures { (id other : ℕ) (story : Story) (told : Option Story) → id < 2 ^ 32 → other < 2 ^ 32 → other ≢ id → IsKeptName
        (state_of story) (meta_path other) None
        → Went story told (Creates id (length (state_of story).files)) Anything Whatever
        → Went story told (Creates id (length (state_of story).files)) (λ s t. is_listed t other ≡ false)
        (λ s. IsKeptName s (meta_path other) None) }
{}
