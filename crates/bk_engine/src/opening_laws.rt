//! A law of the opening of an engine: the contract of a function that does nothing.
ghost use Rattle.std.specs.Prelude.{◌≡◌, ℕ, Option, None, false};
ghost use Rattle.lsm_disk.specs.State.{Story, state_of};
ghost use Rattle.lsm_disk.specs.Goes.{Went};
ghost use Rattle.lsm_disk.specs.Kept.{IsKeptName};
ghost use Rattle.bk_tree.specs.Places.{meta_path};
ghost use Rattle.bk_tree.specs.Listed.{is_listed};
ghost use Rattle.bk_engine.specs.Copying.{Anything, Whatever};
ghost use Rattle.bk_engine.specs.Opening.{MakesRoots};

/// While the three folders are made, an identifier whose meta no crash leaves isn't listed in any image of any moment, and no
/// crash leaves its meta afterwards.
pub fn no_backup_is_listed_by_an_opening()
    ensures { (id : ℕ) (story : Story) (told : Option Story) → IsKeptName (state_of story) (meta_path id) None
        → Went story told MakesRoots Anything Whatever
        → Went story told MakesRoots (λ s t. is_listed t id ≡ false) (λ s. IsKeptName s (meta_path id) None) }
{}
