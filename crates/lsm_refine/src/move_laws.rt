//! Laws of what stays where a folder moves that isn't the store's. The function does nothing: its contracts are the laws.
ghost use Rattle.std.specs.Prelude.{◌≡◌, ◌≢◌, ℕ, true, List, All};
ghost use Rattle.lsm_names.specs.Folders.{is_folder_name};
ghost use Rattle.lsm_rows.specs.declared.rows.Row.{Row};
ghost use Rattle.lsm_disk.specs.Names.{Moved};
ghost use Rattle.lsm_disk.specs.Kept.{OpSpares};
ghost use Rattle.lsm_disk.specs.State as disk;
ghost use Rattle.lsm_disk.specs.State.{Named, after};
ghost use Rattle.lsm_version.specs.declared.edits.Edit.{Edit};
ghost use Rattle.lsm_model.specs.declared.states.State.{State};
ghost use Rattle.lsm_model.specs.declared.states.PinnedFile.{PinnedFile};
ghost use Rattle.lsm_model.specs.Halting.{built_in};
ghost use Rattle.lsm_refine.specs.Kept.{Kept, KeptPin};
ghost use Rattle.lsm_refine.specs.Parts.{Parts};
ghost use Rattle.lsm_refine.specs.Sane.{IsAlone, IsCurrent, HasEdits, HasTables, HasLogs, IsQuiet, AreKnown, AreFiles, AreWritten, SparesNeeded};
ghost use Rattle.lsm_refine.specs.Pins.{PinFiles, AreClearable, JobsBuild};
ghost use Rattle.lsm_refine.specs.Within.{without_restore, SaneOutside};
ghost use Rattle.lsm_refine.specs.MovesApart.{MovesApart, JobApart};

/// A folder that moves from one name to another, neither of them the store's folder or in it, leaves what a running store says
/// of its own folder, and its pinned files. So it is where a finished checkpoint gets its name. Checkpoints
/// may be built still, and those under way whose folders don't move are as far as they were.
pub fn a_moved_folder_leaves_the_stores_own()
    ensures apart { (dir other : List ℕ) → is_folder_name dir ≡ true → is_folder_name other ≡ true → dir ≢ other
        → MovesApart dir (built_in other) other }
    ensures spares { (dir from to : List ℕ) → MovesApart dir from to → (d : disk.State) (kept : Kept) (last : ℕ)
        → SparesNeeded d dir kept last (Named (Moved from to)) }
    ensures current { (dir from to : List ℕ) → MovesApart dir from to → (d : disk.State) (kept : Kept)
        → IsCurrent d dir kept → IsCurrent (after d (Named (Moved from to))) dir kept }
    ensures edits { (dir from to : List ℕ) → MovesApart dir from to → (d : disk.State) (kept : Kept) (edits : List Edit)
        → IsCurrent d dir kept → HasEdits d dir kept edits → HasEdits (after d (Named (Moved from to))) dir kept edits }
    ensures tables { (dir from to : List ℕ) → MovesApart dir from to → (d : disk.State) (kept : Kept) (rows : ℕ → List Row)
        → HasTables d dir kept rows → HasTables (after d (Named (Moved from to))) dir kept rows }
    ensures logs { (dir from to : List ℕ) → MovesApart dir from to → (d : disk.State) (kept : Kept) (parts : Parts)
        → HasLogs d dir kept parts → HasLogs (after d (Named (Moved from to))) dir kept parts }
    ensures quiet { (dir from to : List ℕ) → MovesApart dir from to → (d : disk.State) (kept : Kept)
        → IsQuiet d dir kept → IsQuiet (after d (Named (Moved from to))) dir kept }
    ensures known { (dir from to : List ℕ) → MovesApart dir from to → (d : disk.State) (kept : Kept)
        → AreKnown d dir kept → AreKnown (after d (Named (Moved from to))) dir kept }
    ensures files { (dir from to : List ℕ) → MovesApart dir from to → (d : disk.State)
        → AreFiles d dir → AreFiles (after d (Named (Moved from to))) dir }
    ensures pinned { (dir from to : List ℕ) → MovesApart dir from to → (d : disk.State) (files : List PinnedFile)
        → PinFiles d dir files → PinFiles (after d (Named (Moved from to))) dir files }
    ensures written { (dir from to : List ℕ) → MovesApart dir from to → (d : disk.State) (kept : Kept) (log : ℕ)
        → AreWritten d dir (without_restore kept) log → AreWritten (after d (Named (Moved from to))) dir (without_restore kept) log }
    ensures sane { (dir from to : List ℕ) → MovesApart dir from to → (d : disk.State) (kept : Kept) (parts : Parts)
        → SaneOutside d dir kept parts → SaneOutside (after d (Named (Moved from to))) dir kept parts }
    ensures clear { (from to : List ℕ) → is_folder_name to ≡ true → (d : disk.State)
        → AreClearable d → AreClearable (after d (Named (Moved from to))) }
    ensures alone { (dir from to : List ℕ) → MovesApart dir from to → (d : disk.State) (path : List ℕ)
        → OpSpares path (Moved from to) → IsAlone d path → IsAlone (after d (Named (Moved from to))) path }
    ensures jobs { (dir from to : List ℕ) → MovesApart dir from to → (d : disk.State) (kept : List KeptPin) (s : State)
        → All (λ (pin : KeptPin). JobApart from to pin.job) kept
        → JobsBuild d dir kept s → JobsBuild (after d (Named (Moved from to))) dir kept s }
    ensures beside { (job other : List ℕ) → is_folder_name job ≡ true → is_folder_name other ≡ true → job ≢ other
        → MovesApart (built_in job) (built_in other) other }
{}
