//! Laws of what stays while a call changes one file of the store's folder, and of what is good behind it. The functions do
//! nothing: their contracts are the laws.
ghost use Rattle.std.specs.Prelude.{◌≡◌, ◌≢◌, ◌⊎◌, ℕ, ◌+◌, ◌≤◌, true, Bool, List, [], ◌∷◌, ◌++◌, length, All, Option, Some, None, Result, Ok, Err};
ghost use Rattle.std.specs.List.Sorted.{IsPermutation};
ghost use Rattle.std.specs.FinMap as finmap;
ghost use Rattle.lsm_names.specs.Folders.{is_folder_name};
ghost use Rattle.lsm_names.specs.FileNames.{IsFileName};
ghost use Rattle.lsm_names.specs.declared.file_names.FileName.{FileName};
ghost use Rattle.lsm_names.specs.declared.file_names.FileName.TheVariants.{Log, Table, Manifest, Current};
ghost use Rattle.lsm_rows.specs.declared.operations.Op.{Op};
ghost use Rattle.lsm_rows.specs.declared.rows.Row.{Row};
ghost use Rattle.lsm_rows.specs.Rows.{batch_rows};
ghost use Rattle.lsm_rows.specs.Contents.{newest};
ghost use Rattle.lsm_disk.specs.Names.{Gone};
ghost use Rattle.lsm_disk.specs.State as disk;
ghost use Rattle.lsm_disk.specs.State.{Seen, Story, Change, Created, Named, Names_synced, after, state_of, file_at, file_synced};
ghost use Rattle.lsm_disk.specs.Images.{Tree, IsImage};
ghost use Rattle.lsm_disk.specs.Kept.{InFile, HasNew};
ghost use Rattle.lsm_disk.specs.Goes.{Went};
ghost use Rattle.lsm_disk.specs.Answers.{Makes};
ghost use Rattle.lsm_disk.specs.Tree.{IsLawful};
ghost use Rattle.lsm_disk.specs.Dest.{Begun, path_in};
ghost use Rattle.lsm_disk.specs.declared.calls.Halt.{Halt};
ghost use Rattle.lsm_disk.specs.declared.calls.DiskRefusal.{DiskRefusal};
ghost use Rattle.lsm_wal.specs.Batches.{Logged, IsLogged, record_behind};
ghost use Rattle.lsm_wal.specs.Standing.{IsWal, IsTornWal, HoldsFront, IsLeft, durable_after};
ghost use Rattle.lsm_wal.specs.Making.{IsMade};
ghost use Rattle.lsm_version.specs.declared.edits.Edit.{Edit};
ghost use Rattle.lsm_version.specs.declared.tables.Placed.{Placed};
ghost use Rattle.lsm_model.specs.declared.states.State.{State};
ghost use Rattle.lsm_model.specs.declared.states.Pin.{Pin};
ghost use Rattle.lsm_model.specs.Writes.{doubting};
ghost use Rattle.lsm_refine.specs.Kept.{Kept, KeptPin, Shown};
ghost use Rattle.lsm_refine.specs.Parts.{Parts};
ghost use Rattle.lsm_refine.specs.Sane.{IsAlone, IsCurrent, HasEdits, HasTables, IsNeeded, AreFiles, RestoreBuilds, Sane};
ghost use Rattle.lsm_refine.specs.Pins.{AreClearable, PinFiles, JobsBuild};
ghost use Rattle.lsm_refine.specs.Folders.{ChangesInside};
ghost use Rattle.lsm_refine.specs.Good.{IsRunning, Good};
ghost use Rattle.lsm_refine.specs.Moments.{ReadsAsCrashed, ImagesShow, ImagesShowWrite};
ghost use Rattle.lsm_refine.specs.Beside.{ChangesAt, WritesAt, IsLone, MayBeWritten, SaneBeside, Beside, HasLast, last_path, last_batches};
ghost use Rattle.lsm_refine.specs.Grown.{IsDrawn, next_batch, sure_batches, grown_shown, grown_state, synced_shown, synced_state, halted_shown, halted_state, frozen_shown, frozen_state};

/// What changes at one path alone: nothing; one such change behind another; an append to the file, or its sync, where no other
/// name leads to it; a sync of names; the file's making, on a disk whose names lead to files that were made; and its unlinking.
pub fn changes_at_one_path()
    ensures none { (path : List ℕ) (d : disk.State) → ChangesAt path d d }
    ensures both { (path : List ℕ) (d mid later : disk.State) → ChangesAt path d mid → ChangesAt path mid later → ChangesAt path d later }
    ensures written { (path : List ℕ) (d : disk.State) (id : ℕ) → file_at d path ≡ Some id → IsAlone d path → (c : Change) → InFile id c
        → ChangesAt path d (after d c) }
    ensures names { (path : List ℕ) (d : disk.State) → ChangesAt path d (after d Names_synced) }
    ensures made { (path : List ℕ) (d : disk.State) → IsLawful d → ChangesAt path d (after d (Created path)) }
    ensures unlinked { (path : List ℕ) (d : disk.State) → ChangesAt path d (after d (Named (Gone path))) }
{}

/// What changes at one file of the store's folder leaves its CURRENT, its manifest, its tables and its logs, where these are
/// other files.
pub fn other_files_stay()
    ensures current { (dir : List ℕ) (name : FileName) → is_folder_name dir ≡ true → IsFileName name
        → (d later : disk.State) → ChangesAt (path_in dir name) d later → (kept : Kept) → Current ≢ name
        → IsCurrent d dir kept → IsCurrent later dir kept }
    ensures edits { (dir : List ℕ) (name : FileName) → is_folder_name dir ≡ true → IsFileName name
        → (d later : disk.State) → ChangesAt (path_in dir name) d later → (kept : Kept) (edits : List Edit)
        → IsFileName (Manifest kept.manifest) → Manifest kept.manifest ≢ name → HasEdits d dir kept edits → HasEdits later dir kept edits }
    ensures tables { (dir : List ℕ) (name : FileName) → is_folder_name dir ≡ true → IsFileName name
        → (d later : disk.State) → ChangesAt (path_in dir name) d later → (kept : Kept) (rows : ℕ → List Row)
        → ((number : ℕ) (placed : Placed) → finmap.get kept.version number ≡ Some placed → Table number ≢ name)
        → HasTables d dir kept rows → HasTables later dir kept rows }
    ensures log { (dir : List ℕ) (name : FileName) → is_folder_name dir ≡ true → IsFileName name
        → (d later : disk.State) → ChangesAt (path_in dir name) d later → (number : ℕ) (batches : List Logged) (durable : ℕ)
        → IsFileName (Log number) → Log number ≢ name
        → IsWal d (path_in dir (Log number)) batches durable → IsWal later (path_in dir (Log number)) batches durable }
{}

/// Nor does it put a folder under a file's name, or anything in the way of a checkpoint. A folder that a restore builds stays,
/// and so do the checkpoints under way, where the file has no other name.
pub fn what_is_built_stays()
    ensures files { (dir : List ℕ) (name : FileName) → is_folder_name dir ≡ true → IsFileName name
        → (d later : disk.State) → ChangesAt (path_in dir name) d later → AreFiles d dir → AreFiles later dir }
    ensures clear { (dir : List ℕ) (name : FileName) → is_folder_name dir ≡ true → IsFileName name
        → (d later : disk.State) → ChangesAt (path_in dir name) d later → AreFiles d dir → AreClearable d → AreClearable later }
    ensures restored { (dir : List ℕ) (name : FileName) → is_folder_name dir ≡ true → IsFileName name
        → (d later : disk.State) → ChangesAt (path_in dir name) d later → AreFiles d dir
        → (begun : Option Begun) (hand : Option FileName) → RestoreBuilds d dir begun hand → RestoreBuilds later dir begun hand }
    ensures jobs { (dir : List ℕ) (name : FileName) → is_folder_name dir ≡ true → IsFileName name
        → (d later : disk.State) → ChangesAt (path_in dir name) d later → AreFiles d dir → IsAlone d (path_in dir name)
        → (kept : List KeptPin) (s : State) → JobsBuild d dir kept s → JobsBuild later dir kept s }
{}

/// Changes that write one file of the store's folder: none, one behind another, an append to the file and its sync, and a sync
/// of names. The file keeps its only name.
pub fn one_file_is_written()
    ensures none { (dir : List ℕ) (name : FileName) (d : disk.State) → WritesAt dir name d d }
    ensures both { (dir : List ℕ) (name : FileName) (d mid later : disk.State) → WritesAt dir name d mid → WritesAt dir name mid later
        → WritesAt dir name d later }
    ensures file { (dir : List ℕ) (name : FileName) (d : disk.State) (id : ℕ) → IsLone d dir name id → (c : Change) → InFile id c
        → WritesAt dir name d (after d c) }
    ensures names { (dir : List ℕ) (name : FileName) (d : disk.State) → WritesAt dir name d (after d Names_synced) }
    ensures lone { (dir : List ℕ) (name : FileName) (d later : disk.State) (id : ℕ) → IsLone d dir name id → WritesAt dir name d later
        → IsLone later dir name id }
{}

/// While a running store writes its last log, its manifest, or a file that it doesn't need, all else that it keeps of itself is
/// so still, and all else that a good store has on its disk.
pub fn the_rest_stays()
    ensures sane { (d : disk.State) (dir : List ℕ) (kept : Kept) (parts : Parts) → Sane d dir kept parts → (name : FileName)
        → IsFileName name → MayBeWritten kept parts.last.number name → (later : disk.State) → WritesAt dir name d later
        → SaneBeside later dir kept parts name }
    ensures good { (d : disk.State) (dir : List ℕ) (kept : Kept) (parts : Parts) → Sane d dir kept parts → (name : FileName)
        → IsFileName name → MayBeWritten kept parts.last.number name → (later : disk.State) → WritesAt dir name d later
        → (s : State) (id : ℕ) → IsLone d dir name id → All (λ (pin : Pin). PinFiles d dir pin.files) s.pins
        → JobsBuild d dir kept.pins s → AreClearable d → Beside d dir kept parts s name later }
{}

/// Where only a file has changed that a running store doesn't need, as a table that no edit names yet, each image reads as a
/// crash leaves the state, and a halt leaves a good store.
pub fn a_file_that_is_not_needed_shows_nothing()
    ensures images { (v : Shown) (s : State) (good : Good v s) (run : IsRunning (state_of good.story) v s) (name : FileName)
        → IsFileName name → (IsNeeded v.kept name → ⊥) → (x : disk.State)
        → ChangesAt (path_in v.dir name) (state_of good.story) x → ChangesInside v.dir (state_of good.story) x
        → (t : Tree) → IsImage x t → ReadsAsCrashed s t }
    ensures halted { (v : Shown) (s : State) (good : Good v s) (run : IsRunning (state_of good.story) v s) (name : FileName)
        → IsFileName name → (IsNeeded v.kept name → ⊥) → (seen : Seen) (by : Halt) (story : Story) → seen.told ≡ Some story
        → ChangesAt (path_in v.dir name) (state_of good.story) (state_of story)
        → ChangesInside v.dir (state_of good.story) (state_of story)
        → All (λ (pin : Pin). PinFiles (state_of story) v.dir pin.files) s.pins
        → Good (halted_shown seen by v) (halted_state seen by s.doubtful s) }
{}

/// A good store that nothing has halted runs, and its last log has no other name.
pub fn a_good_store_runs()
    ensures runs { (v : Shown) (s : State) (good : Good v s) → v.halt ≡ None → IsRunning (state_of good.story) v s }
    ensures lone { (v : Shown) (s : State) (good : Good v s) (run : IsRunning (state_of good.story) v s)
        → IsLone (state_of good.story) v.dir (Log run.parts.last.number) run.sane.logs.last.id }
{}

/// Where a batch was appended to the last log of a good store, the store with it is good for the state that accepted it. A
/// fault of the disk leaves the store good for the state that it halted, with a doubtful batch. Each image on the way reads
/// as a crash leaves the state, perhaps with that batch.
pub fn an_appended_batch_is_accepted()
    ensures good { (v : Shown) (s : State) (good : Good v s) (run : IsRunning (state_of good.story) v s) (ops : List Op)
        → IsLogged (next_batch v.kept ops) → (seen : Seen) (sync : Bool) (rows : List Row) (len : ℕ)
        → IsPermutation (v.kept.active ++ batch_rows (v.kept.sequence + 1) ops) rows
        → ((key : List ℕ) → newest key rows ≡ newest key (v.kept.active ++ batch_rows (v.kept.sequence + 1) ops))
        → len ≡ v.kept.log_len + length (record_behind (last_batches run.parts) (next_batch v.kept ops))
        → (story : Story) → seen.told ≡ Some story → v.halt ≡ None
        → WritesAt v.dir (Log run.parts.last.number) (state_of good.story) (state_of story)
        → IsWal (state_of story) (last_path v.dir run.parts) (last_batches run.parts ++ next_batch v.kept ops ∷ [])
        (durable_after sync run.parts.synced (last_batches run.parts ++ next_batch v.kept ops ∷ []))
        → Good (grown_shown seen ops rows len v) (grown_state seen ops sync len s) }
    ensures torn { (v : Shown) (s : State) (good : Good v s) (run : IsRunning (state_of good.story) v s) (ops : List Op)
        → IsLogged (next_batch v.kept ops) → (seen : Seen) (at : Halt) (story : Story) → seen.told ≡ Some story
        → WritesAt v.dir (Log run.parts.last.number) (state_of good.story) (state_of story)
        → IsTornWal (state_of story) (last_path v.dir run.parts) (last_batches run.parts) (next_batch v.kept ops) run.parts.synced
        → Good (halted_shown seen at v) (halted_state seen at (Some ops) s) }
    ensures left { (v : Shown) (s : State) (good : Good v s) (run : IsRunning (state_of good.story) v s) (ops : List Op)
        → IsLogged (next_batch v.kept ops) → (sync : Bool) (result : Result (Unit {0}) DiskRefusal) (told : Option Story)
        → Went good.story told (InFile run.sane.logs.last.id)
        (HoldsFront (last_path v.dir run.parts) (last_batches run.parts ++ next_batch v.kept ops ∷ []) run.parts.synced)
        (IsLeft (last_path v.dir run.parts) (last_batches run.parts) (next_batch v.kept ops) run.parts.synced sync result)
        → Went good.story told (InFile run.sane.logs.last.id) (λ x t. ReadsAsCrashed (doubting ops s) t)
        (λ x. IsLeft (last_path v.dir run.parts) (last_batches run.parts) (next_batch v.kept ops) run.parts.synced sync result x
        × (WritesAt v.dir (Log run.parts.last.number) (state_of good.story) x
        × IsLone x v.dir (Log run.parts.last.number) run.sane.logs.last.id)) }
    ensures images { (v : Shown) (s : State) (good : Good v s) (run : IsRunning (state_of good.story) v s) (ops : List Op)
        → IsLogged (next_batch v.kept ops) → (sync : Bool) (result : Result (Unit {0}) DiskRefusal) (told : Option Story)
        → Went good.story told (InFile run.sane.logs.last.id)
        (HoldsFront (last_path v.dir run.parts) (last_batches run.parts ++ next_batch v.kept ops ∷ []) run.parts.synced)
        (IsLeft (last_path v.dir run.parts) (last_batches run.parts) (next_batch v.kept ops) run.parts.synced sync result)
        → ImagesShowWrite good.story told ops s }
{}

/// Where the last log of a good store is synced, all accepted batches are durable; where so many of its batches are, as many
/// may be. A fault halts the store, whether the log was synced or not. Each image reads as a crash leaves the state.
pub fn a_synced_log_is_durable()
    ensures synced { (v : Shown) (s : State) (good : Good v s) (run : IsRunning (state_of good.story) v s) (seen : Seen)
        → Makes v.disk.told (λ (x : disk.State). file_synced (last_path v.dir run.parts) x) seen.told → v.halt ≡ None
        → Good (synced_shown seen v) (synced_state seen (length s.accepted) s) }
    ensures some { (v : Shown) (s : State) (good : Good v s) (run : IsRunning (state_of good.story) v s) (seen : Seen) (durable : ℕ)
        (story : Story) → seen.told ≡ Some story → v.halt ≡ None
        → WritesAt v.dir (Log run.parts.last.number) (state_of good.story) (state_of story)
        → (many : ℕ) → HasLast (state_of story) v.dir run.parts many
        → durable ≤ sure_batches run.tied.flushed run.parts many → durable ≤ length s.accepted
        → Good (synced_shown seen v) (synced_state seen durable s) }
    ensures halted { (v : Shown) (s : State) (good : Good v s) (run : IsRunning (state_of good.story) v s) (seen : Seen) (at : Halt)
        → (seen.told ≡ v.disk.told) ⊎ Makes v.disk.told (λ (x : disk.State). file_synced (last_path v.dir run.parts) x) seen.told
        → Good (halted_shown seen at v) (halted_state seen at s.doubtful s) }
    ensures images { (v : Shown) (s : State) (good : Good v s) (run : IsRunning (state_of good.story) v s) (told : Option Story)
        → (told ≡ v.disk.told) ⊎ Makes v.disk.told (λ (x : disk.State). file_synced (last_path v.dir run.parts) x) told
        → (later : State) → ImagesShow good.story told s later }
{}

/// Where a new log was made behind the synced last one of a good store without frozen rows, the store whose rows are frozen
/// is good. Wherever the making was refused, a halt leaves a good store. Each image, with the new file and without, reads as
/// a crash leaves the state.
pub fn frozen_rows_are_good()
    ensures good { (v : Shown) (s : State) (good : Good v s) (run : IsRunning (state_of good.story) v s) (x : disk.State)
        → WritesAt v.dir (Log run.parts.last.number) (state_of good.story) x → HasLast x v.dir run.parts (length run.parts.last.batches)
        → IsLawful x → IsFileName (Log v.kept.next) → All (IsDrawn v.kept.next) v.kept.known → v.kept.frozen ≡ []
        → (seen : Seen) (story : Story) → seen.told ≡ Some story → v.halt ≡ None
        → state_of story ≡ after (after x (Created (path_in v.dir (Log v.kept.next)))) Names_synced
        → Good (frozen_shown seen v) (frozen_state seen s) }
    ensures halted { (v : Shown) (s : State) (good : Good v s) (run : IsRunning (state_of good.story) v s) (x : disk.State)
        → WritesAt v.dir (Log run.parts.last.number) (state_of good.story) x → HasLast x v.dir run.parts (length run.parts.last.batches)
        → IsLawful x → IsFileName (Log v.kept.next) → All (IsDrawn v.kept.next) v.kept.known → v.kept.frozen ≡ []
        → (seen : Seen) (at : Halt) (story : Story) (r : DiskRefusal) → seen.told ≡ Some story
        → IsMade {T = Unit {0}} x (path_in v.dir (Log v.kept.next)) (Err r) (state_of story)
        → Good (halted_shown seen at v) (halted_state seen at s.doubtful s) }
    ensures before { (v : Shown) (s : State) (good : Good v s) (run : IsRunning (state_of good.story) v s) (x : disk.State)
        → WritesAt v.dir (Log run.parts.last.number) (state_of good.story) x → HasLast x v.dir run.parts (length run.parts.last.batches)
        → IsLawful x → IsFileName (Log v.kept.next) → All (IsDrawn v.kept.next) v.kept.known → v.kept.frozen ≡ []
        → (t : Tree) → IsImage x t → ReadsAsCrashed s t }
    ensures made { (v : Shown) (s : State) (good : Good v s) (run : IsRunning (state_of good.story) v s) (x : disk.State)
        → WritesAt v.dir (Log run.parts.last.number) (state_of good.story) x → HasLast x v.dir run.parts (length run.parts.last.batches)
        → IsLawful x → IsFileName (Log v.kept.next) → All (IsDrawn v.kept.next) v.kept.known → v.kept.frozen ≡ []
        → (t : Tree) → HasNew x (path_in v.dir (Log v.kept.next)) t → ReadsAsCrashed s t }
{}
