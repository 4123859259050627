//! Laws of the definitions that contracts cite. The functions do nothing: their contracts are the laws.
ghost use Rattle.std.specs.Prelude.{◌≡◌, ℕ, ◌+◌, ◌≤◌, true, List, [], ◌∷◌, ◌++◌, length, All, Some, None, Ok};
ghost use Rattle.lsm_names.specs.Folders.{is_folder_name};
ghost use Rattle.lsm_names.specs.FileNames.{IsFileName};
ghost use Rattle.lsm_names.specs.declared.file_names.FileName.{FileName};
ghost use Rattle.lsm_names.specs.declared.file_names.FileName.TheVariants.{Log};
ghost use Rattle.lsm_rows.specs.declared.rows.Row.{Row};
ghost use Rattle.lsm_version.specs.declared.edits.Edit.{Edit};
ghost use Rattle.lsm_disk.specs.State.{Seen, Story, Change, Created, Named, Appended, Synced, Names_synced, after, file_at, state_of};
ghost use Rattle.lsm_disk.specs.Names.{Gone};
ghost use Rattle.lsm_disk.specs.Kept.{SparesName};
ghost use Rattle.lsm_disk.specs.Dest.{path_in};
ghost use Rattle.lsm_disk.specs.State as disk;
ghost use Rattle.lsm_disk.specs.declared.calls.Halt.{Halt};
ghost use Rattle.lsm_disk.specs.Images.{Tree, IsImage, tree_now};
ghost use Rattle.lsm_folder.specs.Files.{files_in};
ghost use Rattle.lsm_folder.specs.Parts.{HasParts, AreLawful};
ghost use Rattle.lsm_model.specs.declared.cuts.Cut.{Cut};
ghost use Rattle.lsm_model.specs.declared.cuts.FlushRule.{FlushRule};
ghost use Rattle.lsm_model.specs.declared.events.Event.{Event};
ghost use Rattle.lsm_model.specs.declared.replies.Reply.{Reply};
ghost use Rattle.lsm_model.specs.declared.states.FolderRead.{FolderRead};
ghost use Rattle.lsm_model.specs.declared.states.PinnedFile.{PinnedFile};
ghost use Rattle.lsm_model.specs.declared.states.State.{State};
ghost use Rattle.lsm_model.specs.Steps.{Step, Made, Makes};
ghost use Rattle.lsm_model.specs.Crashes.{Crashed};
ghost use Rattle.lsm_refine.specs.Kept.{Kept, Shown};
ghost use Rattle.lsm_refine.specs.Parts.{LogPart, Parts, batches_in};
ghost use Rattle.lsm_refine.specs.Sane.{IsAlone, IsCurrent, HasEdits, HasTables, AreSynced, IsQuiet, AreKnown, AreFiles, SparesNeeded, IsOlder, KeepsNames, Sane};
ghost use Rattle.lsm_refine.specs.Pins.{PinFiles, ListedStand, AreClearable};
ghost use Rattle.lsm_refine.specs.Tied.{Tied};
ghost use Rattle.lsm_refine.specs.Fronts.{HasFirst, ShowsFirst, last_text, logs_with, batches_with};
ghost use Rattle.lsm_refine.specs.Folders.{StandsFrom, FoldersRead, ReadsAs, ChangesInside, SparesOutside, AppendsInside};
ghost use Rattle.lsm_refine.specs.Good.{ShowsAccepted, Good, Leads, IsUnchanged, with_counts, stopped};
ghost use Rattle.lsm_refine.specs.New.{HasNewStore, new_kept, new_store, new_state, new_disk};
ghost use Rattle.lsm_refine.specs.Listing.{files_listed, manifest_listed};
ghost use Rattle.lsm_refine.specs.Moments.{ImagesShow};

/// Where the last log is cut behind its synced batches, the rows of tables and logs stand for a front of the accepted
/// batches, which has the durable ones.
pub fn logs_cut_anywhere_stand_for_a_front()
    ensures { (parts : Parts) (s : State) (kept : ℕ) → AreLawful parts.edits parts.rows → (tied : Tied parts s) → parts.synced ≤ kept
        → ShowsFirst parts s kept (tied.flushed + (length (batches_in parts.older) + kept)) }
{}

/// A running store's folder has the parts that the store keeps: now all of them, and in each image all but the end of the
/// last log, of which it has the synced batches at least.
pub fn a_running_store_has_its_parts()
    ensures now { (d : disk.State) (dir : List ℕ) (kept : Kept) (parts : Parts) → Sane d dir kept parts
        → HasParts (files_in dir (tree_now d)) parts.edits parts.rows (logs_with parts (last_text parts))
        (batches_with parts parts.last.batches) }
    ensures images { (d : disk.State) (dir : List ℕ) (kept : Kept) (parts : Parts) → Sane d dir kept parts
        → (t : Tree) → IsImage d t → HasFirst dir parts t }
{}

/// A good store's folder stands now for the accepted batches, perhaps with the doubtful one, and in each image for a front of
/// these, which has the durable ones.
pub fn a_good_stores_folder_stands()
    ensures now { (v : Shown) (s : State) → (good : Good v s) → StandsFrom s (length s.accepted) (tree_now (state_of good.story)) }
    ensures images { (v : Shown) (s : State) → (good : Good v s) → (t : Tree) → IsImage (state_of good.story) t → StandsFrom s s.durable t }
{}

/// Each image of a good store's disk reads as a state that a crash leaves of the store's state.
pub fn an_image_reads_as_a_crash_leaves_it()
    ensures { (v : Shown) (s : State) → (good : Good v s) → (t : Tree) → IsImage (state_of good.story) t
        → (c : State) × Crashed s c × ReadsAs t c }
{}

/// What readings of a good store go through, running or halted, shows the accepted batches: the live tables are there with
/// their rows, and these with the rows in memory stand for the contents now. They are in such an order that a reading may
/// stop at the first row of a key that it meets.
pub fn a_good_store_shows_the_accepted_batches()
    ensures { (v : Shown) (s : State) → (good : Good v s) → ShowsAccepted (state_of good.story) v s }
{}

/// Where nothing changes but the disk's counts, its clock and which views are open, a store stays good, for the state with
/// these counts; so it does where a disk call that did nothing halts it.
pub fn an_unchanged_store_stays_good()
    ensures same { (v w : Shown) (s : State) (good : Good v s) → IsUnchanged good.story v w → w.halt ≡ v.halt
        → Good w (with_counts w.disk s) }
    ensures stopped { (v w : Shown) (s : State) (first : Halt) (good : Good v s) → IsUnchanged good.story v w → v.halt ≡ None
        → w.halt ≡ Some first
        → Good w (stopped first (with_counts w.disk s)) }
{}

/// What changes in the store's own folder alone leaves what the other folders read as, now and in each image. Such is each
/// change that spares the other folders and their files, and appends at most to a file of its own; one such change behind
/// another; and the making and the unlinking of a file of that folder.
pub fn changes_inside_leave_other_folders()
    ensures stay { (d later : disk.State) (s : State) → ChangesInside s.own d later → FoldersRead d s → FoldersRead later s }
    ensures change { (own : List ℕ) (d : disk.State) (c : Change) → SparesOutside own c → AppendsInside d own c
        → ChangesInside own d (after d c) }
    ensures both { (own : List ℕ) (d mid later : disk.State) → ChangesInside own d mid → ChangesInside own mid later
        → ChangesInside own d later }
    ensures created { (own : List ℕ) (file : FileName) → is_folder_name own ≡ true → IsFileName file
        → SparesOutside own (Created (path_in own file)) }
    ensures unlinked { (own : List ℕ) (file : FileName) → is_folder_name own ≡ true → IsFileName file
        → SparesOutside own (Named (Gone (path_in own file))) }
{}

/// A change that spares the needed files, the last log left out, keeps what a running store has of its CURRENT, its manifest,
/// its tables and its older logs.
pub fn needed_files_stay()
    ensures current { (d : disk.State) (dir : List ℕ) (kept : Kept) (last : ℕ) (c : Change) → SparesNeeded d dir kept last c
        → IsCurrent d dir kept → IsCurrent (after d c) dir kept }
    ensures edits { (d : disk.State) (dir : List ℕ) (kept : Kept) (last : ℕ) (c : Change) → SparesNeeded d dir kept last c
        → (edits : List Edit) → IsCurrent d dir kept → HasEdits d dir kept edits → HasEdits (after d c) dir kept edits }
    ensures tables { (d : disk.State) (dir : List ℕ) (kept : Kept) (last : ℕ) (c : Change) → SparesNeeded d dir kept last c
        → (rows : ℕ → List Row) → HasTables d dir kept rows → HasTables (after d c) dir kept rows }
    ensures logs { (d : disk.State) (dir : List ℕ) (kept : Kept) (last : ℕ) (c : Change) → SparesNeeded d dir kept last c
        → (first : ℕ) (logs : List LogPart) → All (IsOlder kept last) logs → AreSynced d dir first logs
        → AreSynced (after d c) dir first logs }
{}

/// An append to the last log, where this has no other name, spares the needed files. So do its sync and a sync of names.
pub fn the_last_log_is_apart()
    ensures append { (d : disk.State) (dir : List ℕ) (kept : Kept) (last id : ℕ) → IsFileName (Log last)
        → file_at d (path_in dir (Log last)) ≡ Some id
        → IsAlone d (path_in dir (Log last)) → (more : List ℕ) → SparesNeeded d dir kept last (Appended id more) }
    ensures sync { (d : disk.State) (dir : List ℕ) (kept : Kept) (last id : ℕ) → IsFileName (Log last)
        → file_at d (path_in dir (Log last)) ≡ Some id
        → IsAlone d (path_in dir (Log last)) → SparesNeeded d dir kept last (Synced id) }
    ensures names { (d : disk.State) (dir : List ℕ) (kept : Kept) (last : ℕ) → SparesNeeded d dir kept last Names_synced }
{}

/// A change that moves no name keeps what is known of names: which operations a crash may undo, which of the store's files are
/// there, that no folder stands under a file's name, that a checkpoint may be built, and that a file has no other name.
pub fn names_stay_known()
    ensures quiet { (d : disk.State) (dir : List ℕ) (kept : Kept) (c : Change) → KeepsNames c → IsQuiet d dir kept
        → IsQuiet (after d c) dir kept }
    ensures known { (d : disk.State) (dir : List ℕ) (kept : Kept) (c : Change) → KeepsNames c → AreKnown d dir kept
        → AreKnown (after d c) dir kept }
    ensures files { (d : disk.State) (dir : List ℕ) (c : Change) → KeepsNames c → AreFiles d dir → AreFiles (after d c) dir }
    ensures clear { (d : disk.State) (c : Change) → KeepsNames c → AreClearable d → AreClearable (after d c) }
    ensures alone { (d : disk.State) (path : List ℕ) (c : Change) → KeepsNames c → IsAlone d path → IsAlone (after d c) path }
{}

/// Where a file is made or a name is removed, still no folder stands under a file's name. So too checkpoints may be built
/// still, where the file is made in a folder.
pub fn made_and_removed_files_are_no_folders()
    ensures made { (d : disk.State) (dir path : List ℕ) → AreFiles d dir → AreFiles (after d (Created path)) dir }
    ensures removed { (d : disk.State) (dir path : List ℕ) → AreFiles d dir → AreFiles (after d (Named (Gone path))) dir }
    ensures clear_made { (d : disk.State) (own : List ℕ) (file : FileName) → AreClearable d
        → AreClearable (after d (Created (path_in own file))) }
    ensures clear_removed { (d : disk.State) (path : List ℕ) → AreClearable d → AreClearable (after d (Named (Gone path))) }
{}

/// The files that a cut lists, with a `CURRENT` of its manifest, make a folder that stands for all batches that are accepted
/// then. So what copies these files has a store's folder.
pub fn a_cuts_files_stand()
    ensures { (s t : State) (w : Shown) (rule : FlushRule) (cut : Cut) → Step s (Event.Cut rule) (Reply.Cut (Ok cut)) t
        → Good w t → ListedStand cut t }
{}

/// Pinned files are there, and begin with their pin's bytes, behind each change that spares their names, also where it adds to
/// one of them.
pub fn pinned_files_stay()
    ensures { (d : disk.State) (dir : List ℕ) (c : Change) (files : List PinnedFile)
        → All (λ (file : PinnedFile). SparesName (path_in dir file.name) c) files
        → PinFiles d dir files → PinFiles (after d c) dir files }
{}

/// The empty list of calls leads from a state to each store that is good for it. Calls that lead to a store, events and those
/// of a restore, lead on by one more, to a store that is good behind it; so they do by a call that is made so of each state for
/// which the store was good.
pub fn steps_lead_on()
    ensures none { (s : State) (v : Shown) → Good v s → Leads s [] v }
    ensures step { (start : State) (steps : List Made) (v w : Shown) (made : Made) (t : State) → (leads : Leads start steps v)
        → Makes leads.end made t → Good w t → Leads start (steps ++ made ∷ []) w }
    ensures call { (start : State) (steps : List Made) (v w : Shown) (made : Made)
        → ((s : State) → Good v s → (t : State) × Makes s made t × Good w t) → Leads start steps v → Leads start (steps ++ made ∷ []) w }
{}

/// A new store, whose folder may have files of an opening that a crash cut off, is good for the state of an empty store with
/// the other folders as they read; on each disk these can be listed; and for each name of a folder there is a disk that has
/// such a store.
pub fn a_new_store_is_good()
    ensures good { (seen : Seen) (dir : List ℕ) (m : ℕ) (beside : List FileName) (folders : List FolderRead) (story : Story)
        → seen.told ≡ Some story → HasNewStore (state_of story) dir m beside → FoldersRead (state_of story) (new_state seen dir m folders)
        → Good (new_store seen dir m beside) (new_state seen dir m folders) }
    ensures listed { (seen : Seen) (dir : List ℕ) (m : ℕ) (beside : List FileName) (story : Story) → seen.told ≡ Some story
        → HasNewStore (state_of story) dir m beside → (folders : List FolderRead)
        × Good (new_store seen dir m beside) (new_state seen dir m folders) }
    ensures some { (dir : List ℕ) → is_folder_name dir ≡ true → HasNewStore (new_disk dir) dir 1 [] }
{}

/// What a cut would list of a new store is its manifest alone: there is no table, and its log is empty.
pub fn a_new_store_lists_its_manifest()
    ensures { (m : ℕ) (beside : List FileName) → files_listed (new_kept m beside) ≡ manifest_listed (new_kept m beside) ∷ [] }
{}

/// Where a call of a good store did nothing to the disk, each image reads as a crash leaves the state before it, whatever the
/// state behind it.
pub fn nothing_done_shows_the_same()
    ensures { (v : Shown) (s t : State) → (good : Good v s) → ImagesShow good.story (Some good.story) s t }
{}
