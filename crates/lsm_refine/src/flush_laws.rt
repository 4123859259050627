//! Laws of a flush of the frozen rows of a good store. The functions do nothing: their contracts are the laws.
ghost use Rattle.std.specs.Prelude.{true, false, ◌≡◌, ◌≢◌, ◌⊎◌, ℕ, ◌+◌, ◌^◌, ◌<◌, ◌≤◌, List, [], ◌∷◌, ◌++◌, length, All, Contains, Option, Some, None, Ok, Err};
ghost use Rattle.std.specs.FinMap as finmap;
ghost use Rattle.std.specs.List.{flat_map};
ghost use Rattle.lsm_io.specs.Causes.{Rose};
ghost use Rattle.lsm_names.specs.Folders.{is_folder_name};
ghost use Rattle.lsm_names.specs.FileNames.{IsFileName};
ghost use Rattle.lsm_names.specs.declared.file_names.FileName.TheVariants.{Table, Manifest, Current};
ghost use Rattle.lsm_names.specs.declared.file_names.FileName.{FileName};
ghost use Rattle.lsm_names.specs.Paths.{parent_of};
ghost use Rattle.lsm_disk.specs.Names.{is_folder};
ghost use Rattle.lsm_disk.specs.Refusals.{no_file, no_room};
ghost use Rattle.lsm_rows.specs.declared.rows.Row.{Row};
ghost use Rattle.lsm_rows.specs.Replay.{sequence_after};
ghost use Rattle.lsm_disk.specs.State as disk;
ghost use Rattle.lsm_disk.specs.State.{Seen, Story, Change, Created, state_of, after, names_now, appended, file_synced, names_synced};
ghost use Rattle.lsm_disk.specs.Images.{Tree, IsImage, bytes_at, tree_now};
ghost use Rattle.lsm_disk.specs.Kept.{OpSpares};
ghost use Rattle.lsm_disk.specs.Answers.{Makes};
ghost use Rattle.lsm_disk.specs.Tree.{IsLawful};
ghost use Rattle.lsm_disk.specs.Dest.{path_in};
ghost use Rattle.lsm_disk.specs.declared.calls.Halt.{Halt};
ghost use Rattle.lsm_version.specs.declared.edits.Edit.{Edit};
ghost use Rattle.lsm_version.specs.declared.tables.Add.{Add};
ghost use Rattle.lsm_version.specs.declared.tables.TableInfo.{TableInfo};
ghost use Rattle.lsm_version.specs.Edits.{IsFileNumber, IsTable, IsEdit};
ghost use Rattle.lsm_version.specs.Levels.{Tables};
ghost use Rattle.lsm_version.specs.Versions.{applied};
ghost use Rattle.lsm_folder.specs.Manifests.{manifest_text, tables_after, last_after};
ghost use Rattle.lsm_folder.specs.Parts.{AreEdits, AreLawful};
ghost use Rattle.lsm_model.specs.declared.errors.StoreError.TheVariants as error;
ghost use Rattle.lsm_model.specs.declared.events.Event.TheVariants as event;
ghost use Rattle.lsm_model.specs.declared.replies.Reply.TheVariants as reply;
ghost use Rattle.lsm_model.specs.declared.replies.Flushed.TheVariants as flush;
ghost use Rattle.lsm_model.specs.declared.states.State.{State};
ghost use Rattle.lsm_model.specs.Causes.{number_end, table_limit};
ghost use Rattle.lsm_model.specs.Halting.{IsMet, table_calls};
ghost use Rattle.lsm_model.specs.Moves.{Draws};
ghost use Rattle.lsm_model.specs.Steps.{Step};
ghost use Rattle.lsm_refine.specs.Kept.{Unfinished, Kept, Shown};
ghost use Rattle.lsm_refine.specs.Parts.{Parts, AreRowsOf, batches_in, first_logged, first_in_last};
ghost use Rattle.lsm_refine.specs.Sane.{IsWholeFile, IsCurrent, Sane, names_held};
ghost use Rattle.lsm_refine.specs.Tied.{Tied};
ghost use Rattle.lsm_refine.specs.Good.{IsRunning, Good};
ghost use Rattle.lsm_refine.specs.Moments.{ReadsAsCrashed, ImagesShow};
ghost use Rattle.lsm_refine.specs.Beside.{LeadToFiles, WritesAt, IsLone};
ghost use Rattle.lsm_refine.specs.Among.{MakesAmong, MadeAmong, KnowsMade, new_names, switched_kept};
ghost use Rattle.lsm_refine.specs.Grown.{IsDrawn, halted_shown, halted_state};
ghost use Rattle.lsm_refine.specs.Obsolete.{HasAlso};
ghost use Rattle.lsm_refine.specs.TableWork.{Work, work_of, drawn_work, working_kept, working_state, AreWith};
ghost use Rattle.lsm_refine.specs.Flushed.{at_top, flush_edit, AddTable, AreFlushed, HasKeys, IsLastOf, rows_with, flushed, EndsFrozen, HasFlushTable, Renewed, IsRenewed, flushed_kept, flushed_state, shown_with};
ghost use Rattle.lsm_refine.specs.WholeEdits.{AddAll, whole_edit, AreInRange};
ghost use Rattle.lsm_refine.specs.Naming.{IsReadyFor, HasEither, NamesWhole, ReplacesAt, HasReplaced, MayBeNext};

/// The edit of a flush is never refused where the table's number is new: it makes the version with the table at level 0.
/// So the edits with this one behind them add the table.
pub fn the_edit_of_a_flush_is_taken()
    ensures applies { (edits : List Edit) → AreEdits edits → (info : TableInfo) (log next last : ℕ)
        → finmap.get (tables_after edits) info.number ≡ None
        → applied (tables_after edits) (flush_edit info log next last)
        ≡ Ok (finmap.insert (tables_after edits) info.number (at_top info)) }
    ensures adds { (edits : List Edit) → AreEdits edits → (info : TableInfo) (log next last : ℕ)
        → IsEdit (flush_edit info log next last) → finmap.get (tables_after edits) info.number ≡ None
        → AddTable edits info log last (edits ++ flush_edit info log next last ∷ []) }
{}

/// With the frozen rows in a table of a new number, and all older logs gone, the edits and the rows are lawful. The
/// tables stand for the batches of the older logs too, and the last log goes on where it did.
pub fn frozen_rows_become_a_table()
    ensures last { (parts : Parts) → AreLawful parts.edits parts.rows → (frozen : List Row)
        → AreRowsOf (first_logged parts) (batches_in parts.older) frozen → (info : TableInfo) (new : List Row)
        → AreFlushed frozen new → HasKeys info new → finmap.get (tables_after parts.edits) info.number ≡ None
        → (log last : ℕ) → IsLastOf last frozen → (edits : List Edit) → AddTable parts.edits info log last edits
        → last ≡ sequence_after (last_after parts.edits) (batches_in parts.older) }
    ensures lawful { (parts : Parts) → AreLawful parts.edits parts.rows → (frozen : List Row)
        → AreRowsOf (first_logged parts) (batches_in parts.older) frozen → (info : TableInfo) (new : List Row)
        → AreFlushed frozen new → HasKeys info new → finmap.get (tables_after parts.edits) info.number ≡ None
        → (log last : ℕ) → IsLastOf last frozen → (edits : List Edit) → AddTable parts.edits info log last edits
        → AreLawful edits (rows_with info.number new parts.rows) }
    ensures first { (parts : Parts) → AreLawful parts.edits parts.rows → (frozen : List Row)
        → AreRowsOf (first_logged parts) (batches_in parts.older) frozen → (info : TableInfo) (new : List Row)
        → AreFlushed frozen new → HasKeys info new → finmap.get (tables_after parts.edits) info.number ≡ None
        → (log last : ℕ) → IsLastOf last frozen → (edits : List Edit) → AddTable parts.edits info log last edits
        → first_in_last (flushed edits info.number new parts) ≡ first_in_last parts }
    ensures tied { (parts : Parts) → AreLawful parts.edits parts.rows → (frozen : List Row)
        → AreRowsOf (first_logged parts) (batches_in parts.older) frozen → (info : TableInfo) (new : List Row)
        → AreFlushed frozen new → HasKeys info new → finmap.get (tables_after parts.edits) info.number ≡ None
        → (log last : ℕ) → IsLastOf last frozen → (edits : List Edit) → AddTable parts.edits info log last edits
        → (s : State) → Tied parts s → Tied (flushed edits info.number new parts) s }
{}

/// A number is drawn, and a table's file is made, with the store good behind it. The new file has no other name, each
/// image reads as a crash leaves the state, and a halt leaves a good store.
pub fn a_table_is_begun()
    ensures noted { (v : Shown) (s : State) (good : Good v s) → IsRunning (state_of good.story) v s → (n : ℕ)
        → IsFileName (Table n)
        → finmap.get v.kept.version n ≡ None → (p : Work) → p.known ≡ v.kept.known → p.unfinished ≡ v.kept.unfinished
        → (seen : Seen) (story : Story) → seen.told ≡ Some story → v.halt ≡ None → state_of story ≡ state_of good.story
        → Good (shown_with seen (working_kept p v.kept) v) (working_state seen p s) }
    ensures good { (v : Shown) (s : State) (good : Good v s) → IsRunning (state_of good.story) v s → (n : ℕ)
        → IsFileName (Table n)
        → finmap.get v.kept.version n ≡ None → IsLawful (state_of good.story) → ¬ Contains v.kept.known (Table n)
        → (p : Work) → HasAlso (Table n) v.kept.known p.known → AreWith v.kept.unfinished n [] p.unfinished
        → (seen : Seen) (story : Story) → seen.told ≡ Some story → v.halt ≡ None
        → state_of story ≡ after (state_of good.story) (Created (path_in v.dir (Table n)))
        → Good (shown_with seen (working_kept p v.kept) v) (working_state seen p s) }
    ensures lone { (v : Shown) (s : State) (good : Good v s) → IsRunning (state_of good.story) v s → (n : ℕ)
        → IsFileName (Table n)
        → finmap.get v.kept.version n ≡ None → IsLawful (state_of good.story) → ¬ Contains v.kept.known (Table n)
        → IsLone (after (state_of good.story) (Created (path_in v.dir (Table n)))) v.dir (Table n)
        (length (state_of good.story).files) }
    ensures images { (v : Shown) (s : State) (good : Good v s) → IsRunning (state_of good.story) v s → (n : ℕ)
        → IsFileName (Table n)
        → finmap.get v.kept.version n ≡ None → IsLawful (state_of good.story) → ¬ Contains v.kept.known (Table n)
        → (t : Tree) → IsImage (after (state_of good.story) (Created (path_in v.dir (Table n)))) t → ReadsAsCrashed s t }
    ensures halted { (v : Shown) (s : State) (good : Good v s) → IsRunning (state_of good.story) v s → (n : ℕ)
        → IsFileName (Table n)
        → finmap.get v.kept.version n ≡ None → IsLawful (state_of good.story) → ¬ Contains v.kept.known (Table n)
        → (seen : Seen) (by : Halt) (story : Story) → seen.told ≡ Some story
        → state_of story ≡ after (state_of good.story) (Created (path_in v.dir (Table n)))
        → Good (halted_shown seen by v) (halted_state seen by s.doubtful s) }
{}

/// Bytes are added to the file of a table that no edit names yet, it is synced, and so are the names, with the store good
/// behind each of these. Wherever it is written each image reads as a crash leaves the state, and a halt leaves a good
/// store.
pub fn a_table_is_written()
    ensures lone { (v : Shown) (s : State) (good : Good v s) → IsRunning (state_of good.story) v s → (table : Unfinished)
        → Contains v.kept.unfinished table → IsFileName (Table table.number)
        → (id : ℕ) × IsLone (state_of good.story) v.dir (Table table.number) id }
    ensures appended { (v : Shown) (s : State) (good : Good v s) → IsRunning (state_of good.story) v s → (n : ℕ)
        → IsFileName (Table n)
        → finmap.get v.kept.version n ≡ None → (id : ℕ) → IsLone (state_of good.story) v.dir (Table n) id → (bytes : List ℕ)
        → bytes_at (tree_now (state_of good.story)) (path_in v.dir (Table n)) ≡ Some bytes
        → (p : Work) → p.known ≡ v.kept.known → (seen : Seen) (story : Story) → seen.told ≡ Some story → v.halt ≡ None
        → (more : List ℕ) → AreWith v.kept.unfinished n (bytes ++ more) p.unfinished
        → state_of story ≡ after (state_of good.story) (appended (path_in v.dir (Table n)) more (state_of good.story))
        → Good (shown_with seen (working_kept p v.kept) v) (working_state seen p s) }
    ensures synced { (v : Shown) (s : State) (good : Good v s) → IsRunning (state_of good.story) v s → (n : ℕ)
        → IsFileName (Table n)
        → finmap.get v.kept.version n ≡ None → (id : ℕ) → IsLone (state_of good.story) v.dir (Table n) id → (bytes : List ℕ)
        → bytes_at (tree_now (state_of good.story)) (path_in v.dir (Table n)) ≡ Some bytes
        → (p : Work) → p.known ≡ v.kept.known → (seen : Seen) (story : Story) → seen.told ≡ Some story → v.halt ≡ None
        → AreWith v.kept.unfinished n bytes p.unfinished
        → state_of story ≡ after (state_of good.story) (file_synced (path_in v.dir (Table n)) (state_of good.story))
        → Good (shown_with seen (working_kept p v.kept) v) (working_state seen p s) }
    ensures names { (v : Shown) (s : State) (good : Good v s) → IsRunning (state_of good.story) v s → (n : ℕ)
        → IsFileName (Table n)
        → finmap.get v.kept.version n ≡ None → (id : ℕ) → IsLone (state_of good.story) v.dir (Table n) id → (bytes : List ℕ)
        → bytes_at (tree_now (state_of good.story)) (path_in v.dir (Table n)) ≡ Some bytes
        → (p : Work) → p.known ≡ v.kept.known → (seen : Seen) (story : Story) → seen.told ≡ Some story → v.halt ≡ None
        → AreWith v.kept.unfinished n bytes p.unfinished
        → state_of story ≡ after (state_of good.story) (names_synced (state_of good.story))
        → Good (shown_with seen (working_kept p v.kept) v) (working_state seen p s) }
    ensures images { (v : Shown) (s : State) (good : Good v s) → IsRunning (state_of good.story) v s → (n : ℕ)
        → IsFileName (Table n)
        → finmap.get v.kept.version n ≡ None → (x : disk.State) → WritesAt v.dir (Table n) (state_of good.story) x
        → (t : Tree) → IsImage x t → ReadsAsCrashed s t }
    ensures halted { (v : Shown) (s : State) (good : Good v s) → IsRunning (state_of good.story) v s → (n : ℕ)
        → IsFileName (Table n)
        → finmap.get v.kept.version n ≡ None → (x : disk.State) → WritesAt v.dir (Table n) (state_of good.story) x
        → (seen : Seen) (by : Halt) (story : Story) → seen.told ≡ Some story → state_of story ≡ x
        → Good (halted_shown seen by v) (halted_state seen by s.doubtful s) }
{}

/// A file that is synced, and whose name is, is whole for good, and no operation on names is left that a crash may undo.
/// What a crash leaves of a store that wrote on at a table it may leave of the earlier one.
pub fn a_sealed_table_is_whole()
    ensures whole { (d : disk.State) (path bytes : List ℕ) → bytes_at (tree_now d) path ≡ Some bytes
        → IsWholeFile (after (after d (file_synced path d)) (names_synced (after d (file_synced path d)))) path bytes }
    ensures quiet { (d : disk.State) (path : List ℕ) → All (OpSpares path) (after d (names_synced d)).pending }
    ensures crashed { (s : State) (seen : Seen) (p : Work) (t : Tree) → ReadsAsCrashed (working_state seen p s) t
        → ReadsAsCrashed s t }
{}

/// Where the edit that names the table of the frozen rows is appended to the manifest, the store is good that has these
/// rows in tables. On the way the image reads to the edits or to these and the new one, and either way as a crash leaves
/// the state before. A halt there leaves a good store.
pub fn an_appended_edit_installs_a_table()
    ensures version { (v : Shown) (s : State) (good : Good v s) (run : IsRunning (state_of good.story) v s)
        → (info : TableInfo) (rows : List Row) → HasFlushTable (state_of good.story) v.dir v.kept info rows
        → (log last : ℕ) → EndsFrozen v.kept log last → (next : ℕ) → IsEdit (flush_edit info log next last)
        → applied v.kept.version (flush_edit info log next last)
        ≡ Ok (tables_after (run.parts.edits ++ flush_edit info log next last ∷ [])) }
    ensures adds { (v : Shown) (s : State) (good : Good v s) (run : IsRunning (state_of good.story) v s)
        → (info : TableInfo) (rows : List Row) → HasFlushTable (state_of good.story) v.dir v.kept info rows
        → (log last : ℕ) → EndsFrozen v.kept log last → (next : ℕ) → IsEdit (flush_edit info log next last)
        → AddTable run.parts.edits info log last (run.parts.edits ++ flush_edit info log next last ∷ []) }
    ensures good { (v : Shown) (s : State) (good : Good v s) (run : IsRunning (state_of good.story) v s)
        → (info : TableInfo) (rows : List Row) → HasFlushTable (state_of good.story) v.dir v.kept info rows
        → (log last : ℕ) → EndsFrozen v.kept log last → (edits : List Edit) → AddTable run.parts.edits info log last edits
        → (renewed : Renewed) → IsRenewed (state_of good.story) v edits renewed → (len : ℕ)
        → (x : disk.State) → WritesAt v.dir (Manifest v.kept.manifest) (state_of good.story) x
        → IsWholeFile x (path_in v.dir (Manifest v.kept.manifest)) (manifest_text edits) → len ≡ length (manifest_text edits)
        → (seen : Seen) (story : Story) → seen.told ≡ Some story → v.halt ≡ None → state_of story ≡ x
        → Good (shown_with seen (flushed_kept renewed log last len v.kept) v) (flushed_state seen renewed.version len s) }
    ensures images { (v : Shown) (s : State) (good : Good v s) (run : IsRunning (state_of good.story) v s)
        → (info : TableInfo) (rows : List Row) → HasFlushTable (state_of good.story) v.dir v.kept info rows
        → (log last : ℕ) → EndsFrozen v.kept log last → (next : ℕ) → IsEdit (flush_edit info log next last)
        → (x : disk.State) → WritesAt v.dir (Manifest v.kept.manifest) (state_of good.story) x → (t : Tree) → IsImage x t
        → HasEither (path_in v.dir (Manifest v.kept.manifest)) run.parts.edits (flush_edit info log next last) t
        → ReadsAsCrashed s t }
    ensures halted { (v : Shown) (s : State) (good : Good v s) (run : IsRunning (state_of good.story) v s)
        → (info : TableInfo) (rows : List Row) → HasFlushTable (state_of good.story) v.dir v.kept info rows
        → (log last : ℕ) → EndsFrozen v.kept log last → (next : ℕ) → IsEdit (flush_edit info log next last)
        → (x : disk.State) → WritesAt v.dir (Manifest v.kept.manifest) (state_of good.story) x
        → ((t : Tree) → IsImage x t
        → HasEither (path_in v.dir (Manifest v.kept.manifest)) run.parts.edits (flush_edit info log next last) t)
        → (seen : Seen) (at : Halt) (story : Story) → seen.told ≡ Some story → state_of story ≡ x
        → Good (halted_shown seen at v) (halted_state seen at s.doubtful s) }
    ensures many { (v : Shown) (s : State) (good : Good v s) (run : IsRunning (state_of good.story) v s)
        → (info : TableInfo) (rows : List Row) → HasFlushTable (state_of good.story) v.dir v.kept info rows
        → (log last : ℕ) → EndsFrozen v.kept log last → (edits : List Edit) → AddTable run.parts.edits info log last edits
        → (renewed : Renewed) → IsRenewed (state_of good.story) v edits renewed → (len : ℕ)
        → finmap.len renewed.version ≡ finmap.len v.kept.version + 1 }
{}

/// The same where a new manifest is made that names the table, and CURRENT comes to name it: on the way CURRENT names in
/// each image the old manifest or the new one, which are whole.
pub fn a_new_manifest_installs_a_table()
    ensures good { (v : Shown) (s : State) (good : Good v s) (run : IsRunning (state_of good.story) v s)
        → (info : TableInfo) (rows : List Row) → HasFlushTable (state_of good.story) v.dir v.kept info rows
        → (log last : ℕ) → EndsFrozen v.kept log last → (edits : List Edit) → AddTable run.parts.edits info log last edits
        → (number : ℕ) → MayBeNext v.kept number → (x : disk.State) → ReplacesAt v.dir number (state_of good.story) x
        → HasReplaced x v.dir number edits → (renewed : Renewed) → IsRenewed (state_of good.story) v edits renewed
        → All (λ (table : Unfinished). IsFileName (Table table.number)) renewed.unfinished
        → (len : ℕ) → len ≡ length (manifest_text edits)
        → (seen : Seen) (story : Story) → seen.told ≡ Some story → v.halt ≡ None → state_of story ≡ x
        → Good (shown_with seen (switched_kept number len v.kept.next (v.kept.known ++ Manifest number ∷ [])
        (flushed_kept renewed log last len v.kept)) v) (flushed_state seen renewed.version len s) }
    ensures images { (v : Shown) (s : State) (good : Good v s) (run : IsRunning (state_of good.story) v s)
        → (info : TableInfo) (rows : List Row) → HasFlushTable (state_of good.story) v.dir v.kept info rows
        → (log last : ℕ) → EndsFrozen v.kept log last → (edits : List Edit) → AddTable run.parts.edits info log last edits
        → (number : ℕ) → MayBeNext v.kept number → (x : disk.State) → ReplacesAt v.dir number (state_of good.story) x
        → (t : Tree) → IsImage x t
        → NamesWhole v.dir v.kept.manifest run.parts.edits t ⊎ NamesWhole v.dir number edits t → ReadsAsCrashed s t }
    ensures halted { (v : Shown) (s : State) (good : Good v s) (run : IsRunning (state_of good.story) v s)
        → (info : TableInfo) (rows : List Row) → HasFlushTable (state_of good.story) v.dir v.kept info rows
        → (log last : ℕ) → EndsFrozen v.kept log last → (edits : List Edit) → AddTable run.parts.edits info log last edits
        → (number : ℕ) → MayBeNext v.kept number → (x : disk.State) → ReplacesAt v.dir number (state_of good.story) x
        → ((t : Tree) → IsImage x t
        → NamesWhole v.dir v.kept.manifest run.parts.edits t ⊎ NamesWhole v.dir number edits t)
        → (seen : Seen) (by : Halt) (story : Story) → seen.told ≡ Some story → state_of story ≡ x
        → Good (halted_shown seen by v) (halted_state seen by s.doubtful s) }
{}

/// A step of a flush, at each exit: where the store is good for a state that numbers were drawn from on the way, its
/// answer is a step of the abstract store, and the store is good behind it.
pub fn each_answer_of_a_flush_is_a_step()
    ensures halted { (v : Shown) (s : State) → Good v s → (first : Halt) → v.halt ≡ Some first
        → (t : State) × Step s event.FlushStep (reply.FlushStep (Err (error.Halted first))) t × Good v t }
    ensures no_job { (v : Shown) (s : State) (good : Good v s) → IsRunning (state_of good.story) v s → v.halt ≡ None
        → v.kept.frozen ≡ [] → (t : State) × Step s event.FlushStep (reply.FlushStep (Ok flush.NoJob)) t × Good v t }
    ensures more { (v : Shown) (s : State) (good : Good v s) → IsRunning (state_of good.story) v s → v.halt ≡ None
        → v.kept.frozen ≢ [] → (m : State) (w : Shown) → Draws 1 s m → Good w m
        → (t : State) × Step s event.FlushStep (reply.FlushStep (Ok flush.More)) t × Good w t }
    ensures installed { (v : Shown) (s : State) (good : Good v s) → IsRunning (state_of good.story) v s → v.halt ≡ None
        → v.kept.frozen ≢ [] → (k : ℕ) (m : State) (w : Shown) (seen : Seen) (version : Tables) (len : ℕ) → k ≤ 2 → Draws k s m
        → m.faults ≤ seen.faults → m.refusals ≤ seen.refusals
        → finmap.len version ≤ table_limit → finmap.len version ≡ finmap.len v.kept.version + 1
        → Good w (flushed_state seen version len m)
        → (t : State) × Step s event.FlushStep (reply.FlushStep (Ok flush.Installed)) t × Good w t }
    ensures numbers_full { (v : Shown) (s : State) (good : Good v s) → IsRunning (state_of good.story) v s → v.halt ≡ None
        → v.kept.frozen ≢ [] → (m : State) (w : Shown) → Draws 2 s m → (is : Good w m) → IsRunning (state_of is.story) w m
        → number_end ≤ w.kept.next → w.kept.next < v.kept.next + 2
        → (t : State) × Step s event.FlushStep (reply.FlushStep (Err (error.NumbersFull w.kept.next))) t × Good w t }
    ensures tables_full { (v : Shown) (s : State) (good : Good v s) → IsRunning (state_of good.story) v s → v.halt ≡ None
        → v.kept.frozen ≢ [] → (m : State) (w : Shown) → Draws 2 s m → Good w m → table_limit < finmap.len v.kept.version + 1
        → (t : State) × Step s event.FlushStep
        (reply.FlushStep (Err (error.TablesFull (finmap.len v.kept.version) 1))) t × Good w t }
    ensures wanting { (v : Shown) (s : State) (good : Good v s) → IsRunning (state_of good.story) v s → v.halt ≡ None
        → v.kept.frozen ≢ [] → (m : State) (w : Shown) → Draws 2 s m → Good w m
        → (t : State) × Step s event.FlushStep (reply.FlushStep (Err error.NoMemory)) t × Good w t }
    ensures fault { (v : Shown) (s : State) (good : Good v s) → IsRunning (state_of good.story) v s → v.halt ≡ None
        → v.kept.frozen ≢ [] → (k : ℕ) (m : State) (w : Shown) (seen : Seen) (at : Halt) → Draws k s m
        → IsMet s.own at table_calls
        → Rose v.disk.faults seen.faults → m.faults ≤ seen.faults → m.refusals ≤ seen.refusals
        → Good (halted_shown seen at w) (halted_state seen at m.doubtful m)
        → (t : State) × Step s event.FlushStep (reply.FlushStep (Err error.DiskFault)) t × Good (halted_shown seen at w) t }
{}

/// How many numbers were drawn: none; those of two parts of a call; and those of a store that wrote on at a table.
pub fn drawn_numbers_are_counted()
    ensures none { (s : State) → s.durable ≤ length s.accepted → Draws 0 s s }
    ensures both { (j k : ℕ) (s m t : State) → Draws j s m → Draws k m t → Draws (j + k) s t }
    ensures more { (j k : ℕ) (s t : State) → j ≤ k → Draws j s t → Draws k s t }
    ensures built { (k : ℕ) (v : Shown) (s : State) (good : Good v s) → IsRunning (state_of good.story) v s
        → (p : Work) (seen : Seen)
        → p.outputs ≡ v.kept.outputs → v.kept.next ≤ p.next → p.next ≤ v.kept.next + k
        → v.disk.faults ≤ seen.faults → v.disk.refusals ≤ seen.refusals → Draws k s (working_state seen p s) }
{}

/// Where each image behind a disk call reads as a crash leaves the state, so does each on the way, whether the call was made
/// or not. Where a halt behind it leaves a good store, so does one where it failed.
pub fn a_call_shows_the_state()
    ensures images { (v : Shown) (s : State) (good : Good v s) (c : disk.State → Change)
        → ((t : Tree) → IsImage (after (state_of good.story) (c (state_of good.story))) t → ReadsAsCrashed s t)
        → (told : Option Story) → (told ≡ v.disk.told) ⊎ Makes v.disk.told c told → (later : State)
        → ImagesShow good.story told s later }
    ensures halted { (v : Shown) (s : State) (good : Good v s) (c : disk.State → Change)
        → ((t : Tree) → IsImage (after (state_of good.story) (c (state_of good.story))) t → ReadsAsCrashed s t) → v.halt ≡ None
        → ((seen : Seen) (by : Halt) (story : Story) → seen.told ≡ Some story
        → state_of story ≡ after (state_of good.story) (c (state_of good.story))
        → Good (halted_shown seen by v) (halted_state seen by s.doubtful s))
        → (seen : Seen) (by : Halt) → (seen.told ≡ v.disk.told) ⊎ Makes v.disk.told c seen.told
        → Good (halted_shown seen by v) (halted_state seen by s.doubtful s) }
{}

/// A disk lets a store with a folder of its own make a file under each free name in it, write a file that is there, and give
/// one the name CURRENT, since its folder is there and CURRENT is none.
pub fn a_store_may_make_its_files()
    ensures room { (d : disk.State) (dir : List ℕ) (kept : Kept) → IsCurrent d dir kept → (name : FileName) → IsFileName name
        → finmap.get (names_now d) (path_in dir name) ≡ None → no_room (path_in dir name) d ≡ None }
    ensures there { (d : disk.State) (dir : List ℕ) (name : FileName) (id : ℕ) → IsLone d dir name id
        → no_file (path_in dir name) d ≡ None }
    ensures parent { (d : disk.State) (dir : List ℕ) (kept : Kept) → IsCurrent d dir kept → (name : FileName) → IsFileName name
        → is_folder (names_now d) (parent_of (path_in dir name)) ≡ true }
    ensures current { (d : disk.State) (dir : List ℕ) (kept : Kept) → IsCurrent d dir kept
        → is_folder (names_now d) (path_in dir Current) ≡ false }
{}

/// The edit of a flush is in the grammar where its numbers are in their ranges and its table may be one of an edit. The tables
/// that edits make may be ones of an edit.
pub fn the_edit_of_a_flush_is_in_the_grammar()
    ensures edit { (info : TableInfo) (log next last : ℕ) → IsFileNumber log → 1 ≤ next → next < 2 ^ 56 → last < 2 ^ 56
        → IsFileNumber info.number → IsTable info → IsEdit (flush_edit info log next last) }
    ensures tables { (edits : List Edit) → AreEdits edits → AreInRange (tables_after edits) }
{}

/// A manifest of the one edit that adds every table of a version says what the version's edits do, with this log number and
/// this last sequence. So it adds the table of a flush where these edits do.
pub fn a_new_manifest_says_the_version()
    ensures are { (edits : List Edit) → AreEdits edits → (adds : List Add) → AddAll (tables_after edits) adds
        → (log next last : ℕ) → IsFileNumber log → 1 ≤ next → next < 2 ^ 56 → last < 2 ^ 56
        → AreEdits (whole_edit adds log next last ∷ []) }
    ensures tables { (edits : List Edit) → AreEdits edits → (adds : List Add) → AddAll (tables_after edits) adds
        → (log next last : ℕ) → IsFileNumber log → 1 ≤ next → next < 2 ^ 56 → last < 2 ^ 56
        → tables_after (whole_edit adds log next last ∷ []) ≡ tables_after edits }
    ensures adds { (before : List Edit) (info : TableInfo) (log last : ℕ) (edits : List Edit)
        → AddTable before info log last edits → (adds : List Add) → AddAll (tables_after edits) adds
        → (next : ℕ) → IsFileNumber log → 1 ≤ next → next < 2 ^ 56 → last < 2 ^ 56
        → AddTable before info log last (whole_edit adds log next last ∷ []) }
{}

/// A number that comes behind those of all known names is new: no live table has it, no file of it is known, and a new manifest
/// may have it where no pin holds CURRENT.
pub fn a_drawn_number_is_new()
    ensures fresh { (kept : Kept) (n : ℕ) → All (IsDrawn n) kept.known → (d : disk.State) (dir : List ℕ) (parts : Parts)
        → Sane d dir kept parts → finmap.get kept.version n ≡ None }
    ensures unknown { (kept : Kept) (n : ℕ) → All (IsDrawn n) kept.known → ¬ Contains kept.known (Table n) }
    ensures next { (kept : Kept) (n : ℕ) → All (IsDrawn n) kept.known → IsFileName (Manifest n)
        → ¬ Contains (flat_map names_held kept.pins) Current → MayBeNext kept n }
{}

/// While new edits come into a manifest for which a store is ready, whatever these are, and while a new manifest with
/// them takes the place, each image reads as a crash leaves the state before, and a halt leaves a good store.
pub fn new_edits_show_the_same()
    ensures appended { (v : Shown) (s : State) (good : Good v s) (run : IsRunning (state_of good.story) v s)
        → (kept : Kept) (parts : Parts) → IsReadyFor (state_of good.story) v s kept parts
        → (next : Edit) → parts.edits ≡ run.parts.edits ++ next ∷ []
        → (x : disk.State) → WritesAt v.dir (Manifest v.kept.manifest) (state_of good.story) x → (t : Tree) → IsImage x t
        → HasEither (path_in v.dir (Manifest v.kept.manifest)) run.parts.edits next t → ReadsAsCrashed s t }
    ensures append_halted { (v : Shown) (s : State) (good : Good v s) (run : IsRunning (state_of good.story) v s)
        → (kept : Kept) (parts : Parts) → IsReadyFor (state_of good.story) v s kept parts
        → (next : Edit) → parts.edits ≡ run.parts.edits ++ next ∷ []
        → (x : disk.State) → WritesAt v.dir (Manifest v.kept.manifest) (state_of good.story) x
        → ((t : Tree) → IsImage x t → HasEither (path_in v.dir (Manifest v.kept.manifest)) run.parts.edits next t)
        → (seen : Seen) (at : Halt) (story : Story) → seen.told ≡ Some story → state_of story ≡ x
        → Good (halted_shown seen at v) (halted_state seen at s.doubtful s) }
    ensures replaced { (v : Shown) (s : State) (good : Good v s) (run : IsRunning (state_of good.story) v s)
        → (kept : Kept) (parts : Parts) → IsReadyFor (state_of good.story) v s kept parts
        → (number : ℕ) → MayBeNext v.kept number → (x : disk.State) → ReplacesAt v.dir number (state_of good.story) x
        → (t : Tree) → IsImage x t
        → NamesWhole v.dir v.kept.manifest run.parts.edits t ⊎ NamesWhole v.dir number parts.edits t → ReadsAsCrashed s t }
    ensures replace_halted { (v : Shown) (s : State) (good : Good v s) (run : IsRunning (state_of good.story) v s)
        → (kept : Kept) (parts : Parts) → IsReadyFor (state_of good.story) v s kept parts
        → (number : ℕ) → MayBeNext v.kept number → (x : disk.State) → ReplacesAt v.dir number (state_of good.story) x
        → ((t : Tree) → IsImage x t
        → NamesWhole v.dir v.kept.manifest run.parts.edits t ⊎ NamesWhole v.dir number parts.edits t)
        → (seen : Seen) (by : Halt) (story : Story) → seen.told ≡ Some story → state_of story ≡ x
        → Good (halted_shown seen by v) (halted_state seen by s.doubtful s) }
    ensures ready { (v : Shown) (s : State) (good : Good v s) (run : IsRunning (state_of good.story) v s)
        → (info : TableInfo) (rows : List Row) → HasFlushTable (state_of good.story) v.dir v.kept info rows
        → (log last : ℕ) → EndsFrozen v.kept log last → (edits : List Edit) → AddTable run.parts.edits info log last edits
        → (renewed : Renewed) → IsRenewed (state_of good.story) v edits renewed → (len : ℕ)
        → IsReadyFor (state_of good.story) v s (flushed_kept renewed log last len v.kept)
        (flushed edits info.number rows run.parts) }
{}

/// A new manifest is begun under a number that may be the next: only its file and the temporary one were made, of which CURRENT
/// names none yet. What a run of such changes leaves is so at each step; and where memory is wanting then, the store is good
/// that has drawn numbers and knows those of the two that are there.
pub fn a_begun_manifest_leaves_a_good_store()
    ensures more { (dir : List ℕ) → is_folder_name dir ≡ true → (names : List FileName) → All IsFileName names → (d : disk.State)
        → LeadToFiles d → (x : disk.State) → MadeAmong dir names d x → (c : Change) → MakesAmong dir names (length d.files) c
        → MadeAmong dir names d (after x c) }
    ensures good { (v : Shown) (s : State) (good : Good v s) (run : IsRunning (state_of good.story) v s)
        → (number : ℕ) → MayBeNext v.kept number → (x : disk.State) → MadeAmong v.dir (new_names number) (state_of good.story) x
        → (known : List FileName) → KnowsMade x v.dir (new_names number) v.kept.known known → (n : ℕ)
        → (seen : Seen) (story : Story) → seen.told ≡ Some story → v.halt ≡ None → state_of story ≡ x
        → Good (shown_with seen (working_kept (drawn_work n known (work_of v.kept)) v.kept) v)
        (working_state seen (drawn_work n known (work_of v.kept)) s) }
{}
