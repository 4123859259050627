//! Laws of an edit more in the manifest of a running store. The functions do nothing: their contracts are the laws.
ghost use Rattle.std.specs.Prelude.{◌≡◌, ℕ, List, [], ◌∷◌, ◌++◌, length, true, is_some, All, Contains, Option, Some, None};
ghost use Rattle.std.specs.FinMap as finmap;
ghost use Rattle.lsm_names.specs.Folders.{is_folder_name};
ghost use Rattle.lsm_names.specs.FileNames.{IsFileName};
ghost use Rattle.lsm_names.specs.declared.file_names.FileName.{FileName};
ghost use Rattle.lsm_names.specs.declared.file_names.FileName.TheVariants.{Log, Manifest, Temp, Current};
ghost use Rattle.lsm_disk.specs.Names.{File_node, Moved};
ghost use Rattle.lsm_disk.specs.State as disk;
ghost use Rattle.lsm_disk.specs.State.{Named, after, file_at, names_now};
ghost use Rattle.lsm_disk.specs.Dest.{Begun, path_in};
ghost use Rattle.lsm_wal.specs.Batches.{Logged};
ghost use Rattle.lsm_wal.specs.Standing.{IsWal};
ghost use Rattle.lsm_folder.specs.Names.{current_text};
ghost use Rattle.lsm_version.specs.declared.edits.Edit.{Edit};
ghost use Rattle.lsm_folder.specs.Manifests.{tables_after, log_after, last_after, manifest_text};
ghost use Rattle.lsm_folder.specs.Parts.{AreEdits, AreLawful};
ghost use Rattle.lsm_refine.specs.Kept.{Kept};
ghost use Rattle.lsm_refine.specs.Parts.{Parts, AreRowsOf, first_in_last};
ghost use Rattle.lsm_refine.specs.Sane.{IsWholeFile, IsAlone, HasEdits, HasTables, HasLogs, IsQuiet, AreKnown, AreFiles, RestoreBuilds, Sane};
ghost use Rattle.lsm_refine.specs.Beside.{ChangesAt, WritesAt, MakesAt, SaneBeside};
ghost use Rattle.lsm_refine.specs.Pins.{AreClearable};
ghost use Rattle.lsm_refine.specs.Among.{IsElsewhere, ChangesAmong, switched_names, switched_kept};
ghost use Rattle.lsm_refine.specs.Edited.{edited_kept, KeepsTheRest, AreNewQuiet};

/// Where an edit was appended to the manifest of a running store, the store keeps what the edits say then. If the tables and
/// the logs that it keeps with the edit stood before, with the new tables' names for good, all else that it keeps is so.
pub fn an_appended_edit_is_kept()
    ensures edits { (later : disk.State) (dir : List ℕ) (kept : Kept) (edits : List Edit) (edit : Edit) → AreEdits (edits ++ edit ∷ [])
        → IsWholeFile later (path_in dir (Manifest kept.manifest)) (manifest_text (edits ++ edit ∷ []))
        → HasEdits later dir (edited_kept (edits ++ edit ∷ []) kept) (edits ++ edit ∷ []) }
    ensures sane { (d : disk.State) (dir : List ℕ) (before : Kept) (was : Parts) → Sane d dir before was → (kept : Kept) (parts : Parts)
        → KeepsTheRest before kept → HasTables d dir kept parts.rows → HasLogs d dir kept parts
        → parts.last.number ≡ was.last.number → AreLawful parts.edits parts.rows → AreNewQuiet d dir before kept
        → (later : disk.State) → WritesAt dir (Manifest kept.manifest) d later → HasEdits later dir kept parts.edits
        → Sane later dir kept parts }
    ensures ready { (d : disk.State) (dir : List ℕ) (before : Kept) (was : Parts) → Sane d dir before was → (kept : Kept) (parts : Parts)
        → KeepsTheRest before kept → HasTables d dir kept parts.rows → HasLogs d dir kept parts
        → parts.last.number ≡ was.last.number → AreLawful parts.edits parts.rows → AreNewQuiet d dir before kept
        → SaneBeside d dir kept parts (Manifest kept.manifest) }
    ensures again { (d : disk.State) (dir : List ℕ) (kept : Kept) (parts : Parts) → SaneBeside d dir kept parts (Manifest kept.manifest)
        → AreRowsOf (first_in_last parts) parts.last.batches kept.active
        → (later : disk.State) → WritesAt dir (Manifest kept.manifest) d later → HasEdits later dir kept parts.edits
        → Sane later dir kept parts }
{}

/// What changes at a few names of the store's folder: nothing; one such change behind another; what changes at one of them, or
/// at some; and a file's rename from one of them to another. A file that was made at a name has no other.
pub fn changes_at_a_few_names()
    ensures none { (dir : List ℕ) (names : List FileName) (d : disk.State) → ChangesAmong dir names d d }
    ensures both { (dir : List ℕ) (names : List FileName) (d mid later : disk.State) → ChangesAmong dir names d mid
        → ChangesAmong dir names mid later → ChangesAmong dir names d later }
    ensures one { (dir : List ℕ) (names : List FileName) (name : FileName) → Contains names name → (d later : disk.State)
        → ChangesAt (path_in dir name) d later → ChangesAmong dir names d later }
    ensures more { (dir : List ℕ) (names some : List FileName) → All (Contains names) some → (d later : disk.State)
        → ChangesAmong dir some d later → ChangesAmong dir names d later }
    ensures renamed { (dir : List ℕ) (names : List FileName) (from to : FileName) → Contains names from → Contains names to
        → (d : disk.State) (id : ℕ) → finmap.get (names_now d) (path_in dir from) ≡ Some (File_node id)
        → ChangesAmong dir names d (after d (Named (Moved (path_in dir from) (path_in dir to)))) }
    ensures alone { (dir : List ℕ) (name : FileName) (d later : disk.State) → MakesAt dir name d later
        → file_at later (path_in dir name) ≡ Some (length d.files) → IsAlone later (path_in dir name) }
{}

/// What changes at a few names of the store's folder leaves each other file whole, and each other log. No folder comes under a
/// file's name, nothing comes in the way of a checkpoint, and a folder that a restore builds stays.
pub fn files_of_other_names_stay()
    ensures whole { (dir : List ℕ) (names : List FileName) (d later : disk.State) → ChangesAmong dir names d later
        → (other : List ℕ) → IsElsewhere dir names other → (held : List ℕ) → IsWholeFile d other held → IsWholeFile later other held }
    ensures log { (dir : List ℕ) → is_folder_name dir ≡ true → (names : List FileName) → All IsFileName names
        → (d later : disk.State) → ChangesAmong dir names d later → (number : ℕ) (batches : List Logged) (durable : ℕ)
        → IsElsewhere dir names (path_in dir (Log number))
        → IsWal d (path_in dir (Log number)) batches durable → IsWal later (path_in dir (Log number)) batches durable }
    ensures files { (dir : List ℕ) → is_folder_name dir ≡ true → (names : List FileName) → All IsFileName names
        → (d later : disk.State) → ChangesAmong dir names d later → AreFiles d dir → AreFiles later dir }
    ensures clear { (dir : List ℕ) → is_folder_name dir ≡ true → (names : List FileName) → All IsFileName names
        → (d later : disk.State) → ChangesAmong dir names d later → AreFiles d dir → AreClearable d → AreClearable later }
    ensures restored { (dir : List ℕ) → is_folder_name dir ≡ true → (names : List FileName) → All IsFileName names
        → (d later : disk.State) → ChangesAmong dir names d later → AreFiles d dir
        → (begun : Option Begun) (hand : Option FileName) → RestoreBuilds d dir begun hand → RestoreBuilds later dir begun hand }
{}

/// Where a new manifest is whole whose edits come to the same, a running store keeps what they say. Where CURRENT names it too,
/// nothing else has changed but the temporary name, and the known names are again those that are there, all that the store
/// keeps of itself is so. A temporary file that wasn't there before and is gone leaves the manifest as the one new name.
pub fn a_new_manifest_is_kept()
    ensures edits { (d later : disk.State) (dir : List ℕ) (kept : Kept) (was edits : List Edit) (number next : ℕ) (known : List FileName)
        → HasEdits d dir kept was → AreEdits edits
        → tables_after edits ≡ tables_after was → log_after edits ≡ log_after was → last_after edits ≡ last_after was
        → IsWholeFile later (path_in dir (Manifest number)) (manifest_text edits)
        → HasEdits later dir (switched_kept number (length (manifest_text edits)) next known kept) edits }
    ensures sane { (d : disk.State) (dir : List ℕ) (before : Kept) (was : Parts) → Sane d dir before was
        → (number len next : ℕ) (known : List FileName) (edits : List Edit) → IsFileName (Manifest number)
        → (temporary : ℕ) → IsFileName (Temp temporary)
        → (later : disk.State) → ChangesAmong dir (switched_names number temporary) d later
        → IsWholeFile later (path_in dir Current) (current_text number)
        → HasEdits later dir (switched_kept number len next known before) edits → IsAlone later (path_in dir (Manifest number))
        → AreKnown later dir (switched_kept number len next known before)
        → IsQuiet later dir (switched_kept number len next known before)
        → Sane later dir (switched_kept number len next known before) (record was { edits = edits }) }
    ensures known { (d later : disk.State) (dir : List ℕ) (before : Kept) → is_folder_name dir ≡ true → (number temporary : ℕ)
        → IsFileName (Manifest number) → IsFileName (Temp temporary) → ChangesAmong dir (switched_names number temporary) d later
        → AreKnown d dir before → Contains before.known Current → (Contains before.known (Temp temporary) → ⊥)
        → is_some (file_at later (path_in dir (Manifest number))) ≡ true → is_some (file_at later (path_in dir Current)) ≡ true
        → finmap.get (names_now later) (path_in dir (Temp temporary)) ≡ None
        → (len next : ℕ) → AreKnown later dir (switched_kept number len next (before.known ++ Manifest number ∷ []) before) }
{}
