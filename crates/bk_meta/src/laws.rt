//! What the definitions say of each other, for the proofs of the crates above.
ghost use Rattle.std.specs.Prelude.{◌≡◌, ◌^◌, ◌<◌, ◌≤◌, ◌↔◌, ℕ, List, Some, Ok, IsTrue};
ghost use Rattle.lsm_names.specs.Paths.{is_path};
ghost use Rattle.bk_meta.specs.declared.backup_files.BackupFile.{BackupFile};
ghost use Rattle.bk_meta.specs.declared.metas.Meta.{Meta};
ghost use Rattle.bk_meta.specs.BackupFiles.{file_at, path_of, IsBackupFile};
ghost use Rattle.bk_meta.specs.Metas.{IsMeta, meta_text, meta_of};

/// The text of a meta is read as that meta.
pub fn printed_meta_is_read()
    ensures { (meta : Meta) → IsMeta meta → meta_of meta.id (meta_text meta) ≡ Ok meta }
{}

/// A text that is read is the one text of its meta, and that is lawful.
pub fn read_meta_is_printed()
    ensures text { (id : ℕ) (text : List ℕ) (meta : Meta) → 1 ≤ id → id < 2 ^ 32
        → meta_of id text ≡ Ok meta → text ≡ meta_text meta }
    ensures meta { (id : ℕ) (text : List ℕ) (meta : Meta) → 1 ≤ id → id < 2 ^ 32
        → meta_of id text ≡ Ok meta → IsMeta meta }
    ensures identifier { (id : ℕ) (text : List ℕ) (meta : Meta) → 1 ≤ id → id < 2 ^ 32
        → meta_of id text ≡ Ok meta → meta.id ≡ id }
{}

/// A path names the one file that it spells, and is a path of a disk.
pub fn paths_name_files()
    ensures named { (id : ℕ) (path : List ℕ) (file : BackupFile)
        → (file_at id path ≡ Some file) ↔ (IsBackupFile file × (path ≡ path_of id file)) }
    ensures path { (id : ℕ) (file : BackupFile) → id < 2 ^ 32 → IsBackupFile file
        → IsTrue (is_path (path_of id file)) }
{}
