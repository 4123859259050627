//! The files that a meta names.
ghost use Rattle.std.specs.Prelude.{◌≡◌, Some};
ghost use Rattle.bk_meta.specs.BackupFiles.{file_at};
ghost use Rattle.bk_meta.specs.Metas.{IsMetaFile, is_current};

use bk_meta::{BackupFile, MetaFile};
use lsm_names::FileName;

/// The file that a path of a meta names.
pub(crate) fn file_of(id: u32, file: &MetaFile) -> BackupFile
    requires { IsMetaFile id file.now }
    ensures { file_at id file.now.path ≡ Some result }
{
    BackupFile::parse(id, file.path.as_bytes()).unwrap()
}

/// Whether a file is `CURRENT`.
pub(crate) fn is_current(which: &BackupFile) -> bool
    ensures { result ≡ is_current (Some which.now) }
{
    match which {
        BackupFile::Private(FileName::Current) => true,
        _ => false,
    }
}
