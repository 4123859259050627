//! Which files make a backup together.
ghost use Rattle.std.specs.Prelude.{◌≡◌, ◌↔◌, Option, Some, None, IsTrue, IsSome};
ghost use Rattle.std.specs.List.{All};
ghost use Rattle.bk_meta.specs.Metas.{Ascends, IsMetaFile, is_current, is_manifest, shared_number, is_whole};

use crate::backup_files::BackupFile;
use crate::metas::MetaFile;
use lsm_names::FileName;

fn is_current(file: &Option<BackupFile>) -> bool
    ensures { result ≡ is_current file.now }
{
    match file {
        Some(BackupFile::Private(FileName::Current)) => true,
        _ => false,
    }
}

fn is_manifest(file: &Option<BackupFile>) -> bool
    ensures { result ≡ is_manifest file.now }
{
    match file {
        Some(BackupFile::Private(FileName::Manifest(_))) => true,
        _ => false,
    }
}

fn shared_number(file: &Option<BackupFile>) -> Option<u64>
    ensures { result ≡ shared_number file.now }
{
    match file {
        Some(BackupFile::Shared(name)) => Some(name.number),
        _ => None,
    }
}

/// Whether both are one number.
fn is_same(last: Option<u64>, number: Option<u64>) -> bool
    ensures { IsTrue result ↔ ((last ≡ number) × IsSome number) }
{
    match (last, number) {
        (Some(last), Some(number)) => last == number,
        _ => false,
    }
}

/// Whether there is exactly one `CURRENT` and one manifest, and no number stands on two shared files. Files whose
/// paths begin alike are neighbours, so that each number is compared with the one before alone.
pub fn is_whole(id: u32, files: &[MetaFile]) -> bool
    requires ascending { Ascends files.now }
    requires named { All (IsMetaFile id) files.now }
    ensures { result ≡ is_whole id files.now }
{
    let mut currents: usize = 0;
    let mut manifests: usize = 0;
    let mut last = None;
    for entry in files {
        let file = BackupFile::parse(id, entry.path.as_bytes());
        currents += usize::from(is_current(&file));
        manifests += usize::from(is_manifest(&file));
        let number = shared_number(&file);
        if is_same(last, number) {
            return false;
        }
        last = number;
    }
    currents == 1 && manifests == 1
}
