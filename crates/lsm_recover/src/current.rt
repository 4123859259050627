//! `CURRENT`, which names the manifest.
ghost use Rattle.std.specs.Prelude.{◌≡◌, ◌+◌, ◌≤◌, ℕ, List, None, IfOk, IfErr, IfSome, IsTrue, length};
ghost use Rattle.lsm_names.specs.FileNames.{is_file_number};
ghost use Rattle.lsm_names.specs.declared.file_names.FileName.TheVariants.{Current};
ghost use Rattle.lsm_disk.specs.Names.{is_folder};
ghost use Rattle.lsm_frame.specs.Reader.{Tells, Stays};
ghost use Rattle.lsm_folder.specs.declared.refusals.Refusal.TheVariants.{Malformed};
ghost use Rattle.lsm_folder.specs.Names.{manifest_in, manifest_number};
ghost use Rattle.lsm_folder.specs.Reading.{current_of};
ghost use Rattle.lsm_folder.specs.Steps.{some_or};
ghost use Rattle.lsm_recover.specs.Answers.{AnswersAs, files_now};
ghost use Rattle.lsm_recover.specs.Causes.{HasFolderCause, HasRisenIn};

use crate::errors::{FolderError, error_by};
use crate::opening::{file_path, open_whole};
use lsm_disk::{Disk, View};
use lsm_names::{FileName, Path};

/// No text of `CURRENT` has more bytes: a manifest's name has at most 29, and a newline follows it.
const CURRENT_LIMIT: usize = 30;

const MALFORMED: FolderError = FolderError::Malformed {
    name: FileName::Current,
    place: 0,
};

/// The number of the manifest that `CURRENT` names. The folder's path has at most 130 bytes.
pub fn read_current<D: Disk>(disk: &mut D, dir: &Path) -> Result<u64, FolderError>
    requires { length dir.now + 30 ≤ 160 }
    ensures told { (D.seen disk.new).told ≡ (D.seen disk.old).told }
    ensures number { IfOk result (λ number. IsTrue (is_file_number number)) }
    ensures answer { IfSome (D.seen disk.old).told (λ story. AnswersAs (current_of (files_now dir.now story)) result) }
    ensures cause { HasFolderCause dir.now (D.seen disk.old) (D.seen disk.new) result }
{
    let path = file_path(dir, FileName::Current);
    match open_whole(disk, &path) {
        Ok(mut view) => {
            let named = read_name(&mut view);
            disk.close(view);
            named
        }
        Err(refused) => Err(error_by(FolderError::NoCurrent { dir: *dir }, refused)),
    }
}

// The number of the manifest that a text of `CURRENT` names. A longer text than any lawful one
// isn't read.
fn read_name<V: View>(view: &mut V) -> Result<u64, FolderError>
    ensures number { IfOk result (λ number. IsTrue (is_file_number number)) }
    ensures answer { (text : List ℕ) → Tells (V.viewed view.old) text
        → AnswersAs (some_or (Malformed Current 0) (manifest_in text)) result }
    ensures cause { IfErr result (HasRisenIn (V.viewed view.old) (V.viewed view.new)) }
{
    if view.len() > CURRENT_LIMIT as u64 {
        return Err(MALFORMED);
    }
    let mut buffer = [0; CURRENT_LIMIT];
    let text = &mut buffer[..view.len() as usize];
    let Ok(()) = view.read_at(0, text) else {
        return Err(FolderError::DiskFault);
    };
    match named_manifest(text) {
        Some(number) => Ok(number),
        None => Err(MALFORMED),
    }
}

// The number of the manifest whose name and a newline the text is.
fn named_manifest(text: &[u8]) -> Option<u64>
    ensures is { result ≡ manifest_in text.now }
    ensures number { IfSome result (λ number. IsTrue (is_file_number number)) }
{
    let Some(name) = text.strip_suffix(b"\n") else {
        return None;
    };
    match FileName::parse(name) {
        Ok(found) => manifest_number(found),
        Err(_) => None,
    }
}

// The number of a manifest's name.
fn manifest_number(name: FileName) -> Option<u64>
    ensures { result ≡ manifest_number name }
{
    match name {
        FileName::Manifest(number) => Some(number),
        _ => None,
    }
}
