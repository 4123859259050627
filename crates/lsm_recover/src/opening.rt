//! Views of whole files of a folder, and the folder's listing.
ghost use Rattle.std.specs.Prelude.{◌≡◌, ◌+◌, ◌≤◌, ◌∷◌, ◌++◌, Option, None, IfOk, IfErr, IfSome, IsTrue, length};
ghost use Rattle.lsm_names.specs.Paths.{is_path};
ghost use Rattle.lsm_names.specs.FileNames.{IsFileName, spelled};
ghost use Rattle.lsm_disk.specs.Names.{is_folder};
ghost use Rattle.lsm_disk.specs.State.{state_of, names_now, file_now, bytes_of};
ghost use Rattle.lsm_disk.specs.Listing.{listing};
ghost use Rattle.lsm_disk.specs.Refusals.{no_file};
ghost use Rattle.lsm_disk.specs.Answers.{RefusesBy, HasDiskCause};
ghost use Rattle.lsm_frame.specs.Reader.{Tells};
ghost use Rattle.lsm_recover.specs.Answers.{IsRefusedBy, place_now};
ghost use Rattle.lsm_recover.specs.Causes.{HasFolderCause, IsOfReading};
ghost use Rattle.lsm_recover.specs.Listed.{IsListing};
ghost use Rattle.lsm_recover.specs.Head.{edits_there};

use crate::errors::{FolderError, error_by};
use lsm_disk::{Disk, DiskCall, DiskError, DiskRefusal, Halt, Listing};
use lsm_names::{FileName, Path};

// The path of a file of a folder.
pub(crate) fn file_path(dir: &Path, name: FileName) -> Path
    requires name { IsFileName name }
    requires room { length dir.now + 30 ≤ 160 }
    ensures path { result ≡ dir.now ++ 47 ∷ spelled name }
    ensures folder { IsTrue (is_path dir.now) }
{
    let _front = dir.as_bytes();
    match dir.join(&name.path()) {
        Ok(path) => path,
        Err(_) => unreachable!(),
    }
}

fn refusal(call: DiskCall, path: &Path, why: DiskError) -> DiskRefusal
    ensures why { result.why ≡ why }
    ensures made { result.at.call ≡ call }
{
    DiskRefusal {
        at: Halt { call, path: *path },
        why,
    }
}

// A view of all bytes of a file.
pub(crate) fn open_whole<D: Disk>(disk: &mut D, path: &Path) -> Result<D::View, DiskRefusal>
    ensures told { (D.seen disk.new).told ≡ (D.seen disk.old).told }
    ensures there { IfOk result (λ view. IfSome (D.seen disk.old).told (λ story. no_file path.now (state_of story) ≡ None)) }
    ensures tells { IfOk result (λ view. IfSome (D.seen disk.old).told
        (λ story. Tells (D.View.viewed view) (bytes_of (file_now path.now (state_of story))))) }
    ensures fresh { IfOk result (λ view. (D.View.viewed view).faults ≡ 0) }
    ensures refused { IfErr result (λ r. IfSome (D.seen disk.old).told (λ story.
        RefusesBy (no_file path.now (state_of story)) r.why)) }
    ensures cause { HasDiskCause (D.seen disk.old) (D.seen disk.new) result }
    ensures made { IfErr result (λ r. IsOfReading r.at.call) }
{
    match disk.size(path) {
        Ok(size) => match disk.open(path, size) {
            Ok(view) => Ok(view),
            Err(why) => Err(refusal(DiskCall::Open, path, why)),
        },
        Err(why) => Err(refusal(DiskCall::Size, path, why)),
    }
}

// What stands in the folder.
pub(crate) fn list_folder<D: Disk>(disk: &mut D, dir: &Path) -> Result<Listing, FolderError>
    ensures told { (D.seen disk.new).told ≡ (D.seen disk.old).told }
    ensures folder { IfOk result (λ entries. IfSome (D.seen disk.old).told (λ story. IsListing dir.now story entries)) }
    ensures refused { IfErr result (λ e. IfSome (D.seen disk.old).told (λ story.
        IsRefusedBy (edits_there (place_now dir.now story)) e)) }
    ensures cause { HasFolderCause dir.now (D.seen disk.old) (D.seen disk.new) result }
{
    match disk.list(dir) {
        Ok(listing) => Ok(listing),
        Err(why) => Err(error_by(
            FolderError::NoFolder { dir: *dir },
            refusal(DiskCall::List, dir, why),
        )),
    }
}
