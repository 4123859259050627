//! The copy of one file onto the backup disk.
ghost use Rattle.std.specs.Prelude.{◌≡◌, ◌^◌, ◌<◌, ℕ, List, length, Some, OnOk, IfOk};
ghost use Rattle.lsm_disk.specs.State.{Story, state_of, new_file};
ghost use Rattle.lsm_disk.specs.Goes.{Went};
ghost use Rattle.lsm_disk.specs.Kept.{IsFileNow};
ghost use Rattle.lsm_disk.specs.Tree.{TellsLawful};
ghost use Rattle.lsm_publish.specs.Publishing.{Writes};
ghost use Rattle.bk_engine.specs.Copying.{Whatever, Anything, IsCopyOf, IsSameView, IsFilled, IsSealed};
ghost use Rattle.bk_engine.specs.Stopping.{HasStopCause};

use crate::stopping::{Stop, stopped};
use bk_copy::{CopyError, copy_view};
use lsm_disk::{Disk, DiskCall, View};
use lsm_names::Path;
use std::alloc::Global;

/// Copies a view into an empty file, and gives the checksum.
fn copy_bytes<B: Disk, V: View>(
    alloc: Global,
    disk: &mut B,
    path: &Path,
    view: &mut V,
) -> Result<u32, Stop>
    ensures copied { IfOk result (λ crc. (text : List ℕ) × IsCopyOf (V.viewed view.old) crc text
        × ((story : Story) (id : ℕ) → (B.seen disk.old).told ≡ Some story → IsFileNow (state_of story) path.now id new_file
        → Went story (B.seen disk.new).told (Writes path.now id) Anything (IsFilled path.now id text))) }
    ensures fits { IfOk result (λ crc. crc < 2 ^ 32) }
    ensures went { (story : Story) (id : ℕ) → (B.seen disk.old).told ≡ Some story → IsFileNow (state_of story) path.now id new_file
        → Went story (B.seen disk.new).told (Writes path.now id) Anything Whatever }
    ensures view { IsSameView (V.viewed view.old) (V.viewed view.new) }
    ensures cause { HasStopCause (B.seen disk.old) (B.seen disk.new) (V.viewed view.old).faults (V.viewed view.new).faults result }
{
    match copy_view(alloc, disk, path, view) {
        Ok(crc) => Ok(crc),
        Err(CopyError::Refused(why)) => Err(stopped(DiskCall::Append, path, why)),
        Err(CopyError::Source) => Err(Stop::Source),
        Err(CopyError::NoMemory) => Err(Stop::NoMemory),
    }
}

/// Makes a file of a view's bytes and syncs it, and gives the checksum.
pub(crate) fn copy_file<B: Disk, V: View>(
    alloc: Global,
    disk: &mut B,
    path: &Path,
    view: &mut V,
) -> Result<u32, Stop>
    ensures copied { IfOk result (λ crc. (text : List ℕ) × IsCopyOf (V.viewed view.old) crc text
        × ((story : Story) → (B.seen disk.old).told ≡ Some story
        → Went story (B.seen disk.new).told (Writes path.now (length (state_of story).files)) Anything
        (IsSealed path.now (length (state_of story).files) text))) }
    ensures fits { IfOk result (λ crc. crc < 2 ^ 32) }
    ensures went { (story : Story) → (B.seen disk.old).told ≡ Some story
        → Went story (B.seen disk.new).told (Writes path.now (length (state_of story).files)) Anything Whatever }
    ensures lawful { OnOk result (TellsLawful (B.seen disk.new)) }
    ensures view { IsSameView (V.viewed view.old) (V.viewed view.new) }
    ensures cause { HasStopCause (B.seen disk.old) (B.seen disk.new) (V.viewed view.old).faults (V.viewed view.new).faults result }
{
    if let Err(why) = disk.create(path) {
        return Err(stopped(DiskCall::Create, path, why));
    }
    let crc = copy_bytes(alloc, disk, path, view)?;
    if let Err(why) = disk.sync(path) {
        return Err(stopped(DiskCall::Sync, path, why));
    }
    Ok(crc)
}
