//! The files of a backup, looked at on the backup disk.
ghost use Rattle.std.specs.Prelude.{◌≡◌, ◌≤◌, IfOk, IfErr, OnOk, Some, None};
ghost use Rattle.bk_restore.specs.Causes.{HasCauses, silent};
ghost use Rattle.bk_restore.specs.Wrong.{wrong_size, IsToldOf};
ghost use Rattle.bk_restore.specs.Sources.{HasLength, IsWholeView};
ghost use Rattle.bk_restore.specs.Refusals.{IsPastBegin};

use crate::RestoreError;
use crate::refusals::disk_refused;
use bk_meta::{BackupFile, MetaFile};
use lsm_disk::{Disk, DiskCall};

/// Refuses a shared file that hasn't the size in its name.
fn compare_size(file: &MetaFile, which: &BackupFile, found: u64) -> Result<(), RestoreError>
    ensures ok { OnOk result (wrong_size file.now which.now found ≡ None) }
    ensures err { IfErr result (λ e. wrong_size file.now which.now found ≡ Some e) }
    ensures past { IfErr result IsPastBegin }
{
    match which {
        BackupFile::Shared(name) if name.size != found => Err(RestoreError::WrongSize {
            name: file.path,
            kept: name.size,
            found,
        }),
        _ => Ok(()),
    }
}

/// The length of a file, which is the right one.
fn length_of<B: Disk>(
    disk: &mut B,
    file: &MetaFile,
    which: &BackupFile,
) -> Result<u64, RestoreError>
    ensures told { (B.seen disk.new).told ≡ (B.seen disk.old).told }
    ensures size { IfOk result (λ len. wrong_size file.now which.now len ≡ None) }
    ensures there { IfOk result (HasLength (B.seen disk.old).told file.now.path) }
    ensures wrong { IfErr result (IsToldOf (B.seen disk.old).told file.now which.now) }
    ensures past { IfErr result IsPastBegin }
    ensures cause { HasCauses (B.seen disk.old) (B.seen disk.new) silent silent result }
{
    match disk.size(&file.path) {
        Ok(len) => {
            compare_size(file, which, len)?;
            Ok(len)
        }
        Err(why) => Err(disk_refused(DiskCall::Size, &file.path, why)),
    }
}

/// A view of a whole file, which has the right size.
pub(crate) fn open_file<B: Disk>(
    disk: &mut B,
    file: &MetaFile,
    which: &BackupFile,
) -> Result<B::View, RestoreError>
    ensures told { (B.seen disk.new).told ≡ (B.seen disk.old).told }
    ensures opened { IfOk result (λ view. IsWholeView (B.seen disk.old).told file.now which.now (B.View.viewed view)) }
    ensures wrong { IfErr result (IsToldOf (B.seen disk.old).told file.now which.now) }
    ensures past { IfErr result IsPastBegin }
    ensures cause { HasCauses (B.seen disk.old) (B.seen disk.new) silent silent result }
{
    let len = length_of(disk, file, which)?;
    match disk.open(&file.path, len) {
        Ok(view) => Ok(view),
        Err(why) => Err(disk_refused(DiskCall::Open, &file.path, why)),
    }
}
