//! The sync of a file, and of names.
ghost use Rattle.std.specs.Prelude.{◌≡◌, OnOk, IfErr};
ghost use Rattle.lsm_disk.specs.State.{file_synced, names_synced};
ghost use Rattle.lsm_disk.specs.Tree.{TellsLawful};
ghost use Rattle.lsm_disk.specs.Answers.{Makes, HasDiskCause};
ghost use Rattle.lsm_store.specs.Syncing.{IsNotSynced, AreNotSynced};

use lsm_disk::{Disk, DiskCall, DiskRefusal, Halt};
use lsm_names::Path;

/// A file's bytes outlive a crash. A refusal tells the disk call.
pub(crate) fn sync_file<D: Disk>(disk: &mut D, path: &Path) -> Result<(), DiskRefusal>
    ensures made { OnOk result (Makes (D.seen disk.old).told (file_synced path.now) (D.seen disk.new).told) }
    ensures refused { IfErr result (IsNotSynced path.now (D.seen disk.old) (D.seen disk.new)) }
    ensures cause { HasDiskCause (D.seen disk.old) (D.seen disk.new) result }
    ensures lawful { TellsLawful (D.seen disk.old) }
{
    match disk.sync(path) {
        Ok(()) => Ok(()),
        Err(why) => Err(DiskRefusal {
            at: Halt {
                call: DiskCall::Sync,
                path: *path,
            },
            why,
        }),
    }
}

/// All name operations so far outlive a crash. A refusal tells the disk call, on the file for whose
/// sake the names are synced.
pub(crate) fn sync_names<D: Disk>(disk: &mut D, path: &Path) -> Result<(), DiskRefusal>
    ensures made { OnOk result (Makes (D.seen disk.old).told names_synced (D.seen disk.new).told) }
    ensures refused { IfErr result (AreNotSynced path.now (D.seen disk.old) (D.seen disk.new)) }
    ensures cause { HasDiskCause (D.seen disk.old) (D.seen disk.new) result }
{
    match disk.sync_names() {
        Ok(()) => Ok(()),
        Err(why) => Err(DiskRefusal {
            at: Halt {
                call: DiskCall::SyncNames,
                path: *path,
            },
            why,
        }),
    }
}
