//! The making of a file.
ghost use Rattle.std.specs.Prelude.{◌≡◌, OnOk, IfErr};
ghost use Rattle.lsm_disk.specs.State.{created};
ghost use Rattle.lsm_disk.specs.Tree.{TellsLawful};
ghost use Rattle.lsm_disk.specs.Answers.{Makes, HasDiskCause};
ghost use Rattle.lsm_store.specs.Making.{IsNotMade};

use lsm_disk::{Disk, DiskCall, DiskRefusal, Halt};
use lsm_names::Path;

/// Makes a new, empty file. A refusal tells the disk call.
pub(crate) fn make_file<D: Disk>(disk: &mut D, path: &Path) -> Result<(), DiskRefusal>
    ensures made { OnOk result (Makes (D.seen disk.old).told (created path.now) (D.seen disk.new).told) }
    ensures refused { IfErr result (IsNotMade path.now (D.seen disk.old) (D.seen disk.new)) }
    ensures cause { HasDiskCause (D.seen disk.old) (D.seen disk.new) result }
    ensures lawful { TellsLawful (D.seen disk.old) }
{
    match disk.create(path) {
        Ok(()) => Ok(()),
        Err(why) => Err(DiskRefusal {
            at: Halt {
                call: DiskCall::Create,
                path: *path,
            },
            why,
        }),
    }
}
