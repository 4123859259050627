//! The answer to a question for a folder.
ghost use Rattle.std.specs.Prelude.{◌≡◌, Option};
ghost use Rattle.lsm_disk.specs.State.{Story};
ghost use Rattle.ldb_script.specs.Answering.{UnshownAs};
ghost use Rattle.ldb_script.specs.Doing.{StoreAnsweredOr};
ghost use Rattle.ldb_script.specs.Opening.{ByOneLine};
ghost use Rattle.ldb_script.specs.Plain.{Outcome};
ghost use Rattle.ldb_script.specs.Stored.{Stands};
ghost use Rattle.ldb_script.specs.declared.line.Command.{Command};

use crate::ending::{Ended, made};
use crate::listing::folder_text;
use crate::printing::{folder_refusal, no_folder_line};
use crate::store::Store;
use lsm_bytes::Bytes;
use lsm_disk::Disk;
use lsm_names::Folder;
use lsm_recover::FolderError;
use std::alloc::Global;

// The answer where a folder isn't shown. A fault of the disk ends the run.
fn unshown(alloc: Global, name: &Folder, why: FolderError) -> Result<Bytes, Ended>
    ensures { UnshownAs name.now why result }
{
    match why {
        FolderError::DiskFault => Err(Ended::DiskFault),
        FolderError::NoMemory => Err(Ended::NoMemory),
        FolderError::NoFolder { .. } => made(no_folder_line(alloc, name)),
        other => made(folder_refusal(alloc, other)),
    }
}

/// Shows the folder of this name on the store's disk, and makes the answer.
pub fn answer_show<D: Disk>(
    alloc: Global,
    store: &mut Store<D>,
    name: &Folder,
) -> Result<Bytes, Ended>
    ensures done { (start : Option Story) (outcome : Outcome) → Stands start store.old outcome
        → StoreAnsweredOr start store.old store.new outcome (Command.ShowFolder name.now) result }
    ensures line { ByOneLine store.old store.new }
{
    match store.show(name) {
        Ok(found) => made(folder_text(alloc, &found)),
        Err(why) => unshown(alloc, name, why),
    }
}
