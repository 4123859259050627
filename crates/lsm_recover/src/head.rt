//! What a folder is read by: its listing, and what its manifest's edits come to.
ghost use Rattle.std.specs.Prelude.{◌≡◌, ◌+◌, ◌≤◌, IfOk, IfSome, length};
ghost use Rattle.lsm_recover.specs.Causes.{HasFolderCause};
ghost use Rattle.lsm_recover.specs.Head.{AnswersHead};
ghost use Rattle.lsm_recover.specs.Stated.{IsSound};

use crate::current::read_current;
use crate::errors::FolderError;
use crate::manifest::{Stated, read_manifest};
use crate::opening::list_folder;
use lsm_disk::{Disk, Listing};
use lsm_names::Path;
use std::alloc::Global;

/// A folder's listing, and what its manifest's edits come to.
#[derive(Drop)]
pub(crate) struct Head {
    pub(crate) listing: Listing,
    pub(crate) stated: Stated,
}

// A folder's listing is read first, then `CURRENT`, and then the manifest that it names.
pub(crate) fn read_head<D: Disk>(
    alloc: Global,
    disk: &mut D,
    dir: &Path,
) -> Result<Head, FolderError>
    requires { length dir.now + 30 ≤ 160 }
    ensures told { (D.seen disk.new).told ≡ (D.seen disk.old).told }
    ensures answer { IfSome (D.seen disk.old).told (λ story. AnswersHead dir.now story result) }
    ensures sound { IfOk result (λ head. IsSound head.stated) }
    ensures cause { HasFolderCause dir.now (D.seen disk.old) (D.seen disk.new) result }
{
    let listing = list_folder(disk, dir)?;
    let manifest = read_current(disk, dir)?;
    let stated = read_manifest(alloc, disk, dir, manifest)?;
    Ok(Head { listing, stated })
}
