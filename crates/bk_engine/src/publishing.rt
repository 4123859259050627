//! The publication of a meta.
ghost use Rattle.std.specs.Prelude.{◌≡◌, ◌≤◌, ℕ, List, length, Some, None, OnOk};
ghost use Rattle.lsm_disk.specs.State.{Story, state_of};
ghost use Rattle.lsm_disk.specs.Goes.{Went};
ghost use Rattle.lsm_disk.specs.Kept.{IsKeptName};
ghost use Rattle.lsm_disk.specs.Tree.{IsLawful};
ghost use Rattle.bk_meta.specs.Metas.{IsMeta};
ghost use Rattle.bk_tree.specs.Kept.{IsKeptBackup};
ghost use Rattle.bk_tree.specs.Places.{meta_path};
ghost use Rattle.bk_engine.specs.Copying.{Whatever, Anything};
ghost use Rattle.bk_engine.specs.Preparing.{AreNew};
ghost use Rattle.bk_engine.specs.Publishing.{Creates, AreOwn, NoneOrHeld};
ghost use Rattle.bk_engine.specs.Stopping.{HasStopCause};

use crate::places::{meta_path, temporary_path};
use crate::stopping::Stop;
use bk_meta::{Meta, print_meta};
use lsm_disk::Disk;
use lsm_publish::{switch, write_temporary};
use std::alloc::Global;

/// Writes the meta under its temporary name and publishes it. The first sync of names makes the
/// names of the backup's files durable, before the rename.
pub(crate) fn publish_meta<B: Disk>(alloc: Global, disk: &mut B, meta: &Meta) -> Result<(), Stop>
    requires { IsMeta meta.now }
    // After Ok the backup outlives each crash, where its files were there with their bytes synced.
    ensures kept { OnOk result ((story : Story) (first : ℕ) (texts : List (List ℕ)) → (B.seen disk.old).told ≡ Some story
        → first ≤ length (state_of story).files → IsLawful (state_of story)
        → AreOwn meta.now.id meta.now.files → AreNew first (state_of story) meta.now.files texts
        → Went story (B.seen disk.new).told (Creates meta.now.id first) Anything (λ s. IsKeptBackup s meta.now texts)) }
    ensures went { (story : Story) (first : ℕ) → (B.seen disk.old).told ≡ Some story → first ≤ length (state_of story).files
        → Went story (B.seen disk.new).told (Creates meta.now.id first) Anything Whatever }
    // Where no crash leaves a meta of this identifier, each image on the way lists no such backup, or holds all of it.
    ensures crash { (story : Story) (first : ℕ) (texts : List (List ℕ)) → (B.seen disk.old).told ≡ Some story → first ≤ length
        (state_of story).files → IsLawful (state_of story)
        → AreOwn meta.now.id meta.now.files → AreNew first (state_of story) meta.now.files texts → IsKeptName (state_of story)
        (meta_path meta.now.id) None
        → Went story (B.seen disk.new).told (Creates meta.now.id first) (NoneOrHeld meta.now texts) Whatever }
    ensures cause { (before : ℕ) → HasStopCause (B.seen disk.old) (B.seen disk.new) before before result }
{
    let text = print_meta(alloc, meta)?;
    let temporary = temporary_path(meta.id);
    write_temporary(disk, &temporary, text.as_slice())?;
    switch(disk, &temporary, &meta_path(meta.id))?;
    Ok(())
}
