//! All files of a backup but `CURRENT`, restored.
ghost use Rattle.std.specs.Prelude.{◌≡◌, ℕ, List, [], ◌∷◌, ◌++◌, Some, OnOk, IfErr};
ghost use Rattle.lsm_disk.specs.State.{State, Story, state_of};
ghost use Rattle.lsm_disk.specs.Dest.{Begun, just_begun};
ghost use Rattle.lsm_disk.specs.Building.{Part, IsBuilding, IsUnfinished};
ghost use Rattle.bk_meta.specs.Metas.{IsMetaFile};
ghost use Rattle.bk_restore.specs.Causes.{HasCauses};
ghost use Rattle.bk_restore.specs.Refusals.{IsPastBegin};
ghost use Rattle.bk_restore.specs.Wrong.{others, IsToldFirst};
ghost use Rattle.bk_restore.specs.Hands.{IsReady, Builds};
ghost use Rattle.bk_restore.specs.Restored.{AreRestored, IsNext, AreMetaFiles, begun_with, with_parts};

use crate::RestoreError;
use crate::files::restore_file;
use crate::named::{file_of, is_current};
use bk_meta::MetaFile;
use lsm_disk::{Dest, Disk};
use std::alloc::Global;

/// Restores the next file, unless it is `CURRENT`.
fn restore_next<B: Disk, T: Dest>(
    alloc: Global,
    disk: &mut B,
    id: u32,
    file: &MetaFile,
    dest: &mut T,
) -> Result<(), RestoreError>
    requires meta { IsMetaFile id file.now }
    requires ready { (begun : Begun) × IsReady begun (T.seen dest.old) × IsNext id file.now begun }
    ensures told { (B.seen disk.new).told ≡ (B.seen disk.old).told }
    ensures restored { OnOk result ((more : List Part) × AreRestored id (B.seen disk.old).told (others id (file.now ∷ [])) more
        × ((begun : Begun) → IsReady begun (T.seen dest.old) → IsReady (with_parts more begun) (T.seen dest.new))
        × ((start : State) (story : Story) (begun : Begun) (parts : List Part) → (T.seen dest.old).disk.told ≡ Some story
        → IsReady begun (T.seen dest.old) → IsBuilding start begun parts (state_of story)
        → Builds start begun.folder story (T.seen dest.new).disk.told (IsBuilding start (with_parts more begun) (parts ++ more)))) }
    ensures went { (start : State) (story : Story) (begun : Begun) (parts : List Part) → (T.seen dest.old).disk.told ≡ Some story
        → IsReady begun (T.seen dest.old) → IsBuilding start begun parts (state_of story)
        → Builds start begun.folder story (T.seen dest.new).disk.told (IsUnfinished start begun.folder) }
    ensures wrong { IfErr result (IsToldFirst id (B.seen disk.old).told (others id (file.now ∷ []))) }
    ensures past { IfErr result IsPastBegin }
    ensures cause { HasCauses (B.seen disk.old) (B.seen disk.new) (T.seen dest.old).disk (T.seen dest.new).disk result }
    ensures more { (first : T) → T.leads first dest.old → T.leads first dest.new }
{
    let which = file_of(id, file);
    if is_current(&which) {
        return Ok(());
    }
    restore_file(alloc, disk, file, &which, dest)?;
    Ok(())
}

/// Restores the files of a meta in their order, but not `CURRENT`.
pub(crate) fn restore_others<B: Disk, T: Dest>(
    alloc: Global,
    disk: &mut B,
    id: u32,
    files: &[MetaFile],
    dest: &mut T,
) -> Result<(), RestoreError>
    requires meta { AreMetaFiles id files.now }
    requires ready { (folder : List ℕ) × IsReady (just_begun folder) (T.seen dest.old) }
    ensures told { (B.seen disk.new).told ≡ (B.seen disk.old).told }
    ensures restored { OnOk result ((parts : List Part) × AreRestored id (B.seen disk.old).told (others id files.now) parts
        × ((folder : List ℕ) → IsReady (just_begun folder) (T.seen dest.old) → IsReady (begun_with folder parts) (T.seen dest.new))
        × ((start : State) (story : Story) (folder : List ℕ) → (T.seen dest.old).disk.told ≡ Some story
        → IsReady (just_begun folder) (T.seen dest.old) → IsBuilding start (just_begun folder) [] (state_of story)
        → Builds start folder story (T.seen dest.new).disk.told (IsBuilding start (begun_with folder parts) parts))) }
    ensures went { (start : State) (story : Story) (folder : List ℕ) → (T.seen dest.old).disk.told ≡ Some story
        → IsReady (just_begun folder) (T.seen dest.old) → IsBuilding start (just_begun folder) [] (state_of story)
        → Builds start folder story (T.seen dest.new).disk.told (IsUnfinished start folder) }
    ensures wrong { IfErr result (IsToldFirst id (B.seen disk.old).told (others id files.now)) }
    ensures past { IfErr result IsPastBegin }
    ensures cause { HasCauses (B.seen disk.old) (B.seen disk.new) (T.seen dest.old).disk (T.seen dest.new).disk result }
    ensures more { (first : T) → T.leads first dest.old → T.leads first dest.new }
{
    for file in files {
        restore_next(alloc, disk, id, file, dest)?;
    }
    Ok(())
}
