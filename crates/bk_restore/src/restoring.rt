//! A backup, restored: its files, and then `CURRENT`.
ghost use Rattle.std.specs.Prelude.{◌≡◌, ◌↔◌, List, [], ◌∷◌, ℕ, length, Some, Err, IfSome, IfOk, IfErr, OnOk};
ghost use Rattle.lsm_disk.specs.State.{State, Story, state_of};
ghost use Rattle.lsm_disk.specs.Goes.{Went};
ghost use Rattle.lsm_disk.specs.Images.{tree_now};
ghost use Rattle.lsm_disk.specs.Dest.{Begun, just_begun};
ghost use Rattle.lsm_disk.specs.Building.{Part, IsWithin, HasNoCurrent, IsBuilding};
ghost use Rattle.lsm_disk.specs.declared.calls.Halt.{Halt};
ghost use Rattle.bk_meta.specs.Metas.{IsMeta};
ghost use Rattle.bk_restore.specs.declared.errors.RestoreError.TheVariants as restore_error;
ghost use Rattle.bk_restore.specs.Causes.{HasCauses, silent};
ghost use Rattle.bk_restore.specs.Refusals.{IsPastBegin};
ghost use Rattle.bk_restore.specs.Wrong.{currents, in_order, first_wrong, IsToldFirst, Tells};
ghost use Rattle.bk_restore.specs.Hands.{IsReady};
ghost use Rattle.bk_restore.specs.Restored.{
  AreRestored,
  AreMetaFiles,
  MayHaveEnded,
  EndsBy,
  MayHaveRestored,
  LeavesBy,
  BeginsBy,
  IsBegunBy,
  TakesBy,
};

use crate::RestoreError;
use crate::current::{current_of, read_current};
use crate::others::restore_others;
use crate::refusals::dest_refused;
use bk_meta::{Meta, MetaFile};
use lsm_disk::{Dest, DestError, Disk};
use lsm_names::Folder;
use std::alloc::Global;

/// Begins the folder.
fn begin<T: Dest>(dest: &mut T, dir: &Folder) -> Result<(), RestoreError>
    ensures halted { (first : Halt) → (result ≡ Err (restore_error.Halted first)) ↔ ((T.seen dest.old).halt ≡ Some first) }
    ensures taken { TakesBy dir.now (T.seen dest.old).disk.told result }
    ensures ready { OnOk result (IsReady (just_begun dir.now) (T.seen dest.new)) }
    ensures went { (story : Story) → (T.seen dest.old).disk.told ≡ Some story
        → Went story (T.seen dest.new).disk.told (IsWithin dir.now (length (state_of story).files))
        (HasNoCurrent (state_of story) dir.now) (BeginsBy (state_of story) dir.now result) }
    ensures kind { IfErr result IsBegunBy }
    ensures cause { HasCauses silent silent (T.seen dest.old).disk (T.seen dest.new).disk result }
    ensures more { (first : T) → T.leads first dest.old → T.leads first dest.new }
{
    match dest.begin(dir) {
        Ok(()) => Ok(()),
        Err(DestError::Exists) => Err(RestoreError::DestinationExists { dir: *dir }),
        Err(why) => Err(dest_refused(why)),
    }
}

/// Restores `CURRENT`, which ends the folder.
fn restore_current<B: Disk, T: Dest>(
    alloc: Global,
    disk: &mut B,
    id: u32,
    files: &[MetaFile],
    dest: &mut T,
) -> Result<(), RestoreError>
    requires meta { AreMetaFiles id files.now }
    requires ready { (begun : Begun) × IsReady begun (T.seen dest.old) }
    ensures told { (B.seen disk.new).told ≡ (B.seen disk.old).told }
    ensures went { (start : State) (story : Story) (begun : Begun) (parts : List Part) → (T.seen dest.old).disk.told ≡ Some story
        → IsReady begun (T.seen dest.old) → IsBuilding start begun parts (state_of story)
        → Went story (T.seen dest.new).disk.told (IsWithin begun.folder (length start.files))
        (MayHaveEnded id (B.seen disk.old).told (currents id files.now) start begun.folder parts)
        (EndsBy id (B.seen disk.old).told (currents id files.now) start begun.folder parts result) }
    ensures restored { OnOk result ((part : Part) × AreRestored id (B.seen disk.old).told (currents id files.now) (part ∷ [])) }
    ensures wrong { IfErr result (IsToldFirst id (B.seen disk.old).told (currents id files.now)) }
    ensures past { IfErr result IsPastBegin }
    ensures cause { HasCauses (B.seen disk.old) (B.seen disk.new) (T.seen dest.old).disk (T.seen dest.new).disk result }
    ensures more { (first : T) → T.leads first dest.old → T.leads first dest.new }
{
    let file = current_of(id, files);
    let text = read_current(alloc, disk, &file)?;
    if let Err(why) = dest.finish(text.as_slice()) {
        return Err(dest_refused(why));
    }
    Ok(())
}

/// Restores a backup into the new folder `dir` of the destination, and gives the sequence number
/// of its store. Each file of the meta is copied under its name in a store's folder, its size and
/// checksum compared, and `CURRENT` comes last, so that a crash leaves a folder with no
/// `CURRENT`, or all of it.
///
/// `DestinationExists` comes where the folder's name is taken, and then nothing is done.
/// `Missing`, `WrongSize` and `Damaged` name the first file that isn't right, where `CURRENT` is
/// the last. After them, as after every refusal but `DestFault`, the folder has no `CURRENT`, or
/// wasn't begun. At most 1,048,576 bytes of a file are held in memory at once, and `CURRENT`
/// whole.
pub fn restore<B: Disk, T: Dest>(
    alloc: Global,
    disk: &mut B,
    meta: &Meta,
    dest: &mut T,
    dir: &Folder,
) -> Result<u64, RestoreError>
    requires { IsMeta meta.now }
    ensures told { (B.seen disk.new).told ≡ (B.seen disk.old).told }
    ensures sequence { IfOk result (λ sequence. sequence ≡ meta.now.sequence) }
    ensures halted { (first : Halt) → (result ≡ Err (restore_error.Halted first)) ↔ ((T.seen dest.old).halt ≡ Some first) }
    ensures taken { TakesBy dir.now (T.seen dest.old).disk.told result }
    ensures right { IfSome (B.seen disk.old).told
        (λ story. Tells (first_wrong meta.now.id (tree_now (state_of story)) (in_order meta.now.id meta.now.files)) result) }
    ensures went { (story : Story) → (T.seen dest.old).disk.told ≡ Some story
        → Went story (T.seen dest.new).disk.told (IsWithin dir.now (length (state_of story).files))
        (MayHaveRestored meta.now (B.seen disk.old).told (state_of story) dir.now)
        (LeavesBy meta.now (B.seen disk.old).told (state_of story) dir.now result) }
    ensures cause { HasCauses (B.seen disk.old) (B.seen disk.new) (T.seen dest.old).disk (T.seen dest.new).disk result }
    ensures more { (first : T) → T.leads first dest.old → T.leads first dest.new }
{
    let files = meta.files.as_slice();
    begin(dest, dir)?;
    restore_others(alloc, disk, meta.id, files, dest)?;
    restore_current(alloc, disk, meta.id, files, dest)?;
    Ok(meta.sequence)
}
