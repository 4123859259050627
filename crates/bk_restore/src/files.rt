//! One file of a backup, restored.
ghost use Rattle.std.specs.Prelude.{◌≡◌, ℕ, List, [], ◌∷◌, ◌++◌, Some, None, OnOk, IfOk, IfErr};
ghost use Rattle.lsm_disk.specs.State.{State, Story, state_of, new_file, longer};
ghost use Rattle.lsm_disk.specs.Dest.{Begun, with_name};
ghost use Rattle.lsm_disk.specs.Building.{Part, IsBuilding, IsWriting, IsUnfinished};
ghost use Rattle.bk_meta.specs.BackupFiles.{file_at};
ghost use Rattle.bk_tree.specs.Holds.{store_name};
ghost use Rattle.bk_restore.specs.Causes.{HasCauses, counts_of};
ghost use Rattle.bk_restore.specs.Refusals.{IsOfCopying, IsPastBegin};
ghost use Rattle.bk_restore.specs.Wrong.{IsToldOf};
ghost use Rattle.bk_restore.specs.Sources.{IsCopyOf, IsSameView, IsTextOf};
ghost use Rattle.bk_restore.specs.Hands.{IsReady, HasInHand, IsNewName, Builds};
ghost use Rattle.bk_restore.specs.Restored.{part_of, IsRestored};

use crate::RestoreError;
use crate::copying::copy_bytes;
use crate::refusals::{compare, dest_refused};
use crate::sources::open_file;
use bk_meta::{BackupFile, MetaFile};
use lsm_disk::{Dest, Disk, View};
use lsm_names::FileName;
use std::alloc::Global;

/// Which file of a store's folder a file of a backup becomes.
fn store_name(which: &BackupFile) -> FileName
    ensures { result ≡ store_name which.now }
{
    match which {
        BackupFile::Private(name) => *name,
        BackupFile::Shared(name) => FileName::Table(name.number),
    }
}

/// Copies a view into a new file of the destination, which stays in hand, and gives the
/// checksum.
fn copy_view<T: Dest, V: View>(
    alloc: Global,
    dest: &mut T,
    name: &FileName,
    view: &mut V,
) -> Result<u32, RestoreError>
    requires { (begun : Begun) × IsReady begun (T.seen dest.old) × IsNewName begun name.now }
    ensures copied { IfOk result (λ crc. (text : List ℕ) × IsCopyOf (V.viewed view.old) crc text
        × ((start : State) (story : Story) (begun : Begun) (parts : List Part) → (T.seen dest.old).disk.told ≡ Some story
        → IsReady begun (T.seen dest.old) → IsBuilding start begun parts (state_of story)
        → Builds start begun.folder story (T.seen dest.new).disk.told
        (IsWriting start (with_name name.now begun) parts name.now (longer text new_file)))) }
    ensures went { (start : State) (story : Story) (begun : Begun) (parts : List Part) → (T.seen dest.old).disk.told ≡ Some story
        → IsReady begun (T.seen dest.old) → IsBuilding start begun parts (state_of story)
        → Builds start begun.folder story (T.seen dest.new).disk.told (IsUnfinished start begun.folder) }
    ensures keeps { OnOk result ((begun : Begun) → IsReady begun (T.seen dest.old) → HasInHand
        (with_name name.now begun) name.now (T.seen dest.new)) }
    ensures kind { IfErr result IsOfCopying }
    ensures view { IsSameView (V.viewed view.old) (V.viewed view.new) }
    ensures cause { HasCauses (counts_of (V.viewed view.old)) (counts_of (V.viewed view.new)) (T.seen dest.old).disk
        (T.seen dest.new).disk result }
    ensures more { (first : T) → T.leads first dest.old → T.leads first dest.new }
{
    if let Err(why) = dest.file(name) {
        return Err(dest_refused(why));
    }
    let crc = copy_bytes(alloc, dest, view)?;
    Ok(crc)
}

/// Copies a file of the backup into a new file of the destination, which stays in hand, and
/// gives the checksum.
fn copy_file<B: Disk, T: Dest>(
    alloc: Global,
    disk: &mut B,
    file: &MetaFile,
    which: &BackupFile,
    dest: &mut T,
) -> Result<u32, RestoreError>
    requires { (begun : Begun) × IsReady begun (T.seen dest.old) × IsNewName begun (store_name which.now) }
    ensures told { (B.seen disk.new).told ≡ (B.seen disk.old).told }
    ensures copied { IfOk result (λ crc. (text : List ℕ) × IsTextOf (B.seen disk.old).told file.now which.now crc text
        × ((start : State) (story : Story) (begun : Begun) (parts : List Part) → (T.seen dest.old).disk.told ≡ Some story
        → IsReady begun (T.seen dest.old) → IsBuilding start begun parts (state_of story)
        → Builds start begun.folder story (T.seen dest.new).disk.told
        (IsWriting start (with_name (store_name which.now) begun) parts (store_name which.now) (longer text new_file)))) }
    ensures went { (start : State) (story : Story) (begun : Begun) (parts : List Part) → (T.seen dest.old).disk.told ≡ Some story
        → IsReady begun (T.seen dest.old) → IsBuilding start begun parts (state_of story)
        → Builds start begun.folder story (T.seen dest.new).disk.told (IsUnfinished start begun.folder) }
    ensures keeps { OnOk result ((begun : Begun) → IsReady begun (T.seen dest.old) → HasInHand
        (with_name (store_name which.now) begun) (store_name which.now) (T.seen dest.new)) }
    ensures wrong { IfErr result (IsToldOf (B.seen disk.old).told file.now which.now) }
    ensures past { IfErr result IsPastBegin }
    ensures cause { HasCauses (B.seen disk.old) (B.seen disk.new) (T.seen dest.old).disk (T.seen dest.new).disk result }
    ensures more { (first : T) → T.leads first dest.old → T.leads first dest.new }
{
    let mut view = open_file(disk, file, which)?;
    let copied = copy_view(alloc, dest, &store_name(which), &mut view);
    disk.close(view);
    match copied {
        Ok(crc) => Ok(crc),
        Err(e) => Err(e),
    }
}

/// Restores a file: copies it, compares its checksum, and seals it.
pub(crate) fn restore_file<B: Disk, T: Dest>(
    alloc: Global,
    disk: &mut B,
    file: &MetaFile,
    which: &BackupFile,
    dest: &mut T,
) -> Result<(), RestoreError>
    requires { (begun : Begun) × IsReady begun (T.seen dest.old) × IsNewName begun (store_name which.now) }
    ensures told { (B.seen disk.new).told ≡ (B.seen disk.old).told }
    ensures restored { OnOk result ((text : List ℕ) ×
        ((id : ℕ) → file_at id file.now.path ≡ Some which.now → IsRestored id (B.seen disk.old).told file.now
        (part_of which.now text))
        × ((start : State) (story : Story) (begun : Begun) (parts : List Part) → (T.seen dest.old).disk.told ≡ Some story
        → IsReady begun (T.seen dest.old) → IsBuilding start begun parts (state_of story)
        → Builds start begun.folder story (T.seen dest.new).disk.told
        (IsBuilding start (with_name (store_name which.now) begun) (parts ++ part_of which.now text ∷ [])))) }
    ensures went { (start : State) (story : Story) (begun : Begun) (parts : List Part) → (T.seen dest.old).disk.told ≡ Some story
        → IsReady begun (T.seen dest.old) → IsBuilding start begun parts (state_of story)
        → Builds start begun.folder story (T.seen dest.new).disk.told (IsUnfinished start begun.folder) }
    ensures keeps { OnOk result ((begun : Begun) → IsReady begun (T.seen dest.old) → IsReady
        (with_name (store_name which.now) begun) (T.seen dest.new)) }
    ensures wrong { IfErr result (IsToldOf (B.seen disk.old).told file.now which.now) }
    ensures past { IfErr result IsPastBegin }
    ensures cause { HasCauses (B.seen disk.old) (B.seen disk.new) (T.seen dest.old).disk (T.seen dest.new).disk result }
    ensures more { (first : T) → T.leads first dest.old → T.leads first dest.new }
{
    let crc = copy_file(alloc, disk, file, which, dest)?;
    compare(file, crc)?;
    if let Err(why) = dest.seal() {
        return Err(dest_refused(why));
    }
    Ok(())
}
