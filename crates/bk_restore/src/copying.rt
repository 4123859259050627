//! A view, copied into the file in hand.
ghost use Rattle.std.specs.Prelude.{◌≡◌, ℕ, List, Some, OnOk, IfOk, IfErr};
ghost use Rattle.lsm_names.specs.declared.file_names.FileName.{FileName};
ghost use Rattle.lsm_disk.specs.State.{State, Story, state_of, new_file, longer};
ghost use Rattle.lsm_disk.specs.Dest.{Begun};
ghost use Rattle.lsm_disk.specs.Building.{Part, IsWriting, IsUnfinished};
ghost use Rattle.bk_restore.specs.Causes.{HasCauses, counts_of};
ghost use Rattle.bk_restore.specs.Sources.{IsCopyOf, IsSameView};
ghost use Rattle.bk_restore.specs.Hands.{HasInHand, Builds};
ghost use Rattle.bk_restore.specs.Refusals.{IsOfCopying};

use crate::RestoreError;
use crate::refusals::dest_refused;
use bk_copy::{CopyError, InHand, copy_view};
use lsm_disk::{Dest, View};
use std::alloc::Global;

/// Copies a view into the empty file in hand, and gives the checksum.
pub(crate) fn copy_bytes<T: Dest, V: View>(
    alloc: Global,
    dest: &mut T,
    view: &mut V,
) -> Result<u32, RestoreError>
    requires { (begun : Begun) × (name : FileName) × HasInHand begun name (T.seen dest.old) }
    ensures copied { IfOk result (λ crc. (text : List ℕ) × IsCopyOf (V.viewed view.old) crc text
        × ((start : State) (story : Story) (begun : Begun) (parts : List Part) (name : FileName) → (T.seen dest.old).disk.told ≡ Some story
        → HasInHand begun name (T.seen dest.old) → IsWriting start begun parts name new_file (state_of story)
        → Builds start begun.folder story (T.seen dest.new).disk.told (IsWriting start begun parts name (longer text new_file)))) }
    ensures went { (start : State) (story : Story) (begun : Begun) (parts : List Part) (name : FileName) →
        (T.seen dest.old).disk.told ≡ Some story
        → HasInHand begun name (T.seen dest.old) → IsWriting start begun parts name new_file (state_of story)
        → Builds start begun.folder story (T.seen dest.new).disk.told (IsUnfinished start begun.folder) }
    ensures keeps { OnOk result ((begun : Begun) (name : FileName) → HasInHand begun name (T.seen dest.old)
        → HasInHand begun name (T.seen dest.new)) }
    ensures kind { IfErr result IsOfCopying }
    ensures view { IsSameView (V.viewed view.old) (V.viewed view.new) }
    ensures cause { HasCauses (counts_of (V.viewed view.old)) (counts_of (V.viewed view.new)) (T.seen dest.old).disk
        (T.seen dest.new).disk result }
    ensures more { (first : T) → T.leads first dest.old → T.leads first dest.new }
{
    match copy_view(alloc, dest, &InHand, view) {
        Ok(crc) => Ok(crc),
        Err(CopyError::Refused(why)) => Err(dest_refused(why)),
        Err(CopyError::Source) => Err(RestoreError::DiskFault),
        Err(CopyError::NoMemory) => Err(RestoreError::NoMemory),
    }
}
