//! The end of a folder: its names are made durable, and `CURRENT` is published.
ghost use Rattle.std.specs.Prelude.{◌≡◌, ◌≢◌, ◌⊎◌, ℕ, List, length, Some, IfErr, Err};
ghost use Rattle.lsm_disk.specs.State.{State, Story, Seen, state_of};
ghost use Rattle.lsm_disk.specs.Tree.{TellsLawful};
ghost use Rattle.lsm_disk.specs.Goes.{Went};
ghost use Rattle.lsm_disk.specs.Halts.{halt_at, IsAmong};
ghost use Rattle.lsm_disk.specs.Refusals.{no_room, no_rename};
ghost use Rattle.lsm_disk.specs.Answers.{HasDiskCause};
ghost use Rattle.lsm_disk.specs.Dest.{Begun, just_begun, finish_calls};
ghost use Rattle.lsm_disk.specs.Building.{Part, with_current, IsWithin, IsBuilding, HasNoneOrAll};
ghost use Rattle.lsm_disk.specs.declared.calls.DiskCall.TheVariants as calls;
ghost use Rattle.lsm_publish.specs.Publishing.{Old, StillHas, HasOld, HasOldOrNew, Writes, Switches, IsReady, Written, Switched, write_calls, switch_calls, AnswersAs, SyncsNeedNoMemory};
ghost use Rattle.lsm_dest.specs.FolderDests.{EndsAs, TakesBack};

use crate::halting::{leaves_name, refused};
use lsm_disk::{Disk, DiskCall, DiskRefusal};
use lsm_names::{FileName, Folder, Path};

/// What a disk does to end a folder. These are methods of a trait since the method of a trait
/// that calls them can't call a function which is generic over a disk. The first two do what
/// `write_temporary` and `switch` of `lsm_publish` do.
pub trait Ending {
    ghost seen: { Self → Seen };

    /// Makes a durable file of these bytes under a free name.
    fn write_current(&mut self, temporary: &Path, bytes: &[u8]) -> Result<(), DiskRefusal>
        ensures went { (story : Story) (path : List ℕ) (old : Old) → (seen self.old).told ≡ Some story
            → StillHas path old (state_of story) → path ≢ temporary.now
            → Went story (seen self.new).told (Writes temporary.now (length (state_of story).files)) (HasOld path old)
            (Written temporary.now path old (length (state_of story).files) bytes.now result) }
        ensures at { IfErr result (λ r. IsAmong r.at (write_calls temporary.now)) }
        ensures answer { AnswersAs (no_room temporary.now) (seen self.old) result }
        ensures cause { HasDiskCause (seen self.old) (seen self.new) result };

    /// Gives a durable file the place of what stands under a name.
    fn name_current(&mut self, temporary: &Path, path: &Path) -> Result<(), DiskRefusal>
        ensures went { (story : Story) (old : Old) (id : ℕ) (bytes : List ℕ) → (seen self.old).told ≡ Some story
            → IsReady temporary.now path.now old id bytes (state_of story)
            → Went story (seen self.new).told (Switches temporary.now path.now) (HasOldOrNew path.now old bytes)
            (Switched temporary.now path.now old id bytes result) }
        ensures at { IfErr result (λ r. IsAmong r.at (switch_calls path.now)) }
        ensures answer { AnswersAs (no_rename temporary.now path.now) (seen self.old) result }
        ensures memory { SyncsNeedNoMemory result }
        ensures cause { HasDiskCause (seen self.old) (seen self.new) result };

    /// Takes the temporary name away, where memory was wanted after it was made, so that the
    /// folder is as it was. The answer is the refusal, or that of the unlink.
    fn take_back(&mut self, temporary: &Path, refusal: DiskRefusal) -> DiskRefusal
        ensures took { TakesBack temporary.now refusal (seen self.old) (seen self.new) result }
        ensures at { (result.at ≡ refusal.at) ⊎ (result.at ≡ halt_at calls.Unlink temporary.now) }
        ensures cause { (first : Seen) → HasDiskCause {T = Unit {0}} first (seen self.old) (Err refusal)
            → HasDiskCause {T = Unit {0}} first (seen self.new) (Err result) };

    /// Makes the folder durable, and then adds `CURRENT` with these bytes. Where memory is
    /// wanted, the folder is as it was.
    fn end_folder(&mut self, folder: &Folder, current: &[u8]) -> Result<(), DiskRefusal>
        ensures went { (start : State) (story : Story) (begun : Begun) (parts : List Part) → (seen self.old).told ≡ Some story
            → begun.folder ≡ folder.now → IsBuilding start begun parts (state_of story)
            → Went story (seen self.new).told (IsWithin begun.folder (length (state_of story).files))
            (HasNoneOrAll start begun.folder (with_current current.now parts)) (EndsAs start begun parts current.now result) }
        ensures at { IfErr result (λ r. IsAmong r.at (finish_calls (Some (just_begun folder.now)))) }
        ensures lawful { TellsLawful (seen self.old) }
        ensures cause { HasDiskCause (seen self.old) (seen self.new) result };
}

impl<D: Disk> Ending for D {
    ghost seen = { D.seen };

    fn write_current(&mut self, temporary: &Path, bytes: &[u8]) -> Result<(), DiskRefusal> {
        if let Err(why) = self.create(temporary) {
            return Err(refused(DiskCall::Create, temporary, why));
        }
        if let Err(why) = self.append(temporary, bytes) {
            return Err(refused(DiskCall::Append, temporary, why));
        }
        if let Err(why) = self.sync(temporary) {
            return Err(refused(DiskCall::Sync, temporary, why));
        }
        if let Err(why) = self.sync_names() {
            return Err(refused(DiskCall::SyncNames, temporary, why));
        }
        Ok(())
    }

    fn name_current(&mut self, temporary: &Path, path: &Path) -> Result<(), DiskRefusal> {
        if let Err(why) = self.rename(temporary, path) {
            return Err(refused(DiskCall::Rename, path, why));
        }
        if let Err(why) = self.sync_names() {
            return Err(refused(DiskCall::SyncNames, path, why));
        }
        Ok(())
    }

    fn take_back(&mut self, temporary: &Path, refusal: DiskRefusal) -> DiskRefusal {
        if !leaves_name(&refusal) {
            return refusal;
        }
        match self.unlink(temporary) {
            Ok(()) => refusal,
            Err(why) => refused(DiskCall::Unlink, temporary, why),
        }
    }

    fn end_folder(&mut self, folder: &Folder, current: &[u8]) -> Result<(), DiskRefusal> {
        if let Err(why) = self.sync_names() {
            return Err(refused(DiskCall::SyncNames, &folder.path(), why));
        }
        let temporary = folder.file(&FileName::Temp(1));
        if let Err(refusal) = self.write_current(&temporary, current) {
            return Err(self.take_back(&temporary, refusal));
        }
        let path = folder.file(&FileName::Current);
        if let Err(refusal) = self.name_current(&temporary, &path) {
            return Err(self.take_back(&temporary, refusal));
        }
        Ok(())
    }
}
