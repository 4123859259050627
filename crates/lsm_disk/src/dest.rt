//! The trait of a place for one restored folder.
ghost use Rattle.std.specs.Prelude.{◌≡◌, ◌≢◌, ℕ, List, [], ◌∷◌, ◌++◌, length, All, IsSome, IfSome, Option, Some, None, option_map};
ghost use Rattle.lsm_names.specs.declared.file_names.FileName.{FileName};
ghost use Rattle.lsm_disk.specs.State.{State, FileState, Story, state_of};
ghost use Rattle.lsm_disk.specs.Goes.{Went};
ghost use Rattle.lsm_disk.specs.Dest.{Begun, DestSeen, just_begun, with_name, IsPartName, begin_calls, part_calls, finish_calls, HaltsAt, Leaves, IsTakenExactly, NeverExists, NeedsNoMemory, HasDestCause};
ghost use Rattle.lsm_disk.specs.Building.{Part, with_current, IsWithin, HasNoCurrent, MayHaveFolder, HasNoneOrAll, IsBuilding, IsWriting, Begins, Files, Fills, Seals, Finishes};
ghost use Rattle.lsm_disk.specs.declared.calls.DiskCall.TheVariants as calls;

use crate::{DiskCall, Halt};
use lsm_names::{FileName, Folder, Path};

/// How a call of a destination is refused.
#[derive(Clone, Copy, Debug, PartialEq, Eq)]
pub enum DestError {
    /// The disk failed in a call that changes something, which has happened or not. The
    /// destination is halted.
    Fault,
    /// An earlier call's disk call, `first`, failed or found the disk changed. Nothing was done.
    Halted { first: Halt },
    /// The name of the new folder is taken.
    Exists,
    /// This disk call found the disk changed by others. The destination is halted.
    Changed { call: DiskCall, path: Path },
    /// Memory was wanted and not there.
    NoMemory,
}

/// A place for one restored folder at a time: its files are made one by one, and `CURRENT`
/// comes last, so that a crash leaves a folder with no `CURRENT`, or all of it.
///
/// On every disk each call says in `halt` where `Halted` comes and what halts, in `leaves` which
/// folder is begun and which file in hand, and in `cause` which count rose. Where the disk
/// tells, `went` says what the folder holds, now and in each image on the way, for a folder that
/// was begun in the state `start`; and that nothing outside the folder was touched.
pub trait Dest {
    /// What is seen of the destination: of its disk, and its halting call, folder and file in
    /// hand.
    ghost seen: { Self → DestSeen };

    /// The second comes from the first by calls of this trait.
    ghost leads: { Self → Self → Type 0 };

    /// Begins a new empty folder, also where an earlier one isn't finished, which stays as it is.
    fn begin(&mut self, dir: &Folder) -> Result<(), DestError>
        ensures halt { HaltsAt (begin_calls dir.now) (seen self.old) (seen self.new) result }
        ensures leaves { Leaves (Some (just_begun dir.now)) None (seen self.old) (seen self.new) result }
        ensures taken { IsTakenExactly dir.now (seen self.old) result }
        ensures went { (story : Story) → (seen self.old).disk.told ≡ Some story
            → Went story (seen self.new).disk.told (IsWithin dir.now (length (state_of story).files))
            (MayHaveFolder (state_of story) dir.now) (Begins dir.now (state_of story) result) }
        ensures cause { HasDestCause (seen self.old).disk (seen self.new).disk result }
        ensures more { (first : Self) → leads first self.old → leads first self.new };

    /// Makes a new empty file in the begun folder and takes it in hand.
    fn file(&mut self, name: &FileName) -> Result<(), DestError>
        requires begun { IsSome (seen self.old).begun }
        requires free { (seen self.old).hand ≡ None }
        requires part { IsPartName name.now }
        requires new { IfSome (seen self.old).begun (λ begun. All (λ other. name.now ≢ other) begun.names) }
        ensures halt { HaltsAt (part_calls calls.Create (seen self.old).begun (Some name.now)) (seen self.old) (seen self.new) result }
        ensures leaves { Leaves (option_map (with_name name.now) (seen self.old).begun) (Some name.now) (seen self.old)
            (seen self.new) result }
        ensures taken { NeverExists result }
        ensures went { (start : State) (story : Story) (begun : Begun) (parts : List Part)
            → (seen self.old).disk.told ≡ Some story → (seen self.old).begun ≡ Some begun
            → IsBuilding start begun parts (state_of story)
            → Went story (seen self.new).disk.told (IsWithin begun.folder (length start.files))
            (HasNoCurrent start begun.folder) (Files start begun parts name.now result) }
        ensures cause { HasDestCause (seen self.old).disk (seen self.new).disk result }
        ensures more { (first : Self) → leads first self.old → leads first self.new };

    /// Adds bytes at the end of the file in hand.
    fn append(&mut self, bytes: &[u8]) -> Result<(), DestError>
        requires begun { IsSome (seen self.old).begun }
        requires hand { IsSome (seen self.old).hand }
        ensures halt { HaltsAt (part_calls calls.Append (seen self.old).begun (seen self.old).hand) (seen self.old) (seen self.new) result }
        ensures leaves { Leaves (seen self.old).begun (seen self.old).hand (seen self.old) (seen self.new) result }
        ensures taken { NeverExists result }
        ensures went { (start : State) (story : Story) (begun : Begun) (parts : List Part) (name : FileName) (file : FileState)
            → (seen self.old).disk.told ≡ Some story
            → (seen self.old).begun ≡ Some begun → (seen self.old).hand ≡ Some name → IsWriting start begun parts name file (state_of story)
            → Went story (seen self.new).disk.told (IsWithin begun.folder (length start.files))
            (HasNoCurrent start begun.folder) (Fills start begun parts name file bytes.now result) }
        ensures cause { HasDestCause (seen self.old).disk (seen self.new).disk result }
        ensures more { (first : Self) → leads first self.old → leads first self.new };

    /// Makes the bytes of the file in hand durable, and ends it.
    fn seal(&mut self) -> Result<(), DestError>
        requires begun { IsSome (seen self.old).begun }
        requires hand { IsSome (seen self.old).hand }
        ensures halt { HaltsAt (part_calls calls.Sync (seen self.old).begun (seen self.old).hand) (seen self.old) (seen self.new) result }
        ensures leaves { Leaves (seen self.old).begun None (seen self.old) (seen self.new) result }
        ensures taken { NeverExists result }
        ensures memory { NeedsNoMemory result }
        ensures went { (start : State) (story : Story) (begun : Begun) (parts : List Part) (name : FileName) (file : FileState)
            → (seen self.old).disk.told ≡ Some story
            → (seen self.old).begun ≡ Some begun → (seen self.old).hand ≡ Some name → IsWriting start begun parts name file (state_of story)
            → Went story (seen self.new).disk.told (IsWithin begun.folder (length start.files))
            (HasNoCurrent start begun.folder) (Seals start begun parts name file result) }
        ensures cause { HasDestCause (seen self.old).disk (seen self.new).disk result }
        ensures more { (first : Self) → leads first self.old → leads first self.new };

    /// Adds `CURRENT` with these bytes, makes the folder durable, and ends it. `CURRENT` is
    /// written under the name `000001.dbtmp` and renamed. Where memory is wanted, that name is
    /// taken away again, and the call may be made once more.
    fn finish(&mut self, current: &[u8]) -> Result<(), DestError>
        requires begun { IsSome (seen self.old).begun }
        requires free { (seen self.old).hand ≡ None }
        ensures halt { HaltsAt (finish_calls (seen self.old).begun) (seen self.old) (seen self.new) result }
        ensures leaves { Leaves None None (seen self.old) (seen self.new) result }
        ensures taken { NeverExists result }
        ensures went { (start : State) (story : Story) (begun : Begun) (parts : List Part)
            → (seen self.old).disk.told ≡ Some story → (seen self.old).begun ≡ Some begun
            → IsBuilding start begun parts (state_of story)
            → Went story (seen self.new).disk.told (IsWithin begun.folder (length start.files))
            (HasNoneOrAll start begun.folder (with_current current.now parts))
            (Finishes start begun parts current.now result) }
        ensures cause { HasDestCause (seen self.old).disk (seen self.new).disk result }
        ensures more { (first : Self) → leads first self.old → leads first self.new };

    /// It comes from itself by no call.
    ghost stays: { (d : Self) → leads d d };
}
