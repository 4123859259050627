//! The folder that a restore builds, and its calls on a disk.
ghost use Rattle.std.specs.Prelude.{◌≡◌, ◌≢◌, ℕ, List, [], ◌∷◌, ◌++◌, length, All, IsSome, IfSome, Option, Some, None, option_map};
ghost use Rattle.lsm_names.specs.declared.file_names.FileName.{FileName};
ghost use Rattle.lsm_disk.specs.State.{State, FileState, Story, Seen, state_of, folder_made, created, file_synced};
ghost use Rattle.lsm_disk.specs.Tree.{TellsLawful};
ghost use Rattle.lsm_disk.specs.Goes.{Went};
ghost use Rattle.lsm_disk.specs.Refusals.{no_room, no_file};
ghost use Rattle.lsm_disk.specs.Answers.{Makes, MakesFront};
ghost use Rattle.lsm_disk.specs.Dest.{Begun, just_begun, with_name, path_in, IsPartName, begin_calls, part_calls, finish_calls, HaltsAt, Leaves, IsTakenExactly, NeverExists, NeedsNoMemory, HasDestCause};
ghost use Rattle.lsm_disk.specs.Building.{Part, with_current, IsWithin, HasNoCurrent, MayHaveFolder, HasNoneOrAll, IsBuilding, IsWriting, Begins, Files, Fills, Seals};
ghost use Rattle.lsm_disk.specs.declared.calls.DiskCall.TheVariants as calls;
ghost use Rattle.lsm_dest.specs.FolderDests.{begun_in, hand_in, dest_seen, NotHalted, MakesIn, DidOnce, Ended};

use crate::ending::Ending;
use crate::halting::{refuse, refuse_begin, refused};
use crate::hand::Hand;
use lsm_disk::{DestError, Disk, DiskCall, Halt};
use lsm_names::{FileName, Folder};
use std::alloc::Global;

/// The folder that is begun, if one is, with the names that its files were given, and the file in
/// hand.
#[derive(Drop)]
pub struct Restoring {
    pub(crate) folder: Option<Folder>,
    pub(crate) names: Vec<FileName>,
    pub(crate) hand: Option<Hand>,
}

impl Restoring {
    /// No folder is begun.
    pub fn new(alloc: Global) -> Restoring
        ensures begun { begun_in result ≡ None }
        ensures hand { hand_in result ≡ None }
    {
        Restoring {
            folder: None,
            names: Vec::new(alloc),
            hand: None,
        }
    }
}

/// What a disk does for a restore: the calls of a destination, over what is kept of the folder and
/// over the call that halted, which the destination keeps beside its disk. Every disk has them.
///
/// They say what a destination says of its calls, and in `did` what the disk was asked to change:
/// each but `finish_in` makes one disk call. These are methods of a trait since the method of a
/// trait that calls them can't call a function which is generic over a disk.
pub trait Building {
    ghost seen: { Self → Seen };

    /// Begins a new empty folder in the disk's root.
    fn begin_in(
        &mut self,
        built: &mut Restoring,
        halted: &mut Option<Halt>,
        dir: &Folder,
    ) -> Result<(), DestError>
        ensures halt { HaltsAt (begin_calls dir.now) (dest_seen (seen self.old) halted.old built.old)
            (dest_seen (seen self.new) halted.new built.new) result }
        ensures leaves { Leaves (Some (just_begun dir.now)) None (dest_seen (seen self.old) halted.old built.old)
            (dest_seen (seen self.new) halted.new built.new) result }
        ensures taken { IsTakenExactly dir.now (dest_seen (seen self.old) halted.old built.old) result }
        ensures went { (story : Story) → (seen self.old).told ≡ Some story
            → Went story (seen self.new).told (IsWithin dir.now (length (state_of story).files))
            (MayHaveFolder (state_of story) dir.now) (Begins dir.now (state_of story) result) }
        ensures did { DidOnce (MakesIn (folder_made dir.now) (seen self.old) (seen self.new)) (no_room dir.now)
            (seen self.old).told (seen self.new).told result }
        ensures cause { HasDestCause (seen self.old) (seen self.new) result };

    /// Makes a new empty file in the begun folder and takes it in hand.
    fn file_in(
        &mut self,
        built: &mut Restoring,
        halted: &mut Option<Halt>,
        name: &FileName,
    ) -> Result<(), DestError>
        requires begun { IsSome (begun_in built.old) }
        requires free { hand_in built.old ≡ None }
        requires part { IsPartName name.now }
        requires new { IfSome (begun_in built.old) (λ begun. All (λ other. name.now ≢ other) begun.names) }
        ensures halt { HaltsAt (part_calls calls.Create (begun_in built.old) (Some name.now))
            (dest_seen (seen self.old) halted.old built.old) (dest_seen (seen self.new) halted.new built.new) result }
        ensures leaves { Leaves (option_map (with_name name.now) (begun_in built.old)) (Some name.now)
            (dest_seen (seen self.old) halted.old built.old) (dest_seen (seen self.new) halted.new built.new) result }
        ensures taken { NeverExists result }
        ensures went { (start : State) (story : Story) (begun : Begun) (parts : List Part)
            → (seen self.old).told ≡ Some story → begun_in built.old ≡ Some begun → IsBuilding start begun parts (state_of story)
            → Went story (seen self.new).told (IsWithin begun.folder (length start.files))
            (HasNoCurrent start begun.folder) (Files start begun parts name.now result) }
        ensures did { (begun : Begun) → begun_in built.old ≡ Some begun
            → DidOnce (MakesIn (created (path_in begun.folder name.now)) (seen self.old) (seen self.new))
            (no_room (path_in begun.folder name.now)) (seen self.old).told (seen self.new).told result }
        ensures cause { HasDestCause (seen self.old) (seen self.new) result };

    /// Adds bytes at the end of the file in hand.
    fn append_in(
        &mut self,
        built: &mut Restoring,
        halted: &mut Option<Halt>,
        bytes: &[u8],
    ) -> Result<(), DestError>
        requires begun { IsSome (begun_in built.old) }
        requires hand { IsSome (hand_in built.old) }
        ensures halt { HaltsAt (part_calls calls.Append (begun_in built.old) (hand_in built.old))
            (dest_seen (seen self.old) halted.old built.old) (dest_seen (seen self.new) halted.new built.new) result }
        ensures leaves { Leaves (begun_in built.old) (hand_in built.old)
            (dest_seen (seen self.old) halted.old built.old) (dest_seen (seen self.new) halted.new built.new) result }
        ensures taken { NeverExists result }
        ensures went { (start : State) (story : Story) (begun : Begun) (parts : List Part) (name : FileName) (file : FileState)
            → (seen self.old).told ≡ Some story
            → begun_in built.old ≡ Some begun → hand_in built.old ≡ Some name
            → IsWriting start begun parts name file (state_of story)
            → Went story (seen self.new).told (IsWithin begun.folder (length start.files))
            (HasNoCurrent start begun.folder) (Fills start begun parts name file bytes.now result) }
        ensures did { (begun : Begun) (name : FileName) → begun_in built.old ≡ Some begun → hand_in built.old ≡ Some name
            → DidOnce (MakesFront (path_in begun.folder name) bytes.now (seen self.old).told (seen self.new).told)
            (no_file (path_in begun.folder name)) (seen self.old).told (seen self.new).told result }
        ensures cause { HasDestCause (seen self.old) (seen self.new) result };

    /// Makes the bytes of the file in hand durable, and ends it.
    fn seal_in(&mut self, built: &mut Restoring, halted: &mut Option<Halt>) -> Result<(), DestError>
        requires begun { IsSome (begun_in built.old) }
        requires hand { IsSome (hand_in built.old) }
        ensures halt { HaltsAt (part_calls calls.Sync (begun_in built.old) (hand_in built.old))
            (dest_seen (seen self.old) halted.old built.old) (dest_seen (seen self.new) halted.new built.new) result }
        ensures leaves { Leaves (begun_in built.old) None
            (dest_seen (seen self.old) halted.old built.old) (dest_seen (seen self.new) halted.new built.new) result }
        ensures taken { NeverExists result }
        ensures memory { NeedsNoMemory result }
        ensures went { (start : State) (story : Story) (begun : Begun) (parts : List Part) (name : FileName) (file : FileState)
            → (seen self.old).told ≡ Some story
            → begun_in built.old ≡ Some begun → hand_in built.old ≡ Some name
            → IsWriting start begun parts name file (state_of story)
            → Went story (seen self.new).told (IsWithin begun.folder (length start.files))
            (HasNoCurrent start begun.folder) (Seals start begun parts name file result) }
        ensures did { (begun : Begun) (name : FileName) → begun_in built.old ≡ Some begun → hand_in built.old ≡ Some name
            → DidOnce (Makes (seen self.old).told (file_synced (path_in begun.folder name)) (seen self.new).told)
            (no_file (path_in begun.folder name)) (seen self.old).told (seen self.new).told result }
        ensures cause { HasDestCause (seen self.old) (seen self.new) result };

    /// Adds `CURRENT` with these bytes, makes the folder durable, and ends it. What it changes is in
    /// the folder, in files that it makes itself.
    fn finish_in(
        &mut self,
        built: &mut Restoring,
        halted: &mut Option<Halt>,
        current: &[u8],
    ) -> Result<(), DestError>
        requires begun { IsSome (begun_in built.old) }
        requires free { hand_in built.old ≡ None }
        ensures halt { HaltsAt (finish_calls (begun_in built.old))
            (dest_seen (seen self.old) halted.old built.old) (dest_seen (seen self.new) halted.new built.new) result }
        ensures leaves { Leaves None None
            (dest_seen (seen self.old) halted.old built.old) (dest_seen (seen self.new) halted.new built.new) result }
        ensures taken { NeverExists result }
        ensures went { (start : State) (story : Story) (begun : Begun) (parts : List Part)
            → (seen self.old).told ≡ Some story → begun_in built.old ≡ Some begun
            → IsBuilding start begun parts (state_of story)
            → Went story (seen self.new).told (IsWithin begun.folder (length (state_of story).files))
            (HasNoneOrAll start begun.folder (with_current current.now parts))
            (Ended start begun parts current.now result) }
        ensures lawful { NotHalted result → TellsLawful (seen self.old) }
        ensures cause { HasDestCause (seen self.old) (seen self.new) result };
}

impl<D: Disk> Building for D {
    ghost seen = { D.seen };

    fn begin_in(
        &mut self,
        built: &mut Restoring,
        halted: &mut Option<Halt>,
        dir: &Folder,
    ) -> Result<(), DestError> {
        if let Some(first) = *halted {
            return Err(DestError::Halted { first });
        }
        let path = dir.path();
        match self.make_folder(&path) {
            Ok(()) => {
                built.folder = Some(*dir);
                built.names.clear();
                built.hand = None;
                Ok(())
            }
            Err(why) => Err(refuse_begin(halted, refused(DiskCall::MakeFolder, &path, why))),
        }
    }

    fn file_in(
        &mut self,
        built: &mut Restoring,
        halted: &mut Option<Halt>,
        name: &FileName,
    ) -> Result<(), DestError> {
        if let Some(first) = *halted {
            return Err(DestError::Halted { first });
        }
        let Some(folder) = built.folder else {
            unreachable!()
        };
        let before = built.names.len();
        let Ok(()) = built.names.push(*name) else {
            return Err(DestError::NoMemory);
        };
        let path = folder.file(name);
        match self.create(&path) {
            Ok(()) => {
                built.hand = Some(Hand { name: *name });
                Ok(())
            }
            Err(why) => {
                built.names.truncate(before);
                Err(refuse(halted, refused(DiskCall::Create, &path, why)))
            }
        }
    }

    fn append_in(
        &mut self,
        built: &mut Restoring,
        halted: &mut Option<Halt>,
        bytes: &[u8],
    ) -> Result<(), DestError> {
        if let Some(first) = *halted {
            return Err(DestError::Halted { first });
        }
        let (Some(folder), Some(hand)) = (built.folder, built.hand) else {
            unreachable!()
        };
        let path = folder.file(&hand.name);
        match self.append(&path, bytes) {
            Ok(()) => Ok(()),
            Err(why) => Err(refuse(halted, refused(DiskCall::Append, &path, why))),
        }
    }

    fn seal_in(
        &mut self,
        built: &mut Restoring,
        halted: &mut Option<Halt>,
    ) -> Result<(), DestError> {
        if let Some(first) = *halted {
            return Err(DestError::Halted { first });
        }
        let (Some(folder), Some(hand)) = (built.folder, built.hand) else {
            unreachable!()
        };
        let path = folder.file(&hand.name);
        match self.sync(&path) {
            Ok(()) => {
                built.hand = None;
                Ok(())
            }
            Err(why) => Err(refuse(halted, refused(DiskCall::Sync, &path, why))),
        }
    }

    fn finish_in(
        &mut self,
        built: &mut Restoring,
        halted: &mut Option<Halt>,
        current: &[u8],
    ) -> Result<(), DestError> {
        if let Some(first) = *halted {
            return Err(DestError::Halted { first });
        }
        let Some(folder) = built.folder else {
            unreachable!()
        };
        match self.end_folder(&folder, current) {
            Ok(()) => {
                built.folder = None;
                Ok(())
            }
            Err(refusal) => Err(refuse(halted, refusal)),
        }
    }
}
