//! A manifest that edits are appended to.
ghost use Rattle.std.specs.Prelude.{◌≡◌, ◌+◌, ◌%◌, ◌^◌, ◌<◌, ◌≤◌, ◌∷◌, [], List, Some, length, IsTrue, OnOk, OnErr, IfOk, IfErr};
ghost use Rattle.lsm_names.specs.Numbers.{is_file_number};
ghost use Rattle.lsm_version.specs.declared.edits.Edit.{Edit};
ghost use Rattle.lsm_version.specs.EditText.{edit_text};
ghost use Rattle.lsm_frame.specs.Frames.{record_text};
ghost use Rattle.lsm_disk.specs.State.{Story, state_of};
ghost use Rattle.lsm_disk.specs.Refusals.{no_file};
ghost use Rattle.lsm_disk.specs.Goes.{Went};
ghost use Rattle.lsm_disk.specs.Halts.{IsAmong};
ghost use Rattle.lsm_disk.specs.Kept.{InFile};
ghost use Rattle.lsm_disk.specs.Answers.{HasDiskCause};
ghost use Rattle.lsm_disk.specs.declared.calls.DiskCall.TheVariants as calls;
ghost use Rattle.lsm_publish.specs.Publishing.{AnswersAs, SyncsNeedNoMemory};
ghost use Rattle.lsm_wal.specs.Answered.{IsRefusedAt, AnswersAt};
ghost use Rattle.lsm_manifest.specs.Texts.{IsTaken, manifest_text};
ghost use Rattle.lsm_manifest.specs.Standing.{Stands, HoldsEither, IsLeft};
ghost use Rattle.lsm_manifest.specs.Installing.{Before, StillBefore, IsApart, NamesOldOrNew, Installs, Leaves, LawfulOrUntouched, WantsMemory, install_calls, no_installing, manifest_path};

use crate::installing::{places_in, write_manifest};
use crate::writing::{frame_edit, refusal, write_record};
use lsm_bytes::Bytes;
use lsm_disk::{Disk, DiskCall, DiskError, DiskRefusal};
use lsm_names::Path;
use lsm_version::Edit;
use std::alloc::Global;
use std::marker::Model;

/// A manifest, to whose file edits are appended. Contracts see its folder, its number, the path of
/// its file, and how many bytes it has up to the last edit whose append was Ok.
///
/// After an append that was refused by a fault a part of its record may stand behind that length,
/// and another append would stand behind this part: such a manifest is read again, or another takes
/// its place, before it is written.
#[derive(Drop)]
pub struct Manifest {
    alloc: Global,
    dir: Path,
    number: u64,
    path: Path,
    len: u64,
    frame: Bytes,
}

impl Model for Manifest {
    ghost use Rattle.lsm_manifest.specs.Shown.{Shown, coded_shown};

    ghost Value = { Shown };

    ghost coded = { coded_shown };

    ghost view = { λ m. record { dir = m.dir; number = m.number; path = m.path; len = m.len } };
}

impl Manifest {
    /// Makes a new manifest of one edit in this folder, whose path has at most 130 bytes, and gives
    /// `CURRENT` its name. It takes nine calls of the disk: the manifest is made, filled and
    /// synced; so is the temporary file of its number; the names are synced; that file takes the
    /// name `CURRENT`; and the names are synced again.
    pub fn create<D: Disk>(
        alloc: Global,
        disk: &mut D,
        dir: &Path,
        number: u64,
        edit: &Edit,
    ) -> Result<Manifest, DiskRefusal>
        requires number { IsTrue (is_file_number number) }
        requires room { length dir.now + 30 ≤ 160 }
        requires taken { IsTaken edit.now }

        ensures manifest { IfOk result (λ m. m ≡ record {
          dir = dir.now;
          number = number;
          path = manifest_path dir.now number;
          len = length (manifest_text (edit.now ∷ []));
        }) }

        // In each image on the way `CURRENT` has what it had, or names the new manifest, which is
        // whole.
        ensures went { (story : Story) (before : Before) → (D.seen disk.old).told ≡ Some story
            → StillBefore dir.now before (state_of story) → IsApart dir.now number before.path
            → Went story (D.seen disk.new).told (Installs dir.now number (length (state_of story).files))
            (NamesOldOrNew dir.now number edit.now before)
            (Leaves dir.now number (length (state_of story).files) edit.now before result) }

        ensures at { IfErr result (λ r. IsAmong r.at (install_calls dir.now number)) }
        ensures answer { AnswersAs (no_installing dir.now number) (D.seen disk.old) result }
        ensures memory { SyncsNeedNoMemory result }
        ensures cause { HasDiskCause (D.seen disk.old) (D.seen disk.new) result }
    {
        let places = places_in(dir, number);
        let mut frame = Bytes::new(alloc);
        match write_manifest(alloc, disk, &places, number, &mut frame, edit) {
            Ok(()) => Ok(Manifest {
                alloc,
                dir: *dir,
                number,
                path: places.manifest,
                len: frame.len() as u64,
                frame,
            }),
            Err(refused) => Err(refused),
        }
    }

    /// Makes a new manifest of this number and of one edit in the folder, and gives `CURRENT` its
    /// name, by the calls of `create`. Later edits go to the new manifest; the old one's file
    /// stays.
    pub fn roll<D: Disk>(
        &mut self,
        disk: &mut D,
        number: u64,
        whole: &Edit,
    ) -> Result<(), DiskRefusal>
        requires number { IsTrue (is_file_number number) }
        requires room { length self.old.dir + 30 ≤ 160 }
        requires taken { IsTaken whole.now }

        ensures manifest { OnOk result (self.new ≡ record {
          dir = self.old.dir;
          number = number;
          path = manifest_path
              self.old.dir number;
          len = length (manifest_text (whole.now ∷ []));
        }) }
        ensures stays { OnErr result (self.new ≡ self.old) }

        // In each image on the way `CURRENT` names the old or the new manifest, and both are whole.
        ensures went { (story : Story) (before : Before) → (D.seen disk.old).told ≡ Some story
            → StillBefore self.old.dir before (state_of story) → IsApart self.old.dir number before.path
            → Went story (D.seen disk.new).told (Installs self.old.dir number (length (state_of story).files))
            (NamesOldOrNew self.old.dir number whole.now before)
            (Leaves self.old.dir number (length (state_of story).files) whole.now before result) }

        ensures at { IfErr result (λ r. IsAmong r.at (install_calls self.old.dir number)) }
        ensures answer { AnswersAs (no_installing self.old.dir number) (D.seen disk.old) result }
        ensures lawful { LawfulOrUntouched (manifest_path self.old.dir number) (D.seen disk.old) (D.seen disk.new) result }
        ensures memory { SyncsNeedNoMemory result }

        // Where memory is wanting, `CURRENT` isn't touched, and the call tells which of the two new files are there.
        ensures wanting { WantsMemory self.old.dir number (D.seen disk.old).told (D.seen disk.new).told result }
        ensures cause { HasDiskCause (D.seen disk.old) (D.seen disk.new) result }
    {
        let places = places_in(&self.dir, number);
        match write_manifest(self.alloc, disk, &places, number, &mut self.frame, whole) {
            Ok(()) => {
                self.number = number;
                self.path = places.manifest;
                self.len = self.frame.len() as u64;
                Ok(())
            }
            Err(refused) => Err(refused),
        }
    }

    /// Adds an edit at the end, by one append and one sync of the file. From the Ok on it outlives
    /// each crash.
    pub fn append_edit<D: Disk>(&mut self, disk: &mut D, edit: &Edit) -> Result<(), DiskRefusal>
        requires taken { IsTaken edit.now }
        requires room { self.old.len < 2 ^ 63 }

        ensures same { (self.new.dir ≡ self.old.dir) × (self.new.number ≡ self.old.number) × (self.new.path ≡ self.old.path) }
        ensures len { OnOk result (self.new.len ≡ self.old.len + length (record_text (self.old.len % 32768) (edit_text edit.now))) }
        ensures stays { OnErr result (self.new ≡ self.old) }

        // Each image on the way has the edits from before, or these and the new one.
        ensures went { (story : Story) (edits : List Edit) → (D.seen disk.old).told ≡ Some story
            → self.old.len ≡ length (manifest_text edits) → (stands : Stands (state_of story) self.old.path edits)
            → Went story (D.seen disk.new).told (InFile stands.id) (HoldsEither self.old.path edits edit.now)
            (IsLeft self.old.path edits edit.now result) }

        ensures refused { IfErr result (IsRefusedAt calls.Append calls.Sync self.old.path (D.seen disk.old) (D.seen disk.new)) }
        ensures answer { AnswersAt calls.Sync (no_file self.old.path) (D.seen disk.old) result }
        ensures cause { HasDiskCause (D.seen disk.old) (D.seen disk.new) result }
    {
        let Ok(()) = frame_edit(self.alloc, &mut self.frame, self.len, edit) else {
            return Err(refusal(DiskCall::Append, &self.path, DiskError::NoMemory));
        };
        match write_record(disk, &self.path, self.frame.as_slice()) {
            Ok(()) => {
                self.len += self.frame.len() as u64;
                Ok(())
            }
            Err(refused) => Err(refused),
        }
    }

    /// How many bytes the edits have in the file whose appends were Ok.
    pub fn len(&self) -> u64
        ensures { result ≡ self.now.len }
    {
        self.len
    }

    /// The manifest's number.
    pub fn number(&self) -> u64
        ensures { result ≡ self.now.number }
    {
        self.number
    }

    /// The path of the manifest's file.
    pub fn path(&self) -> &Path
        ensures { result.now ≡ self.now.path }
    {
        &self.path
    }
}
