//! The calls of a disk that write a manifest's records.
ghost use Rattle.std.specs.Prelude.{◌≡◌, ◌++◌, ◌∷◌, ◌%◌, [], List, Some, OnOk, IfErr};
ghost use Rattle.lsm_version.specs.declared.edits.Edit.{Edit};
ghost use Rattle.lsm_version.specs.EditText.{edit_text};
ghost use Rattle.lsm_frame.specs.Frames.{record_text};
ghost use Rattle.lsm_disk.specs.State.{Story, state_of};
ghost use Rattle.lsm_disk.specs.Refusals.{no_file};
ghost use Rattle.lsm_disk.specs.Goes.{Went};
ghost use Rattle.lsm_disk.specs.Kept.{InFile};
ghost use Rattle.lsm_disk.specs.Answers.{HasDiskCause};
ghost use Rattle.lsm_disk.specs.declared.calls.DiskCall.TheVariants as calls;
ghost use Rattle.lsm_wal.specs.Answered.{IsRefusedAt, AnswersAt};
ghost use Rattle.lsm_manifest.specs.Texts.{IsTaken, record_behind};
ghost use Rattle.lsm_manifest.specs.Standing.{Stands, HoldsEither, IsLeft};

use lsm_bytes::{Bytes, NoMemory};
use lsm_disk::{Disk, DiskCall, DiskError, DiskRefusal, Halt};
use lsm_frame::FrameWriter;
use lsm_names::Path;
use lsm_version::{Edit, encode_edit};
use std::alloc::Global;

// The refusal of a call on this path.
pub(crate) fn refusal(call: DiskCall, path: &Path, why: DiskError) -> DiskRefusal
    ensures call { result.at.call ≡ call }
    ensures path { result.at.path ≡ path.now }
    ensures why { result.why ≡ why }
{
    DiskRefusal {
        at: Halt { call, path: *path },
        why,
    }
}

// The record of an edit behind a manifest of this length. The frame is a buffer.
pub(crate) fn frame_edit(
    alloc: Global,
    frame: &mut Bytes,
    at: u64,
    edit: &Edit,
) -> Result<(), NoMemory>
    requires { IsTaken edit.now }
    ensures { OnOk result (frame.new ≡ record_text (at % 32768) (edit_text edit.now)) }
{
    let text = encode_edit(alloc, edit)?;
    frame.clear();
    let mut writer = FrameWriter::new(at);
    writer.add(text.as_slice(), frame)?;
    Ok(())
}

// Adds a record at the end of the manifest's file, and syncs the file.
pub(crate) fn write_record<D: Disk>(
    disk: &mut D,
    path: &Path,
    bytes: &[u8],
) -> Result<(), DiskRefusal>
    ensures went { (story : Story) (edits : List Edit) (next : Edit) → (D.seen disk.old).told ≡ Some story
        → bytes.now ≡ record_behind edits next → IsTaken next → (stands : Stands (state_of story) path.now edits)
        → Went story (D.seen disk.new).told (InFile stands.id) (HoldsEither path.now edits next) (IsLeft path.now edits next result) }
    ensures refused { IfErr result (IsRefusedAt calls.Append calls.Sync path.now (D.seen disk.old) (D.seen disk.new)) }
    ensures answer { AnswersAt calls.Sync (no_file path.now) (D.seen disk.old) result }
    ensures cause { HasDiskCause (D.seen disk.old) (D.seen disk.new) result }
{
    if let Err(why) = disk.append(path, bytes) {
        return Err(refusal(DiskCall::Append, path, why));
    }
    if let Err(why) = disk.sync(path) {
        return Err(refusal(DiskCall::Sync, path, why));
    }
    Ok(())
}
