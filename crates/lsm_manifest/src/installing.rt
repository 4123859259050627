//! The calls of a disk that write a new manifest and switch `CURRENT` to it.
ghost use Rattle.std.specs.Prelude.{◌≡◌, ◌≢◌, ◌+◌, ◌≤◌, ◌∷◌, ◌++◌, [], ℕ, List, length, Some, IsTrue, OnOk, IfOk, IfErr};
ghost use Rattle.lsm_names.specs.FileNames.{IsFileName, spelled};
ghost use Rattle.lsm_names.specs.Numbers.{is_file_number};
ghost use Rattle.lsm_names.specs.declared.file_names.FileName.TheVariants as names;
ghost use Rattle.lsm_disk.specs.Names.{Moved};
ghost use Rattle.lsm_disk.specs.State.{Story, state_of};
ghost use Rattle.lsm_disk.specs.Goes.{Went};
ghost use Rattle.lsm_disk.specs.Halts.{IsAmong, halt_at};
ghost use Rattle.lsm_disk.specs.Kept.{IsFileNow, OpSpares};
ghost use Rattle.lsm_disk.specs.Answers.{HasDiskCause};
ghost use Rattle.lsm_disk.specs.Tree.{TellsLawful};
ghost use Rattle.lsm_disk.specs.Refusals.{no_room, no_rename};
ghost use Rattle.lsm_disk.specs.declared.calls.DiskCall.TheVariants as calls;
ghost use Rattle.lsm_disk.specs.declared.calls.DiskError.TheVariants as why;
ghost use Rattle.lsm_publish.specs.Publishing.{Old, StillHas, Writes, Switches, AnswersAs, SyncsNeedNoMemory, switch_calls, written};
ghost use Rattle.lsm_version.specs.declared.edits.Edit.{Edit};
ghost use Rattle.lsm_manifest.specs.Texts.{IsTaken, manifest_text};
ghost use Rattle.lsm_manifest.specs.Installing.{Before, StillBefore, IsApart, NamesOldOrNew, Installs, Leaves, Anything, FillWants, LeadWants, WantsMemory, LawfulOrUntouched, IsFilled, IsOnly, LeadsEither, HasLed, new_calls, install_calls, no_installing, current_path, manifest_path, temporary_path, current_text};

use crate::writing::{frame_edit, refusal};
use lsm_bytes::{Bytes, NoMemory};
use lsm_disk::{Disk, DiskCall, DiskError, DiskRefusal};
use lsm_names::{FileName, Path};
use lsm_version::Edit;
use std::alloc::Global;

// Where the files of a new manifest stand.
#[derive(Clone, Copy)]
pub(crate) struct Places {
    pub(crate) manifest: Path,
    pub(crate) temporary: Path,
    pub(crate) current: Path,
}

// The path of a file of a folder.
fn file_path(dir: &Path, name: FileName) -> Path
    requires name { IsFileName name }
    requires room { length dir.now + 30 ≤ 160 }
    ensures { result ≡ dir.now ++ 47 ∷ spelled name }
{
    match dir.join(&name.path()) {
        Ok(path) => path,
        Err(_) => unreachable!(),
    }
}

// Where the manifest of this number and its files stand in a folder.
pub(crate) fn places_in(dir: &Path, number: u64) -> Places
    requires number { IsTrue (is_file_number number) }
    requires room { length dir.now + 30 ≤ 160 }
    ensures manifest { result.manifest ≡ manifest_path dir.now number }
    ensures temporary { result.temporary ≡ temporary_path dir.now number }
    ensures current { result.current ≡ current_path dir.now }
{
    Places {
        manifest: file_path(dir, FileName::Manifest(number)),
        temporary: file_path(dir, FileName::Temp(number)),
        current: file_path(dir, FileName::Current),
    }
}

// What `CURRENT` holds for the manifest of this number.
fn current_bytes(alloc: Global, number: u64) -> Result<Bytes, NoMemory>
    requires { IsTrue (is_file_number number) }
    ensures { IfOk result (λ text. text ≡ current_text number) }
{
    let mut text = Bytes::from_slice(alloc, FileName::Manifest(number).path().as_bytes())?;
    text.push(b'\n')?;
    Ok(text)
}

// Makes a file of these bytes and syncs it. Its name is not sure before the next sync of names.
fn write_new<D: Disk>(disk: &mut D, path: &Path, bytes: &[u8]) -> Result<(), DiskRefusal>
    ensures went { (story : Story) → (D.seen disk.old).told ≡ Some story
        → Went story (D.seen disk.new).told (Writes path.now (length (state_of story).files)) Anything (IsFilled path.now
        (length (state_of story).files) bytes.now result) }
    ensures at { IfErr result (λ r. IsAmong r.at (new_calls path.now)) }
    ensures answer { AnswersAs (no_room path.now) (D.seen disk.old) result }
    ensures lawful { TellsLawful (D.seen disk.old) }
    ensures memory { SyncsNeedNoMemory result }
    ensures wanting { IfErr result (λ r. r.why ≡ why.NoMemory
        → FillWants path.now r (D.seen disk.old).told (D.seen disk.new).told) }
    ensures cause { HasDiskCause (D.seen disk.old) (D.seen disk.new) result }
{
    if let Err(why) = disk.create(path) {
        return Err(refusal(DiskCall::Create, path, why));
    }
    if let Err(why) = disk.append(path, bytes) {
        return Err(refusal(DiskCall::Append, path, why));
    }
    if let Err(why) = disk.sync(path) {
        return Err(refusal(DiskCall::Sync, path, why));
    }
    Ok(())
}

// Makes the names sure, and gives the temporary file the place of what stood under the name.
fn lead<D: Disk>(disk: &mut D, temporary: &Path, path: &Path) -> Result<(), DiskRefusal>
    ensures went { (story : Story) (old : Old) (id k : ℕ) (bytes other text : List ℕ) → (D.seen disk.old).told ≡ Some story
        → StillHas path.now old (state_of story) → IsFileNow (state_of story) temporary.now id (written bytes)
        → IsFileNow (state_of story) other k (written text)
        → OpSpares other (Moved temporary.now path.now) → IsOnly (state_of story) other k → id ≢ k → temporary.now ≢ path.now
        → Went story (D.seen disk.new).told (Switches temporary.now path.now) (LeadsEither path.now other old bytes text)
        (HasLed temporary.now path.now other old id bytes k text result) }
    ensures at { IfErr result (λ r. IsAmong r.at (halt_at calls.SyncNames temporary.now ∷ switch_calls path.now)) }
    ensures answer { AnswersAs (no_rename temporary.now path.now) (D.seen disk.old) result }
    ensures memory { SyncsNeedNoMemory result }
    ensures wanting { IfErr result (λ r. r.why ≡ why.NoMemory
        → LeadWants path.now r (D.seen disk.old).told (D.seen disk.new).told) }
    ensures cause { HasDiskCause (D.seen disk.old) (D.seen disk.new) result }
{
    if let Err(why) = disk.sync_names() {
        return Err(refusal(DiskCall::SyncNames, temporary, why));
    }
    if let Err(why) = disk.rename(temporary, path) {
        return Err(refusal(DiskCall::Rename, path, why));
    }
    if let Err(why) = disk.sync_names() {
        return Err(refusal(DiskCall::SyncNames, path, why));
    }
    Ok(())
}

// Writes a new manifest of these bytes, and then `CURRENT` of those.
pub(crate) fn install<D: Disk>(
    disk: &mut D,
    places: &Places,
    text: &[u8],
    current: &[u8],
) -> Result<(), DiskRefusal>
    ensures went { (story : Story) (dir : List ℕ) (number : ℕ) (edit : Edit) (before : Before) → (D.seen disk.old).told ≡ Some story
        → IsFileName (names.Manifest number) → IsTaken edit
        → places.now.manifest ≡ manifest_path dir number → places.now.temporary ≡ temporary_path dir number
        → places.now.current ≡ current_path dir
        → text.now ≡ manifest_text (edit ∷ []) → current.now ≡ current_text number
        → StillBefore dir before (state_of story) → IsApart dir number before.path
        → Went story (D.seen disk.new).told (Installs dir number (length (state_of story).files))
        (NamesOldOrNew dir number edit before) (Leaves dir number (length (state_of story).files) edit before result) }
    ensures at { (dir : List ℕ) (number : ℕ) → places.now.manifest ≡ manifest_path dir number
        → places.now.temporary ≡ temporary_path dir number
        → places.now.current ≡ current_path dir → IfErr result (λ r. IsAmong r.at (install_calls dir number)) }
    ensures answer { (dir : List ℕ) (number : ℕ) → IsFileName (names.Manifest number) → places.now.manifest ≡ manifest_path dir number
        → places.now.temporary ≡ temporary_path dir number
        → places.now.current ≡ current_path dir → AnswersAs (no_installing dir number) (D.seen disk.old) result }
    ensures lawful { TellsLawful (D.seen disk.old) }
    ensures memory { SyncsNeedNoMemory result }
    ensures wanting { (dir : List ℕ) (number : ℕ) → IsFileName (names.Manifest number)
        → places.now.manifest ≡ manifest_path dir number
        → places.now.temporary ≡ temporary_path dir number → places.now.current ≡ current_path dir
        → WantsMemory dir number (D.seen disk.old).told (D.seen disk.new).told result }
    ensures cause { HasDiskCause (D.seen disk.old) (D.seen disk.new) result }
{
    if let Err(refused) = write_new(disk, &places.manifest, text) {
        return Err(refused);
    }
    if let Err(refused) = write_new(disk, &places.temporary, current) {
        return Err(refused);
    }
    match lead(disk, &places.temporary, &places.current) {
        Ok(()) => Ok(()),
        Err(refused) => Err(refused),
    }
}

// Makes the new manifest's text in the frame and that of `CURRENT`, and writes both. Where memory
// is wanting for these, no call of the disk is made.
pub(crate) fn write_manifest<D: Disk>(
    alloc: Global,
    disk: &mut D,
    places: &Places,
    number: u64,
    frame: &mut Bytes,
    edit: &Edit,
) -> Result<(), DiskRefusal>
    requires number { IsTrue (is_file_number number) }
    requires taken { IsTaken edit.now }
    ensures frame { OnOk result (frame.new ≡ manifest_text (edit.now ∷ [])) }
    ensures went { (story : Story) (dir : List ℕ) (before : Before) → (D.seen disk.old).told ≡ Some story
        → places.now.manifest ≡ manifest_path dir number → places.now.temporary ≡ temporary_path dir number
        → places.now.current ≡ current_path dir
        → StillBefore dir before (state_of story) → IsApart dir number before.path
        → Went story (D.seen disk.new).told (Installs dir number (length (state_of story).files))
        (NamesOldOrNew dir number edit.now before) (Leaves dir number (length (state_of story).files) edit.now before result) }
    ensures at { (dir : List ℕ) → places.now.manifest ≡ manifest_path dir number → places.now.temporary ≡ temporary_path dir number
        → places.now.current ≡ current_path dir → IfErr result (λ r. IsAmong r.at (install_calls dir number)) }
    ensures answer { (dir : List ℕ) → places.now.manifest ≡ manifest_path dir number → places.now.temporary ≡ temporary_path dir number
        → places.now.current ≡ current_path dir → AnswersAs (no_installing dir number) (D.seen disk.old) result }
    ensures lawful { LawfulOrUntouched places.now.manifest (D.seen disk.old) (D.seen disk.new) result }
    ensures memory { SyncsNeedNoMemory result }
    ensures wanting { (dir : List ℕ) → places.now.manifest ≡ manifest_path dir number
        → places.now.temporary ≡ temporary_path dir number → places.now.current ≡ current_path dir
        → WantsMemory dir number (D.seen disk.old).told (D.seen disk.new).told result }
    ensures cause { HasDiskCause (D.seen disk.old) (D.seen disk.new) result }
{
    let Ok(()) = frame_edit(alloc, frame, 0, edit) else {
        return Err(refusal(DiskCall::Create, &places.manifest, DiskError::NoMemory));
    };
    let Ok(current) = current_bytes(alloc, number) else {
        return Err(refusal(DiskCall::Create, &places.manifest, DiskError::NoMemory));
    };
    match install(disk, places, frame.as_slice(), current.as_slice()) {
        Ok(()) => Ok(()),
        Err(refused) => Err(refused),
    }
}
