//! The manifest, whose edits make the version.
ghost use Rattle.std.specs.Prelude.{◌≡◌, ◌+◌, ◌++◌, ◌∷◌, [], ◌≤◌, ℕ, List, Some, None, Ok, IfOk, IfErr, IfSome, IsTrue, length};
ghost use Rattle.lsm_names.specs.FileNames.{is_file_number};
ghost use Rattle.lsm_frame.specs.Reader.{Tells, Stays};
ghost use Rattle.lsm_version.specs.declared.edits.Edit.{Edit};
ghost use Rattle.lsm_version.specs.Edits.{IsEdit, IsEditText};
ghost use Rattle.lsm_version.specs.Versions.{applied};
ghost use Rattle.lsm_folder.specs.Manifests.{with_edit, edits_said};
ghost use Rattle.lsm_folder.specs.Reading.{edits_of};
ghost use Rattle.lsm_recover.specs.Answers.{IsRefusedBy, files_now};
ghost use Rattle.lsm_recover.specs.Causes.{HasFolderCause, HasRisenIn, IsOfBytes, frame_error};
ghost use Rattle.lsm_recover.specs.declared.errors.FolderError.TheVariants.{Malformed};
ghost use Rattle.lsm_recover.specs.Stated.{IsStated, IsSound, AreStated, AnswersStated, IsNoEdit, IsNotApplied, said_so_far};

use crate::errors::{FolderError, error_by};
use crate::opening::{file_path, open_whole};
use lsm_disk::{Disk, View};
use lsm_frame::{FrameError, FrameReader, Next};
use lsm_names::{FileName, Path};
use lsm_version::{ApplyError, Edit, EditError, Version, decode_edit};
use std::alloc::Global;

/// What a manifest's edits come to: the live tables, and the numbers that were set last.
#[derive(Drop)]
pub(crate) struct Stated {
    pub(crate) version: Version,
    /// The number from which on logs are needed.
    pub(crate) log: u64,
    /// The next file number.
    pub(crate) next: u64,
    /// The last sequence in tables.
    pub(crate) last: u64,
}

// What the manifest of this number states.
pub(crate) fn read_manifest<D: Disk>(
    alloc: Global,
    disk: &mut D,
    dir: &Path,
    number: u64,
) -> Result<Stated, FolderError>
    requires room { length dir.now + 30 ≤ 160 }
    requires number { IsTrue (is_file_number number) }
    ensures told { (D.seen disk.new).told ≡ (D.seen disk.old).told }
    ensures answer { IfSome (D.seen disk.old).told (λ story. AnswersStated (edits_of (files_now dir.now story) number) result) }
    ensures sound { IfOk result IsSound }
    ensures cause { HasFolderCause dir.now (D.seen disk.old) (D.seen disk.new) result }
{
    let name = FileName::Manifest(number);
    let path = file_path(dir, name);
    match open_whole(disk, &path) {
        Ok(view) => {
            let mut reader = FrameReader::new(alloc, view);
            let stated = read_edits(alloc, &mut reader, name);
            disk.close(reader.into_view());
            stated
        }
        Err(refused) => Err(error_by(FolderError::Missing { name }, refused)),
    }
}

// What a manifest's edits come to.
fn read_edits<V: View>(
    alloc: Global,
    reader: &mut FrameReader<V>,
    name: FileName,
) -> Result<Stated, FolderError>
    requires { reader.old.given ≡ 0 }
    ensures answer { (text : List ℕ) → Tells reader.old.viewed text → AnswersStated (edits_said name text) result }
    ensures sound { IfOk result IsSound }
    ensures view { Stays reader.old.viewed reader.new.viewed }
    ensures cause { IfErr result (HasRisenIn reader.old.viewed reader.new.viewed) }
{
    let mut stated = None;
    loop {
        match reader.next() {
            Ok(Next::Record(text)) => {
                let place = reader.place();
                stated = Some(read_edit(alloc, name, place, text.as_slice(), stated)?);
            }
            Ok(Next::End) => return some_stated(name, stated),
            Ok(Next::Torn { .. }) => return some_stated(name, stated),
            Err(error) => return Err(error_of(name, error)),
        }
    }
}

// How a manifest's trouble is told of its folder.
fn error_of(name: FileName, error: FrameError) -> FolderError
    ensures { result ≡ frame_error name error }
{
    match error {
        FrameError::ReadFault => FolderError::DiskFault,
        FrameError::Damaged { place, kept, found } => FolderError::Damaged {
            name,
            place,
            kept,
            found,
        },
        FrameError::Malformed { place } => FolderError::Malformed { name, place },
        FrameError::NoMemory => FolderError::NoMemory,
    }
}

// What edits come to with the edit of one more record.
fn read_edit(
    alloc: Global,
    name: FileName,
    place: u64,
    text: &[u8],
    stated: Option<Stated>,
) -> Result<Stated, FolderError>
    requires { IfSome stated IsSound }
    ensures ok { IfOk result (λ now. (edits : List Edit) → IsStated edits stated → (more : List Edit)
        × (said_so_far name place text.now edits ≡ Ok more) × AreStated more now) }
    ensures sound { IfOk result IsSound }
    ensures refused { IfErr result (λ e. (edits : List Edit) → IsStated edits stated
        → IsRefusedBy (said_so_far name place text.now edits) e) }
    ensures inside { IfErr result IsOfBytes }
{
    let edit = edit_of(alloc, name, place, text)?;
    with_edit(alloc, name, place, stated, &edit)
}

// The edit of a record.
fn edit_of(alloc: Global, name: FileName, place: u64, text: &[u8]) -> Result<Edit, FolderError>
    ensures ok { IfOk result (λ edit. IsEditText text.now edit) }
    ensures refused { IfErr result (IsNoEdit name place text.now) }
    ensures inside { IfErr result IsOfBytes }
{
    match decode_edit(alloc, text) {
        Ok(edit) => Ok(edit),
        Err(EditError::BadEdit { .. }) => Err(FolderError::Malformed { name, place }),
        Err(EditError::NoMemory) => Err(FolderError::NoMemory),
    }
}

// What edits come to with one more.
fn with_edit(
    alloc: Global,
    name: FileName,
    place: u64,
    stated: Option<Stated>,
    edit: &Edit,
) -> Result<Stated, FolderError>
    requires sound { IfSome stated IsSound }
    requires grammar { IsEdit edit.now }
    ensures ok { IfOk result (λ now. (edits : List Edit) → IsStated edits stated
        → (with_edit name place edits edit.now ≡ Ok (edits ++ edit.now ∷ [])) × AreStated (edits ++ edit.now ∷ []) now) }
    ensures sound { IfOk result IsSound }
    ensures refused { IfErr result (λ e. (edits : List Edit) → IsStated edits stated
        → IsRefusedBy (with_edit name place edits edit.now) e) }
    ensures inside { IfErr result IsOfBytes }
{
    match stated {
        Some(stated) => next_stated(alloc, name, place, stated, edit),
        None => first_stated(alloc, name, place, edit),
    }
}

// What a first edit comes to, which has to give all three numbers.
fn first_stated(
    alloc: Global,
    name: FileName,
    place: u64,
    edit: &Edit,
) -> Result<Stated, FolderError>
    requires grammar { IsEdit edit.now }
    ensures ok { IfOk result (λ now. (with_edit name place [] edit.now ≡ Ok (edit.now ∷ [])) × AreStated (edit.now ∷ []) now) }
    ensures sound { IfOk result IsSound }
    ensures refused { IfErr result (IsRefusedBy (with_edit name place [] edit.now)) }
    ensures inside { IfErr result IsOfBytes }
{
    let (Some(log), Some(next), Some(last)) = (edit.log, edit.next, edit.last) else {
        return Err(FolderError::Malformed { name, place });
    };
    let version = apply(alloc, name, place, &Version::empty(alloc), edit)?;
    Ok(Stated {
        version,
        log,
        next,
        last,
    })
}

// What edits come to with one behind them.
fn next_stated(
    alloc: Global,
    name: FileName,
    place: u64,
    stated: Stated,
    edit: &Edit,
) -> Result<Stated, FolderError>
    requires sound { IsSound stated }
    requires grammar { IsEdit edit.now }
    ensures ok { IfOk result (λ now. (edits : List Edit) → AreStated edits stated
        → (with_edit name place edits edit.now ≡ Ok (edits ++ edit.now ∷ [])) × AreStated (edits ++ edit.now ∷ []) now) }
    ensures sound { IfOk result IsSound }
    ensures refused { IfErr result (λ e. (edits : List Edit) → AreStated edits stated
        → IsRefusedBy (with_edit name place edits edit.now) e) }
    ensures inside { IfErr result IsOfBytes }
{
    let version = apply(alloc, name, place, &stated.version, edit)?;
    Ok(Stated {
        version,
        log: edit.log.unwrap_or(stated.log),
        next: edit.next.unwrap_or(stated.next),
        last: edit.last.unwrap_or(stated.last),
    })
}

// The version after an edit.
fn apply(
    alloc: Global,
    name: FileName,
    place: u64,
    version: &Version,
    edit: &Edit,
) -> Result<Version, FolderError>
    ensures ok { IfOk result (λ after. applied version.now edit.now ≡ Ok after) }
    ensures refused { IfErr result (IsNotApplied name place version.now edit.now) }
    ensures inside { IfErr result IsOfBytes }
{
    match version.apply(alloc, edit) {
        Ok(after) => Ok(after),
        Err(ApplyError::BadEdit { .. }) => Err(FolderError::Malformed { name, place }),
        Err(ApplyError::BadLevels { level, left, right }) => {
            Err(FolderError::BadLevels { level, left, right })
        }
        Err(ApplyError::NoMemory) => Err(FolderError::NoMemory),
    }
}

// What a manifest's edits come to, where there was one.
fn some_stated(name: FileName, stated: Option<Stated>) -> Result<Stated, FolderError>
    ensures stated { IfOk result (λ found. stated ≡ Some found) }
    ensures refused { IfErr result (λ e. (stated ≡ None) × (e ≡ Malformed name 0)) }
{
    match stated {
        Some(stated) => Ok(stated),
        None => Err(FolderError::Malformed { name, place: 0 }),
    }
}
