//! The opening of a new store: the folder and its first three files. They are the manifest, `CURRENT` that names it, and
//! an empty log.
ghost use Rattle.std.specs.Prelude.{◌≡◌, None, OnOk, IfOk, IfErr, IsTrue};
ghost use Rattle.lsm_names.specs.Folders.{is_folder_name};
ghost use Rattle.lsm_disk.specs.Refusals.{no_room};
ghost use Rattle.lsm_disk.specs.Tree.{TellsLawful};
ghost use Rattle.lsm_publish.specs.Publishing.{write_calls, switch_calls};
ghost use Rattle.ldb_script.specs.declared.opening.OpenError.TheVariants as open_errors;
ghost use Rattle.ldb_script.specs.Stored.{log_path, current_path, temporary_path, first_manifest, first_current};
ghost use Rattle.ldb_script.specs.Opening.{
  SeenStay,
  IsFree,
  open_error,
  MakesOr,
  Leads,
  IsHindered,
  file_calls,
  manifest_calls,
  log_calls,
  filling_calls,
};
ghost use Rattle.ldb_script.specs.Filling.{IsFreeFolder, AddsFile, Fills, HasManifest, HasTemporary, HasCurrent, HasStore};

use lsm_bytes::{Bytes, NoMemory};
use lsm_disk::{Disk, DiskCall, DiskError, DiskRefusal};
use lsm_frame::FrameWriter;
use lsm_names::{FileName, Folder, Path};
use lsm_publish::{switch, write_temporary};
use lsm_wal::Wal;
use std::alloc::Global;

/// The number of the manifest's file.
pub(crate) const MANIFEST: u64 = 1;

/// The number of the log's file.
pub(crate) const LOG: u64 = 2;

/// The first edit of a manifest: the log's number (field 1) is 2, the next file's (2) is 3, and the last sequence in
/// tables (3) is 0.
const FIRST_EDIT: [u8; 6] = [1, 2, 2, 3, 3, 0];

/// Why a store was not opened.
#[derive(Clone, Copy)]
pub enum OpenError {
    /// The disk failed.
    DiskFault,
    /// The folder's name is taken.
    Found,
    /// The disk refused this call, though what it needs stood there. A sync of names carries the path of the call before
    /// it.
    Changed { call: DiskCall, path: Path },
    NoMemory,
}

impl From<NoMemory> for OpenError {
    ghost from_gives = { λ _ e. e ≡ open_errors.NoMemory };

    fn from(_: NoMemory) -> Self {
        OpenError::NoMemory
    }
}

// A disk's refusal of a call that an opening made.
fn open_refused(call: DiskCall, path: &Path, error: DiskError) -> OpenError
    ensures { result ≡ open_error call path.now error }
{
    match error {
        DiskError::Fault => OpenError::DiskFault,
        DiskError::NoMemory => OpenError::NoMemory,
        DiskError::NotThere
        | DiskError::Exists
        | DiskError::NoLinks
        | DiskError::NotEmpty
        | DiskError::Short { .. } => OpenError::Changed { call, path: *path },
    }
}

// The manifest of a new store: one record, the first edit.
#[tactic(auto, unfolding(crate::specs::Stored::first_manifest))]
fn manifest_text(alloc: Global) -> Result<Bytes, NoMemory>
    ensures { IfOk result (λ text. text ≡ first_manifest) }
{
    let mut text = Bytes::new(alloc);
    let mut writer = FrameWriter::new(0);
    writer.add(&FIRST_EDIT, &mut text)?;
    Ok(text)
}

// What `CURRENT` of a new store has: the manifest's name and a newline.
#[tactic(auto, unfolding(crate::specs::Stored::first_current))]
fn current_text(alloc: Global) -> Result<Bytes, NoMemory>
    ensures { IfOk result (λ text. text ≡ first_current) }
{
    let mut text = Bytes::from_slice(alloc, FileName::Manifest(MANIFEST).path().as_bytes())?;
    text.push(b'\n')?;
    Ok(text)
}

// Makes a new file of these bytes, and syncs it. Its name is not sure before the next sync of names.
fn write_file<D: Disk>(disk: &mut D, path: &Path, bytes: &[u8]) -> Result<(), OpenError>
    ensures made { OnOk result (Leads (λ s. no_room path.now s ≡ None) (AddsFile path.now bytes.now)
        (D.seen disk.old).told (D.seen disk.new).told) }
    ensures refused { IfErr result (IsHindered (file_calls path.now) (λ s. no_room path.now s ≡ None) (D.seen disk.old) (D.seen disk.new)) }
    ensures counts { SeenStay (D.seen disk.old) (D.seen disk.new) }
{
    if let Err(error) = disk.create(path) {
        return Err(open_refused(DiskCall::Create, path, error));
    }
    if let Err(error) = disk.append(path, bytes) {
        return Err(open_refused(DiskCall::Append, path, error));
    }
    if let Err(error) = disk.sync(path) {
        return Err(open_refused(DiskCall::Sync, path, error));
    }
    Ok(())
}

// Makes the folder and the manifest in it.
fn make_manifest<D: Disk>(disk: &mut D, folder: &Folder, text: &[u8]) -> Result<(), OpenError>
    requires { text.now ≡ first_manifest }
    ensures made { OnOk result (Leads (IsFreeFolder folder.now)
        (Fills folder.now (HasManifest folder.now)) (D.seen disk.old).told
        (D.seen disk.new).told) }
    ensures refused { IfErr result (IsHindered (manifest_calls folder.now) (IsFreeFolder folder.now) (D.seen disk.old) (D.seen disk.new)) }
    ensures counts { SeenStay (D.seen disk.old) (D.seen disk.new) }
{
    let path = folder.path();
    if let Err(error) = disk.make_folder(&path) {
        return Err(open_refused(DiskCall::MakeFolder, &path, error));
    }
    write_file(disk, &folder.file(&FileName::Manifest(MANIFEST)), text)?;
    Ok(())
}

// Writes these bytes under the temporary name of `CURRENT`. Its sync of names makes the folder's and the manifest's names
// outlive each crash too.
fn write_current<D: Disk>(disk: &mut D, folder: &Folder, text: &[u8]) -> Result<(), OpenError>
    requires { text.now ≡ first_current }
    ensures made { OnOk result (Leads (HasManifest folder.now)
        (Fills folder.now (HasTemporary folder.now)) (D.seen disk.old).told
        (D.seen disk.new).told) }
    ensures refused { IfErr result (IsHindered (write_calls (temporary_path folder.now))
        (HasManifest folder.now) (D.seen disk.old) (D.seen disk.new)) }
    ensures counts { SeenStay (D.seen disk.old) (D.seen disk.new) }
{
    let temporary = folder.file(&FileName::Temp(MANIFEST));
    match write_temporary(disk, &temporary, text) {
        Ok(()) => Ok(()),
        Err(DiskRefusal { at, why }) => Err(open_refused(at.call, &at.path, why)),
    }
}

// Gives `CURRENT` its name.
fn name_current<D: Disk>(disk: &mut D, folder: &Folder) -> Result<(), OpenError>
    ensures made { OnOk result (Leads (HasTemporary folder.now)
        (Fills folder.now (HasCurrent folder.now)) (D.seen disk.old).told (D.seen disk.new).told) }
    ensures refused { IfErr result (IsHindered (switch_calls (current_path folder.now))
        (HasTemporary folder.now) (D.seen disk.old) (D.seen disk.new)) }
    ensures counts { SeenStay (D.seen disk.old) (D.seen disk.new) }
{
    let temporary = folder.file(&FileName::Temp(MANIFEST));
    let path = folder.file(&FileName::Current);
    match switch(disk, &temporary, &path) {
        Ok(()) => Ok(()),
        Err(DiskRefusal { at, why }) => Err(open_refused(at.call, &at.path, why)),
    }
}

// Makes the empty log.
fn make_log<D: Disk>(alloc: Global, disk: &mut D, folder: &Folder) -> Result<Wal, OpenError>
    ensures log { IfOk result (λ wal. wal ≡ record { path = log_path folder.now; len = 0 }) }
    ensures made { OnOk result (Leads (HasCurrent folder.now)
        (Fills folder.now (HasStore folder.now)) (D.seen disk.old).told (D.seen disk.new).told) }
    ensures refused { IfErr result (IsHindered (log_calls folder.now) (HasCurrent folder.now) (D.seen disk.old) (D.seen disk.new)) }
    ensures counts { SeenStay (D.seen disk.old) (D.seen disk.new) }
{
    match Wal::create(alloc, disk, folder.file(&FileName::Log(LOG))) {
        Ok(wal) => Ok(wal),
        Err(DiskRefusal { at, why }) => Err(open_refused(at.call, &at.path, why)),
    }
}

// Makes the folder and its files. The bytes are made first, so that want of memory for them leaves nothing.
fn make_files<D: Disk>(alloc: Global, disk: &mut D, folder: &Folder) -> Result<Wal, OpenError>
    ensures log { IfOk result (λ wal. wal ≡ record { path = log_path folder.now; len = 0 }) }
    ensures made { OnOk result (Leads (IsFreeFolder folder.now)
        (Fills folder.now (HasStore folder.now)) (D.seen disk.old).told (D.seen disk.new).told) }
    ensures refused { IfErr result (IsHindered (filling_calls folder.now) (IsFreeFolder folder.now) (D.seen disk.old) (D.seen disk.new)) }
    ensures counts { SeenStay (D.seen disk.old) (D.seen disk.new) }
{
    let manifest = manifest_text(alloc)?;
    let current = current_text(alloc)?;
    make_manifest(disk, folder, manifest.as_slice())?;
    write_current(disk, folder, current.as_slice())?;
    name_current(disk, folder)?;
    make_log(alloc, disk, folder)
}

/// Makes the folder and its files where the folder's name is free.
pub fn make_new<D: Disk>(alloc: Global, disk: &mut D, folder: &Folder) -> Result<Wal, OpenError>
    ensures log { IfOk result (λ wal. wal ≡ record { path = log_path folder.now; len = 0 }) }
    ensures made { MakesOr folder.now (D.seen disk.old) (D.seen disk.new) result }
    ensures free { OnOk result (IsFree folder.now (D.seen disk.old)) }
    ensures lawful { OnOk result (TellsLawful (D.seen disk.old)) }
    ensures named { IsTrue (is_folder_name folder.now) }
    ensures counts { SeenStay (D.seen disk.old) (D.seen disk.new) }
{
    prove!(folder.as_bytes().len() <= 64);
    let path = folder.path();
    match disk.kind(&path) {
        Ok(None) => make_files(alloc, disk, folder),
        Ok(Some(_)) => Err(OpenError::Found),
        Err(error) => Err(open_refused(DiskCall::Kind, &path, error)),
    }
}
