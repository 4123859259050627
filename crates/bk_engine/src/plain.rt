//! The files of a backup that has no tables, and their copies.
ghost use Rattle.std.specs.Prelude.{◌≡◌, ◌≤◌, ◌<◌, ◌^◌, ◌++◌, ◌∷◌, [], ℕ, List, length, Some, IsTrue, IfSome, OnOk, IfOk, option_map};
ghost use Rattle.lsm_bytes.specs.Checksum.{crc32c};
ghost use Rattle.lsm_names.specs.FileNames.{is_file_number};
ghost use Rattle.lsm_disk.specs.State.{Story, state_of};
ghost use Rattle.lsm_disk.specs.Goes.{Went};
ghost use Rattle.lsm_disk.specs.Tree.{TellsLawful};
ghost use Rattle.bk_meta.specs.declared.backup_files.BackupFile.TheVariants.{Private};
ghost use Rattle.bk_meta.specs.BackupFiles.{IsBackupFile, path_of};
ghost use Rattle.bk_engine.specs.Copying.{Whatever, Anything, IsSameView};
ghost use Rattle.bk_engine.specs.Creating.{file_names_of, own_file, own_files};
ghost use Rattle.bk_engine.specs.Preparing.{
  Prepares,
  IsTextOf,
  Apart,
  AreNew,
  AreTexts,
  log_names,
  log_views,
  plain_views,
  views_of,
  faults_of,
};
ghost use Rattle.bk_engine.specs.Returning.{AreSameViews};
ghost use Rattle.bk_engine.specs.Stopping.{HasStopCause};

use crate::copying::copy_file;
use crate::errors::EngineError;
use crate::places::own_path;
use crate::stopping::Stop;
use bk_meta::{MetaFile, MetaFiles};
use lsm_disk::{Disk, View};
use lsm_names::FileName;
use std::alloc::Global;

/// A file of a store by its number, and a view of it.
#[derive(Drop)]
pub struct PlainFile<V> {
    /// 1 to `2^56 - 2`.
    pub number: u64,
    pub view: V,
}

/// The files of a backup that has no tables.
#[derive(Drop)]
pub struct PlainFiles<V> {
    /// The log, where it isn't empty.
    pub log: Option<PlainFile<V>>,
    /// `CURRENT`, which names the manifest.
    pub current: V,
    pub manifest: PlainFile<V>,
}

/// Why no backup was made, and the files, handed back.
#[derive(Drop)]
pub struct PlainRefusal<V> {
    pub why: EngineError,
    pub files: PlainFiles<V>,
}

/// Copies a view into the backup's own folder, and adds the file to the list.
fn add_copy<B: Disk, V: View>(
    alloc: Global,
    disk: &mut B,
    id: u32,
    name: &FileName,
    view: &mut V,
    files: &mut MetaFiles,
) -> Result<(), Stop>
    requires { IsBackupFile (Private name.now) }
    ensures copied { OnOk result ((text : List ℕ) × (crc32c text < 2 ^ 32) × IsTextOf (V.viewed view.old) text ×
        (files.new ≡ files.old ++ own_file id name.now text ∷ [])
        × ((story : Story) (first : ℕ) (texts : List (List ℕ)) → (B.seen disk.old).told ≡ Some story → first ≤ length (state_of story).files
        → Apart (path_of id (Private name.now)) files.old → AreNew first (state_of story) files.old texts
        → Went story (B.seen disk.new).told (Prepares id first) Anything
        (λ s. AreNew first s (files.old ++ own_file id name.now text ∷ []) (texts ++ text ∷ [])))) }
    ensures went { (story : Story) (first : ℕ) → (B.seen disk.old).told ≡ Some story → first ≤ length (state_of story).files
        → Went story (B.seen disk.new).told (Prepares id first) Anything Whatever }
    ensures lawful { OnOk result (TellsLawful (B.seen disk.new)) }
    ensures view { IsSameView (V.viewed view.old) (V.viewed view.new) }
    ensures cause { HasStopCause (B.seen disk.old) (B.seen disk.new) (V.viewed view.old).faults (V.viewed view.new).faults result }
{
    let path = own_path(id, name);
    let crc = copy_file(alloc, disk, &path, view)?;
    files.push(MetaFile { path, crc })?;
    Ok(())
}

/// Copies the log, where there is one.
fn copy_log<B: Disk, V: View>(
    alloc: Global,
    disk: &mut B,
    id: u32,
    log: &mut Option<PlainFile<V>>,
) -> Result<MetaFiles, Stop>
    requires { IfSome log.old (λ file. IsTrue (is_file_number file.number)) }
    ensures copied { IfOk result (λ files. (texts : List (List ℕ)) × AreTexts
        (log_views (option_map (λ file. V.viewed file.view) log.old)) texts
        × (files ≡ own_files id (log_names (option_map (λ file. file.number) log.old)) texts)
        × ((story : Story) (first : ℕ) → (B.seen disk.old).told ≡ Some story → first ≤ length (state_of story).files
        → Went story (B.seen disk.new).told (Prepares id first) Anything (λ s. AreNew first s files texts))) }
    ensures went { (story : Story) (first : ℕ) → (B.seen disk.old).told ≡ Some story → first ≤ length (state_of story).files
        → Went story (B.seen disk.new).told (Prepares id first) Anything Whatever }
    ensures views { AreSameViews (log_views (option_map (λ file. V.viewed file.view) log.old))
        (log_views (option_map (λ file. V.viewed file.view) log.new)) }
    ensures number { option_map (λ file. file.number) log.new ≡ option_map (λ file. file.number) log.old }
    ensures counts { HasStopCause (B.seen disk.old) (B.seen disk.new)
        (faults_of (log_views (option_map (λ file. V.viewed file.view) log.old)))
        (faults_of (log_views (option_map (λ file. V.viewed file.view) log.new))) result }
{
    let mut files = MetaFiles::new(alloc);
    match log {
        Some(file) => {
            let name = FileName::Log(file.number);
            add_copy(alloc, disk, id, &name, &mut file.view, &mut files)?;
            Ok(files)
        }
        None => Ok(files),
    }
}

/// Copies the files into the backup's own folder, in the order of their paths.
pub(crate) fn copy_all<B: Disk, V: View>(
    alloc: Global,
    disk: &mut B,
    id: u32,
    files: &mut PlainFiles<V>,
) -> Result<MetaFiles, Stop>
    requires log { IfSome files.old.log (λ file. IsTrue (is_file_number file.number)) }
    requires manifest { IsTrue (is_file_number files.old.manifest.number) }
    ensures copied { IfOk result (λ listed. (texts : List (List ℕ)) × AreTexts (views_of V.viewed files.old) texts
        × (listed ≡ own_files id (file_names_of files.old) texts)
        × ((story : Story) (first : ℕ) → (B.seen disk.old).told ≡ Some story → first ≤ length (state_of story).files
        → Went story (B.seen disk.new).told (Prepares id first) Anything (λ s. AreNew first s listed texts))) }
    ensures went { (story : Story) (first : ℕ) → (B.seen disk.old).told ≡ Some story → first ≤ length (state_of story).files
        → Went story (B.seen disk.new).told (Prepares id first) Anything Whatever }
    ensures lawful { OnOk result (TellsLawful (B.seen disk.new)) }
    // The files are as they were, whatever is answered.
    ensures views { AreSameViews (views_of V.viewed files.old) (views_of V.viewed files.new) }
    ensures names { file_names_of files.new ≡ file_names_of files.old }
    ensures cause { HasStopCause (B.seen disk.old) (B.seen disk.new) (faults_of (views_of V.viewed files.old))
        (faults_of (views_of V.viewed files.new)) result }
{
    let mut listed = copy_log(alloc, disk, id, &mut files.log)?;
    add_copy(
        alloc,
        disk,
        id,
        &FileName::Current,
        &mut files.current,
        &mut listed,
    )?;
    let name = FileName::Manifest(files.manifest.number);
    add_copy(
        alloc,
        disk,
        id,
        &name,
        &mut files.manifest.view,
        &mut listed,
    )?;
    Ok(listed)
}
