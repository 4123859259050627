//! The engine.
ghost use Rattle.std.specs.Prelude.{
  ◌≡◌,
  ◌+◌,
  ◌^◌,
  ◌<◌,
  ◌≤◌,
  ◌∷◌,
  ◌++◌,
  [],
  ℕ,
  List,
  All,
  length,
  map,
  Some,
  None,
  IsTrue,
  IfSome,
  IfOk,
  IfErr,
  OnOk,
  OnErr,
  option_map,
};
ghost use Rattle.lsm_names.specs.FileNames.{is_file_number};
ghost use Rattle.lsm_disk.specs.State.{Story, state_of};
ghost use Rattle.lsm_disk.specs.Goes.{Went};
ghost use Rattle.lsm_disk.specs.Kept.{IsKeptName};
ghost use Rattle.lsm_disk.specs.Tree.{TellsLawful};
ghost use Rattle.lsm_disk.specs.declared.calls.Halt.{Halt};
ghost use Rattle.bk_meta.specs.declared.metas.Meta.{Meta};
ghost use Rattle.bk_meta.specs.Metas.{IsMeta};
ghost use Rattle.bk_restore.specs.Causes.{AreLater};
ghost use Rattle.bk_tree.specs.Kept.{IsKeptBackup};
ghost use Rattle.bk_tree.specs.Places.{meta_folder, meta_path};
ghost use Rattle.bk_engine.specs.Answering.{HasRefused, IsLeftBy, HaltsBy, RiseBetween};
ghost use Rattle.bk_engine.specs.Copying.{Whatever, Anything};
ghost use Rattle.bk_engine.specs.Creating.{info_of, file_names_of, plain_meta};
ghost use Rattle.bk_engine.specs.Opening.{MakesRoots, HasRoots, IsFree, no_opening, IsRefusal, NoOpening};
ghost use Rattle.bk_engine.specs.Preparing.{Prepares, AreNew, AreTexts, views_of, faults_of};
ghost use Rattle.bk_engine.specs.Publishing.{Creates, AreOwn, NoneOrWhole};
ghost use Rattle.bk_engine.specs.Returning.{AreSameViews};
ghost use Rattle.bk_engine.specs.Stopping.{HasStopCause};
ghost use Rattle.bk_engine.specs.declared.errors.EngineError.TheVariants as errors;

use crate::errors::EngineError;
use crate::infos::{BackupInfo, Infos};
use crate::opening::make_folders;
use crate::places::own_folder;
use crate::plain::{PlainFiles, PlainRefusal, copy_all};
use crate::publishing::publish_meta;
use crate::stopping::{Stop, error_of, halt_of, stopped};
use bk_meta::Meta;
use lsm_bytes::{Bytes, NoMemory};
use lsm_disk::{Disk, DiskCall, Halt, View};
use std::alloc::Global;
use std::marker::Model;

/// The greatest identifier.
pub const LAST_IDENTIFIER: u32 = 4_294_967_295;

/// Why no engine was opened, and the disk, handed back.
#[derive(Drop)]
pub struct EngineOpen<B> {
    pub why: EngineError,
    pub disk: B,
}

/// The backups on a disk of their own, which the engine owns.
#[derive(Drop)]
pub struct BackupEngine<B: Disk> {
    pub(crate) alloc: Global,
    pub(crate) disk: B,
    pub(crate) metas: Vec<Meta>,
    given: u32,
    halt: Option<Halt>,
}

impl<B: Disk> Model for BackupEngine<B> {
    ghost use Rattle.std.specs.Prelude.{All};
    ghost use Rattle.bk_meta.specs.Metas.{IsMeta};
    ghost use Rattle.bk_engine.specs.Answering.{RiseBetween};
    ghost use Rattle.bk_engine.specs.Shown.{Shown, coded_shown};

    ghost Value = { Shown };

    ghost coded = { coded_shown };

    ghost view = { λ e. record { disk = B.seen e.disk; metas = e.metas.items; given = e.given; halt = e.halt } };

    ghost invariant = { λ e. All IsMeta e.metas.items × RiseBetween 0 e.given e.metas.items };
}

/// How many files a meta names.
fn count_of(meta: &Meta) -> u32
    requires { length meta.now.files ≤ 10000 }
    ensures { result ≡ length meta.now.files }
{
    meta.files.as_slice().len() as u32
}

/// What a meta says of its backup.
fn info_of(alloc: Global, meta: &Meta) -> Result<BackupInfo, NoMemory>
    requires { length meta.now.files ≤ 10000 }
    ensures { IfOk result (λ info. info ≡ info_of meta.now) }
{
    Ok(BackupInfo {
        id: meta.id,
        timestamp: meta.timestamp,
        sequence: meta.sequence,
        files: count_of(meta),
        metadata: meta.metadata.copy(alloc)?,
    })
}

/// What metas say of their backups.
fn infos_of(alloc: Global, metas: &[Meta]) -> Result<Infos, NoMemory>
    requires { All IsMeta metas.now }
    ensures { IfOk result (λ infos. infos ≡ map info_of metas.now) }
{
    let mut infos = Infos::new(alloc);
    for meta in metas {
        infos.push(info_of(alloc, meta)?)?;
    }
    Ok(infos)
}

/// Copies the files into the backup's own folder, and gives the backup's meta.
fn prepare<B: Disk, V: View>(
    alloc: Global,
    disk: &mut B,
    id: u32,
    files: &mut PlainFiles<V>,
    sequence: u64,
    now: u64,
) -> Result<Meta, Stop>
    requires some { 1 ≤ id }
    requires log { IfSome files.old.log (λ file. IsTrue (is_file_number file.number)) }
    requires manifest { IsTrue (is_file_number files.old.manifest.number) }
    ensures made { IfOk result (λ meta. (texts : List (List ℕ)) × AreTexts (views_of V.viewed files.old) texts
        × (meta ≡ plain_meta id now sequence (file_names_of files.old) texts)
        × ((story : Story) (first : ℕ) → (B.seen disk.old).told ≡ Some story → first ≤ length (state_of story).files
        → Went story (B.seen disk.new).told (Prepares id first) Anything (λ s. AreNew first s meta.files texts))) }
    ensures id { IfOk result (λ meta. meta.id ≡ id) }
    ensures own { IfOk result (λ meta. AreOwn id meta.files) }
    ensures lawful { IfOk result IsMeta }
    ensures disk { OnOk result (TellsLawful (B.seen disk.new)) }
    ensures went { (story : Story) (first : ℕ) → (B.seen disk.old).told ≡ Some story → first ≤ length (state_of story).files
        → Went story (B.seen disk.new).told (Prepares id first) Anything Whatever }
    // The files are as they were, whatever is answered.
    ensures views { AreSameViews (views_of V.viewed files.old) (views_of V.viewed files.new) }
    ensures names { file_names_of files.new ≡ file_names_of files.old }
    ensures cause { HasStopCause (B.seen disk.old) (B.seen disk.new) (faults_of (views_of V.viewed files.old))
        (faults_of (views_of V.viewed files.new)) result }
{
    let listed = copy_all(alloc, disk, id, files)?;
    Ok(Meta {
        id,
        timestamp: now,
        sequence,
        metadata: Bytes::new(alloc),
        files: listed,
    })
}

/// Makes a backup of this identifier.
fn create<B: Disk, V: View>(
    alloc: Global,
    disk: &mut B,
    id: u32,
    files: &mut PlainFiles<V>,
    sequence: u64,
    now: u64,
) -> Result<Meta, Stop>
    requires some { 1 ≤ id }
    requires log { IfSome files.old.log (λ file. IsTrue (is_file_number file.number)) }
    requires manifest { IsTrue (is_file_number files.old.manifest.number) }
    // The backup is of the files' bytes, where the views tell them, and outlives each crash.
    ensures made { IfOk result (λ meta. (texts : List (List ℕ)) × AreTexts (views_of V.viewed files.old) texts
        × (meta ≡ plain_meta id now sequence (file_names_of files.old) texts)
        × ((story : Story) → (B.seen disk.old).told ≡ Some story → Went story (B.seen disk.new).told
        (Creates id (length (state_of story).files)) Anything (λ s. IsKeptBackup s meta texts))) }
    ensures lawful { IfOk result IsMeta }
    ensures went { (story : Story) → (B.seen disk.old).told ≡ Some story → Went story (B.seen disk.new).told
        (Creates id (length (state_of story).files)) Anything Whatever }
    // Where no crash leaves a meta of this identifier, each image on the way lists no such backup, or holds all of it.
    ensures crash { (story : Story) → (B.seen disk.old).told ≡ Some story → IsKeptName (state_of story) (meta_path id) None
        → Went story (B.seen disk.new).told (Creates id (length (state_of story).files))
        (NoneOrWhole id now sequence (file_names_of files.old) (views_of V.viewed files.old)) Whatever }
    // The files are as they were, whatever is answered.
    ensures views { AreSameViews (views_of V.viewed files.old) (views_of V.viewed files.new) }
    ensures names { file_names_of files.new ≡ file_names_of files.old }
    ensures cause { HasStopCause (B.seen disk.old) (B.seen disk.new) (faults_of (views_of V.viewed files.old))
        (faults_of (views_of V.viewed files.new)) result }
{
    let own = own_folder(id);
    if let Err(why) = disk.make_folder(&own) {
        return Err(stopped(DiskCall::MakeFolder, &own, why));
    }
    let meta = prepare(alloc, disk, id, files, sequence, now)?;
    publish_meta(alloc, disk, &meta)?;
    Ok(meta)
}

/// Makes a backup of this identifier, and keeps its meta. Memory for that is taken first.
fn create_kept<B: Disk, V: View>(
    alloc: Global,
    disk: &mut B,
    metas: &mut Vec<Meta>,
    id: u32,
    files: &mut PlainFiles<V>,
    sequence: u64,
    now: u64,
) -> Result<BackupInfo, Stop>
    requires log { IfSome files.old.log (λ file. IsTrue (is_file_number file.number)) }
    requires manifest { IsTrue (is_file_number files.old.manifest.number) }
    requires some { 1 ≤ id }
    ensures made { IfOk result (λ info. (meta : Meta) × (texts : List (List ℕ)) × AreTexts (views_of V.viewed files.old) texts
        × (meta ≡ plain_meta id now sequence (file_names_of files.old) texts)
        × (info ≡ info_of meta) × IsMeta meta × (metas.new.items ≡ metas.old.items ++ meta ∷ [])
        × ((story : Story) → (B.seen disk.old).told ≡ Some story → Went story (B.seen disk.new).told
        (Creates id (length (state_of story).files)) Anything (λ s. IsKeptBackup s meta texts))) }
    ensures stays { OnErr result (metas.new.items ≡ metas.old.items) }
    ensures went { (story : Story) → (B.seen disk.old).told ≡ Some story → Went story (B.seen disk.new).told
        (Creates id (length (state_of story).files)) Anything Whatever }
    // Where no crash leaves a meta of this identifier, each image on the way lists no such backup, or holds all of it.
    ensures crash { (story : Story) → (B.seen disk.old).told ≡ Some story → IsKeptName (state_of story) (meta_path id) None
        → Went story (B.seen disk.new).told (Creates id (length (state_of story).files))
        (NoneOrWhole id now sequence (file_names_of files.old) (views_of V.viewed files.old)) Whatever }
    // The files are as they were, whatever is answered.
    ensures views { AreSameViews (views_of V.viewed files.old) (views_of V.viewed files.new) }
    ensures names { file_names_of files.new ≡ file_names_of files.old }
    ensures cause { HasStopCause (B.seen disk.old) (B.seen disk.new) (faults_of (views_of V.viewed files.old))
        (faults_of (views_of V.viewed files.new)) result }
{
    metas.reserve(1)?;
    let meta = create(alloc, disk, id, files, sequence, now)?;
    let info = BackupInfo {
        id,
        timestamp: now,
        sequence,
        files: count_of(&meta),
        metadata: Bytes::new(alloc),
    };
    metas.push(meta).unwrap();
    Ok(info)
}

impl<B: Disk> BackupEngine<B> {
    /// Opens an engine over a disk that has no backups, and makes the three folders `meta`, `private` and `shared_checksum`
    /// where they are missing. Nothing is made where a folder of metas is there, or a file has one of the three names.
    pub fn open(alloc: Global, disk: B) -> Result<BackupEngine<B>, EngineOpen<B>>
        ensures metas { IfOk result (λ engine. engine.metas ≡ []) }
        ensures given { IfOk result (λ engine. engine.given ≡ 0) }
        ensures halt { IfOk result (λ engine. engine.halt ≡ None) }

        // Where the disk tells: the three folders stand, and nothing else was changed.
        ensures made { IfOk result (λ engine. (story : Story) → (B.seen disk).told ≡ Some story
            → Went story engine.disk.told MakesRoots Anything HasRoots) }
        ensures went { IfErr result (λ r. (story : Story) → (B.seen disk).told ≡ Some story → Went story
            (B.seen r.disk).told MakesRoots Anything Whatever) }

        // Where the disk tells: no folder of metas was there before an Ok, and each refusal is of what was there.
        ensures fresh { OnOk result ((story : Story) → (B.seen disk).told ≡ Some story → IsFree meta_folder (state_of story)) }
        ensures free { OnOk result ((story : Story) → (B.seen disk).told ≡ Some story → no_opening (state_of story) ≡ None) }
        ensures answer { IfErr result (λ r. (story : Story) → (B.seen disk).told ≡ Some story → IsRefusal
            (no_opening (state_of story)) r.why) }
        ensures cause { IfErr result (λ r. NoOpening (B.seen disk) (B.seen r.disk) r.why) }
        ensures counts { IfOk result (λ engine. AreLater (B.seen disk) engine.disk) }
        ensures counts_left { IfErr result (λ r. AreLater (B.seen disk) (B.seen r.disk)) }
    {
        let mut disk = disk;
        match make_folders(&mut disk) {
            Ok(()) => Ok(BackupEngine {
                alloc,
                disk,
                metas: Vec::new(alloc),
                given: 0,
                halt: None,
            }),
            Err(why) => Err(EngineOpen { why, disk }),
        }
    }

    /// Makes a backup of a store's files that has no tables, whose last sequence is this one. Identifiers count from 1, and
    /// none is given twice: a refused call has used its identifier up, unless it was `Halted` or `IdsFull`.
    #[tactic(auto, using(crate::proofs::Refusals::refused_cause, crate::proofs::Refusals::halted_by))]
    pub fn create_plain<V: View>(
        &mut self,
        files: PlainFiles<V>,
        sequence: u64,
        now: u64,
    ) -> Result<BackupInfo, PlainRefusal<V>>
        requires log { IfSome files.log (λ file. IsTrue (is_file_number file.number)) }
        requires manifest { IsTrue (is_file_number files.manifest.number) }

        // The backup has the next identifier and the bytes of the files, where the views tell them, and from then on it
        // outlives each crash.
        ensures made { IfOk result (λ info. (meta : Meta) × (texts : List (List ℕ)) × AreTexts (views_of V.viewed files) texts
            × (meta ≡ plain_meta (self.old.given + 1) now sequence (file_names_of files) texts)
            × (info ≡ info_of meta) × (self.new.metas ≡ self.old.metas ++ meta ∷ [])
            × ((story : Story) → self.old.disk.told ≡ Some story
            → Went story self.new.disk.told (Creates (self.old.given + 1) (length (state_of story).files)) Anything
            (λ s. IsKeptBackup s meta texts))) }
        ensures given { OnOk result (self.new.given ≡ self.old.given + 1) }
        ensures going { OnOk result (self.new.halt ≡ None) }
        ensures metas { OnErr result (self.new.metas ≡ self.old.metas) }

        // Only this backup's own names are touched, and new files, whatever is answered.
        ensures went { (story : Story) → self.old.disk.told ≡ Some story
            → Went story self.new.disk.told (Creates (self.old.given + 1) (length (state_of story).files)) Anything Whatever }

        // Where no crash leaves a meta of the next identifier, each image on the way lists no such backup, or holds all of it,
        // whatever is answered.
        ensures crash { (story : Story) → self.old.disk.told ≡ Some story → IsKeptName (state_of story)
            (meta_path (self.old.given + 1)) None
            → Went story self.new.disk.told (Creates (self.old.given + 1) (length (state_of story).files))
            (NoneOrWhole (self.old.given + 1) now sequence (file_names_of files) (views_of V.viewed files)) Whatever }

        // The files are handed back as they were.
        ensures views { IfErr result (λ r. AreSameViews (views_of V.viewed files) (views_of V.viewed r.files)) }
        ensures names { IfErr result (λ r. file_names_of r.files ≡ file_names_of files) }
        ensures cause { IfErr result (λ r. HasRefused self.old self.new (faults_of (views_of V.viewed files))
            (faults_of (views_of V.viewed r.files)) r.why) }
        ensures counts { (self.old.disk.faults ≤ self.new.disk.faults) × (self.old.disk.refusals ≤ self.new.disk.refusals) }
        ensures rises { (self.old.given ≤ self.new.given) × (self.new.given ≤ self.old.given + 1) }

        // The identifiers of the backups that there were rise up to the greatest given one, and those that there are then.
        ensures order { RiseBetween 0 self.old.given self.old.metas × RiseBetween 0 self.new.given self.new.metas }

        // A halted engine makes none, and none is made after the last identifier: then nothing is changed.
        ensures halted { (first : Halt) → self.old.halt ≡ Some first → IfErr result (λ r. r.why ≡ errors.Halted first) }
        ensures full { self.old.halt ≡ None → self.old.given ≡ LAST_IDENTIFIER → IfErr result (λ r. r.why ≡ errors.IdsFull) }
        ensures ready { OnOk result ((self.old.halt ≡ None) × (self.old.given < LAST_IDENTIFIER)) }
        ensures left { IfErr result (λ r. IsLeftBy self.old self.new r.why) }
        ensures halt { IfErr result (λ r. HaltsBy self.old.halt self.new.halt r.why) }
    {
        let mut files = files;
        if let Some(first) = self.halt {
            return Err(PlainRefusal {
                why: EngineError::Halted { first },
                files,
            });
        }
        if self.given == LAST_IDENTIFIER {
            return Err(PlainRefusal {
                why: EngineError::IdsFull,
                files,
            });
        }
        self.given += 1;
        match create_kept(
            self.alloc,
            &mut self.disk,
            &mut self.metas,
            self.given,
            &mut files,
            sequence,
            now,
        ) {
            Ok(info) => Ok(info),
            Err(stop) => {
                self.halt = halt_of(&stop);
                Err(PlainRefusal {
                    why: error_of(&stop),
                    files,
                })
            }
        }
    }

    /// What the metas say, in the order of the identifiers.
    pub fn list(&self, alloc: Global) -> Result<Infos, EngineError>
        ensures told { IfOk result (λ infos. infos ≡ map info_of self.now.metas) }
        ensures order { RiseBetween 0 self.now.given self.now.metas }
        ensures cause { IfErr result (λ e. e ≡ errors.NoMemory) }
    {
        Ok(infos_of(alloc, &self.metas)?)
    }

    /// The disk, handed over.
    pub fn into_disk(self) -> B
        ensures { B.seen result ≡ self.disk }
    {
        self.disk
    }
}
