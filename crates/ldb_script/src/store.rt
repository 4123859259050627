//! A store of one log: its pairs in memory, and each accepted batch as one record of the log.
//! It is opened in a folder that it makes, and never over one that it finds.
ghost use Rattle.std.specs.Prelude.{◌≡◌, ◌≤◌, ◌<◌, ◌+◌, ◌^◌, ℕ, List, Option, length, OnOk, IfOk, IfErr, IfSome, IsTrue};
ghost use Rattle.std.specs.Option.{option_map};
ghost use Rattle.std.specs.FinMap as finite;
ghost use Rattle.lsm_disk.specs.State.{Story};
ghost use Rattle.ldb_script.specs.declared.store.StoreError.TheVariants as store_errors;

use crate::files::{close_files, open_files};
use crate::listing::scan_text;
use crate::opening::{OpenError, make_new};
use crate::restoring::{refuse_name, restore_onto};
use bk_engine::{BackupEngine, EngineError, PlainFiles};
use lsm_bytes::{Bytes, NoMemory};
use lsm_disk::{Disk, DiskCall, DiskError, DiskRefusal};
use lsm_names::{Folder, Path};
use lsm_recover::{FolderError, Found, read_folder};
use lsm_rows::{Batch, Pairs};
use lsm_wal::Wal;
use std::alloc::Global;
use std::marker::Model;

/// A refused opening, which hands the disk back.
pub struct OpenRefusal<D> {
    pub why: OpenError,
    pub disk: D,
}

/// Why a call of an opened store was refused. The store is not used again then.
#[derive(Clone, Copy)]
pub enum StoreError {
    /// The disk failed. A batch that was being written may stand in the log.
    DiskFault,
    /// The disk refused this call, though the log stood there.
    Changed { call: DiskCall, path: Path },
    NoMemory,
}

impl From<NoMemory> for StoreError {
    ghost from_gives = { λ _ e. e ≡ store_errors.NoMemory };

    fn from(_: NoMemory) -> Self {
        StoreError::NoMemory
    }
}

/// A store over a disk, which it owns, in a folder of its own. Contracts see what is seen of the disk, the log's path and length, the pairs, and
/// the last sequence.
pub struct Store<D: Disk> {
    alloc: Global,
    disk: D,
    home: Folder,
    wal: Wal,
    pairs: Pairs,
    sequence: u64,
}

impl<D: Disk> Model for Store<D> {
    ghost use Rattle.std.specs.Prelude.{◌≡◌};
    ghost use Rattle.ldb_script.specs.Stored.{Shown, coded_shown, log_path};

    ghost Value = { Shown };

    ghost coded = { coded_shown };

    ghost view = { λ s. record { disk = D.seen s.disk; log = s.wal.path; len = s.wal.len; contents = s.pairs; sequence = s.sequence } };

    ghost invariant = { λ s. s.wal.path ≡ log_path s.home };
}

ghost use Rattle.ldb_script.specs.Printed.{scan_text};
ghost use Rattle.ldb_script.specs.Opening.{SeenStay, store_error};

// A disk's refusal of a call that an opened store made.
pub(crate) fn store_refused(call: DiskCall, path: &Path, error: DiskError) -> StoreError
    ensures { result ≡ store_error call path.now error }
{
    match error {
        DiskError::Fault => StoreError::DiskFault,
        DiskError::NoMemory => StoreError::NoMemory,
        DiskError::NotThere
        | DiskError::Exists
        | DiskError::NoLinks
        | DiskError::NotEmpty
        | DiskError::Short { .. } => StoreError::Changed { call, path: *path },
    }
}

impl<D: Disk> Store<D> {
    ghost use Rattle.std.specs.Prelude.{[]};
    ghost use Rattle.lsm_recover.specs.Causes.{HasFolderCause};
    ghost use Rattle.ldb_script.specs.Plain.{Outcome, standing_of};
    ghost use Rattle.ldb_script.specs.Stored.{Stands};
    ghost use Rattle.ldb_script.specs.Opening.{IsOpened, IsUnopened, HasRoom, ByOneLine, Writes, Syncs, ReadsAs, IsBroken, IsUntouched};
    ghost use Rattle.ldb_script.specs.Files.{HasFiles};
    ghost use Rattle.ldb_script.specs.Vaults.{Keeps};
    ghost use Rattle.ldb_script.specs.Restoring.{RestoresOr};
    ghost use Rattle.lsm_io.specs.Causes.{Rose};
    ghost use Rattle.lsm_names.specs.FileNames.{is_file_number};
    ghost use Rattle.bk_engine.specs.Creating.{file_names_of};
    ghost use Rattle.bk_engine.specs.Preparing.{views_of, faults_of};

    /// A store in a new folder of this name, with a manifest, `CURRENT` and an empty log. The folder's name is free before,
    /// or the opening is refused. A refused opening leaves what it made.
    pub fn open(alloc: Global, mut disk: D, folder: &Folder) -> Result<Store<D>, OpenRefusal<D>>
        ensures opened { IfOk result (λ store. IsOpened folder.now (D.seen disk) store) }
        ensures refused { IfErr result (λ refusal. IsUnopened folder.now (D.seen disk) (D.seen refusal.disk) refusal.why) }
        ensures counts { IfOk result (λ store. SeenStay (D.seen disk) store.disk) }
        ensures counts_refused { IfErr result (λ refusal. SeenStay (D.seen disk) (D.seen refusal.disk)) }
    {
        match make_new(alloc, &mut disk, folder) {
            Ok(wal) => Ok(Store {
                alloc,
                disk,
                home: *folder,
                wal,
                pairs: Pairs::new(alloc),
                sequence: 0,
            }),
            Err(why) => Err(OpenRefusal { why, disk }),
        }
    }

    /// Writes a batch, and gives the sequence of its last operation, which is the last one then. With `sync` the batch
    /// and those before it outlive each crash from then on. After a refusal the store is not used again.
    pub fn write(&mut self, batch: &Batch, sync: bool) -> Result<u64, StoreError>
        requires some { 1 ≤ length batch.now }
        requires room { HasRoom self.old }
        ensures writes { (start : Option Story) (outcome : Outcome) → Stands start self.old outcome
            → Writes start self.old self.new outcome batch.now sync result }
        ensures line { ByOneLine self.old self.new }
    {
        let last = self.sequence + batch.len() as u64;
        match self
            .wal
            .append(&mut self.disk, self.sequence + 1, batch, sync)
        {
            Ok(()) => {}
            Err(DiskRefusal { at, why }) => return Err(store_refused(at.call, &at.path, why)),
        }
        self.pairs.apply_all(batch.ops())?;
        self.sequence = last;
        Ok(last)
    }

    /// Makes all batches outlive each crash. After a refusal the store is not used again.
    pub fn sync(&mut self) -> Result<(), StoreError>
        ensures syncs { (start : Option Story) (outcome : Outcome) → Stands start self.old outcome
            → Syncs start self.old self.new outcome result }
        ensures line { ByOneLine self.old self.new }
    {
        let log = *self.wal.path();
        if let Err(error) = self.disk.sync(&log) {
            return Err(store_refused(DiskCall::Sync, &log, error));
        }
        Ok(())
    }

    /// What the folder of this name on the store's disk holds now, read from the disk. It writes nothing.
    pub fn show(&mut self, name: &Folder) -> Result<Found, FolderError>
        ensures stands { (start : Option Story) (outcome : Outcome) → Stands start self.old outcome → Stands start self.new outcome }
        ensures shown { (start : Option Story) (outcome : Outcome) → Stands start self.old outcome
            → ReadsAs (standing_of outcome.after name.now) result }
        ensures cause { HasFolderCause name.now self.old.disk self.new.disk result }
        ensures line { ByOneLine self.old self.new }
    {
        prove!(name.as_bytes().len() <= 64);
        read_folder(self.alloc, &mut self.disk, &name.path())
    }

    /// Views of the store's files, for a backup: the log, where it isn't empty, `CURRENT` and the manifest, each whole. It
    /// writes nothing, and the views have had no fault. After a refusal the store is not used again.
    pub fn files(&mut self) -> Result<PlainFiles<D::View>, StoreError>
        ensures stands { (start : Option Story) (outcome : Outcome) → Stands start self.old outcome → Stands start self.new outcome }
        ensures views { IfOk result (λ files. (start : Option Story) (outcome : Outcome)
            → Stands start self.old outcome
            → HasFiles start outcome.accepted
            (file_names_of files) (views_of D.View.viewed files)) }
        ensures fresh { IfOk result (λ files. faults_of (views_of D.View.viewed files) ≡ 0) }
        ensures log { IfOk result (λ files. IfSome files.log (λ file. IsTrue (is_file_number file.number))) }
        ensures manifest { IfOk result (λ files. IsTrue (is_file_number files.manifest.number)) }
        ensures refused { IfErr result (λ error. (start : Option Story) (outcome : Outcome)
            → Stands start self.old outcome → IsBroken start self.old self.new error) }
        ensures line { ByOneLine self.old self.new }
    {
        let files = open_files(&mut self.disk, &self.home, self.wal.path(), self.wal.len())?;
        Ok(files)
    }

    /// Takes views of files back. One that had a fault raises the disk's count of faults.
    pub fn take_back(&mut self, files: PlainFiles<D::View>)
        ensures stands { (start : Option Story) (outcome : Outcome) → Stands start self.old outcome → Stands start self.new outcome }
        ensures faults { 0 < faults_of (views_of D.View.viewed files)
            → Rose self.old.disk.faults self.new.disk.faults }
        ensures untouched { IsUntouched self.old self.new }
        ensures counts { SeenStay self.old.disk self.new.disk }
    {
        close_files(&mut self.disk, files);
    }

    /// Restores a backup of an engine into the new folder of this name beside the store, and gives the sequence number of
    /// its store. A name that is the store's own is taken. After a fault or want of memory the store is not used again.
    pub fn restore<B: Disk>(
        self,
        engine: &mut BackupEngine<B>,
        id: u32,
        name: &Folder,
    ) -> (Store<D>, Result<u64, EngineError>)
        ensures restored { (start backups : Option Story) (outcome : Outcome)
            → Stands start self outcome → Keeps backups engine.old.disk engine.old outcome.after
            → RestoresOr start self result.0 engine.old.disk engine.new.disk outcome id name.now
            result.1 }
        ensures told { engine.new.disk.told ≡ engine.old.disk.told }
        ensures metas { engine.new.metas ≡ engine.old.metas }
        ensures given { engine.new.given ≡ engine.old.given }
        ensures halt { engine.new.halt ≡ engine.old.halt }
        ensures vault { SeenStay engine.old.disk engine.new.disk }
        ensures line { ByOneLine self result.0 }
    {
        if name.as_bytes() == self.home.as_bytes() {
            let why = refuse_name(self.alloc, engine, id, name);
            return (self, Err(why));
        }
        let Store {
            alloc,
            disk,
            home,
            wal,
            pairs,
            sequence,
        } = self;
        let (disk, result) = restore_onto(alloc, disk, engine, id, name);
        (
            Store {
                alloc,
                disk,
                home,
                wal,
                pairs,
                sequence,
            },
            result,
        )
    }

    /// The value of a key.
    pub fn get(&self, key: &[u8]) -> Option<&[u8]>
        ensures { option_map (λ value. value.now) result ≡ finite.get self.now.contents key.now }
    {
        self.pairs.get(key)
    }

    /// The last sequence.
    pub fn sequence(&self) -> u64
        ensures { result ≡ self.now.sequence }
    {
        self.sequence
    }

    /// How many keys have a value.
    pub fn count(&self) -> usize
        ensures { result ≡ length (finite.entries self.now.contents) }
    {
        self.pairs.count()
    }

    /// The text of a scan: a line for each pair, in the order of the keys, and how many there are.
    pub fn scan(&self) -> Result<Bytes, NoMemory>
        ensures { IfOk result (λ text. text ≡ scan_text (finite.entries self.now.contents)) }
    {
        scan_text(self.alloc, &self.pairs)
    }

    /// Hands the disk back.
    pub fn into_disk(self) -> D
        ensures { D.seen result ≡ self.disk }
    {
        let Store {
            alloc: _,
            disk,
            home: _,
            wal: _,
            pairs: _,
            sequence: _,
        } = self;
        disk
    }
}
