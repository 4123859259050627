//! The backups behind a run. No engine is opened before the first command that asks for backups.
ghost use Rattle.std.specs.Prelude.{◌≡◌, List, ℕ, Option, None, IsTrue, IsSome, IfSome, IfOk, IfErr, option_map};
ghost use Rattle.lsm_names.specs.FileNames.{is_file_number};
ghost use Rattle.lsm_disk.specs.State.{Story};
ghost use Rattle.bk_engine.specs.Creating.{file_names_of};
ghost use Rattle.bk_engine.specs.Preparing.{views_of, faults_of};
ghost use Rattle.bk_engine.specs.declared.errors.EngineError.TheVariants as errors;
ghost use Rattle.ldb_script.specs.Backing.{OpensOr, ArePlain, IsCreated, UncreatedBy};
ghost use Rattle.ldb_script.specs.Opening.{SeenStay, ByOneLine};
ghost use Rattle.ldb_script.specs.Plain.{Plain, Outcome};
ghost use Rattle.ldb_script.specs.Printed.{infos_text, list_text};
ghost use Rattle.ldb_script.specs.Restoring.{RestoresOr};
ghost use Rattle.ldb_script.specs.Stored.{Stands};
ghost use Rattle.ldb_script.specs.Vaults.{Backs};

use crate::place::{Place, put};
use bk_engine::{
    BackupEngine, BackupInfo, EngineError, EngineOpen, Infos, PlainFiles, PlainRefusal,
};
use lsm_disk::{Disk, View};
use lsm_names::Folder;
use std::alloc::Global;
use std::marker::Model;

/// The backups' disk, or the engine that owns it.
pub enum Held<B: Disk> {
    Disk(B),
    Engine(BackupEngine<B>),
}

/// The backups behind a run. Contracts see what is seen of their disk, and of the engine where it is opened.
pub struct Backups<B: Disk> {
    alloc: Global,
    held: Option<Held<B>>,
}

impl<B: Disk> Model for Backups<B> {
    ghost use Rattle.std.specs.Prelude.{IsTrue, is_some};
    ghost use Rattle.ldb_script.specs.Vaults.{Vault, vault_of, coded_vault};

    ghost Value = { Vault };

    ghost coded = { coded_vault };

    ghost view = { λ b. vault_of B.seen b.held };

    ghost invariant = { λ b. IsTrue (is_some b.held) };
}

impl<B: Disk> Backups<B> {
    /// No engine is opened over the disk.
    pub fn new(alloc: Global, disk: B) -> Self
        ensures disk { result.disk ≡ B.seen disk }
        ensures engine { result.engine ≡ None }
    {
        Backups {
            alloc,
            held: Some(Held::Disk(disk)),
        }
    }

    /// Opens the engine where none is opened yet.
    pub fn open(&mut self) -> Result<(), EngineError>
        ensures opened { (start : Option Story) (plain : Plain)
            → (IsTrue plain.start.tells → IsSome start) → Backs start self.old plain
            → OpensOr start self.old self.new plain result }
        ensures engine { IfOk result (λ done. IsSome self.new.engine) }
        ensures counts { SeenStay self.old.disk self.new.disk }
    {
        match self.held.take() {
            Some(Held::Disk(disk)) => match BackupEngine::open(self.alloc, disk) {
                Ok(engine) => {
                    put(&mut self.held, Held::Engine(engine));
                    Ok(())
                }
                Err(EngineOpen { why, disk }) => {
                    put(&mut self.held, Held::Disk(disk));
                    Err(why)
                }
            },
            Some(Held::Engine(engine)) => {
                put(&mut self.held, Held::Engine(engine));
                Ok(())
            }
            None => unreachable!(),
        }
    }

    /// Makes a backup of a store's files, whose last sequence is this one. The engine is opened. After a refusal but that no
    /// identifier is left, the backups are not used again.
    pub fn create<V: View>(
        &mut self,
        files: PlainFiles<V>,
        sequence: u64,
        now: u64,
    ) -> Result<BackupInfo, PlainRefusal<V>>
        requires engine { IsSome self.old.engine }
        requires log { IfSome files.log (λ file. IsTrue (is_file_number file.number)) }
        requires manifest { IsTrue (is_file_number files.manifest.number) }
        ensures created { IfOk result (λ info. (start : Option Story) (plain : Plain)
            (left : Option (List ℕ))
            → Backs start self.old plain → sequence ≡ plain.sequence
            → (IsTrue plain.start.tells
            → ArePlain plain (file_names_of files) (views_of V.viewed files))
            → IsCreated start self.new plain now left info) }
        ensures refused { IfErr result (λ r. (start : Option Story) (plain : Plain)
            → Backs start self.old plain
            → UncreatedBy self.old self.new plain (faults_of (views_of V.viewed r.files)) r.why) }
        ensures counts { SeenStay self.old.disk self.new.disk }
    {
        match &mut self.held {
            Some(Held::Engine(engine)) => engine.create_plain(files, sequence, now),
            _ => unreachable!(),
        }
    }

    /// What is told of the backups. The engine is opened.
    pub fn list(&self) -> Result<Infos, EngineError>
        requires engine { IsSome self.now.engine }
        ensures told { IfOk result (λ infos. (start : Option Story) (plain : Plain)
            → Backs start self.now plain → infos_text infos ≡ list_text plain.backups) }
        ensures cause { IfErr result (λ e. e ≡ errors.NoMemory) }
    {
        match &self.held {
            Some(Held::Engine(engine)) => engine.list(self.alloc),
            _ => unreachable!(),
        }
    }

    /// Restores the backup of this identifier into a new folder of the store's disk, and gives the sequence number that the
    /// folder has. The engine is opened.
    pub fn restore<D: Disk>(
        &mut self,
        place: &mut Place<D>,
        id: u32,
        name: &Folder,
    ) -> Result<u64, EngineError>
        requires engine { IsSome self.old.engine }
        ensures restored { (start backups : Option Story) (outcome : Outcome)
            → Stands start place.old outcome → Backs backups self.old outcome.after
            → RestoresOr start place.old place.new self.old.disk self.new.disk outcome id name.now
            result }
        ensures kept { (start : Option Story) (plain : Plain) → Backs start self.old plain → Backs start self.new plain }
        ensures counts { SeenStay self.old.disk self.new.disk }
        ensures line { ByOneLine place.old place.new }
    {
        match &mut self.held {
            Some(Held::Engine(engine)) => place.restore(engine, id, name),
            _ => unreachable!(),
        }
    }

    /// Hands the disk back.
    pub fn into_disk(self) -> B
        ensures { B.seen result ≡ self.disk }
    {
        let Backups { alloc: _, held } = self;
        match held {
            Some(Held::Disk(disk)) => disk,
            Some(Held::Engine(engine)) => engine.into_disk(),
            None => unreachable!(),
        }
    }
}
