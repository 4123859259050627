//! Where a run keeps its store.
ghost use Rattle.std.specs.Prelude.{◌≡◌, Option, Some, None};
ghost use Rattle.lsm_disk.specs.State.{Story};
ghost use Rattle.ldb_script.specs.Opening.{SeenStay, ByOneLine};
ghost use Rattle.ldb_script.specs.Plain.{Outcome};
ghost use Rattle.ldb_script.specs.Restoring.{RestoresOr};
ghost use Rattle.ldb_script.specs.Stored.{Stands};
ghost use Rattle.ldb_script.specs.Vaults.{Keeps};

use crate::store::Store;
use bk_engine::{BackupEngine, EngineError};
use lsm_disk::Disk;
use lsm_names::Folder;
use std::marker::Model;

/// The place of a run's store. A restore takes the store out and puts it back. Contracts see the place as its store.
pub struct Place<D: Disk> {
    pub(crate) store: Option<Store<D>>,
}

impl<D: Disk> Model for Place<D> {
    ghost use Rattle.std.specs.Prelude.{IsTrue, is_some};
    ghost use Rattle.ldb_script.specs.Place.{shown_in};
    ghost use Rattle.ldb_script.specs.Stored.{Shown, coded_shown};

    ghost Value = { Shown };

    ghost coded = { coded_shown };

    ghost view = { λ p. shown_in p.store };

    ghost invariant = { λ p. IsTrue (is_some p.store) };
}

// Puts a value where none is.
pub(crate) fn put<T>(place: &mut Option<T>, value: T)
    requires { place.old ≡ None }
    ensures { place.new ≡ Some value }
{
    match place.replace(value) {
        None => {}
        Some(_) => unreachable!(),
    }
}

impl<D: Disk> Place<D> {
    pub fn new(store: Store<D>) -> Self
        ensures { result ≡ store }
    {
        Place { store: Some(store) }
    }

    /// Restores a backup of an engine into the new folder of this name beside the store, and gives the sequence number that
    /// the folder has. A name that is the store's own is taken.
    pub fn restore<B: Disk>(
        &mut self,
        engine: &mut BackupEngine<B>,
        id: u32,
        name: &Folder,
    ) -> Result<u64, EngineError>
        ensures restored { (start backups : Option Story) (outcome : Outcome)
            → Stands start self.old outcome → Keeps backups engine.old.disk engine.old outcome.after
            → RestoresOr start self.old self.new engine.old.disk engine.new.disk outcome id name.now
            result }
        ensures told { engine.new.disk.told ≡ engine.old.disk.told }
        ensures metas { engine.new.metas ≡ engine.old.metas }
        ensures given { engine.new.given ≡ engine.old.given }
        ensures halt { engine.new.halt ≡ engine.old.halt }
        ensures vault { SeenStay engine.old.disk engine.new.disk }
        ensures line { ByOneLine self.old self.new }
    {
        match self.store.take() {
            Some(store) => {
                let (store, result) = store.restore(engine, id, name);
                put(&mut self.store, store);
                result
            }
            None => unreachable!(),
        }
    }

    /// Hands the disk back.
    pub fn into_disk(self) -> D
        ensures { D.seen result ≡ self.disk }
    {
        let Place { store } = self;
        match store {
            Some(store) => store.into_disk(),
            None => unreachable!(),
        }
    }
}
