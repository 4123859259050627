//! A store as the place of a restored folder, on its own disk.
use crate::store::Store;
use lsm_dest::Building;
use lsm_disk::{Dest, DestError, Disk};
use lsm_names::{FileName, Folder};

/// A backup is restored beside the store's own folder, while the store is open. Each call is a step
/// of the abstract store, which lists the new folder from its beginning on, and as sure once it is
/// finished. A disk call that fails halts the store.
///
/// The store after comes from the store before by a run of calls, for whichever state it was good;
/// and each image of the disk on the way reads as a crash leaves one of the states of that run.
impl<D: Disk> Dest for Store<D> {
    ghost use Rattle.lsm_restoring.specs.Calls.{dest_of, LeadsOn};
    ghost use Rattle.lsm_restoring.proofs.RestoreRuns.{leads_nowhere};

    ghost seen = { dest_of };

    ghost leads = { LeadsOn };

    ghost stays = { leads_nowhere };

    fn begin(&mut self, dir: &Folder) -> Result<(), DestError> {
        let _name = dir.as_bytes();
        self.disk.begin_in(&mut self.restoring, &mut self.halt, dir)
    }

    fn file(&mut self, name: &FileName) -> Result<(), DestError> {
        self.disk.file_in(&mut self.restoring, &mut self.halt, name)
    }

    fn append(&mut self, bytes: &[u8]) -> Result<(), DestError> {
        self.disk
            .append_in(&mut self.restoring, &mut self.halt, bytes)
    }

    fn seal(&mut self) -> Result<(), DestError> {
        self.disk.seal_in(&mut self.restoring, &mut self.halt)
    }

    fn finish(&mut self, current: &[u8]) -> Result<(), DestError> {
        self.disk
            .finish_in(&mut self.restoring, &mut self.halt, current)
    }
}
