//! The store and its calls.
ghost use Rattle.std.specs.Prelude.{◌≡◌, ◌≤◌, ◌∷◌, ◌++◌, [], List, length};
ghost use Rattle.lsm_model.specs.declared.states.State.{State};
ghost use Rattle.lsm_model.specs.declared.events.Event.TheVariants as event;
ghost use Rattle.lsm_model.specs.declared.replies.Reply.TheVariants as reply;
ghost use Rattle.lsm_model.specs.Steps.{Step, Made, Asked};
ghost use Rattle.lsm_refine.specs.Good.{Good, Leads};
ghost use Rattle.lsm_model.specs.Writes.{doubting};
ghost use Rattle.lsm_refine.specs.Moments.{ImagesShow};
ghost use Rattle.lsm_refine.specs.Caused.{Caused};

use crate::refused::{error_of, halt_of};
use crate::syncing::sync_file;
use lsm_core::Catalog;
use lsm_dest::Restoring;
use lsm_disk::{Disk, Halt};
use lsm_flush::Frozen;
use lsm_manifest::Manifest;
use lsm_memtable::MemTable;
use lsm_model::StoreError;
use lsm_names::{FileName, Folder, Session};
use lsm_rows::Batch;
use lsm_wal::Wal;
use std::alloc::Global;
use std::marker::Model;

// The last sequence that there is.
const LAST_SEQUENCE: u64 = (1 << 56) - 1;

// A log has fewer bytes than this.
const LOG_LIMIT: u64 = 1 << 63;

/// A store over a disk, which it owns. Contracts see what is seen of the disk, the store's folder,
/// what the store keeps of itself, and the disk call that halted it.
///
/// A disk call that fails, or that is refused as only somebody else's change of the disk can
/// explain, halts the store. From then on each call that would change the disk is refused by
/// `Halted`, until the folder is opened again.
pub struct Store<D: Disk> {
    pub(crate) alloc: Global,
    pub(crate) disk: D,
    pub(crate) home: Folder,
    pub(crate) session: Session,
    pub(crate) wal: Wal,
    pub(crate) log: u64,
    pub(crate) older: Option<u64>,
    pub(crate) older_len: u64,
    pub(crate) active: MemTable,
    pub(crate) frozen: Frozen,
    pub(crate) sequence: u64,
    pub(crate) next: u64,
    pub(crate) known: Vec<FileName>,
    pub(crate) halt: Option<Halt>,
    pub(crate) manifest: Manifest,
    pub(crate) catalog: Catalog<D::View>,
    pub(crate) restoring: Restoring,
}

impl<D: Disk> Model for Store<D> {
    ghost use Rattle.lsm_refine.specs.Kept.{Shown};
    ghost use Rattle.lsm_refine.specs.Codes.{coded_shown};
    ghost use Rattle.lsm_store.specs.Fields.{inner};
    ghost use Rattle.lsm_store.specs.Inside.{IsInside, shown_of};

    ghost Value = { Shown };

    ghost coded = { coded_shown };

    ghost view = { λ s. shown_of (inner D.seen s) };

    ghost invariant = { λ s. IsInside (inner D.seen s) };
}

impl<D: Disk> Store<D> {
    /// Adds a batch, and gives the last sequence. With `sync` all accepted batches outlive each
    /// crash from then on. After a fault of the disk the batch may be there or not when the folder
    /// is opened again.
    ///
    /// It is refused where the store is halted, where the batch would pass the last sequence that
    /// there is, where memory is wanting or the rows in memory are as many as may be, and where the
    /// disk fails.
    pub fn write(&mut self, batch: &Batch, sync: bool) -> Result<u64, StoreError>
        requires some { 1 ≤ length batch.now }

        // The answer is a step of the abstract store, for whichever state the store was good, and
        // the store is good behind it.
        ensures step { (s : State) → Good self.old s
            → (t : State) × Step s (event.Write batch.now sync) (reply.Write result) t × Good self.new t }

        // Each image of the disk on the way reads as a crash leaves the state before, or the state
        // where the batch is doubtful.
        ensures images { (s : State) → (good : Good self.old s)
            → ImagesShow good.story self.new.disk.told s (doubting batch.now s) }

        ensures causes { Caused self.old (event.Write batch.now sync) (reply.Write result) self.new }
        ensures leads { (start : State) (steps : List Made) → Leads start steps self.old
            → Leads start (steps ++ Asked (event.Write batch.now sync) (reply.Write result) ∷ []) self.new }
    {
        if let Some(first) = self.halt {
            return Err(StoreError::Halted { first });
        }
        let count = batch.len() as u64;
        if count > LAST_SEQUENCE - self.sequence {
            return Err(StoreError::SequenceFull {
                last: self.sequence,
                count: count as u32,
            });
        }
        if self.wal.len() >= LOG_LIMIT {
            return Err(StoreError::NoMemory);
        }
        let first = self.sequence + 1;
        let Ok(()) = self.active.add(first, batch) else {
            return Err(StoreError::NoMemory);
        };
        match self.wal.append(&mut self.disk, first, batch, sync) {
            Ok(()) => {
                self.sequence += count;
                Ok(self.sequence)
            }
            Err(refused) => {
                self.active.take_back(first);
                self.halt = halt_of(&refused);
                Err(error_of(&refused))
            }
        }
    }

    /// All accepted batches outlive each crash from then on. It takes no memory, and is refused
    /// where the store is halted and where the disk fails.
    pub fn sync_log(&mut self) -> Result<(), StoreError>
        ensures step { (s : State) → Good self.old s
            → (t : State) × Step s event.SyncLog (reply.SyncLog result) t × Good self.new t }

        // Each image of the disk on the way reads as a crash leaves the state before.
        ensures images { (s : State) → (good : Good self.old s) → ImagesShow good.story self.new.disk.told s s }

        ensures causes { Caused self.old event.SyncLog (reply.SyncLog result) self.new }
        ensures leads { (start : State) (steps : List Made) → Leads start steps self.old
            → Leads start (steps ++ Asked event.SyncLog (reply.SyncLog result) ∷ []) self.new }
    {
        if let Some(first) = self.halt {
            return Err(StoreError::Halted { first });
        }
        match sync_file(&mut self.disk, self.wal.path()) {
            Ok(()) => Ok(()),
            Err(refused) => {
                self.halt = halt_of(&refused);
                Err(error_of(&refused))
            }
        }
    }
}
