//! The end of a store.
ghost use Rattle.std.specs.Prelude.{◌≡◌, Ok, Err, MatchResult};
ghost use Rattle.lsm_model.specs.declared.states.State.{State};
ghost use Rattle.lsm_refine.specs.Good.{Good};
ghost use Rattle.lsm_refine.specs.Moments.{ImagesShow};
ghost use Rattle.lsm_store.specs.Closing.{LeavesClosed, ClosedBy};

use crate::refused::error_of;
use crate::store::Store;
use crate::syncing::sync_file;
use lsm_core::close_tables;
use lsm_disk::Disk;
use lsm_model::StoreError;

/// Why a store isn't opened, or isn't closed with all writes durable. It hands the disk back.
pub struct OpenRefusal<D: Disk> {
    pub why: StoreError,
    pub disk: D,
}

impl<D: Disk> Store<D> {
    /// Ends the store: each view that it holds goes to the disk's `close`, also where the closing
    /// is then refused; all accepted batches are made durable; and the disk is handed back. Pins
    /// and disables end. It takes no memory, and is refused where the store is halted and where the
    /// disk fails.
    pub fn close(self) -> Result<D, OpenRefusal<D>>
        // It leads from whichever state the store was good for to one as which the next opening
        // finds the disk.
        ensures closes { (s : State) → Good self s → MatchResult result
            (λ disk. LeavesClosed s (Ok tt) (D.seen disk)) (λ refused. LeavesClosed s (Err refused.why) (D.seen refused.disk)) }

        // Each image of the disk on the way reads as a crash leaves the state before.
        ensures images { (s : State) → (good : Good self s) → MatchResult result
            (λ disk. ImagesShow good.story (D.seen disk).told s s)
            (λ refused. ImagesShow good.story (D.seen refused.disk).told s s) }

        ensures causes { MatchResult result
            (λ disk. ClosedBy self (Ok tt) (D.seen disk)) (λ refused. ClosedBy self (Err refused.why) (D.seen refused.disk)) }
    {
        let Store {
            alloc: _,
            mut disk,
            home: _,
            session: _,
            wal,
            log: _,
            older: _,
            older_len: _,
            active: _active,
            frozen: _frozen,
            sequence: _,
            next: _,
            known: _known,
            halt,
            manifest: _manifest,
            catalog,
            restoring: _restoring,
        } = self;
        close_tables(catalog, &mut disk);
        if let Some(first) = halt {
            return Err(OpenRefusal {
                why: StoreError::Halted { first },
                disk,
            });
        }
        match sync_file(&mut disk, wal.path()) {
            Ok(()) => Ok(disk),
            Err(refused) => Err(OpenRefusal {
                why: error_of(&refused),
                disk,
            }),
        }
    }

    /// Gives the store up, and hands its disk back at once, as it is.
    pub fn into_disk(self) -> D
        ensures { D.seen result ≡ self.disk }
    {
        let Store {
            alloc: _,
            disk,
            home: _,
            session: _,
            wal: _wal,
            log: _,
            older: _,
            older_len: _,
            active: _active,
            frozen: _frozen,
            sequence: _,
            next: _,
            known: _known,
            halt: _,
            manifest: _manifest,
            catalog: _catalog,
            restoring: _restoring,
        } = self;
        disk
    }
}
