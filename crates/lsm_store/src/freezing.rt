//! Freezing the rows in memory.
ghost use Rattle.std.specs.Prelude.{◌≡◌, ◌≤◌, ◌∷◌, ◌++◌, [], List};
ghost use Rattle.lsm_model.specs.declared.states.State.{State};
ghost use Rattle.lsm_model.specs.declared.events.Event.TheVariants as event;
ghost use Rattle.lsm_model.specs.declared.replies.Reply.TheVariants as reply;
ghost use Rattle.lsm_model.specs.Steps.{Step, Made, Asked};
ghost use Rattle.lsm_refine.specs.Good.{Good, Leads};
ghost use Rattle.lsm_refine.specs.Moments.{ImagesShow};
ghost use Rattle.lsm_refine.specs.Caused.{Caused};

use crate::refused::{error_of, halt_of};
use crate::store::Store;
use crate::syncing::sync_file;
use lsm_disk::Disk;
use lsm_memtable::MemTable;
use lsm_model::StoreError;
use lsm_names::FileName;
use lsm_wal::Wal;
use std::mem::replace;

// The next file's number where none is left: one past the last that there is.
const NUMBER_END: u64 = (1 << 56) - 1;

impl<D: Disk> Store<D> {
    /// Freezes the active rows, so that they can be flushed while new ones come, and says whether
    /// there were any and room for them: it answers false where no row is active, and where rows
    /// are frozen. The old log is synced, and new rows go to a new one.
    ///
    /// It is refused where the store is halted, where no file number is left, where memory is
    /// wanting, and where the disk fails.
    pub fn freeze(&mut self) -> Result<bool, StoreError>
        ensures step { (s : State) → Good self.old s
            → (t : State) × Step s event.Freeze (reply.Freeze result) t × Good self.new t }

        // Each image of the disk on the way reads as a crash leaves the state before.
        ensures images { (s : State) → (good : Good self.old s) → ImagesShow good.story self.new.disk.told s s }

        ensures causes { Caused self.old event.Freeze (reply.Freeze result) self.new }
        ensures leads { (start : State) (steps : List Made) → Leads start steps self.old
            → Leads start (steps ++ Asked event.Freeze (reply.Freeze result) ∷ []) self.new }
    {
        if let Some(first) = self.halt {
            return Err(StoreError::Halted { first });
        }
        if self.active.is_empty() {
            return Ok(false);
        }
        if !self.frozen.is_empty() {
            return Ok(false);
        }
        if self.next >= NUMBER_END {
            return Err(StoreError::NumbersFull { next: self.next });
        }
        let name = FileName::Log(self.next);
        let path = self.home.file(&name);
        if let Err(refused) = sync_file(&mut self.disk, self.wal.path()) {
            self.halt = halt_of(&refused);
            return Err(error_of(&refused));
        }
        let count = self.known.as_slice().len();
        let Ok(()) = self.known.push(name) else {
            return Err(StoreError::NoMemory);
        };
        match Wal::create(self.alloc, &mut self.disk, path) {
            Ok(wal) => {
                self.older_len = self.wal.len();
                self.older = Some(self.log);
                self.wal = wal;
                self.log = self.next;
                self.next += 1;
                let rows = replace(&mut self.active, MemTable::new(self.alloc));
                self.frozen.hold(rows);
                Ok(true)
            }
            Err(refused) => {
                self.known.truncate(count);
                self.halt = halt_of(&refused);
                Err(error_of(&refused))
            }
        }
    }
}
