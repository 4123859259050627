//! Readings of a store's contents. They change nothing, and go on where the store is halted.
ghost use Rattle.std.specs.Prelude.{◌≡◌, ◌∷◌, ◌++◌, [], List, Some, IfOk};
ghost use Rattle.lsm_rows.specs.Contents.{value_of};
ghost use Rattle.lsm_model.specs.declared.states.State.{State};
ghost use Rattle.lsm_model.specs.declared.events.Event.TheVariants as event;
ghost use Rattle.lsm_model.specs.declared.replies.Reply.TheVariants as reply;
ghost use Rattle.lsm_model.specs.Steps.{Step, Made, Asked};
ghost use Rattle.lsm_refine.specs.Good.{Good, Leads};
ghost use Rattle.lsm_refine.specs.Moments.{ImagesShow};
ghost use Rattle.lsm_refine.specs.Caused.{Caused};
ghost use Rattle.lsm_store.specs.Reading.{value_in_memory};

use crate::store::Store;
use lsm_bytes::{Bytes, NoMemory};
use lsm_core::find_row;
use lsm_disk::Disk;
use lsm_memtable::MemTable;
use lsm_model::StoreError;
use lsm_rows::Row;
use std::alloc::Global;

// A copy of what a row gives its key.
fn copy_value(alloc: Global, row: &Row) -> Result<Option<Bytes>, NoMemory>
    ensures { IfOk result (λ value. value ≡ row.now.value) }
{
    match &row.value {
        Some(value) => Ok(Some(value.copy(alloc)?)),
        None => Ok(None),
    }
}

/// A copy of what the key's newest row in memory gives it. None where no row in memory has the key.
pub(crate) fn copy_in_memory(
    alloc: Global,
    active: &MemTable,
    frozen: &MemTable,
    key: &[u8],
) -> Result<Option<Option<Bytes>>, NoMemory>
    ensures { IfOk result (λ value. value ≡ value_in_memory active.now frozen.now key.now) }
{
    if let Some(row) = active.get(key) {
        return Ok(Some(copy_value(alloc, row)?));
    }
    match frozen.get(key) {
        Some(row) => Ok(Some(copy_value(alloc, row)?)),
        None => Ok(None),
    }
}

// What a row gives its key.
fn value_of(row: Option<Row>) -> Option<Bytes>
    ensures { result ≡ value_of row }
{
    match row {
        Some(row) => row.value,
        None => None,
    }
}

impl<D: Disk> Store<D> {
    /// The value that the contents have at a key; None exactly where they have no such key.
    ///
    /// Rows in memory are looked at first, and then the tables whose ranges of keys have the key,
    /// of which at most one data block each is read. A table that isn't open is opened. A table
    /// that can't be read refuses the call, as do the disk's fault and want of memory.
    pub fn get(&mut self, key: &[u8]) -> Result<Option<Bytes>, StoreError>
        ensures step { (s : State) → Good self.old s → (t : State) × Step s (event.Get key.now) (reply.Get result) t × Good
            self.new t }

        // Each image of the disk on the way reads as a crash leaves the state before.
        ensures images { (s : State) → (good : Good self.old s) → ImagesShow good.story self.new.disk.told s s }

        ensures causes { Caused self.old (event.Get key.now) (reply.Get result) self.new }
        ensures leads { (start : State) (steps : List Made) → Leads start steps self.old
            → Leads start (steps ++ Asked (event.Get key.now) (reply.Get result) ∷ []) self.new }
    {
        match copy_in_memory(self.alloc, &self.active, self.frozen.rows(), key) {
            Ok(Some(value)) => Ok(value),
            Ok(None) => {
                match find_row(
                    self.alloc,
                    &mut self.disk,
                    &self.home,
                    &mut self.catalog,
                    key,
                ) {
                    Ok(row) => Ok(value_of(row)),
                    Err(refused) => Err(refused),
                }
            }
            Err(NoMemory) => Err(StoreError::NoMemory),
        }
    }
}
