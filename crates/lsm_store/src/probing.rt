//! Probes: a key's value, or the tables that tell it without the store.
ghost use Rattle.lsm_store.specs.Reading.{Probed, HasClosed};

use crate::reading::copy_in_memory;
use crate::store::Store;
use lsm_bytes::{Bytes, NoMemory};
use lsm_core::{Tables, close_looked, open_tables};
use lsm_disk::{Disk, View};
use lsm_model::StoreError;

/// What a probe for a key tells.
#[derive(Drop)]
pub enum Probe<V: View> {
    /// The value that the contents have at the key.
    Known(Option<Bytes>),
    /// The tables that may have the key, newest rows first. No row in memory has it.
    Look(Tables<V>),
}

impl<D: Disk> Store<D> {
    /// The value that the contents have at a key, where a row in memory has the key or no table is
    /// live; else the tables that may have it, opened with views of their own, so that
    /// [`look`](lsm_core::look) finds the value without the store. They are given back to
    /// `close_tables`. Where it is refused, none of them stays open.
    pub fn probe(&mut self, key: &[u8]) -> Result<Probe<D::View>, StoreError>
        ensures { Probed key.now self.old self.new result }
    {
        match copy_in_memory(self.alloc, &self.active, self.frozen.rows(), key) {
            Ok(Some(value)) => Ok(Probe::Known(value)),
            Ok(None) => {
                if self.catalog.has_no_table() {
                    return Ok(Probe::Known(None));
                }
                match open_tables(self.alloc, &mut self.disk, &self.home, &self.catalog, key) {
                    Ok(tables) => Ok(Probe::Look(tables)),
                    Err(refused) => Err(refused),
                }
            }
            Err(NoMemory) => Err(StoreError::NoMemory),
        }
    }

    /// Hands the views of the tables that a probe gave to the disk's `close`.
    pub fn close_tables(&mut self, tables: Tables<D::View>)
        ensures { HasClosed tables self.old self.new }
    {
        close_looked(&mut self.disk, tables);
    }
}
