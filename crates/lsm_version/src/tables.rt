//! What an edit says of a table.
ghost use Rattle.std.specs.Prelude.{◌≡◌, IfOk};

use lsm_bytes::{Bytes, NoMemory};
use lsm_names::Session;
use std::alloc::Global;

/// A live table, as the manifest keeps it.
#[derive(Drop)]
pub struct TableInfo {
    /// The number in its file's name, from 1 to 2^56 - 2.
    pub number: u64,
    /// The session that wrote it.
    pub session: Session,
    /// The size of its file in bytes.
    pub size: u64,
    /// Its least internal key.
    pub smallest: Bytes,
    /// Its greatest internal key.
    pub largest: Bytes,
}

impl TableInfo {
    /// The same table, in memory of its own.
    pub fn copy(&self, alloc: Global) -> Result<Self, NoMemory>
        ensures { IfOk result (λ table. table ≡ self.now) }
    {
        Ok(TableInfo {
            number: self.number,
            session: self.session,
            size: self.size,
            smallest: self.smallest.copy(alloc)?,
            largest: self.largest.copy(alloc)?,
        })
    }
}

/// A table that an edit adds.
#[derive(Drop)]
pub struct Add {
    /// The level that it is added to, from 0 to 6.
    pub level: u8,
    pub table: TableInfo,
}

/// Where a table stands.
#[derive(Clone, Copy, Debug, Drop, PartialEq, Eq)]
pub struct Place {
    /// Its level, from 0 to 6.
    pub level: u8,
    /// The number in its file's name, from 1 to 2^56 - 2.
    pub number: u64,
}

/// A live table and its level, from 0 to 6.
#[derive(Drop)]
pub struct Placed {
    pub level: u8,
    pub info: TableInfo,
}
