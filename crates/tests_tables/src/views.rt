//! A table's text in memory, and the table of one row as another writer writes it.
ghost use Rattle.std.specs.Prelude.{Some, length};

use crate::claims::Stopped;
use lsm_bytes::Bytes;
use lsm_disk::{View, ViewFault};
use lsm_names::Session;
use lsm_table::{Table, TableError, TableFault};
use std::alloc::Global;

/// The block of the one row `a` with the sequence 1 and the value `1`.
pub const ONE_BLOCK: &[u8; 21] = b"\0\x09\x01a\x01\x01\0\0\0\0\0\01\0\0\0\0\x01\0\0\0";

/// The table with the number 4 of that row.
pub const ONE_TABLE: &[u8; 130] =
    b"\0\x09\x01a\x01\x01\0\0\0\0\0\01\0\0\0\0\x01\0\0\0\0\x82~\xf9:\0\x09\x02a\x01\x01\0\
        \0\0\0\0\0\0\x15\0\0\0\0\x01\0\0\0\06I%\xbf\x04\0\0\0\0\0\0\00123456789ABCDEFGHIJ\
        \x01\0\0\0\0\0\0\0\0\xea\x1d04\x1a\0\0\0\0\0\0\0\x16\0\0\0\0\0\0\05\0\0\0\0\0\0\0\
        \xdb\xab\x89Rlsmtabl1";

/// A text to be read, which counts its reads. Each read fails where it is broken.
#[derive(Drop)]
pub struct TextView {
    pub bytes: Vec<u8>,
    pub broken: bool,
    pub faults: u64,
    pub reads: u64,
}

impl View for TextView {
    ghost viewed = { λ v. record { bytes = Some v.bytes.items; len = length v.bytes.items; faults = v.faults } };

    fn len(&self) -> u64 {
        self.bytes.len() as u64
    }

    fn read_at(&mut self, at: u64, into: &mut [u8]) -> Result<(), ViewFault> {
        self.reads = self.reads.saturating_add(1);
        if self.broken {
            self.faults = self.faults.saturating_add(1);
            return Err(ViewFault);
        }
        let at = at as usize;
        into.copy_from_slice(&self.bytes[at..at + into.len()]);
        Ok(())
    }
}

/// The session of all tables in these tests.
pub fn session() -> Result<Session, Stopped> {
    match Session::new(*b"0123456789ABCDEFGHIJ") {
        Some(session) => Ok(session),
        None => Err(Stopped),
    }
}

/// The view of a text.
pub fn view_of(text: Bytes) -> TextView {
    TextView {
        bytes: text.into_vec(),
        broken: false,
        faults: 0,
        reads: 0,
    }
}

/// The first bytes of the table of one row, so many, with other bytes at these places.
pub fn changed(alloc: Global, len: usize, changes: &[(usize, u8)]) -> Result<TextView, Stopped> {
    let mut text = Bytes::from_slice(alloc, ONE_TABLE.as_slice())?;
    text.truncate(len);
    let mut view = view_of(text);
    for (place, byte) in changes {
        put_byte(&mut view.bytes, *place, *byte);
    }
    Ok(view)
}

/// The table of one row, with other bytes at these places.
pub fn table(alloc: Global, changes: &[(usize, u8)]) -> Result<Table<TextView>, Stopped> {
    opened(alloc, changed(alloc, 130, changes)?)
}

/// Puts another byte at a place, if there is one.
pub fn put_byte(bytes: &mut Vec<u8>, place: usize, byte: u8) {
    if let Some(there) = bytes.get_mut(place) {
        *there = byte;
    }
}

/// The table that a view shows, or what was wrong and the view.
pub fn open(alloc: Global, view: TextView) -> Result<Table<TextView>, TableError<TextView>> {
    Table::open(alloc, view)
}

/// The table that a view shows.
pub fn opened(alloc: Global, view: TextView) -> Result<Table<TextView>, Stopped> {
    match open(alloc, view) {
        Ok(table) => Ok(table),
        Err(_) => Err(Stopped),
    }
}

/// Why a view shows no table.
pub fn refusal(alloc: Global, view: TextView) -> Option<TableFault> {
    match open(alloc, view) {
        Ok(_) => None,
        Err(error) => Some(error.why),
    }
}

/// How often a table's view was read.
pub fn reads_of(table: Table<TextView>) -> u64 {
    table.into_view().reads
}
