//! Rows: the versions of keys, as the store keeps them in memory and in tables.
ghost use Rattle.std.specs.Prelude.{◌≡◌, ◌<◌, ◌^◌, ◌↔◌, ◌∷◌, ◌++◌, [], List, length, IsTrue, OnOk, OnErr};
ghost use Rattle.lsm_rows.specs.declared.rows.Row.{Row};

use lsm_bytes::{Bytes, NoMemory};
use std::alloc::Global;
use std::marker::Model;

/// What one operation made of its key. No two rows of a store have one sequence.
#[derive(Drop)]
pub struct Row {
    /// The user key, 0 to 65,535 bytes.
    pub key: Bytes,
    /// The operation's place in the order of all of them, below 2^56.
    pub sequence: u64,
    /// The value that a put wrote; None where the operation was a delete.
    pub value: Option<Bytes>,
}

/// A list of rows that grows at its end. Contracts see the list.
#[derive(Drop)]
pub struct Rows {
    items: Vec<Row>,
}

impl Model for Rows {
    ghost Value = { List Row };

    ghost view = { λ r. r.items.items };
}

impl Rows {
    /// No rows. It takes its memory from `alloc` as rows come in.
    pub fn new(alloc: Global) -> Self
        ensures { result ≡ [] }
    {
        Rows {
            items: Vec::new(alloc),
        }
    }

    /// The rows of a `Vec`. It takes no memory.
    pub fn from_vec(items: Vec<Row>) -> Self
        ensures { result ≡ items.items }
    {
        Rows { items }
    }

    /// The rows as a `Vec`. It takes no memory.
    pub fn into_vec(self) -> Vec<Row>
        ensures { result.items ≡ self }
    {
        self.items
    }

    /// The number of rows.
    pub fn len(&self) -> usize
        ensures len { result ≡ length self.now }
        ensures small { result < 2 ^ 63 }
    {
        self.items.as_slice().len()
    }

    /// Whether there are no rows.
    pub fn is_empty(&self) -> bool
        ensures { IsTrue result ↔ (self.now ≡ []) }
    {
        self.items.is_empty()
    }

    /// The rows, in their order.
    pub fn as_slice(&self) -> &[Row]
        ensures { result.now ≡ self.now }
    {
        &self.items
    }

    /// Adds a row at the end. After an error it is let go.
    pub fn push(&mut self, row: Row) -> Result<(), NoMemory>
        ensures ok { OnOk result (self.new ≡ self.old ++ row ∷ []) }
        ensures err { OnErr result (self.new ≡ self.old) }
    {
        self.items.push(row)?;
        Ok(())
    }
}
