//! Edits of a version, and the lists that they are made of.
ghost use Rattle.std.specs.Prelude.{◌≡◌, ◌<◌, ◌^◌, ◌↔◌, ◌∷◌, ◌++◌, [], List, length, IsTrue, OnOk, OnErr};
ghost use Rattle.lsm_version.specs.declared.tables.Add.{Add};
ghost use Rattle.lsm_version.specs.declared.tables.Place.{Place};

use crate::tables::{Add, Place};
use lsm_bytes::NoMemory;
use std::alloc::Global;
use std::marker::Model;

/// What changes a version: the tables dropped, and then the tables added. Its numbers are those that it sets; where
/// one is None, an earlier edit's stays.
#[derive(Drop)]
pub struct Edit {
    /// The least number of a log that is still wanted, from 1 to 2^56 - 2.
    pub log: Option<u64>,
    /// The number of the next file, from 1 to 2^56 - 1.
    pub next: Option<u64>,
    /// The last sequence in tables, at most 2^56 - 1.
    pub last: Option<u64>,
    pub adds: Adds,
    pub drops: Drops,
}

/// Tables that are added, in their order. Contracts see the list.
#[derive(Drop)]
pub struct Adds {
    items: Vec<Add>,
}

impl Model for Adds {
    ghost Value = { List Add };

    ghost view = { λ a. a.items.items };
}

impl Adds {
    /// No tables. It takes its memory from `alloc` as tables come in.
    pub fn new(alloc: Global) -> Self
        ensures { result ≡ [] }
    {
        Adds {
            items: Vec::new(alloc),
        }
    }

    /// The number of tables.
    pub fn len(&self) -> usize
        ensures len { result ≡ length self.now }
        ensures small { result < 2 ^ 63 }
    {
        self.items.as_slice().len()
    }

    /// Whether there are no tables.
    pub fn is_empty(&self) -> bool
        ensures { IsTrue result ↔ (self.now ≡ []) }
    {
        self.items.is_empty()
    }

    /// The tables, in their order.
    pub fn as_slice(&self) -> &[Add]
        ensures { result.now ≡ self.now }
    {
        &self.items
    }

    /// Adds a table at the end. After an error it is let go.
    pub fn push(&mut self, add: Add) -> Result<(), NoMemory>
        ensures ok { OnOk result (self.new ≡ self.old ++ add ∷ []) }
        ensures err { OnErr result (self.new ≡ self.old) }
    {
        self.items.push(add)?;
        Ok(())
    }
}

/// The places of tables that are dropped, in their order. Contracts see the list.
#[derive(Drop)]
pub struct Drops {
    items: Vec<Place>,
}

impl Model for Drops {
    ghost Value = { List Place };

    ghost view = { λ d. d.items.items };
}

impl Drops {
    /// No places. It takes its memory from `alloc` as places come in.
    pub fn new(alloc: Global) -> Self
        ensures { result ≡ [] }
    {
        Drops {
            items: Vec::new(alloc),
        }
    }

    /// The number of places.
    pub fn len(&self) -> usize
        ensures len { result ≡ length self.now }
        ensures small { result < 2 ^ 63 }
    {
        self.items.as_slice().len()
    }

    /// Whether there are no places.
    pub fn is_empty(&self) -> bool
        ensures { IsTrue result ↔ (self.now ≡ []) }
    {
        self.items.is_empty()
    }

    /// The places, in their order.
    pub fn as_slice(&self) -> &[Place]
        ensures { result.now ≡ self.now }
    {
        &self.items
    }

    /// Adds a place at the end.
    pub fn push(&mut self, place: Place) -> Result<(), NoMemory>
        ensures ok { OnOk result (self.new ≡ self.old ++ place ∷ []) }
        ensures err { OnErr result (self.new ≡ self.old) }
    {
        self.items.push(place)?;
        Ok(())
    }
}
