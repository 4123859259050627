//! What a compaction is to do: the tables that it reads, and the level that it writes to.
ghost use Rattle.std.specs.Prelude.{◌≡◌, ◌<◌, ◌^◌, ◌↔◌, ◌∷◌, ◌++◌, [], List, length, reverse, IsTrue, OnOk, OnErr};
ghost use Rattle.lsm_version.specs.declared.tables.Place.{Place};

use crate::tables::Place;
use lsm_bytes::NoMemory;
use std::alloc::Global;
use std::marker::Model;

/// What a compaction is to read, and where its outputs go.
#[derive(Drop)]
pub struct Choice {
    pub inputs: Inputs,
    /// The level that it writes to, from 1 to 6.
    pub output: u8,
}

/// The places of tables that are read, in the order in which they are read. Contracts see the list.
#[derive(Drop)]
pub struct Inputs {
    items: Vec<Place>,
}

impl Model for Inputs {
    ghost Value = { List Place };

    ghost view = { λ i. i.items.items };
}

impl Inputs {
    /// No places. It takes its memory from `alloc` as places come in.
    pub fn new(alloc: Global) -> Self
        ensures { result ≡ [] }
    {
        Inputs {
            items: Vec::new(alloc),
        }
    }

    /// The number of places.
    pub fn len(&self) -> usize
        ensures len { result ≡ length self.now }
        ensures small { result < 2 ^ 63 }
    {
        self.items.as_slice().len()
    }

    /// Whether there are no places.
    pub fn is_empty(&self) -> bool
        ensures { IsTrue result ↔ (self.now ≡ []) }
    {
        self.items.is_empty()
    }

    /// The places, in their order.
    pub fn as_slice(&self) -> &[Place]
        ensures { result.now ≡ self.now }
    {
        &self.items
    }

    /// Adds a place at the end.
    pub fn push(&mut self, place: Place) -> Result<(), NoMemory>
        ensures ok { OnOk result (self.new ≡ self.old ++ place ∷ []) }
        ensures err { OnErr result (self.new ≡ self.old) }
    {
        self.items.push(place)?;
        Ok(())
    }

    // Turns the order round.
    pub(crate) fn reverse(&mut self)
        ensures { self.new ≡ reverse self.old }
    {
        self.items.reverse();
    }
}
