//! The pairs of a store, in the order of their keys.
ghost use Rattle.std.specs.Prelude.{◌≡◌, length, OnOk};
ghost use Rattle.std.specs.Option.{option_map};
ghost use Rattle.std.specs.FinMap as finite;
ghost use Rattle.std.specs.List.{fold};
ghost use Rattle.lsm_rows.specs.Replay.{applied, replayed};
ghost use Rattle.lsm_rows.specs.Pairs.{contents_of};

use crate::batches::Batch;
use crate::operations::Op;
use lsm_bytes::NoMemory;
use std::alloc::Global;
use std::collections::BTreeMap;
use std::marker::Model;

/// Pairs of keys and values. Contracts see them as a finite map.
#[derive(Drop)]
pub struct Pairs {
    alloc: Global,
    values: BTreeMap<Vec<u8>, Vec<u8>>,
}

impl Model for Pairs {
    ghost use Rattle.lsm_rows.specs.Replay.{Contents};
    ghost use Rattle.lsm_rows.specs.Pairs.{contents_of, coded_contents};

    ghost Value = { Contents };

    ghost coded = { coded_contents };

    ghost view = { λ p. contents_of p.values.entries };
}

impl Pairs {
    /// No pairs.
    pub fn new(alloc: Global) -> Self
        ensures { result ≡ finite.empty }
    {
        Pairs {
            alloc,
            values: BTreeMap::new(alloc),
        }
    }

    /// The value of a key.
    pub fn get(&self, key: &[u8]) -> Option<&[u8]>
        ensures { option_map (λ value. value.now) result ≡ finite.get self.now key.now }
    {
        match self.values.get(key) {
            Some(value) => Some(value.as_slice()),
            None => None,
        }
    }

    /// How many pairs there are.
    pub fn count(&self) -> usize
        ensures { result ≡ length (finite.entries self.now) }
    {
        self.values.len()
    }

    /// The pairs in the order of their keys.
    pub fn entries(&self) -> &BTreeMap<Vec<u8>, Vec<u8>>
        ensures { contents_of result.now.entries ≡ self.now }
    {
        &self.values
    }

    /// Takes a key out, whether it was there or not.
    pub fn remove(&mut self, key: &[u8])
        ensures { self.new ≡ finite.remove self.old key.now }
    {
        self.values.remove(key);
    }

    /// Does an operation.
    pub fn apply(&mut self, op: &Op) -> Result<(), NoMemory>
        ensures { OnOk result (self.new ≡ applied self.old op.now) }
    {
        match op {
            Op::Put { key, value } => self.put(key.as_slice(), value.as_slice()),
            Op::Delete { key } => {
                self.remove(key.as_slice());
                Ok(())
            }
        }
    }

    /// Does operations in their order. After an error some of them are done.
    pub fn apply_all(&mut self, ops: &[Op]) -> Result<(), NoMemory>
        ensures { OnOk result (self.new ≡ fold applied self.old ops.now) }
    {
        for op in ops {
            self.apply(op)?;
        }
        Ok(())
    }

    /// Does the operations of batches in their order. After an error some of them are done.
    pub fn replay(&mut self, batches: &[Batch]) -> Result<(), NoMemory>
        ensures { OnOk result (self.new ≡ replayed self.old batches.now) }
    {
        for batch in batches {
            self.apply_all(batch.ops())?;
        }
        Ok(())
    }

    /// Sets a key's value.
    pub fn put(&mut self, key: &[u8], value: &[u8]) -> Result<(), NoMemory>
        ensures { OnOk result (self.new ≡ finite.insert self.old key.now value.now) }
    {
        let key = Vec::from_slice(self.alloc, key)?;
        let value = Vec::from_slice(self.alloc, value)?;
        self.values.insert(key, value)?;
        Ok(())
    }
}
