//! A list of batches.
ghost use Rattle.std.specs.Prelude.{◌≡◌, ◌<◌, ◌^◌, ◌↔◌, ◌∷◌, ◌++◌, [], length, IsTrue, OnOk, OnErr};

use lsm_bytes::NoMemory;
use lsm_rows::Batch;
use std::alloc::Global;
use std::marker::Model;

/// A list of batches that grows at its end. Contracts see the list of their operations.
#[derive(Drop)]
pub struct Batches {
    items: Vec<Batch>,
}

impl Model for Batches {
    ghost use Rattle.std.specs.Prelude.{List};
    ghost use Rattle.lsm_rows.specs.declared.operations.Op.{Op};

    ghost Value = { List (List Op) };

    ghost view = { λ b. b.items.items };
}

impl Batches {
    /// No batches. It takes its memory from `alloc` as batches come in.
    pub fn new(alloc: Global) -> Self
        ensures { result ≡ [] }
    {
        Batches {
            items: Vec::new(alloc),
        }
    }

    /// The number of batches.
    pub fn len(&self) -> usize
        ensures len { result ≡ length self.now }
        ensures small { result < 2 ^ 63 }
    {
        self.items.as_slice().len()
    }

    /// Whether there are no batches.
    pub fn is_empty(&self) -> bool
        ensures { IsTrue result ↔ (self.now ≡ []) }
    {
        self.items.is_empty()
    }

    /// The batches, in their order.
    pub fn as_slice(&self) -> &[Batch]
        ensures { result.now ≡ self.now }
    {
        &self.items
    }

    /// The batches as a `Vec`. It takes no memory.
    pub fn into_vec(self) -> Vec<Batch>
        ensures { result.items ≡ self }
    {
        self.items
    }

    /// Adds a batch at the end. After an error it is let go.
    pub fn push(&mut self, batch: Batch) -> Result<(), NoMemory>
        ensures ok { OnOk result (self.new ≡ self.old ++ batch ∷ []) }
        ensures err { OnErr result (self.new ≡ self.old) }
    {
        self.items.push(batch)?;
        Ok(())
    }
}
