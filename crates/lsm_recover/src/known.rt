//! The names of a folder's files.
ghost use Rattle.std.specs.Prelude.{◌≡◌, ◌<◌, ◌^◌, ◌↔◌, ◌∷◌, ◌++◌, [], length, IsTrue, OnOk, OnErr};

use lsm_bytes::NoMemory;
use lsm_names::FileName;
use std::alloc::Global;
use std::marker::Model;

/// The names of a store's files that stand in its folder. Contracts see the list.
#[derive(Drop)]
pub struct Known {
    items: Vec<FileName>,
}

impl Model for Known {
    ghost use Rattle.std.specs.Prelude.{List};
    ghost use Rattle.lsm_names.specs.declared.file_names.FileName.{FileName};

    ghost Value = { List FileName };

    ghost view = { λ k. k.items.items };
}

impl Known {
    /// No names. It takes its memory from `alloc` as names come in.
    pub fn new(alloc: Global) -> Self
        ensures { result ≡ [] }
    {
        Known {
            items: Vec::new(alloc),
        }
    }

    /// The number of names.
    pub fn len(&self) -> usize
        ensures len { result ≡ length self.now }
        ensures small { result < 2 ^ 63 }
    {
        self.items.as_slice().len()
    }

    /// Whether there are no names.
    pub fn is_empty(&self) -> bool
        ensures { IsTrue result ↔ (self.now ≡ []) }
    {
        self.items.is_empty()
    }

    /// The names, in their order.
    pub fn as_slice(&self) -> &[FileName]
        ensures { result.now ≡ self.now }
    {
        &self.items
    }

    /// The names as a `Vec`. It takes no memory.
    pub fn into_vec(self) -> Vec<FileName>
        ensures { result.items ≡ self }
    {
        self.items
    }

    /// Adds a name at the end.
    pub fn push(&mut self, name: FileName) -> Result<(), NoMemory>
        ensures ok { OnOk result (self.new ≡ self.old ++ name ∷ []) }
        ensures err { OnErr result (self.new ≡ self.old) }
    {
        self.items.push(name)?;
        Ok(())
    }
}
