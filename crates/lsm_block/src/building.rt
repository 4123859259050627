//! Building a block, entry by entry.
ghost use Rattle.std.specs.Prelude.{◌≡◌, ◌-◌, ◌<◌, ◌≤◌, ◌^◌, ◌↔◌, ◌∷◌, ◌++◌, [], length, take, IsTrue, IfOk, OnOk, OnErr};
ghost use Rattle.lsm_block.specs.BlockText.{entries_text, block_text};
ghost use Rattle.lsm_block.specs.Blocks.{IsKey, AreEntries};
ghost use Rattle.lsm_block.specs.Parts.{IsPast, last_key};

use crate::entries::{Entry, key_before, shared_with};
use crate::writing::{parts_len, restarts_len, write_block};
use lsm_bytes::{Bytes, NoMemory};
use std::alloc::Global;
use std::marker::Model;

/// A block that is being built. Contracts see its entries.
///
/// It knows at each time how long the block would be, so that whoever fills it knows when it is full.
#[derive(Drop)]
pub struct BlockBuilder {
    alloc: Global,
    entries: Vec<Entry>,
    size: usize,
}

impl Model for BlockBuilder {
    ghost use Rattle.lsm_block.specs.declared.entries.Entry.{Entry};
    ghost use Rattle.std.specs.Prelude.{List};

    ghost Value = { List Entry };

    ghost use Rattle.std.specs.Prelude.{◌≡◌, length};
    ghost use Rattle.lsm_block.specs.BlockText.{entries_text};
    ghost use Rattle.lsm_block.specs.Blocks.{AreEntries};

    ghost view = { λ b. b.entries.items };

    ghost invariant = { λ b. AreEntries b.entries.items × (b.size ≡ length (entries_text b.entries.items)) };
}

impl BlockBuilder {
    /// A block with no entries yet. It takes its memory from `alloc` as entries come in.
    pub fn new(alloc: Global) -> Self
        ensures { result ≡ [] }
    {
        BlockBuilder {
            alloc,
            entries: Vec::new(alloc),
            size: 0,
        }
    }

    /// Adds an entry at the end. Its key is an internal key past those that came before, and the texts of all
    /// entries stay below 2^32 bytes.
    pub fn add(&mut self, key: &[u8], value: &[u8]) -> Result<(), NoMemory>
        requires key { IsKey key.now }
        requires past { IsPast self.old key.now }
        requires small { length (entries_text (self.old ++ record { key = key.now; value = value.now } ∷ [])) < 2 ^ 32 }
        ensures ok { OnOk result (self.new ≡ self.old ++ record { key = key.now; value = value.now } ∷ []) }
        ensures err { OnErr result (self.new ≡ self.old) }
    {
        let shared = shared_with(self.entries.len(), key_before(&self.entries), key);
        let added = parts_len(shared, key.split_at(shared).1, value);
        let key = Bytes::from_slice(self.alloc, key)?;
        let value = Bytes::from_slice(self.alloc, value)?;
        self.entries.push(Entry { key, value })?;
        self.size += added;
        Ok(())
    }

    /// Whether there are no entries. Then there is no block yet.
    pub fn is_empty(&self) -> bool
        ensures { IsTrue result ↔ (self.now ≡ []) }
    {
        self.entries.is_empty()
    }

    /// The key of the last entry; no bytes where there is none.
    pub fn last_key(&self) -> &[u8]
        ensures { result.now ≡ last_key self.now }
    {
        key_before(&self.entries)
    }

    /// The length in bytes that the block's contents have with the entries so far, restarts and count included.
    pub fn len(&self) -> usize
        ensures { result ≡ length (block_text self.now) }
    {
        self.size + restarts_len(self.entries.len())
    }

    /// Takes the last entry back.
    pub fn take_back(&mut self)
        requires { 1 ≤ length self.old }
        ensures { self.new ≡ take (length self.old - 1) self.old }
    {
        let entry = self.entries.pop().unwrap();
        let key = entry.key.as_slice();
        let shared = shared_with(self.entries.len(), key_before(&self.entries), key);
        self.size -= parts_len(shared, key.split_at(shared).1, entry.value.as_slice());
    }

    /// The block's contents.
    pub fn contents(&self) -> Result<Bytes, NoMemory>
        ensures { IfOk result (λ text. text ≡ block_text self.now) }
    {
        let len = self.size + restarts_len(self.entries.len());
        write_block(self.alloc, &self.entries, len)
    }

    /// The block's contents.
    pub fn finish(self) -> Result<Bytes, NoMemory>
        ensures { IfOk result (λ text. text ≡ block_text self) }
    {
        self.contents()
    }
}
