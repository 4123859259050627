//! The data blocks of a table that is being built, and their index.
ghost use Rattle.std.specs.Prelude.{◌≡◌, ◌+◌, ◌^◌, ◌<◌, ◌≤◌, ◌∷◌, ◌++◌, [], length, IfOk, OnOk, OnErr, MatchOption};
ghost use Rattle.lsm_bytes.specs.Varint.{varint};
ghost use Rattle.lsm_block.specs.BlockText.{block_text};
ghost use Rattle.lsm_block.specs.Blocks.{IsKey};
ghost use Rattle.lsm_block.specs.Parts.{IsPast};
ghost use Rattle.lsm_table.specs.Cuts.{IsCut, added, ended, index_entry, size_of};
ghost use Rattle.lsm_block.specs.TableText.{stored};

use crate::storing::{BEHIND, push_stored};
use lsm_block::BlockBuilder;
use lsm_bytes::{Bytes, NoMemory, push_varint};
use std::alloc::Global;
use std::marker::Model;
use std::mem;

// A block is ended with the entry with which its contents have this many bytes or more.
const FULL: usize = 4_096;

/// The blocks that were ended and not handed out, the one that is open, and the index.
#[derive(Drop)]
pub struct DataBlocks {
    alloc: Global,
    begun: BlockBuilder,
    index: BlockBuilder,
    pending: Bytes,
    place: usize,
}

impl Model for DataBlocks {
    ghost use Rattle.lsm_table.specs.Cuts.{Cut, IsCut};

    ghost Value = { Cut };

    ghost view = { λ b. record { begun = b.begun; index = b.index; pending = b.pending; place = b.place } };

    ghost invariant = { λ b. IsCut (record { begun = b.begun; index = b.index; pending = b.pending; place = b.place }) };
}

impl DataBlocks {
    /// No blocks yet.
    pub fn new(alloc: Global) -> Self
        ensures { result ≡ record { begun = []; index = []; pending = []; place = 0 } }
    {
        DataBlocks {
            alloc,
            begun: BlockBuilder::new(alloc),
            index: BlockBuilder::new(alloc),
            pending: Bytes::new(alloc),
            place: 0,
        }
    }

    /// Adds an entry behind all others, and ends the open block where it is full with it.
    #[tactic(auto, unfolding(crate::specs::Cuts::added))]
    pub fn add(&mut self, key: &[u8], value: &[u8]) -> Result<(), NoMemory>
        requires key { IsKey key.now }
        requires past { IsPast self.old.begun key.now }
        requires behind { IsPast self.old.index key.now }
        requires room { size_of self.old + length key.now + length value.now + 100 < 2 ^ 29 }
        ensures ok { OnOk result (self.new ≡ added self.old (record { key = key.now; value = value.now })) }
        ensures err { OnErr result (self.new ≡ self.old) }
        ensures grown { size_of self.new ≤ size_of self.old + length key.now + length value.now + 100 }
        ensures more { OnOk result (size_of self.old < size_of self.new) }
    {
        self.begun.add(key, value)?;
        if self.begun.len() < FULL {
            return Ok(());
        }
        match end_open(
            self.alloc,
            &self.begun,
            &mut self.index,
            &mut self.pending,
            self.place,
        ) {
            Ok(len) => {
                self.place += len;
                self.begun = BlockBuilder::new(self.alloc);
                Ok(())
            }
            Err(refused) => {
                self.begun.take_back();
                Err(refused)
            }
        }
    }

    /// The number of bytes that the blocks have, when the open one is ended as it is.
    pub fn len(&self) -> usize
        ensures len { result ≡ size_of self.now }
        ensures small { result < 2 ^ 29 }
    {
        self.place + self.begun.len()
    }

    /// The text of ended blocks that wasn't handed out yet; None where there is none. It takes no memory.
    pub fn next_piece(&mut self) -> Option<Bytes>
        ensures piece { MatchOption result ((self.old.pending ≡ []) × (self.new ≡ self.old))
            (λ piece. (piece ≡ self.old.pending) × (self.new ≡ record self.old { pending = [] })) }
        ensures size { size_of self.new ≡ size_of self.old }
    {
        if self.pending.is_empty() {
            return None;
        }
        Some(mem::replace(&mut self.pending, Bytes::new(self.alloc)))
    }

    /// Ends the open block where it has entries, and gives what wasn't handed out, the index and the place behind the
    /// blocks.
    #[tactic(auto, unfolding(crate::specs::Cuts::ended))]
    pub fn finish(self) -> Result<Ended, NoMemory>
        ensures text { IfOk result (λ r. r.text ≡ (ended self).pending) }
        ensures index { IfOk result (λ r. r.index ≡ (ended self).index) }
        ensures place { IfOk result (λ r. r.place ≡ (ended self).place) }
        ensures small { IfOk result (λ r. r.place < 2 ^ 30) }
        ensures fits { IfOk result (λ r. r.place + length (block_text r.index) + 82 < 2 ^ 32) }
    {
        let DataBlocks {
            alloc,
            begun,
            mut index,
            pending: mut text,
            place,
        } = self;
        if begun.is_empty() {
            return Ok(Ended { text, index, place });
        }
        let len = end_open(alloc, &begun, &mut index, &mut text, place)?;
        Ok(Ended {
            text,
            index,
            place: place + len,
        })
    }
}

/// What is left of data blocks when no entry follows.
#[derive(Drop)]
pub struct Ended {
    pub text: Bytes,
    pub index: BlockBuilder,
    pub place: usize,
}

// Ends the block with these entries, which stands at a place, and gives the length of its text.
fn end_open(
    alloc: Global,
    begun: &BlockBuilder,
    index: &mut BlockBuilder,
    pending: &mut Bytes,
    place: usize,
) -> Result<usize, NoMemory>
    requires some { 1 ≤ length begun.now }
    requires cut { IsCut (record { begun = begun.now; index = index.old; pending = pending.old; place = place }) }
    ensures index { OnOk result (index.new ≡ index.old ++ index_entry place begun.now ∷ []) }
    ensures pending { OnOk result (pending.new ≡ pending.old ++ stored (block_text begun.now)) }
    ensures len { IfOk result (λ len. len ≡ length (stored (block_text begun.now))) }
    ensures index_kept { OnErr result (index.new ≡ index.old) }
    ensures pending_kept { OnErr result (pending.new ≡ pending.old) }
{
    let contents = begun.contents()?;
    let value = block_place(alloc, place, contents.len())?;
    let before = pending.len();
    push_stored(pending, contents.as_slice())?;
    match index.add(begun.last_key(), value.as_slice()) {
        Ok(()) => Ok(contents.len() + BEHIND),
        Err(refused) => {
            pending.truncate(before);
            Err(refused)
        }
    }
}

// What the index keeps of a block.
fn block_place(alloc: Global, place: usize, len: usize) -> Result<Bytes, NoMemory>
    ensures { IfOk result (λ value. value ≡ varint place ++ varint len) }
{
    let mut value = Bytes::new(alloc);
    push_varint(&mut value, place as u64)?;
    push_varint(&mut value, len as u64)?;
    Ok(value)
}
