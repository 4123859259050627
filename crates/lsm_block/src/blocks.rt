//! A block that was read, and the search in it.
ghost use Rattle.std.specs.Prelude.{◌≡◌, ◌≤◌, length, IfOk, IfErr, MatchOption, None, Some};
ghost use Rattle.lsm_block.specs.Blocks.{AreEntries, IsBlock, IsBlockText, IsBad};
ghost use Rattle.lsm_block.specs.Seek.{first_from, first_of_user};
ghost use Rattle.lsm_rows.specs.InternalKeys.{user_key};
ghost use Rattle.std.specs.List.{slice_get};

use crate::entries::Entry;
use crate::errors::BlockError;
use crate::reading::read_entries;
use lsm_bytes::Bytes;
use lsm_rows::compare_internal_keys;
use std::alloc::Global;
use std::cmp::Ordering;
use std::marker::Model;

/// A block's entries, each with its whole key. Contracts see the list of them.
#[derive(Drop)]
pub struct Block {
    entries: Vec<Entry>,
}

impl Model for Block {
    ghost use Rattle.lsm_block.specs.declared.entries.Entry.{Entry};
    ghost use Rattle.std.specs.Prelude.{List};

    ghost Value = { List Entry };

    ghost use Rattle.lsm_block.specs.Blocks.{IsBlock};

    ghost view = { λ b. b.entries.items };

    ghost invariant = { λ b. IsBlock b.entries.items };
}

impl Block {
    /// The block whose contents the bytes are. It takes memory for what it has read alone, whatever lengths the
    /// bytes claim.
    pub fn parse(alloc: Global, bytes: Bytes) -> Result<Block, BlockError>
        ensures ok { IfOk result (λ b. IsBlockText bytes b) }
        ensures bad { IfErr result (λ e. IsBad bytes e) }
    {
        let front = read_entries(alloc, bytes.as_slice())?;
        let rest = bytes.as_slice().split_at(front.end).1;
        if front.entries.is_empty() || rest != front.restarts.as_slice() {
            return Err(BlockError::Malformed { place: front.end });
        }
        Ok(Block {
            entries: front.entries,
        })
    }

    /// The entries, in the order of their keys.
    pub fn entries(&self) -> &[Entry]
        ensures entries { result.now ≡ self.now }
        ensures block { IsBlock self.now }
    {
        &self.entries
    }

    /// The first entry whose key is at or past this one, which has 8 bytes at least. It takes no memory, and
    /// looks at about log2 of the number of entries.
    pub fn seek(&self, key: &[u8]) -> Option<(&[u8], &[u8])>
        requires { 8 ≤ length key.now }
        ensures { MatchOption result (first_from key.now self.now ≡ None)
            (λ found. first_from key.now self.now ≡ Some (record { key = found.0.now; value = found.1.now })) }
    {
        let place = place_from(&self.entries, key);
        let entry = self.entries.get(place)?;
        Some((entry.key.as_slice(), entry.value.as_slice()))
    }

    /// The first entry whose user key is at or past this one. Of several rows of that user key it is the one with
    /// the greatest sequence. It takes no memory, and looks at about log2 of the number of entries.
    pub fn seek_user(&self, key: &[u8]) -> Option<(&[u8], &[u8])>
        ensures found { MatchOption result (first_of_user key.now self.now ≡ None)
            (λ found. first_of_user key.now self.now ≡ Some (record { key = found.0.now; value = found.1.now })) }
        ensures block { IsBlock self.now }
    {
        let entry = self.entries.get(user_place_from(&self.entries, key))?;
        Some((entry.key.as_slice(), entry.value.as_slice()))
    }
}

// How many entries have keys before this one.
fn place_from(entries: &[Entry], key: &[u8]) -> usize
    requires entries { AreEntries entries.now }
    requires long { 8 ≤ length key.now }
    ensures { slice_get entries.now result ≡ first_from key.now entries.now }
{
    let mut low = 0;
    let mut high = entries.len();
    while low < high {
        let middle = low + (high - low) / 2;
        if compare_internal_keys(entries[middle].key.as_slice(), key) == Ordering::Less {
            low = middle + 1;
        } else {
            high = middle;
        }
    }
    low
}

// How many entries have user keys before this one.
fn user_place_from(entries: &[Entry], key: &[u8]) -> usize
    requires { AreEntries entries.now }
    ensures { slice_get entries.now result ≡ first_of_user key.now entries.now }
{
    let mut low = 0;
    let mut high = entries.len();
    while low < high {
        let middle = low + (high - low) / 2;
        if user_part(entries[middle].key.as_slice()).cmp(key) == Ordering::Less {
            low = middle + 1;
        } else {
            high = middle;
        }
    }
    low
}

// The user key of an internal key.
fn user_part(bytes: &[u8]) -> &[u8]
    requires { 8 ≤ length bytes.now }
    ensures { result.now ≡ user_key bytes.now }
{
    bytes.split_at(bytes.len() - 8).0
}
