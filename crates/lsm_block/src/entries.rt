//! The entries of a block, and what a key shares with the key before it.
ghost use Rattle.std.specs.Prelude.{◌≡◌, ◌≤◌, length};
ghost use Rattle.lsm_block.specs.BlockText.{common, shared_len};
ghost use Rattle.lsm_block.specs.Parts.{last_key};

use lsm_bytes::Bytes;

/// Every so many entries one, a restart, keeps its key whole.
pub const RESTART_EVERY: usize = 16;

/// A key of a block, which is an internal key, and its value.
#[derive(Drop)]
pub struct Entry {
    pub key: Bytes,
    pub value: Bytes,
}

/// The key of the last entry; no bytes where there is none.
pub fn key_before(entries: &[Entry]) -> &[u8]
    ensures { result.now ≡ last_key entries.now }
{
    match entries.last() {
        Some(entry) => entry.key.as_slice(),
        None => b"".as_slice(),
    }
}

/// How many bytes the key of the entry with this number shares with the key before it.
#[tactic(auto, unfolding(crate::specs::BlockText::shared_len))]
pub fn shared_with(number: usize, before: &[u8], key: &[u8]) -> usize
    ensures shared { result ≡ shared_len number before.now key.now }
    ensures known { result ≤ length before.now }
    ensures within { result ≤ length key.now }
{
    if number % RESTART_EVERY == 0 {
        0
    } else {
        common_prefix(before, key)
    }
}

// The length of the longest common prefix.
fn common_prefix(a: &[u8], b: &[u8]) -> usize
    ensures common { result ≡ common a.now b.now }
    ensures first { result ≤ length a.now }
    ensures second { result ≤ length b.now }
{
    let most = a.len().min(b.len());
    for at in 0..most {
        if a[at] != b[at] {
            return at;
        }
    }
    most
}
