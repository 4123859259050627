//! The blocks that are kept, in the order of their last use.
ghost use Rattle.std.specs.Prelude.{◌≡◌, ◌≤◌, ◌==◌, map, find, option_copied, IfOk, IfErr, OnOk, OnErr, IsOk, IsSome};
ghost use Rattle.std.specs.Borrow.{sem};
ghost use Rattle.std.specs.Map.{lookup};
ghost use Rattle.lsm_cache.specs.Kept.{is_at, no_blocks, used, with_block, without_table};

use lru::LruCache;
use lsm_block::Block;
use lsm_bytes::NoMemory;
use std::alloc::{AllocFailed, Global};
use std::marker::Model;
use std::num::NonZeroUsize;

/// Which block of which table.
#[derive(Clone, Copy, Debug, PartialEq, Eq, Hash)]
pub struct BlockPlace {
    /// The table's number in its store.
    pub number: u64,
    /// Where the block begins, in bytes from the table's start.
    pub place: u64,
}

/// Blocks that were read. Contracts see the list of them, each with its place, the one used last first; and for how
/// many there is room.
#[derive(Drop)]
pub struct BlockCache {
    kept: LruCache<BlockPlace, Block>,
}

impl Model for BlockCache {
    ghost use Rattle.lsm_cache.specs.Kept.{Kept};

    ghost Value = { Kept };

    ghost view = { λ c. c.kept };
}

impl BlockCache {
    ghost use Rattle.lsm_cache.specs.Lending.{ends_as};

    /// No blocks yet, and room for so many. It takes memory for their places at once.
    pub fn new(alloc: Global, blocks: usize) -> Result<BlockCache, NoMemory>
        requires { 1 ≤ blocks }
        ensures { IfOk result (λ c. c ≡ no_blocks blocks) }
    {
        let room = NonZeroUsize::new(blocks).unwrap();
        let kept = LruCache::new(alloc, room)?;
        Ok(BlockCache { kept })
    }

    /// The block that is kept for a place of a table, which is then the one used last.
    pub fn get(&mut self, number: u64, place: u64) -> Option<&Block>
        ensures* order { sem 𝓛 (ends_as self.entry (used number place self.old)) }
        ensures block { option_copied result ≡ lookup (is_at number place) self.old.entries }
    {
        self.kept.get(&BlockPlace { number, place })
    }

    /// Keeps a block in front of all others. It takes the room of the one that was kept for the same place of the same
    /// table, and where there is none and no more room, that of the one used longest ago. It is refused for want of
    /// memory alone, and then hands the block back.
    pub fn put(&mut self, number: u64, place: u64, block: Block) -> Result<(), Block>
        ensures ok { OnOk result (self.new ≡ with_block number place block self.old) }
        ensures handed_back { IfErr result (λ back. back ≡ block) }
        ensures err { OnErr result (self.new ≡ self.old) }
        ensures known { IsSome (lookup (is_at number place) self.old.entries) → IsOk result }
    {
        match self.kept.put(BlockPlace { number, place }, block) {
            Ok(_) => Ok(()),
            Err(AllocFailed { value: (_, block) }) => Err(block),
        }
    }

    /// Forgets all blocks of a table. It looks through the kept blocks once for each that it forgets, and once more.
    pub fn forget(&mut self, number: u64)
        ensures { self.new ≡ without_table number self.old }
    {
        while let Some(at) = first_of(&self.kept, number) {
            self.kept.pop(&at);
        }
    }
}

// The place of the block of this table that was used last.
fn first_of(kept: &LruCache<BlockPlace, Block>, number: u64) -> Option<BlockPlace>
    ensures { result ≡ find (λ at. number == at.number) (map (λ e. e.0) kept.now.entries) }
{
    kept.iter()
        .map(|pair| *pair.0)
        .find(|at| number == at.number)
}
