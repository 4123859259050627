//! Which tables a compaction takes.
ghost use Rattle.std.specs.Prelude.{◌≡◌, IfOk};
ghost use Rattle.lsm_pick.specs.Picked.{picked};

use crate::going::choice_at;
use crate::shape::first_beyond;
use lsm_bytes::NoMemory;
use lsm_version::{Choice, Version};
use std::alloc::Global;

/// What a compaction takes by the shape of the levels: of the least level beyond its target all tables, if it is level
/// 0, or else the one with the least key, and the tables of the next level that meet their range. None where each
/// level is within its target. Inputs come by level, and of one level by number.
pub fn pick(alloc: Global, version: &Version) -> Result<Option<Choice>, NoMemory>
    ensures { IfOk result (λ choice. choice ≡ picked version.now) }
{
    match first_beyond(alloc, version)? {
        Some(level) => Ok(Some(choice_at(alloc, version, level)?)),
        None => Ok(None),
    }
}
