//! The shape of a version's levels against their targets.
ghost use Rattle.std.specs.Prelude.{◌≡◌, ◌<◌, ◌≤◌, ◌-◌, ◌^◌, min, sum_by, IfOk, IfSome, option_map};
ghost use Rattle.lsm_pick.specs.Picked.{size_of, target, is_beyond, first_beyond};
ghost use Rattle.lsm_pick.specs.Standing.{standing};

use lsm_bytes::NoMemory;
use lsm_version::{Place, Version};
use std::alloc::Global;

// The number of tables with which level 0 is beyond its target.
const TRIGGER: usize = 4;

// How many levels have a target: all but the last.
const TARGETS: u8 = 6;

/// The least level beyond its target.
pub(crate) fn first_beyond(alloc: Global, version: &Version) -> Result<Option<u8>, NoMemory>
    ensures first { IfOk result (λ level. level ≡ first_beyond version.now) }
    ensures within { IfOk result (λ level. IfSome level (λ l. l < 6)) }
{
    for level in 0..TARGETS {
        if is_beyond(alloc, version, level)? {
            return Ok(Some(level));
        }
    }
    Ok(None)
}

// Whether a level is beyond its target.
fn is_beyond(alloc: Global, version: &Version, level: u8) -> Result<bool, NoMemory>
    requires { level < 6 }
    ensures { IfOk result (λ beyond. beyond ≡ is_beyond version.now level) }
{
    let places = version.level_places(alloc, level)?;
    match level {
        0 => Ok(places.len() >= TRIGGER),
        _ => Ok(level_bytes(version, places.as_slice()) > target(level)),
    }
}

// The most bytes of a level from 1 to 5.
fn target(level: u8) -> u64
    requires least { 1 ≤ level }
    requires most { level < 6 }
    ensures { result ≡ target level }
{
    match level {
        1 => 4_194_304,
        2 => 41_943_040,
        3 => 419_430_400,
        4 => 4_194_304_000,
        _ => 41_943_040_000,
    }
}

// The bytes of the files of the tables at these places, or the greatest number where they are more.
fn level_bytes(version: &Version, places: &[Place]) -> u64
    ensures { result ≡ min (sum_by size_of (standing version.now places.now)) (2 ^ 64 - 1) }
{
    let mut bytes = 0u64;
    for place in places {
        if let Some(placed) = version.get(place.number) {
            bytes = bytes.saturating_add(placed.info.size);
        }
    }
    bytes
}
