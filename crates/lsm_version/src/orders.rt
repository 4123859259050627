//! Walks over a version's tables, by level and by number.
ghost use Rattle.std.specs.Prelude.{◌≡◌, ◌++◌, OnOk};
ghost use Rattle.std.specs.FinMap as finite;
ghost use Rattle.lsm_version.specs.Orders.{level_places, places_from};

use crate::choices::Inputs;
use crate::tables::{Place, Placed};
use lsm_bytes::NoMemory;
use std::collections::BTreeMap;

/// How many levels there are.
pub(crate) const LEVELS: u8 = 7;

/// Adds the places of a level's tables, by their numbers.
pub(crate) fn push_level(
    out: &mut Inputs,
    tables: &BTreeMap<u64, Placed>,
    level: u8,
) -> Result<(), NoMemory>
    ensures { OnOk result (out.new ≡ out.old ++ level_places (finite.from_entries tables.now.entries) level) }
{
    for (number, placed) in tables {
        if placed.level == level {
            let number = *number;
            out.push(Place { level, number })?;
        }
    }
    Ok(())
}

/// Adds the places of the tables at the levels from this one on, each level by number.
pub(crate) fn push_levels(
    out: &mut Inputs,
    tables: &BTreeMap<u64, Placed>,
    first: u8,
) -> Result<(), NoMemory>
    ensures { OnOk result (out.new ≡ out.old ++ places_from (finite.from_entries tables.now.entries) first) }
{
    for level in first..LEVELS {
        push_level(out, tables, level)?;
    }
    Ok(())
}
