//! The edit of a new manifest, which adds every table of a version.
ghost use Rattle.std.specs.Prelude.{◌≡◌, IfOk, OnOk};
ghost use Rattle.lsm_version.specs.Orders.{Stands};
ghost use Rattle.lsm_refine.specs.WholeEdits.{AreInRange};
ghost use Rattle.lsm_opening.specs.Edits.{IsWholeEdit, IsAdded};

use lsm_bytes::NoMemory;
use lsm_version::{Add, Adds, Drops, Edit, Place, Version};
use std::alloc::Global;

/// The edit that adds all tables of a version, by level and then by number, and sets the log
/// number, the next file number and the last sequence.
pub fn whole_edit(
    alloc: Global,
    version: &Version,
    log: u64,
    next: u64,
    last: u64,
) -> Result<Edit, NoMemory>
    requires { AreInRange version.now }
    ensures { IfOk result (IsWholeEdit version.now log next last) }
{
    let places = version.places(alloc)?;
    let mut adds = Adds::new(alloc);
    for place in places.as_slice() {
        push_table(alloc, &mut adds, version, *place)?;
    }
    Ok(Edit {
        log: Some(log),
        next: Some(next),
        last: Some(last),
        adds,
        drops: Drops::new(alloc),
    })
}

// Adds the table that stands at a place.
fn push_table(
    alloc: Global,
    adds: &mut Adds,
    version: &Version,
    place: Place,
) -> Result<(), NoMemory>
    requires range { AreInRange version.now }
    requires stands { Stands version.now place }
    ensures { OnOk result (IsAdded version.now place adds.old adds.new) }
{
    match version.get(place.number) {
        Some(placed) => {
            let table = placed.info.copy(alloc)?;
            let level = placed.level;
            adds.push(Add { level, table })
        }
        None => Ok(()),
    }
}
