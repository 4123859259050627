//! The tables that go from a level to the next, and those that they are merged with there.
ghost use Rattle.std.specs.Prelude.{◌≡◌, ◌<◌, ◌++◌, map, filter, Some, IfOk, OnOk, option_map, option_to_list};
ghost use Rattle.lsm_version.specs.Orders.{place_of};
ghost use Rattle.lsm_pick.specs.Picked.{range_of_all, meets, meeting, least_of, going, choice_at};
ghost use Rattle.lsm_pick.specs.Standing.{standing, with_lesser, widened};
ghost use Rattle.lsm_pick.specs.Views.{range_in, table_in};

use crate::keys::{Keys, begins_before, joined, keys_of, meets};
use lsm_bytes::NoMemory;
use lsm_version::{Choice, Inputs, Place, Placed, Version};
use std::alloc::Global;

// A table and its number.
#[derive(Clone, Copy)]
struct Numbered<'a> {
    number: u64,
    placed: &'a Placed,
}

/// What goes from a level, and what of the next level it is merged with.
pub(crate) fn choice_at(alloc: Global, version: &Version, level: u8) -> Result<Choice, NoMemory>
    requires { level < 6 }
    ensures { IfOk result (λ choice. choice ≡ choice_at version.now level) }
{
    let output = level + 1;
    let going = going(alloc, version, level)?;
    let range = range_of_all(version, going.as_slice());
    let inputs = with_meeting(alloc, version, going, range, output)?;
    Ok(Choice { inputs, output })
}

// The places of what goes from a level.
fn going(alloc: Global, version: &Version, level: u8) -> Result<Inputs, NoMemory>
    ensures { IfOk result (λ places. places ≡ map place_of (going level version.now)) }
{
    let places = version.level_places(alloc, level)?;
    match level {
        0 => Ok(places),
        _ => only(alloc, least_of(version, places.as_slice())),
    }
}

// The place of a table alone.
fn only(alloc: Global, table: Option<Numbered<'_>>) -> Result<Inputs, NoMemory>
    ensures { IfOk result (λ places. places ≡ map place_of (option_to_list (option_map table_in table.entry))) }
{
    let mut places = Inputs::new(alloc);
    match table {
        Some(table) => {
            let level = table.placed.level;
            let number = table.number;
            places.push(Place { level, number })?;
            Ok(places)
        }
        None => Ok(places),
    }
}

// The table with the least key, the first of several.
fn least_of<'a>(version: &'a Version, places: &[Place]) -> Option<Numbered<'a>>
    ensures { option_to_list (option_map table_in result) ≡ least_of (standing version.now places.now) }
{
    let mut least: Option<Numbered<'a>> = None;
    for place in places {
        if let Some(placed) = version.get(place.number) {
            let number = place.number;
            least = Some(lesser(least, Numbered { number, placed }));
        }
    }
    least
}

// The table with the lesser least key, the first where they are equal.
fn lesser<'a>(least: Option<Numbered<'a>>, next: Numbered<'a>) -> Numbered<'a>
    ensures { Some (table_in result) ≡ with_lesser (option_map table_in least.entry) (table_in next.entry) }
{
    match least {
        Some(least) => {
            if begins_before(next.placed, least.placed) {
                next
            } else {
                least
            }
        }
        None => next,
    }
}

// The range of the tables at these places.
fn range_of_all<'a>(version: &'a Version, places: &[Place]) -> Option<Keys<'a>>
    ensures { option_map range_in result ≡ range_of_all (standing version.now places.now) }
{
    let mut range: Option<Keys<'a>> = None;
    for place in places {
        if let Some(placed) = version.get(place.number) {
            range = Some(widened(range, keys_of(placed)));
        }
    }
    range
}

// The range that has another in it too.
fn widened<'a>(range: Option<Keys<'a>>, next: Keys<'a>) -> Keys<'a>
    ensures { Some (range_in result) ≡ widened (option_map range_in range.entry) (range_in next.entry) }
{
    match range {
        Some(range) => joined(range, next),
        None => next,
    }
}

// The places of what goes, and those of a level's tables that meet its range.
fn with_meeting(
    alloc: Global,
    version: &Version,
    going: Inputs,
    range: Option<Keys<'_>>,
    level: u8,
) -> Result<Inputs, NoMemory>
    ensures { IfOk result (λ places. places ≡ going ++ map place_of (meeting (option_map range_in range.entry) level version.now)) }
{
    let mut inputs = going;
    match range {
        Some(range) => {
            let places = version.level_places(alloc, level)?;
            push_meeting(&mut inputs, version, places.as_slice(), range)?;
            Ok(inputs)
        }
        None => Ok(inputs),
    }
}

// Adds those places at which a table meets the range.
fn push_meeting(
    out: &mut Inputs,
    version: &Version,
    places: &[Place],
    range: Keys<'_>,
) -> Result<(), NoMemory>
    ensures { OnOk result (out.new ≡ out.old ++ map place_of (filter (meets (range_in range.entry)) (standing version.now places.now))) }
{
    for place in places {
        if let Some(placed) = version.get(place.number) {
            let number = place.number;
            if meets(range, number, placed) {
                let level = placed.level;
                out.push(Place { level, number })?;
            }
        }
    }
    Ok(())
}
