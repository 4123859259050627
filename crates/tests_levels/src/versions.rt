//! Versions: edits applied, and the orders of their tables.
use crate::claims::{Stopped, sure};
use crate::shapes::{SILENT, Short, apply, edit_of, version_of};
use lsm_version::{ApplyError, Edit, Inputs, Place, Version};
use std::alloc::Global;

// Why an edit is refused.
fn refusal(alloc: Global, version: &Version, edit: &Edit) -> Option<ApplyError> {
    match apply(alloc, version, edit) {
        Ok(_) => None,
        Err(refused) => Some(refused),
    }
}

fn level_of(version: &Version, number: u64) -> Option<u8> {
    match version.get(number) {
        Some(placed) => Some(placed.level),
        None => None,
    }
}

fn count(version: &Version) -> usize {
    version.len()
}

// The table 4 at level 1.
const FOUR: &[Short] = &[(1, 4, b'a', b'c', 200)];

// An edit that moves it to level 2.
fn moving(alloc: Global) -> Result<Edit, Stopped> {
    let from = Place {
        level: 1,
        number: 4,
    };
    edit_of(alloc, SILENT, &[(2, 4, b'a', b'c', 200)], &[from])
}

// Whether the edit moves the table 4 to level 2, and once alone.
fn moves_once(alloc: Global, version: &Version, edit: &Edit) -> Result<bool, Stopped> {
    let after = apply(alloc, version, edit)?;
    let again = refusal(alloc, &after, edit);
    Ok(level_of(&after, 4) == Some(2) && again == Some(ApplyError::BadEdit { place: 0 }))
}

fn is_moved(alloc: Global, version: &Version) -> Result<bool, Stopped> {
    let edit = moving(alloc)?;
    moves_once(alloc, version, &edit)
}

fn a_table_moves(alloc: Global) -> Result<bool, Stopped> {
    let version = version_of(alloc, FOUR)?;
    is_moved(alloc, &version)
}

fn versions_count_their_tables(alloc: Global) -> Result<bool, Stopped> {
    let version = version_of(alloc, FOUR)?;
    let is_told = count(&version) == 1 && level_of(&version, 3).is_none();
    Ok(is_told && count(&Version::empty(alloc)) == 0)
}

// Two tables of which both have the user key `c`.
const OVERLAPPING: &[Short] = &[(1, 3, b'c', b'd', 200), (1, 4, b'a', b'c', 200)];

fn an_overlap_is_refused(alloc: Global) -> Result<bool, Stopped> {
    let edit = edit_of(alloc, SILENT, OVERLAPPING, &[])?;
    let wanted = ApplyError::BadLevels {
        level: 1,
        left: 3,
        right: 4,
    };
    Ok(refusal(alloc, &Version::empty(alloc), &edit) == Some(wanted))
}

// Four tables at three levels, not in their order.
const SPREAD: &[Short] = &[
    (6, 2, b'a', b'z', 200),
    (0, 7, b'a', b'c', 200),
    (1, 5, b'a', b'c', 200),
    (0, 3, b'a', b'c', 200),
];

const THREE: Place = Place {
    level: 0,
    number: 3,
};

const SEVEN: Place = Place {
    level: 0,
    number: 7,
};

const FIVE: Place = Place {
    level: 1,
    number: 5,
};

const SIXTH_LEVEL: Place = Place {
    level: 6,
    number: 2,
};

fn are_places(inputs: Inputs, wanted: &[Place]) -> bool {
    inputs.len() == wanted.len()
        && inputs.is_empty() == wanted.is_empty()
        && inputs.as_slice() == wanted
}

fn places_are(alloc: Global, version: &Version, wanted: &[Place]) -> Result<bool, Stopped> {
    Ok(are_places(version.places(alloc)?, wanted))
}

fn order_is(alloc: Global, version: &Version, wanted: &[Place]) -> Result<bool, Stopped> {
    Ok(are_places(version.search_order(alloc)?, wanted))
}

fn level_is(
    alloc: Global,
    version: &Version,
    level: u8,
    wanted: &[Place],
) -> Result<bool, Stopped> {
    Ok(are_places(version.level_places(alloc, level)?, wanted))
}

fn places_go_by_level_and_number(alloc: Global) -> Result<bool, Stopped> {
    let version = version_of(alloc, SPREAD)?;
    places_are(alloc, &version, &[THREE, SEVEN, FIVE, SIXTH_LEVEL])
}

fn newest_tables_are_searched_first(alloc: Global) -> Result<bool, Stopped> {
    let version = version_of(alloc, SPREAD)?;
    order_is(alloc, &version, &[SEVEN, THREE, FIVE, SIXTH_LEVEL])
}

fn levels_are(alloc: Global, version: &Version) -> Result<bool, Stopped> {
    Ok(level_is(alloc, version, 0, &[THREE, SEVEN])? && level_is(alloc, version, 3, &[])?)
}

fn a_level_has_its_own(alloc: Global) -> Result<bool, Stopped> {
    let version = version_of(alloc, SPREAD)?;
    levels_are(alloc, &version)
}

#[test]
fn drops_go_before_adds(rt: HostRuntime) {
    sure(&rt, a_table_moves(rt.alloc()));
}

#[test]
fn an_overlap_names_its_two_tables(rt: HostRuntime) {
    sure(&rt, an_overlap_is_refused(rt.alloc()));
}

#[test]
fn a_version_counts_its_tables(rt: HostRuntime) {
    sure(&rt, versions_count_their_tables(rt.alloc()));
}

#[test]
fn places_ascend_by_level_and_number(rt: HostRuntime) {
    sure(&rt, places_go_by_level_and_number(rt.alloc()));
}

#[test]
fn a_search_begins_with_the_newest_table(rt: HostRuntime) {
    sure(&rt, newest_tables_are_searched_first(rt.alloc()));
}

#[test]
fn a_level_has_its_own_places(rt: HostRuntime) {
    sure(&rt, a_level_has_its_own(rt.alloc()));
}
