//! What a compaction takes by the shape of the levels, against worked examples.
use crate::claims::{Stopped, sure};
use crate::shapes::{Short, version_of};
use lsm_pick::pick;
use lsm_version::{Choice, Place, Version};
use std::alloc::Global;

fn picked(alloc: Global, version: &Version) -> Result<Option<Choice>, Stopped> {
    Ok(pick(alloc, version)?)
}

fn picked_of(alloc: Global, tables: &[Short]) -> Result<Option<Choice>, Stopped> {
    let version = version_of(alloc, tables)?;
    picked(alloc, &version)
}

fn is_choice(choice: Option<Choice>, output: u8, inputs: &[Place]) -> bool {
    match choice {
        Some(choice) => choice.output == output && choice.inputs.as_slice() == inputs,
        None => false,
    }
}

// Three tables at level 0, and levels 1 and 2 with as many bytes as they may have.
const WITHIN: &[Short] = &[
    (0, 7, b'a', b'z', 9_000_000),
    (0, 8, b'a', b'z', 9_000_000),
    (0, 9, b'a', b'z', 9_000_000),
    (1, 3, b'a', b'c', 4_194_303),
    (1, 4, b'd', b'f', 1),
    (2, 5, b'a', b'z', 41_943_040),
    (6, 6, b'a', b'z', 18_446_744_073_709_551_615),
];

fn nothing_is_taken(alloc: Global) -> Result<bool, Stopped> {
    Ok(picked_of(alloc, WITHIN)?.is_none() && picked_of(alloc, &[])?.is_none())
}

// The tables of level 0 go from `c` to `k`, in which the table 3 ends and the table 4 begins.
const FOUR: &[Short] = &[
    (1, 3, b'a', b'c', 100),
    (1, 4, b'k', b'm', 100),
    (1, 5, b'n', b'z', 100),
    (2, 6, b'a', b'z', 100),
    (0, 10, b'e', b'f', 100),
    (0, 7, b'd', b'k', 100),
    (0, 8, b'c', b'd', 100),
    (0, 9, b'e', b'g', 100),
];

const FOUR_INPUTS: &[Place] = &[
    Place {
        level: 0,
        number: 7,
    },
    Place {
        level: 0,
        number: 8,
    },
    Place {
        level: 0,
        number: 9,
    },
    Place {
        level: 0,
        number: 10,
    },
    Place {
        level: 1,
        number: 3,
    },
    Place {
        level: 1,
        number: 4,
    },
];

fn four_go(alloc: Global) -> Result<bool, Stopped> {
    Ok(is_choice(picked_of(alloc, FOUR)?, 1, FOUR_INPUTS))
}

// Level 1 has one byte too many. Its table 4 has the least key, and meets the table 6 alone.
const ONE_BYTE: &[Short] = &[
    (0, 7, b'a', b'z', 100),
    (1, 3, b'm', b'p', 4_194_304),
    (1, 4, b'b', b'd', 1),
    (2, 5, b'a', b'a', 100),
    (2, 6, b'c', b'l', 100),
    (2, 8, b'm', b'z', 100),
];

const ONE_BYTE_INPUTS: &[Place] = &[
    Place {
        level: 1,
        number: 4,
    },
    Place {
        level: 2,
        number: 6,
    },
];

fn the_least_key_goes(alloc: Global) -> Result<bool, Stopped> {
    Ok(is_choice(picked_of(alloc, ONE_BYTE)?, 2, ONE_BYTE_INPUTS))
}

// Sizes whose sum passes the greatest number of 64 bits, at the last level with a target.
const GREAT: &[Short] = &[
    (5, 3, b'm', b'p', 18_446_744_073_709_551_615),
    (5, 4, b'b', b'd', 1),
];

const GREAT_INPUTS: &[Place] = &[Place {
    level: 5,
    number: 4,
}];

fn a_great_sum_is_beyond(alloc: Global) -> Result<bool, Stopped> {
    Ok(is_choice(picked_of(alloc, GREAT)?, 6, GREAT_INPUTS))
}

#[test]
fn levels_within_their_targets_stay(rt: HostRuntime) {
    sure(&rt, nothing_is_taken(rt.alloc()));
}

#[test]
fn four_tables_at_level_0_go_to_level_1(rt: HostRuntime) {
    sure(&rt, four_go(rt.alloc()));
}

#[test]
fn the_table_with_the_least_key_goes_from_level_1(rt: HostRuntime) {
    sure(&rt, the_least_key_goes(rt.alloc()));
}

#[test]
fn sizes_may_pass_64_bits_together(rt: HostRuntime) {
    sure(&rt, a_great_sum_is_beyond(rt.alloc()));
}
