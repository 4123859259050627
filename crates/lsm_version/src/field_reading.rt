//! The fields of an edit's text, read one by one.
ghost use Rattle.std.specs.Prelude.{◌≡◌, ◌≢◌, ◌<◌, ◌≤◌, ◌+◌, ◌⊎◌, ℕ, length, slice_index, IfOk, IfErr, IfSome, IfNone};
ghost use Rattle.std.specs.Bool.{OnTrue, OnFalse};
ghost use Rattle.lsm_rows.specs.Pieces.{FaultFrom};
ghost use Rattle.lsm_version.specs.Edits.{Before, IsPlace, last_level, last_number};
ghost use Rattle.lsm_version.specs.Reading.{HasNext, IsPlaceIn, IsPlaceAt, IsRank, IsBehind, IsFieldAt, IsBadAt, IsRest, GoesOn, rank_at};

use crate::fields::{ADDED, DROPPED, Field, LAST_SEQUENCE, LOG_NUMBER, NEXT_NUMBER, Rank};
use crate::numbers::read_number;
use crate::refusals::EditError;
use crate::table_reading::read_table;
use crate::tables::{Add, Place};
use lsm_bytes::Malformed;
use lsm_names::LAST_FILE_NUMBER;
use lsm_rows::SEQUENCES;
use std::alloc::Global;

const LAST_LEVEL: u8 = 6;

/// The field that stands at a place, and the place behind it. It must come behind what has the rank `after`.
pub fn read_field(
    alloc: Global,
    bytes: &[u8],
    at: usize,
    after: Rank,
) -> Result<(Field, usize), EditError>
    requires at { at < length bytes.now }
    requires after { IsRank after }
    ensures ok { IfOk result (λ r. IsFieldAt bytes.now at after r.0 r.1) }
    ensures bad { IfErr result (λ e. IsBadAt (IsRest after) (GoesOn after) bytes.now at e) }
{
    match bytes[at] {
        LOG_NUMBER => read_log(bytes, at, after),
        NEXT_NUMBER => read_next(bytes, at, after),
        LAST_SEQUENCE => read_last(bytes, at, after),
        ADDED => read_added(alloc, bytes, at, after),
        DROPPED => read_dropped(bytes, at, after),
        _ => Err(EditError::BadEdit { place: at }),
    }
}

// A log number, whose tag stands at the place.
fn read_log(bytes: &[u8], at: usize, after: Rank) -> Result<(Field, usize), EditError>
    requires at { at < length bytes.now }
    requires tag { slice_index bytes.now at ≡ 1 }
    ensures ok { IfOk result (λ r. IsFieldAt bytes.now at after r.0 r.1) }
    ensures bad { IfErr result (λ e. IsBadAt (IsRest after) (GoesOn after) bytes.now at e) }
{
    if after.tag >= LOG_NUMBER {
        return Err(EditError::BadEdit { place: at });
    }
    let (number, next) = read_number(bytes, at + 1, 1, LAST_FILE_NUMBER)?;
    Ok((Field::LogNumber(number), next))
}

// The number of the next file, whose tag stands at the place.
fn read_next(bytes: &[u8], at: usize, after: Rank) -> Result<(Field, usize), EditError>
    requires at { at < length bytes.now }
    requires tag { slice_index bytes.now at ≡ 2 }
    ensures ok { IfOk result (λ r. IsFieldAt bytes.now at after r.0 r.1) }
    ensures bad { IfErr result (λ e. IsBadAt (IsRest after) (GoesOn after) bytes.now at e) }
{
    if after.tag >= NEXT_NUMBER {
        return Err(EditError::BadEdit { place: at });
    }
    let (number, next) = read_number(bytes, at + 1, 1, SEQUENCES - 1)?;
    Ok((Field::NextNumber(number), next))
}

// The last sequence in tables, whose tag stands at the place.
fn read_last(bytes: &[u8], at: usize, after: Rank) -> Result<(Field, usize), EditError>
    requires at { at < length bytes.now }
    requires tag { slice_index bytes.now at ≡ 3 }
    ensures ok { IfOk result (λ r. IsFieldAt bytes.now at after r.0 r.1) }
    ensures bad { IfErr result (λ e. IsBadAt (IsRest after) (GoesOn after) bytes.now at e) }
{
    if after.tag >= LAST_SEQUENCE {
        return Err(EditError::BadEdit { place: at });
    }
    let (number, next) = read_number(bytes, at + 1, 0, SEQUENCES - 1)?;
    Ok((Field::LastSequence(number), next))
}

// A table added, whose tag stands at the place.
fn read_added(
    alloc: Global,
    bytes: &[u8],
    at: usize,
    after: Rank,
) -> Result<(Field, usize), EditError>
    requires at { at < length bytes.now }
    requires tag { slice_index bytes.now at ≡ 4 }
    requires after { IsRank after }
    ensures ok { IfOk result (λ r. IsFieldAt bytes.now at after r.0 r.1) }
    ensures bad { IfErr result (λ e. IsBadAt (IsRest after) (GoesOn after) bytes.now at e) }
{
    let Some(behind) = behind(ADDED, after) else {
        return Err(EditError::BadEdit { place: at });
    };
    let (place, rest) = read_place(bytes, at + 1, behind)?;
    let (table, next) = read_table(alloc, bytes, rest, place.number)?;
    let level = place.level;
    Ok((Field::Added(Add { level, table }), next))
}

// A table dropped, whose tag stands at the place.
fn read_dropped(bytes: &[u8], at: usize, after: Rank) -> Result<(Field, usize), EditError>
    requires at { at < length bytes.now }
    requires tag { slice_index bytes.now at ≡ 5 }
    requires after { IsRank after }
    ensures ok { IfOk result (λ r. IsFieldAt bytes.now at after r.0 r.1) }
    ensures bad { IfErr result (λ e. IsBadAt (IsRest after) (GoesOn after) bytes.now at e) }
{
    let Some(behind) = behind(DROPPED, after) else {
        return Err(EditError::BadEdit { place: at });
    };
    let (place, next) = read_place(bytes, at + 1, behind)?;
    Ok((Field::Dropped(place), next))
}

// The place that a table's field of this tag must come behind; None where there can be no such field.
fn behind(tag: u8, after: Rank) -> Option<Place>
    requires { IsRank after }
    ensures some { IfSome result (λ behind. IsBehind tag after behind) }
    ensures none { IfNone result ((level number : ℕ) → IsPlace level number → ¬ Before after (rank_at tag level number)) }
{
    if after.tag < tag {
        Some(Place {
            level: 0,
            number: 0,
        })
    } else if after.tag == tag && has_next(after) {
        Some(Place {
            level: after.level,
            number: after.number,
        })
    } else {
        None
    }
}

// Whether the level and the number aren't the last.
fn has_next(after: Rank) -> bool
    ensures yes { OnTrue result ((after.level < last_level) ⊎ (after.number < last_number)) }
    ensures no { OnFalse result ((last_level ≤ after.level) × (last_number ≤ after.number)) }
{
    after.level < LAST_LEVEL || after.number < LAST_FILE_NUMBER
}

// The level and the number that stand at a place, behind those of `behind`, and the place behind them.
fn read_place(bytes: &[u8], at: usize, behind: Place) -> Result<(Place, usize), Malformed>
    requires at { at ≤ length bytes.now }
    requires behind { HasNext behind }
    ensures ok { IfOk result (λ r. IsPlaceAt bytes.now at behind r.0 r.1) }
    ensures fault { IfErr result (λ e. FaultFrom (IsPlaceIn behind) bytes.now at e.place) }
{
    let least = least_level(behind);
    let (level, number_at) = read_number(bytes, at, least, LAST_LEVEL as u64)?;
    let level = level as u8;
    let least = least_number(behind, level);
    let (number, next) = read_number(bytes, number_at, least, LAST_FILE_NUMBER)?;
    Ok((Place { level, number }, next))
}

// The least level at which a table may come behind.
fn least_level(behind: Place) -> u64
    ensures same { behind.number < last_number → result ≡ behind.level }
    ensures next { last_number ≤ behind.number → result ≡ behind.level + 1 }
{
    if behind.number < LAST_FILE_NUMBER {
        u64::from(behind.level)
    } else {
        u64::from(behind.level) + 1
    }
}

// The least number with which a table of this level may come behind.
fn least_number(behind: Place, level: u8) -> u64
    requires { behind.number ≤ last_number }
    ensures same { level ≡ behind.level → result ≡ behind.number + 1 }
    ensures other { level ≢ behind.level → result ≡ 1 }
{
    if level == behind.level {
        behind.number + 1
    } else {
        1
    }
}
