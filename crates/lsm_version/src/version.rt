//! Versions: which tables are live, and at which levels.
ghost use Rattle.std.specs.Prelude.{◌≡◌, ◌≢◌, ℕ, ◌<◌, ◌^◌, List, [], length, Option, Some, None, Ok, Err, OnOk, OnErr, IfOk, IfErr, IfSome, IfNone, option_map};
ghost use Rattle.std.specs.FinMap as finite;
ghost use Rattle.std.specs.List.{fold};
ghost use Rattle.lsm_version.specs.declared.refusals.ApplyError.TheVariants.{BadEdit, NoMemory};
ghost use Rattle.lsm_version.specs.declared.tables.Placed.{Placed};
ghost use Rattle.lsm_version.specs.Levels.{Overlap, clash, overlap, overlaps, overlaps_at, overlaps_from, overlaps_with};
ghost use Rattle.lsm_rows.specs.InternalKeys.{user_key};
ghost use Rattle.lsm_rows.specs.Replay.{key_cmp};
ghost use Rattle.std.specs.Ordering.{is_le, nat_cmp};
ghost use Rattle.std.specs.BTreeMap.{IsOrdered};
ghost use Rattle.lsm_version.specs.Orders.{level_places, places_of, search_order};
ghost use Rattle.lsm_version.specs.Versions.{empty_version, is_of_level, dropped, added, applied, refused_by, first_of};

use crate::choices::Inputs;
use crate::edits::Edit;
use crate::orders::{LEVELS, push_level, push_levels};
use crate::refusals::ApplyError;
use crate::tables::{Add, Place, Placed, TableInfo};
use std::alloc::Global;
use std::collections::BTreeMap;
use std::marker::Model;

// The bytes behind the user key in an internal key.
const TRAILER: usize = 8;

/// The live tables, each with its level. Contracts see them as a finite map from the tables' numbers.
#[derive(Drop)]
pub struct Version {
    tables: BTreeMap<u64, Placed>,
}

impl Model for Version {
    ghost use Rattle.std.specs.FinMap as finite;
    ghost use Rattle.lsm_version.specs.Levels.{Tables};
    ghost use Rattle.lsm_version.specs.Versions.{coded_tables};

    ghost Value = { Tables };

    ghost coded = { coded_tables };

    ghost view = { λ v. finite.from_entries v.tables.entries };
}

impl Version {
    /// The version with no tables.
    pub fn empty(alloc: Global) -> Self
        ensures { result ≡ empty_version }
    {
        Version {
            tables: BTreeMap::new(alloc),
        }
    }

    /// The number of tables.
    pub fn len(&self) -> usize
        ensures len { result ≡ finite.len self.now }
        ensures small { result < 2 ^ 63 }
    {
        self.tables.len()
    }

    /// The table of a number, and its level.
    pub fn get(&self, number: u64) -> Option<&Placed>
        ensures { option_map (λ placed. placed.now) result ≡ finite.get self.now number }
    {
        self.tables.get(&number)
    }

    /// The tables with their levels, in the order of their numbers.
    pub fn tables(&self) -> &BTreeMap<u64, Placed>
        ensures { finite.from_entries result.now.entries ≡ self.now }
    {
        &self.tables
    }

    /// The places of a level's tables, by their numbers.
    pub fn level_places(&self, alloc: Global, level: u8) -> Result<Inputs, lsm_bytes::NoMemory>
        ensures { IfOk result (λ places. places ≡ level_places self.now level) }
    {
        let mut places = Inputs::new(alloc);
        push_level(&mut places, &self.tables, level)?;
        Ok(places)
    }

    /// The places of all tables, by level and then by number.
    pub fn places(&self, alloc: Global) -> Result<Inputs, lsm_bytes::NoMemory>
        ensures { IfOk result (λ places. places ≡ places_of self.now) }
    {
        let mut places = Inputs::new(alloc);
        push_levels(&mut places, &self.tables, 0)?;
        Ok(places)
    }

    /// The places of all tables in the order in which a key is looked for: newest rows first.
    pub fn search_order(&self, alloc: Global) -> Result<Inputs, lsm_bytes::NoMemory>
        ensures { IfOk result (λ order. order ≡ search_order self.now) }
    {
        let mut order = Inputs::new(alloc);
        push_level(&mut order, &self.tables, 0)?;
        order.reverse();
        push_levels(&mut order, &self.tables, 1)?;
        Ok(order)
    }

    /// The version after an edit: its drops first, and then its adds. This version stays as it was.
    pub fn apply(&self, alloc: Global, edit: &Edit) -> Result<Version, ApplyError>
        ensures ok { IfOk result (λ version. applied self.now edit.now ≡ Ok version) }
        ensures refused { IfErr result (λ e. e ≢ NoMemory → applied self.now edit.now ≡ Err e) }
    {
        let mut version = self.copy(alloc)?;
        version.drop_all(edit.drops.as_slice())?;
        version.add_all(alloc, edit.adds.as_slice())?;
        version.test_levels()?;
        Ok(version)
    }

    // The same tables, in memory of their own.
    fn copy(&self, alloc: Global) -> Result<Version, ApplyError>
        ensures ok { IfOk result (λ version. version ≡ self.now) }
        ensures err { IfErr result (λ e. e ≡ NoMemory) }
    {
        let tables = copied(alloc, &self.tables)?;
        Ok(Version { tables })
    }

    // Takes the tables away, in their order, each from its level.
    fn drop_all(&mut self, places: &[Place]) -> Result<(), ApplyError>
        ensures ok { OnOk result (fold dropped (Some self.old) places.now ≡ Some self.new) }
        ensures err { IfErr result (λ e. e ≡ BadEdit 0) }
        ensures refused { OnErr result (fold dropped (Some self.old) places.now ≡ None) }
    {
        for place in places {
            self.drop_one(*place)?;
        }
        Ok(())
    }

    // Takes a table away from its level.
    fn drop_one(&mut self, place: Place) -> Result<(), ApplyError>
        ensures ok { OnOk result (dropped (Some self.old) place ≡ Some self.new) }
        ensures err { IfErr result (λ e. e ≡ BadEdit 0) }
        ensures refused { OnErr result (dropped (Some self.old) place ≡ None) }
    {
        if !self.has(place) {
            return Err(ApplyError::BadEdit { place: 0 });
        }
        self.tables.remove(&place.number);
        Ok(())
    }

    // Whether a table of the place's number stands at its level.
    fn has(&self, place: Place) -> bool
        ensures { result ≡ is_of_level place.level (finite.get self.now place.number) }
    {
        match self.tables.get(&place.number) {
            Some(placed) => placed.level == place.level,
            None => false,
        }
    }

    // Adds copies of the tables, in their order. Where memory is wanting some of them stand.
    fn add_all(&mut self, alloc: Global, adds: &[Add]) -> Result<(), ApplyError>
        ensures ok { OnOk result (fold added (Some self.old) adds.now ≡ Some self.new) }
        ensures err { IfErr result (λ e. e ≢ NoMemory → (e ≡ BadEdit 0) × (fold added (Some self.old) adds.now ≡ None)) }
    {
        for add in adds {
            self.add_one(alloc, add)?;
        }
        Ok(())
    }

    // Adds a copy of a table whose number is free.
    fn add_one(&mut self, alloc: Global, add: &Add) -> Result<(), ApplyError>
        ensures ok { OnOk result (added (Some self.old) add.now ≡ Some self.new) }
        ensures err { IfErr result (λ e. e ≢ NoMemory → (e ≡ BadEdit 0) × (added (Some self.old) add.now ≡ None)) }
    {
        if self.tables.contains_key(&add.table.number) {
            return Err(ApplyError::BadEdit { place: 0 });
        }
        let info = add.table.copy(alloc)?;
        let level = add.level;
        self.tables
            .insert(add.table.number, Placed { level, info })?;
        Ok(())
    }

    // Refuses where two tables of a level from 1 on overlap, with the first pair.
    fn test_levels(&self) -> Result<(), ApplyError>
        ensures ok { OnOk result (overlaps self.now ≡ []) }
        ensures refused { IfErr result (λ e. refused_by self.now (overlaps self.now) ≡ Err e) }
    {
        match first_of_levels(&self.tables) {
            Some((level, left, right)) => Err(ApplyError::BadLevels { level, left, right }),
            None => Ok(()),
        }
    }
}

// The same tables, in memory of their own.
fn copied(
    alloc: Global,
    tables: &BTreeMap<u64, Placed>,
) -> Result<BTreeMap<u64, Placed>, ApplyError>
    ensures ok { IfOk result (λ copied. finite.from_entries {R = nat_cmp} copied.entries ≡ finite.from_entries tables.now.entries) }
    ensures err { IfErr result (λ e. e ≡ NoMemory) }
{
    let mut copied = BTreeMap::new(alloc);
    for (number, placed) in tables {
        let info = placed.info.copy(alloc)?;
        let level = placed.level;
        copied.insert(*number, Placed { level, info })?;
    }
    Ok(copied)
}

// The least level from 1 on at which tables overlap, and the numbers of its first two.
fn first_of_levels(tables: &BTreeMap<u64, Placed>) -> Option<(u8, u64, u64)>
    ensures first { option_map (λ p. record { level = p.0; left = p.1; right = p.2 }) result
        ≡ first_of (overlaps_from 6 1 tables.now.entries) }
    ensures ordered { IsOrdered nat_cmp tables.now }
{
    for level in 1..LEVELS {
        if let Some((left, right)) = first_overlap(tables, level) {
            return Some((level, left, right));
        }
    }
    None
}

// The numbers of a level's first two tables that overlap: the least first one, and of its pairs the least second
// one.
fn first_overlap(tables: &BTreeMap<u64, Placed>, level: u8) -> Option<(u64, u64)>
    ensures first { option_map (λ p. record { level = level; left = p.0; right = p.1 }) result
        ≡ first_of (overlaps_at level tables.now.entries) }
    ensures ordered { IsOrdered nat_cmp tables.now }
{
    for (number, placed) in tables {
        if placed.level == level {
            if let Some(other) = first_with(tables, *number, placed) {
                return Some((*number, other));
            }
        }
    }
    None
}

// The least number of the tables that overlap this one, are of its level and have a greater number.
fn first_with(tables: &BTreeMap<u64, Placed>, number: u64, placed: &Placed) -> Option<u64>
    ensures { option_map (λ b. record { level = placed.now.level; left = number; right = b }) result
        ≡ first_of (overlaps_with placed.now.level tables.now.entries (number, placed.now)) }
{
    for (other, beside) in tables {
        if clash(number, placed, *other, beside) {
            return Some(*other);
        }
    }
    None
}

// Whether the two are of one level, ascend by number, and overlap.
#[tactic(auto, unfolding(crate::specs::Levels::clash))]
fn clash(number: u64, placed: &Placed, other: u64, beside: &Placed) -> bool
    ensures { result ≡ clash placed.now.level (number, placed.now) (other, beside.now) }
{
    number < other && placed.level == beside.level && overlap(&placed.info, &beside.info)
}

// Whether neither table's user keys all come before the other's.
#[tactic(auto, unfolding(crate::specs::Levels::overlap))]
fn overlap(a: &TableInfo, b: &TableInfo) -> bool
    ensures { result ≡ overlap a.now b.now }
{
    reaches(a, b) && reaches(b, a)
}

// Whether a table's least user key is at most another's greatest.
fn reaches(a: &TableInfo, b: &TableInfo) -> bool
    ensures { result ≡ is_le (key_cmp (user_key a.now.smallest) (user_key b.now.largest)) }
{
    user_key(a.smallest.as_slice())
        .cmp(user_key(b.largest.as_slice()))
        .is_le()
}

// All but the last 8 bytes of an internal key.
fn user_key(key: &[u8]) -> &[u8]
    ensures { result.now ≡ user_key key.now }
{
    let len = key.len().saturating_sub(TRAILER);
    key.split_at(len).0
}
