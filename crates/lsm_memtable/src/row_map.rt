//! The rows of all keys, found by their key.
ghost use Rattle.std.specs.Prelude.{◌≡◌, ◌<◌, ◌≤◌, ◌^◌, ◌+◌, ◌∷◌, ◌++◌, [], ℕ, List, length, take, drop, nat_lt, None, IfOk, OnOk, OnErr, IfSome};
ghost use Rattle.std.specs.List.{filter, sum_by};
ghost use Rattle.std.specs.Option.{option_map};
ghost use Rattle.lsm_rows.specs.Contents.{newest, AllBefore};
ghost use Rattle.lsm_block.specs.Runs.{rows_after};
ghost use Rattle.lsm_memtable.specs.Greatest.{greatest_from};
ghost use Rattle.lsm_memtable.specs.Sizes.{row_bytes, room_of};
ghost use Rattle.lsm_memtable.specs.Newest.{newest_each};
ghost use Rattle.lsm_memtable.specs.Flushing.{IsProgress, StartsAt, IsBuiltTo, IsReady};
ghost use Rattle.lsm_rows.specs.declared.rows.Row.{Row};
ghost use Rattle.lsm_memtable.specs.Order.{AreInOrder};
ghost use Rattle.lsm_memtable.specs.Joining.{IsPut};
ghost use Rattle.lsm_memtable.specs.Kept.{rows_in, heads, AreKept};
ghost use Rattle.lsm_rows.specs.Replay.{key_cmp};
ghost use Rattle.std.specs.BTreeMap.{get_by};
ghost use Rattle.std.specs.BTreeMap.Range.{entries_between};
ghost use Rattle.std.specs.Range.Bound.{bound_map};
ghost use Rattle.std.specs.declared.ops.Bound.TheVariants.{Unbounded};

use crate::places::user_key;
use crate::progress::{Progress, STEP};
use crate::sizes::Sizes;
use crate::versions::Versions;
use lsm_bytes::NoMemory;
use lsm_rows::{Row, Rows};
use std::alloc::Global;
use std::collections::BTreeMap;
use std::marker::Model;
use std::ops::Bound;

/// Rows, found by their user keys. Contracts see them in the order of internal keys.
#[derive(Drop)]
pub struct RowMap {
    keys: BTreeMap<Vec<u8>, Versions>,
}

impl Model for RowMap {
    ghost use Rattle.std.specs.Prelude.{List};
    ghost use Rattle.lsm_rows.specs.declared.rows.Row.{Row};
    ghost use Rattle.lsm_memtable.specs.Kept.{rows_in, AreKept};

    ghost Value = { List Row };

    ghost view = { λ m. rows_in m.keys.entries };

    ghost invariant = { λ m. AreKept m.keys.entries };
}

impl RowMap {
    /// No rows.
    pub fn new(alloc: Global) -> Self
        ensures { result ≡ [] }
    {
        RowMap {
            keys: BTreeMap::new(alloc),
        }
    }

    /// A key's row with the greatest sequence.
    pub fn get(&self, key: &[u8]) -> Option<&Row>
        ensures { option_map (λ row. row.now) result ≡ newest key.now self.now }
    {
        match self.keys.get(key) {
            Some(versions) => versions.newest(),
            None => None,
        }
    }

    /// Adds a row with a sequence past all others. After an error it is let go.
    pub fn push(&mut self, alloc: Global, row: Row) -> Result<(), NoMemory>
        requires past { AllBefore row.sequence self.old }
        requires below { row.sequence < 2 ^ 56 }
        ensures ok { OnOk result (IsPut self.old row self.new) }
        ensures err { OnErr result (self.new ≡ self.old) }
        ensures order { OnOk result (AreInOrder self.new) }
    {
        match self.keys.get_mut(row.key.as_slice()) {
            Some(versions) => {
                versions.push(row)?;
                Ok(())
            }
            None => {
                insert_first(&mut self.keys, alloc, row)?;
                Ok(())
            }
        }
    }

    /// Keeps the rows with sequences below `first`. It takes no memory.
    pub fn take_back(&mut self, first: u64)
        ensures rows { self.new ≡ filter (λ row. nat_lt row.sequence first) self.old }
        ensures order { AreInOrder self.new }
    {
        self.keys
            .retain(move |_key, versions| versions.take_back(first));
    }

    /// The number of rows and their bytes.
    pub fn sizes(&self) -> Sizes
        requires { sum_by row_bytes self.now < 2 ^ 29 }
        ensures rows { result.rows ≡ length self.now }
        ensures bytes { result.bytes ≡ sum_by row_bytes self.now }
    {
        let mut rows = 0;
        let mut bytes = 0;
        for versions in self.keys.values() {
            let sizes = versions.sizes();
            rows += sizes.rows;
            bytes += sizes.bytes;
        }
        Sizes { rows, bytes }
    }

    /// The greatest sequence of the rows; 0 where there are none.
    pub fn last_sequence(&self) -> u64
        ensures { result ≡ greatest_from 0 self.now }
    {
        let mut last = 0;
        for versions in self.keys.values() {
            last = versions.last_from(last);
        }
        last
    }

    /// The next rows after an internal key, at most `count`.
    pub fn rows_after(
        &self,
        alloc: Global,
        after: Option<&[u8]>,
        count: usize,
    ) -> Result<Rows, NoMemory>
        requires { IfSome after (λ key. 8 ≤ length key.now) }
        ensures { IfOk result (λ rows. rows ≡ take count (rows_after (option_map (λ key. key.now) after.entry) self.now)) }
    {
        match after {
            Some(key) => {
                let start = Vec::from_slice(alloc, user_key(key))?;
                copy_from(&self.keys, alloc, Bound::Included(&start), after, count)
            }
            None => copy_from(&self.keys, alloc, Bound::Unbounded, after, count),
        }
    }

    /// Adds the newest rows of the next keys to a table, up to 1,024 behind those that were taken, and gives the key
    /// behind them, if there is one. `from` is the key behind those that were taken.
    pub fn feed(
        &self,
        alloc: Global,
        from: Option<&Vec<u8>>,
        table: &mut Progress,
    ) -> Result<Option<Vec<u8>>, NoMemory>
        requires room { room_of self.now + 4 < 2 ^ 29 }
        requires progress { IsProgress table.old (newest_each self.now) }
        requires ahead { table.old.built ≤ table.old.taken + 1024 }
        requires start { StartsAt (newest_each self.now) table.old.taken (option_map (λ key. key.now) from) }
        requires left { table.old.taken < length (newest_each self.now) }
        ensures ok { IfOk result (λ next. IsBuiltTo (newest_each self.now) (table.old.taken + 1024) table.new.built next) }
        ensures progress { IsProgress table.new (newest_each self.now) }
        ensures ahead { table.new.built ≤ table.old.taken + 1024 }
        ensures taken { table.new.taken ≡ table.old.taken }
        ensures number { table.new.builder.number ≡ table.old.builder.number }
        ensures session { table.new.builder.session ≡ table.old.builder.session }
    {
        let place = table.taken;
        let until = place + STEP;
        if table.built < place {
            return add_keys(&self.keys, alloc, Bound::Unbounded, 0, until, table);
        }
        match from {
            Some(key) => add_keys(&self.keys, alloc, Bound::Included(key), place, until, table),
            None => add_keys(&self.keys, alloc, Bound::Unbounded, 0, until, table),
        }
    }
}

// Adds the first row of a key.
fn insert_first(
    keys: &mut BTreeMap<Vec<u8>, Versions>,
    alloc: Global,
    row: Row,
) -> Result<(), NoMemory>
    requires absent { get_by (λ key. key_cmp row.key key.items) keys.old ≡ None }
    requires kept { AreKept keys.old.entries }
    requires below { row.sequence < 2 ^ 56 }
    ensures put { OnOk result (IsPut (rows_in keys.old.entries) row (rows_in keys.new.entries)) }
    ensures kept { AreKept keys.new.entries }
    ensures err { OnErr result (keys.new.entries ≡ keys.old.entries) }
{
    let key = Vec::from_slice(alloc, row.key.as_slice())?;
    let versions = Versions::of(alloc, row)?;
    keys.insert(key, versions)?;
    Ok(())
}

// Copies of the rows after an internal key, which has no row before the bound.
fn copy_from(
    keys: &BTreeMap<Vec<u8>, Versions>,
    alloc: Global,
    start: Bound<&Vec<u8>>,
    after: Option<&[u8]>,
    count: usize,
) -> Result<Rows, NoMemory>
    requires long { IfSome after (λ key. 8 ≤ length key.now) }
    requires kept { AreKept keys.now.entries }
    ensures { let from = entries_between (λ a b. key_cmp a.items b.items)
        (bound_map (λ key. key.now) start.entry) Unbounded keys.now.entries in
        IfOk result (λ rows. rows ≡ take count (rows_after (option_map (λ key. key.now) after.entry) (rows_in from))) }
{
    let mut out = Rows::new(alloc);
    for (_key, versions) in keys.range((start, Bound::Unbounded)) {
        if out.len() == count {
            return Ok(out);
        }
        versions.copy_after(alloc, after, count, &mut out)?;
    }
    Ok(out)
}

// Adds rows to a table up to the one at the place `until`, and gives the key there. The key at the bound has this place.
fn add_keys(
    keys: &BTreeMap<Vec<u8>, Versions>,
    alloc: Global,
    start: Bound<&Vec<u8>>,
    mut place: usize,
    until: usize,
    table: &mut Progress,
) -> Result<Option<Vec<u8>>, NoMemory>
    requires kept { AreKept keys.now.entries }
    requires room { room_of (rows_in keys.now.entries) + 4 < 2 ^ 29 }
    requires progress { IsProgress table.old (newest_each (rows_in keys.now.entries)) }
    requires place { let from = entries_between (λ a b. key_cmp a.items b.items)
        (bound_map (λ key. key.now) start) Unbounded keys.now.entries in
        heads from ≡ drop place (newest_each (rows_in keys.now.entries)) }
    requires built { place ≤ table.old.built }
    requires until { table.old.built ≤ until }
    ensures ok { IfOk result (λ next. IsBuiltTo (newest_each (rows_in keys.now.entries)) until table.new.built next) }
    ensures progress { IsProgress table.new (newest_each (rows_in keys.now.entries)) }
    ensures ahead { table.new.built ≤ until }
    ensures taken { table.new.taken ≡ table.old.taken }
    ensures number { table.new.builder.number ≡ table.old.builder.number }
    ensures session { table.new.builder.session ≡ table.old.builder.session }
{
    for (key, versions) in keys.range((start, Bound::Unbounded)) {
        if place == until {
            return Ok(Some(Vec::from_slice(alloc, key.as_slice())?));
        }
        add_at(table, alloc, place, versions)?;
        place += 1;
    }
    Ok(None)
}

// Adds the newest row of a key to a table, if the row with its place is the next one.
fn add_at(
    table: &mut Progress,
    alloc: Global,
    place: usize,
    versions: &Versions,
) -> Result<(), NoMemory>
    requires { (rows : List Row) × IsReady table.old rows place versions.now }
    ensures progress { (rows : List Row) → IsReady table.old rows place versions.now → IsProgress table.new rows }
    ensures built { OnOk result (place < table.new.built) }
    ensures most { (limit : ℕ) → table.old.built ≤ limit → place < limit → table.new.built ≤ limit }
    ensures taken { table.new.taken ≡ table.old.taken }
    ensures number { table.new.builder.number ≡ table.old.builder.number }
    ensures session { table.new.builder.session ≡ table.old.builder.session }
{
    if place < table.built {
        return Ok(());
    }
    match versions.newest() {
        Some(row) => {
            table.add(alloc, row)?;
            Ok(())
        }
        None => Ok(()),
    }
}
