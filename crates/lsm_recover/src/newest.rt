//! Each key's newest row, of rows that come in any order.
ghost use Rattle.std.specs.Prelude.{◌≡◌, OnOk};
ghost use Rattle.std.specs.FinMap as finmap;
ghost use Rattle.lsm_rows.specs.Replay.{key_cmp};
ghost use Rattle.lsm_recover.specs.Gathered.{none_gathered, is_newer, with_value, with_row, with_rows};

use lsm_bytes::{Bytes, NoMemory};
use lsm_rows::{Pairs, Row};
use std::alloc::Global;
use std::collections::BTreeMap;
use std::marker::Model;

/// The contents that rows stand for, and of each key the sequence of its newest row.
#[derive(Drop)]
pub(crate) struct NewestRows {
    alloc: Global,
    contents: Pairs,
    sequences: BTreeMap<Bytes, u64>,
}

impl Model for NewestRows {
    ghost use Rattle.std.specs.FinMap as finmap;
    ghost use Rattle.lsm_recover.specs.Gathered.{Gathered, coded_gathered};

    ghost Value = { Gathered };

    ghost coded = { coded_gathered };

    ghost view = { λ n. record { contents = n.contents; sequences = finmap.from_entries n.sequences.entries } };
}

impl NewestRows {
    /// No rows.
    pub(crate) fn new(alloc: Global) -> Self
        ensures { result ≡ none_gathered }
    {
        NewestRows {
            alloc,
            contents: Pairs::new(alloc),
            sequences: BTreeMap::new(alloc),
        }
    }

    /// Adds a row. Of rows of one key and one sequence the first counts. After an error the row
    /// counts in part.
    #[tactic(auto, unfolding(crate::specs::Gathered::with_row))]
    pub(crate) fn add(&mut self, row: &Row) -> Result<(), NoMemory>
        ensures { OnOk result (self.new ≡ with_row self.old row.now) }
    {
        if !is_newer(&self.sequences, row) {
            return Ok(());
        }
        set_value(&mut self.contents, row)?;
        let key = row.key.copy(self.alloc)?;
        self.sequences.insert(key, row.sequence)?;
        Ok(())
    }

    /// Adds rows in their order.
    pub(crate) fn add_all(&mut self, rows: &[Row]) -> Result<(), NoMemory>
        ensures { OnOk result (self.new ≡ with_rows self.old rows.now) }
    {
        for row in rows {
            self.add(row)?;
        }
        Ok(())
    }

    /// The contents that the rows stand for.
    pub(crate) fn into_contents(self) -> Pairs
        ensures { result ≡ self.contents }
    {
        self.contents
    }
}

// Whether a row is newer than the newest of its key.
fn is_newer(sequences: &BTreeMap<Bytes, u64>, row: &Row) -> bool
    ensures { result ≡ is_newer (finmap.get {R = key_cmp} (finmap.from_entries sequences.now.entries) row.now.key)
        row.now.sequence }
{
    match sequences.get(&row.key) {
        Some(newest) => *newest < row.sequence,
        None => true,
    }
}

// Gives a row's key its value, or none.
fn set_value(contents: &mut Pairs, row: &Row) -> Result<(), NoMemory>
    ensures { OnOk result (contents.new ≡ with_value contents.old row.now.key row.now.value) }
{
    match &row.value {
        Some(value) => contents.put(row.key.as_slice(), value.as_slice()),
        None => {
            contents.remove(row.key.as_slice());
            Ok(())
        }
    }
}
