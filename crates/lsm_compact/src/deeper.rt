//! Which deletes a compaction may leave out.
ghost use Rattle.std.specs.Prelude.{◌≡◌, ◌++◌, ℕ, List, IfOk, OnOk};
ghost use Rattle.lsm_rows.specs.InternalKeys.{user_key};
ghost use Rattle.lsm_version.specs.Orders.{AreLevels};
ghost use Rattle.lsm_compact.specs.Ranges.{lies_in, has_key, range_of, ranges_at, is_deeper};
ghost use Rattle.lsm_compact.specs.Written.{is_input, is_below};

use lsm_bytes::{Bytes, NoMemory};
use lsm_version::{Choice, Place, Placed, Version};
use std::alloc::Global;
use std::marker::Model;

// The bytes behind the user key in an internal key.
const TRAILER: usize = 8;

/// The least and the greatest user key of a table.
#[derive(Drop)]
pub struct KeyRange {
    pub least: Bytes,
    pub greatest: Bytes,
}

/// The ranges of the tables that are deeper than a compaction's output and that it doesn't read. Contracts see the ranges.
#[derive(Drop)]
pub struct Deeper {
    ranges: Vec<KeyRange>,
}

impl Model for Deeper {
    ghost use Rattle.std.specs.Prelude.{List};
    ghost use Rattle.lsm_compact.specs.declared.deeper.KeyRange.{KeyRange};

    ghost Value = { List KeyRange };

    ghost view = { λ d. d.ranges.items };
}

impl Deeper {
    /// The ranges of a version's tables, for a compaction of this choice.
    pub fn new(alloc: Global, version: &Version, choice: &Choice) -> Result<Self, NoMemory>
        requires { AreLevels version.now }
        ensures { IfOk result (λ deeper. (key : List ℕ) → has_key deeper key ≡ is_below version.now choice.now key) }
    {
        let places = version.places(alloc)?;
        let mut deeper = Deeper {
            ranges: Vec::new(alloc),
        };
        for place in places.as_slice() {
            deeper.push(alloc, version, choice, *place)?;
        }
        Ok(deeper)
    }

    /// Whether the key lies in one of the ranges.
    pub fn has(&self, key: &[u8]) -> bool
        ensures { result ≡ has_key self.now key.now }
    {
        self.ranges.iter().any(|range| lies_in(range, key))
    }

    // Adds the range of the table at a place, if it is deeper than the output and isn't read.
    fn push(
        &mut self,
        alloc: Global,
        version: &Version,
        choice: &Choice,
        place: Place,
    ) -> Result<(), NoMemory>
        ensures { OnOk result (self.new ≡ self.old ++ ranges_at version.now choice.now place) }
    {
        if !is_deeper(choice, place) {
            return Ok(());
        }
        if let Some(placed) = version.get(place.number) {
            self.ranges.push(range_of(alloc, placed)?)?;
        }
        Ok(())
    }
}

// Whether a place is deeper than the output, and isn't one of the inputs.
fn is_deeper(choice: &Choice, place: Place) -> bool
    ensures { result ≡ is_deeper choice.now place }
{
    choice.output < place.level && !is_input(choice.inputs.as_slice(), place.number)
}

// Whether one of these places is of this number.
fn is_input(inputs: &[Place], number: u64) -> bool
    ensures { result ≡ is_input inputs.now number }
{
    inputs.iter().any(|place| place.number == number)
}

// The user keys of a table's range.
fn range_of(alloc: Global, placed: &Placed) -> Result<KeyRange, NoMemory>
    ensures { IfOk result (λ range. range ≡ range_of placed.now) }
{
    Ok(KeyRange {
        least: Bytes::from_slice(alloc, user_key(placed.info.smallest.as_slice()))?,
        greatest: Bytes::from_slice(alloc, user_key(placed.info.largest.as_slice()))?,
    })
}

// Whether a key is in the range.
fn lies_in(range: &KeyRange, key: &[u8]) -> bool
    ensures { result ≡ lies_in key.now range.now }
{
    range.least.as_slice().cmp(key).is_le() && key.cmp(range.greatest.as_slice()).is_le()
}

// All but the last 8 bytes of an internal key.
fn user_key(key: &[u8]) -> &[u8]
    ensures { result.now ≡ user_key key.now }
{
    let len = key.len().saturating_sub(TRAILER);
    key.split_at(len).0
}
