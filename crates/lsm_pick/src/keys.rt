//! User keys of tables, and the ranges from one to another.
ghost use Rattle.std.specs.Prelude.{◌≡◌, if◌then◌else◌};
ghost use Rattle.std.specs.Ordering.{is_le, is_lt};
ghost use Rattle.lsm_rows.specs.InternalKeys.{user_key};
ghost use Rattle.lsm_rows.specs.Replay.{key_cmp};
ghost use Rattle.lsm_pick.specs.Picked.{range_of, joined, meets};
ghost use Rattle.lsm_pick.specs.Views.{range_in};

use lsm_version::Placed;

// The bytes behind the user key in an internal key.
const TRAILER: usize = 8;

/// The user keys from a least one to a greatest.
#[derive(Clone, Copy)]
pub(crate) struct Keys<'a> {
    pub least: &'a [u8],
    pub greatest: &'a [u8],
}

/// The user keys of a table's range.
pub(crate) fn keys_of<'a>(placed: &'a Placed) -> Keys<'a>
    ensures { range_in result ≡ range_of placed.now }
{
    Keys {
        least: user_key(placed.info.smallest.as_slice()),
        greatest: user_key(placed.info.largest.as_slice()),
    }
}

/// The range from the less of two least keys to the greater of two greatest.
pub(crate) fn joined<'a>(a: Keys<'a>, b: Keys<'a>) -> Keys<'a>
    ensures { range_in result ≡ joined (range_in a.entry) (range_in b.entry) }
{
    Keys {
        least: lesser(a.least, b.least),
        greatest: greater(a.greatest, b.greatest),
    }
}

/// Whether neither the table nor the range ends before the other begins.
pub(crate) fn meets(keys: Keys<'_>, number: u64, placed: &Placed) -> bool
    ensures { result ≡ meets (range_in keys.entry) (number, placed.now) }
{
    let other = keys_of(placed);
    other.least.cmp(keys.greatest).is_le() && keys.least.cmp(other.greatest).is_le()
}

/// Whether a table's least key is less than another's.
pub(crate) fn begins_before(a: &Placed, b: &Placed) -> bool
    ensures { result ≡ is_lt (key_cmp (user_key a.now.info.smallest) (user_key b.now.info.smallest)) }
{
    user_key(a.info.smallest.as_slice())
        .cmp(user_key(b.info.smallest.as_slice()))
        .is_lt()
}

// The less of two keys, the first where they are equal.
fn lesser<'a>(a: &'a [u8], b: &'a [u8]) -> &'a [u8]
    ensures { result.now ≡ (if is_le (key_cmp a.now b.now) then a.now else b.now) }
{
    if a.cmp(b).is_le() { a } else { b }
}

// The greater of two keys, the first where they are equal.
fn greater<'a>(a: &'a [u8], b: &'a [u8]) -> &'a [u8]
    ensures { result.now ≡ (if is_le (key_cmp b.now a.now) then a.now else b.now) }
{
    if b.cmp(a).is_le() { a } else { b }
}

// All but the last 8 bytes of an internal key.
fn user_key(key: &[u8]) -> &[u8]
    ensures { result.now ≡ user_key key.now }
{
    let len = key.len().saturating_sub(TRAILER);
    key.split_at(len).0
}
