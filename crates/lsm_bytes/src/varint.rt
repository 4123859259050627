//! Numbers of 64 bits in one to ten bytes, in the one shortest spelling of each.
ghost use Rattle.std.specs.Prelude.{◌≡◌, ◌≢◌, ◌++◌, ◌-◌, ◌<◌, ◌≤◌, ◌⊎◌, ℕ, length, drop, min, IfOk, IfErr, OnErr, is_ok, if◌then◌else◌};
ghost use Rattle.std.specs.Bool.{OnTrue, OnFalse};
ghost use Rattle.lsm_bytes.specs.Faults.{IsFirstFault};
ghost use Rattle.lsm_bytes.specs.Varint.{varint, IsVarintAt, BeginsWithVarint};

use crate::{Bytes, Malformed, NoMemory};

/// How many bytes the longest spelling has.
const LONGEST: usize = 10;

/// Writes the number's one spelling at the end. After an error the list is as it was.
pub fn push_varint(out: &mut Bytes, value: u64) -> Result<(), NoMemory>
    ensures { out.new ≡ (if is_ok result then out.old ++ varint value else out.old) }
{
    let mut spelling = [0u8; LONGEST];
    let mut len = 0;
    let mut rest = value;
    while rest >= 128 {
        spelling[len] = (rest % 128) as u8 + 128;
        len += 1;
        rest /= 128;
    }
    spelling[len] = rest as u8;
    out.extend_from_slice(&spelling[..len + 1])?;
    Ok(())
}

/// Reads the number whose spelling stands at a place, and gives the place after it.
///
/// It refuses bytes that end early, a number of more than 64 bits, and a spelling that isn't the shortest.
pub fn read_varint(bytes: &[u8], at: usize) -> Result<(u64, usize), Malformed>
    ensures read { IfOk result (λ r. IsVarintAt bytes.now at r.0 r.1) }
    ensures refused { OnErr result ((n next : ℕ) → ¬ IsVarintAt bytes.now at n next) }

    // The place is counted from where the spelling should begin, or from the end of the bytes where that is less.
    ensures fault { IfErr result (λ e. IsFirstFault BeginsWithVarint (drop at bytes.now) (e.place - at)) }
    ensures from { IfErr result (λ e. min at (length bytes.now) ≤ e.place) }
    ensures within { IfErr result (λ e. e.place ≤ length bytes.now) }
{
    if at > bytes.len() {
        return Err(Malformed { place: bytes.len() });
    }
    match first_varint(bytes.split_at(at).1) {
        Ok((number, len)) => Ok((number, at + len)),
        Err(fault) => Err(Malformed { place: at + fault }),
    }
}

/// Reads the number with whose spelling the bytes begin, and gives the spelling's length; or gives the place of
/// the first fault.
fn first_varint(bytes: &[u8]) -> Result<(u64, usize), usize>
    ensures read { IfOk result (λ r. IsVarintAt bytes.now 0 r.0 r.1) }
    ensures refused { OnErr result (¬ BeginsWithVarint bytes.now) }
    ensures fault { IfErr result (λ place. IsFirstFault BeginsWithVarint bytes.now place) }
{
    let mut number = 0u64;
    let mut unit = 1u64;
    for (index, byte) in bytes.iter().enumerate() {
        let byte = u64::from(*byte);
        if is_fault(index, byte) {
            return Err(index);
        }
        if byte < 128 {
            return Ok((number + byte * unit, index + 1));
        }
        number += (byte - 128) * unit;
        unit *= 128;
    }
    Err(bytes.len())
}

/// Whether no spelling of 64 bits has this byte at this place, where the bytes before it say that more follow: it
/// is a zero, which a shorter spelling leaves out, or the tenth byte, for which one bit is left, and not a one.
fn is_fault(index: usize, byte: u64) -> bool
    ensures fault { OnTrue result (((0 < index) × (byte ≡ 0)) ⊎ ((index ≡ 9) × (byte ≢ 1))) }
    ensures good { OnFalse result ((0 < index → 0 < byte) × (index ≡ 9 → byte ≡ 1)) }
{
    (index > 0 && byte == 0) || (index == LONGEST - 1 && byte != 1)
}
