//! What stands before a batch's operations: the first sequence and the count.
ghost use Rattle.std.specs.Prelude.{◌≡◌, ◌+◌, ◌-◌, ◌*◌, ◌<◌, ◌≤◌, ◌^◌, length, IfOk, IfErr};
ghost use Rattle.lsm_bytes.specs.Numbers.{number_at};
ghost use Rattle.std.specs.Int.{w32, w64, to_le_bytes};
ghost use Rattle.std.specs.Prelude.{ℕ, drop, take, ◌++◌};
ghost use Rattle.lsm_rows.specs.Pieces.{Begins, IsFault, FaultFrom};
ghost use Rattle.lsm_rows.specs.Decoding.{IsFirst, IsCount, IsHeader, IsHeaderAt};

use crate::lengths::read_byte;
use crate::limits::{MAX_COUNT, SEQUENCES};
use lsm_bytes::{Malformed, read_u64};

/// The first sequence and the count, or the place of the first fault.
pub fn read_header(bytes: &[u8]) -> Result<(u64, usize), Malformed>
    ensures ok { IfOk result (λ r. IsHeaderAt bytes.now r.0 r.1) }
    ensures fault { IfErr result (λ e. IsFault IsHeader (Begins IsHeader) bytes.now e.place) }
{
    let first = read_first(bytes)?;
    let count = read_count(bytes, most_count(first))?;
    Ok((first, count))
}

// The most operations that have sequences from the first one on.
fn most_count(first: u64) -> usize
    requires { first < 2 ^ 56 }
    ensures some { 1 ≤ result }
    ensures most { result ≤ 1024 }
    ensures last { first + result ≤ 2 ^ 56 }
    ensures greatest { (n : ℕ) → n ≤ 1024 → first + n ≤ 2 ^ 56 → n ≤ result }
{
    let left = SEQUENCES - first;
    if left < 1024 {
        left as usize
    } else {
        MAX_COUNT
    }
}

// The first sequence. It is below 2^56, so its last byte is 0.
fn read_first(bytes: &[u8]) -> Result<u64, Malformed>
    ensures within { IfOk result (λ _. 8 ≤ length bytes.now) }
    ensures below { IfOk result (λ first. first < 2 ^ 56) }
    ensures text { IfOk result (λ first. take 8 bytes.now ≡ to_le_bytes w64 first) }
    ensures fault { IfErr result (λ e. IsFault IsFirst (Begins IsFirst) bytes.now e.place) }
{
    let first = read_u64(bytes, 0)?;
    if first >= SEQUENCES {
        return Err(Malformed { place: 7 });
    }
    Ok(first)
}

// The count, from 1 to `most`, behind the first sequence. Its lower byte may be 0 only where the upper one isn't.
fn read_count(bytes: &[u8], most: usize) -> Result<usize, Malformed>
    requires within { 8 ≤ length bytes.now }
    requires some { 1 ≤ most }
    requires most { most ≤ 1024 }
    ensures some { IfOk result (λ count. 1 ≤ count) }
    ensures most { IfOk result (λ count. count ≤ most) }
    ensures within { IfOk result (λ _. 12 ≤ length bytes.now) }
    ensures text { IfOk result (λ count. drop 8 bytes.now ≡ to_le_bytes w32 count ++ drop 12 bytes.now) }
    ensures fault { IfErr result (λ e. FaultFrom (IsCount most) bytes.now 8 e.place) }
{
    let least_lower = if most < 256 { 1 } else { 0 };
    let lower = read_byte(bytes, 8, least_lower, most)?;
    let least_upper = if lower == 0 { 1 } else { 0 };
    let upper = read_byte(bytes, 9, least_upper, (most - lower) / 256)?;
    read_byte(bytes, 10, 0, 0)?;
    read_byte(bytes, 11, 0, 0)?;
    Ok(lower + 256 * upper)
}
