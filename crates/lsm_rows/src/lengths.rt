//! Lengths in a batch's text, and the bytes behind them. They are read byte by byte, so that a refusal names the
//! first byte with which no good text goes on.
ghost use Rattle.std.specs.Prelude.{◌≡◌, ◌+◌, ◌-◌, ◌*◌, ◌/◌, ◌<◌, ◌≤◌, ◌^◌, ◌++◌, length, IfOk, IfErr};
ghost use Rattle.lsm_rows.specs.Pieces.{FaultFrom, IsNumberIn, IsNumberAt, IsSizedIn, IsSizedAt, IsMost, IsByteIn, IsByteAt};

use lsm_bytes::Malformed;

/// The number from `least` to `most` that is spelled from a place on, and the place behind it; or the place of
/// the first fault.
pub fn read_number(
    bytes: &[u8],
    at: usize,
    least: usize,
    most: usize,
) -> Result<(usize, usize), Malformed>
    requires at { at ≤ length bytes.now }
    requires least { least ≤ 1 }
    requires some { least ≤ most }
    requires most { most < 2 ^ 32 }
    ensures ok { IfOk result (λ r. IsNumberAt bytes.now at least most r.0 r.1) }
    ensures fault { IfErr result (λ e. FaultFrom (IsNumberIn least most) bytes.now at e.place) }
{
    if at == bytes.len() {
        return Err(Malformed { place: at });
    }
    let byte = bytes[at] as usize;
    if byte < least || byte > most {
        return Err(Malformed { place: at });
    }
    if byte < 128 {
        return Ok((byte, at + 1));
    }
    let (high, next) = read_number(bytes, at + 1, 1, (most + 128 - byte) / 128)?;
    Ok((byte - 128 + 128 * high, next))
}

/// The bytes, at most `most` of them, that stand with their length before them from a place on, and the place
/// behind them; or the place of the first fault.
pub fn read_sized(bytes: &[u8], at: usize, most: usize) -> Result<(&[u8], usize), Malformed>
    requires at { at ≤ length bytes.now }
    requires most { most < 2 ^ 32 }
    ensures ok { IfOk result (λ r. IsSizedAt bytes.now at most r.0.now r.1) }
    ensures fault { IfErr result (λ e. FaultFrom (IsSizedIn most) bytes.now at e.place) }
{
    let (len, start) = read_number(bytes, at, 0, most)?;
    let rest = bytes.split_at(start).1;
    if rest.len() < len {
        return Err(Malformed { place: bytes.len() });
    }
    Ok((rest.split_at(len).0, start + len))
}

/// The greatest length within a limit that takes at most `room` bytes together with its spelling.
pub fn longest(limit: usize, room: usize) -> usize
    requires limit { limit < 2 ^ 21 }
    requires room { 1 ≤ room }
    ensures { IsMost limit room result }
{
    let prefix = if room <= 128 {
        1
    } else if room <= 16_385 {
        2
    } else {
        3
    };
    limit.min(room - prefix)
}

/// The byte from `least` to `most` that stands at a place.
pub fn read_byte(bytes: &[u8], at: usize, least: usize, most: usize) -> Result<usize, Malformed>
    requires at { at ≤ length bytes.now }
    requires least { least ≤ 1 }
    requires some { least ≤ most }
    ensures ok { IfOk result (λ b. IsByteAt bytes.now at least most b) }
    ensures fault { IfErr result (λ e. FaultFrom (IsByteIn least most) bytes.now at e.place) }
{
    if at == bytes.len() {
        return Err(Malformed { place: at });
    }
    let byte = bytes[at] as usize;
    if byte < least || byte > most {
        return Err(Malformed { place: at });
    }
    Ok(byte)
}
