//! Numbers within bounds, read byte by byte, so that a refusal names the first byte with which no good text goes on.
ghost use Rattle.std.specs.Prelude.{◌≡◌, ◌<◌, ◌≤◌, length, IfOk, IfErr};
ghost use Rattle.lsm_rows.specs.Pieces.{FaultFrom, IsNumberIn, IsNumberAt};
ghost use Rattle.lsm_version.specs.Reading.{IsLeastHigh};

use lsm_bytes::Malformed;

/// The number from `least` to `most` that is spelled from a place on, and the place behind it; or the place of the
/// first fault.
pub fn read_number(
    bytes: &[u8],
    at: usize,
    least: u64,
    most: u64,
) -> Result<(u64, usize), Malformed>
    requires at { at ≤ length bytes.now }
    requires some { least ≤ most }
    ensures ok { IfOk result (λ r. IsNumberAt bytes.now at least most r.0 r.1) }
    ensures fault { IfErr result (λ e. FaultFrom (IsNumberIn least most) bytes.now at e.place) }
{
    if at == bytes.len() {
        return Err(Malformed { place: at });
    }
    let byte = u64::from(bytes[at]);
    if byte < 128 {
        if byte < least || byte > most {
            return Err(Malformed { place: at });
        }
        return Ok((byte, at + 1));
    }
    let low = byte - 128;
    let least_high = least_high(least, low);
    if most < low || (most - low) / 128 < least_high {
        return Err(Malformed { place: at });
    }
    let (high, next) = read_number(bytes, at + 1, least_high, (most - low) / 128)?;
    Ok((low + 128 * high, next))
}

// The least number of 128s, one at least, with which `low` reaches `least`.
fn least_high(least: u64, low: u64) -> u64
    requires { low < 128 }
    ensures { IsLeastHigh least low result }
{
    if least <= low + 128 {
        1
    } else {
        (least - low - 1) / 128 + 1
    }
}
