//! Numbers of a fixed size in bytes, the lowest byte first.
ghost use Rattle.std.specs.Prelude.{◌≡◌, ◌+◌, ◌≤◌, ◌↔◌, length, drop, IfOk, IfErr, IsOk};
ghost use Rattle.lsm_bytes.specs.Numbers.{number_at};

use crate::Malformed;
use byteorder::{ByteOrder, LittleEndian};

/// Reads the 16 bits at a place.
pub fn read_u16(bytes: &[u8], at: usize) -> Result<u16, Malformed>
    ensures whole { IsOk result ↔ (at + 2 ≤ length bytes.now) }
    ensures value { IfOk result (λ n. n ≡ number_at 2 bytes.now at) }
    ensures early { IfErr result (λ e. e.place ≡ length bytes.now) }
{
    let number = bytes_at(bytes, at, 2)?;
    Ok(LittleEndian::read_u16(number))
}

/// Reads the 32 bits at a place.
pub fn read_u32(bytes: &[u8], at: usize) -> Result<u32, Malformed>
    ensures whole { IsOk result ↔ (at + 4 ≤ length bytes.now) }
    ensures value { IfOk result (λ n. n ≡ number_at 4 bytes.now at) }
    ensures early { IfErr result (λ e. e.place ≡ length bytes.now) }
{
    let number = bytes_at(bytes, at, 4)?;
    Ok(LittleEndian::read_u32(number))
}

/// Reads the 64 bits at a place.
pub fn read_u64(bytes: &[u8], at: usize) -> Result<u64, Malformed>
    ensures whole { IsOk result ↔ (at + 8 ≤ length bytes.now) }
    ensures value { IfOk result (λ n. n ≡ number_at 8 bytes.now at) }
    ensures early { IfErr result (λ e. e.place ≡ length bytes.now) }
{
    let number = bytes_at(bytes, at, 8)?;
    Ok(LittleEndian::read_u64(number))
}

/// The bytes from a place on, of which there are at least so many.
fn bytes_at(bytes: &[u8], at: usize, size: usize) -> Result<&[u8], Malformed>
    ensures whole { IsOk result ↔ (at + size ≤ length bytes.now) }
    ensures found { IfOk result (λ rest. rest.now ≡ drop at bytes.now) }
    ensures early { IfErr result (λ e. e.place ≡ length bytes.now) }
{
    let len = bytes.len();
    if at > len || len - at < size {
        return Err(Malformed { place: len });
    }
    Ok(bytes.split_at(at).1)
}
