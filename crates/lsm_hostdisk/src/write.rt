//! Writing all of some bytes.
ghost use Rattle.std.specs.Prelude.{◌<◌, ◌≤◌, length, IfOk};
ghost use Rattle.std.specs.Io.KnownBytes.{WriteAppends};
ghost use Rattle.lsm_io.specs.Takes.{Takes};

use crate::answers::is_interrupted;
use lsm_disk::DiskError;
use std::io::Write;

/// One write, made again where it was interrupted. That nothing of some bytes is taken is a fault.
fn write_some<W: Write>(writer: &mut W, bytes: &[u8]) -> Result<usize, DiskError>
    ensures some { IfOk result (λ count. 0 < count) }
    ensures bound { IfOk result (λ count. count ≤ length bytes.now) }
    ensures bytes { WriteAppends (W.contents writer.old) (W.contents writer.new) result bytes.now }
{
    for _ in 0..u64::MAX {
        match writer.write(bytes) {
            Ok(count) => {
                if count == 0 {
                    return Err(DiskError::Fault);
                }
                return Ok(count);
            }
            Err(error) => {
                if !is_interrupted(&error) {
                    return Err(DiskError::Fault);
                }
            }
        }
    }
    Err(DiskError::Fault)
}

/// Writes all the bytes, in as many writes as it takes. Behind a fault some front of them is
/// written.
pub(crate) fn write_whole<W: Write>(writer: &mut W, bytes: &[u8]) -> Result<(), DiskError>
    ensures { Takes (W.contents writer.old) (W.contents writer.new) result bytes.now }
{
    let mut rest = bytes;
    while !rest.is_empty() {
        match write_some(writer, rest) {
            Ok(count) => rest = rest.split_at(count).1,
            Err(error) => return Err(error),
        }
    }
    Ok(())
}
