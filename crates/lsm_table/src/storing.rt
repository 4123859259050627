//! Contents as a table stores them, with a checksum behind.
ghost use Rattle.std.specs.Prelude.{◌≡◌, ◌++◌, ◌∷◌, [], OnOk, OnErr};
ghost use Rattle.lsm_bytes.specs.Checksum.{crc32c};
ghost use Rattle.lsm_block.specs.TableText.{stored};

use lsm_bytes::{Bytes, Crc, NoMemory, mask};

/// How many bytes stand behind stored contents: one that says that they aren't compressed, and four of checksum.
pub const BEHIND: usize = 5;

// Contents that aren't compressed.
const PLAIN: u8 = 0;

/// Adds contents as they are stored, whole or not at all.
pub fn push_stored(out: &mut Bytes, contents: &[u8]) -> Result<(), NoMemory>
    ensures ok { OnOk result (out.new ≡ out.old ++ stored contents.now) }
    ensures err { OnErr result (out.new ≡ out.old) }
{
    let kept = mask(stored_checksum(contents)).to_le_bytes();
    let before = out.len();
    out.extend_from_slice(contents)?;
    match out.extend_from_slice(&[PLAIN, kept[0], kept[1], kept[2], kept[3]]) {
        Ok(()) => Ok(()),
        Err(refused) => {
            out.truncate(before);
            Err(refused)
        }
    }
}

/// The checksum of bytes.
pub fn checksum(bytes: &[u8]) -> u32
    ensures { result ≡ crc32c bytes.now }
{
    let mut crc = Crc::new();
    crc.update(bytes);
    crc.value()
}

// The checksum of contents and of the byte behind them.
fn stored_checksum(contents: &[u8]) -> u32
    ensures { result ≡ crc32c (contents.now ++ 0 ∷ []) }
{
    let mut crc = Crc::new();
    crc.update(contents);
    crc.update(&[PLAIN]);
    crc.value()
}
