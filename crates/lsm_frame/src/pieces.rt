//! The pieces of a record, and the zeros that end a block.
ghost use Rattle.std.specs.Prelude.{◌≡◌, ◌++◌, ◌∷◌, false, ◌≤◌, ◌<◌, ◌^◌, length, replicate, OnOk};
ghost use Rattle.lsm_bytes.specs.Checksum.{masked, crc32c};
ghost use Rattle.lsm_frame.specs.Begins.{Begins};
ghost use Rattle.lsm_frame.specs.Frames.{piece, kind_of, cut};

use lsm_bytes::{Bytes, Crc, NoMemory, mask};

/// How many bytes a block has.
pub(crate) const BLOCK: usize = 32_768;

/// How many bytes of a piece stand before its part of the record.
pub(crate) const HEADER: usize = 7;

/// As many zeros as a block ends with at most.
const ZEROS: [u8; HEADER - 1] = [0; 6];

fn kind(begun: bool, ends: bool) -> u8
    ensures { result ≡ kind_of begun ends }
{
    match (begun, ends) {
        (false, true) => 1,
        (false, false) => 2,
        (true, false) => 3,
        (true, true) => 4,
    }
}

/// The checksum that a piece of this kind and part keeps.
pub(crate) fn checksum(kind: u8, part: &[u8]) -> u32
    ensures { result ≡ masked (crc32c (kind ∷ part.now)) }
{
    let mut crc = Crc::new();
    crc.update(&[kind]);
    crc.update(part);
    mask(crc.value())
}

// Writes one piece. After an error some of it may stand behind what was there.
#[tactic(auto, using(crate::proofs::Beginnings::beginnings), unfolding(crate::specs::Frames::piece))]
fn push_piece(out: &mut Bytes, kind: u8, part: &[u8]) -> Result<(), NoMemory>
    requires { length part.now < 2 ^ 16 }
    ensures text { OnOk result (out.new ≡ out.old ++ piece kind part.now) }
    ensures begins { Begins out.old out.new }
{
    out.extend_from_slice(&checksum(kind, part).to_le_bytes())?;
    out.extend_from_slice(&(part.len() as u16).to_le_bytes())?;
    out.push(kind)?;
    out.extend_from_slice(part)?;
    Ok(())
}

/// Writes the pieces of a record behind an offset in a block that has room for a header. After an error some of them
/// may stand behind what was there.
pub(crate) fn push_pieces(out: &mut Bytes, offset: usize, payload: &[u8]) -> Result<(), NoMemory>
    requires { offset ≤ 32761 }
    ensures text { OnOk result (out.new ≡ out.old ++ cut (length payload.now) false offset payload.now) }
    ensures begins { Begins out.old out.new }
{
    let mut rest = payload;
    let mut begun = false;
    let mut space = BLOCK - HEADER - offset;
    while rest.len() > space {
        let (front, back) = rest.split_at(space);
        push_piece(out, kind(begun, false), front)?;
        rest = back;
        begun = true;
        space = BLOCK - HEADER;
    }
    push_piece(out, kind(begun, true), rest)?;
    Ok(())
}

/// Writes the zeros that end a block.
pub(crate) fn push_zeros(out: &mut Bytes, count: usize) -> Result<(), NoMemory>
    requires { count ≤ 6 }
    ensures text { OnOk result (out.new ≡ out.old ++ replicate count 0) }
    ensures begins { Begins out.old out.new }
{
    out.extend_from_slice(&ZEROS[..count])?;
    Ok(())
}
