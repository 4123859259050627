//! A view, copied piece by piece.
ghost use Rattle.std.specs.Prelude.{◌≡◌, ◌+◌, ◌^◌, ◌≤◌, ◌<◌, ◌++◌, [], ℕ, List, length, OnOk, IfOk, IfErr};
ghost use Rattle.lsm_io.specs.Causes.{Rose};
ghost use Rattle.bk_copy.specs.Copying.{piece_at, IsRead, IsFrontOf, IsCopyOf, IsSameView, StopsBy};
ghost use Rattle.bk_copy.specs.declared.copying.CopyError.TheVariants as errors;

use crate::Target;
use lsm_bytes::Crc;
use lsm_disk::View;
use std::alloc::Global;

/// The most bytes that are read and added at once.
const PIECE_LIMIT: u64 = 1_048_576;

/// Why a copy stopped.
#[derive(Drop)]
pub enum CopyError<R> {
    /// A piece was refused.
    Refused(R),
    /// The view could not be read.
    Source,
    /// Memory was wanted and not there, and nothing was done.
    NoMemory,
}

/// How many bytes the piece has that begins at this place.
fn piece_at(len: u64, at: u64) -> usize
    requires { at ≤ len }
    ensures { result ≡ piece_at len at }
{
    (len - at).min(PIECE_LIMIT) as usize
}

/// Reads a piece of a view, and adds it.
fn copy_piece<S, P: Target<S>, V: View>(
    holder: &mut S,
    target: &P,
    view: &mut V,
    at: u64,
    piece: &mut [u8],
    crc: &mut Crc,
) -> Result<(), CopyError<P::Refusal>>
    requires place { at + length piece.old ≤ (V.viewed view.old).len }
    requires ready { P.ready target.now holder.old }
    ensures read { (text : List ℕ) → IsRead (V.viewed view.old) at crc.old text
        → OnOk result (IsRead (V.viewed view.new) (at + length piece.old) crc.new (text ++ piece.new)) }
    ensures ready { OnOk result (P.ready target.now holder.new) }
    ensures gained { OnOk result ((first : S) (text : List ℕ) → P.gained target.now first text holder.old
        → P.gained target.now first (text ++ piece.new) holder.new) }
    ensures stopped { (first : S) (text : List ℕ) → P.gained target.now first text holder.old
        → IfErr result (StopsBy (P.stopped target.now first holder.new) (Rose (V.viewed view.old).faults (V.viewed view.new).faults)
        (P.gained target.now first text holder.new) ⊥) }
    ensures view { IsSameView (V.viewed view.old) (V.viewed view.new) }
{
    let Ok(()) = view.read_at(at, piece) else {
        return Err(CopyError::Source);
    };
    crc.update(piece);
    match target.add(holder, piece) {
        Ok(()) => Ok(()),
        Err(why) => Err(CopyError::Refused(why)),
    }
}

/// Copies all bytes of a view to a target that has none yet, and gives the checksum.
pub fn copy_view<S, P: Target<S>, V: View>(
    alloc: Global,
    holder: &mut S,
    target: &P,
    view: &mut V,
) -> Result<u32, CopyError<P::Refusal>>
    requires ready { P.ready target.now holder.old }
    requires none { P.gained target.now holder.old [] holder.old }
    // Ok has added the view's bytes, and gives their checksum.
    ensures copied { IfOk result (λ crc. (text : List ℕ) × IsCopyOf (V.viewed view.old) crc text
        × P.gained target.now holder.old text holder.new) }
    ensures fits { IfOk result (λ crc. crc < 2 ^ 32) }
    ensures ready { OnOk result (P.ready target.now holder.new) }
    // A refused piece is told as the target tells it. A fault of the view leaves a prefix of its bytes, want of memory nothing.
    ensures stopped { IfErr result (StopsBy (P.stopped target.now holder.old holder.new)
        (Rose (V.viewed view.old).faults (V.viewed view.new).faults)
        ((text : List ℕ) × IsFrontOf (V.viewed view.old) text × P.gained target.now holder.old text holder.new)
        (P.gained target.now holder.old [] holder.new)) }
    ensures view { IsSameView (V.viewed view.old) (V.viewed view.new) }
{
    let len = view.len();
    let Ok(mut buffer) = vec![in alloc; 0u8; piece_at(len, 0)] else {
        return Err(CopyError::NoMemory);
    };
    let mut crc = Crc::new();
    let mut at: u64 = 0;
    while at < len {
        let size = piece_at(len, at);
        let piece = buffer.split_at_mut(size).0;
        match copy_piece(holder, target, view, at, piece, &mut crc) {
            Ok(()) => {}
            Err(why) => return Err(why),
        }
        at += size as u64;
    }
    Ok(crc.value())
}
