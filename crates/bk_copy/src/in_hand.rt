//! A copy into the file that a destination has in hand.
ghost use Rattle.std.specs.Prelude.{◌≡◌, ◌++◌, ℕ, List, OnOk, IfErr};
ghost use Rattle.bk_copy.specs.InHand.{IsReady, HasGained, HasStopped};

use crate::Target;
use lsm_disk::{Dest, DestError};

/// The file that a destination has in hand.
#[derive(Clone, Copy, Debug)]
pub struct InHand;

impl<T: Dest> Target<T> for InHand {
    type Refusal = DestError;

    ghost ready = { λ it dest. IsReady (T.seen dest) };

    ghost gained = { λ it first text dest. HasGained (T.seen first) text (T.seen dest)
        × ((begin : T) → T.leads begin first → T.leads begin dest) };

    ghost stopped = { λ it first dest why. HasStopped (T.seen first) (T.seen dest) why
        × ((begin : T) → T.leads begin first → T.leads begin dest) };

    fn add(&self, holder: &mut T, piece: &[u8]) -> Result<(), DestError> {
        match holder.append(piece) {
            Ok(()) => Ok(()),
            Err(why) => Err(why),
        }
    }
}
