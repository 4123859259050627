//! A copy into a new file of a disk.
ghost use Rattle.std.specs.Prelude.{◌≡◌, ◌++◌, ℕ, List, OnOk, IfErr};
ghost use Rattle.bk_copy.specs.OnDisk.{HasGained, HasStopped};

use crate::Target;
use lsm_disk::{Disk, DiskError};
use lsm_names::Path;

impl<B: Disk> Target<B> for Path {
    type Refusal = DiskError;

    ghost ready = { λ path disk. Unit {0} };

    ghost gained = { λ path first text disk. HasGained path (B.seen first) text (B.seen disk) };

    ghost stopped = { λ path first disk why. HasStopped path (B.seen first) (B.seen disk) why };

    fn add(&self, holder: &mut B, piece: &[u8]) -> Result<(), DiskError> {
        match holder.append(self, piece) {
            Ok(()) => Ok(()),
            Err(why) => Err(why),
        }
    }
}
