//! The file in hand.
ghost use Rattle.std.specs.Prelude.{IsTrue};
ghost use Rattle.lsm_dest.specs.FileNames.{is_spelled};

use lsm_names::FileName;

/// A name that has a spelling.
#[derive(Clone, Copy)]
pub struct Hand {
    pub name: FileName,
    ghost spelled: { IsTrue (is_spelled name) },
}
