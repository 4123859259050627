//! The copy of a view's bytes, in pieces and with their checksum on the way: into a new file of a
//! disk, or into the file that a destination has in hand. What is made before and behind the
//! bytes is left to the caller.
#![tactic(auto)]

mod copying;
mod in_hand;
mod on_disk;
mod target;

pub use copying::{CopyError, copy_view};
pub use in_hand::InHand;
pub use target::Target;
