//! The order in which shared names are kept.
ghost use Rattle.std.specs.Prelude.{◌≡◌};
ghost use Rattle.bk_shared.specs.Keeping.{key_of};

use lsm_names::{Session, SharedName};

/// A shared name that can be a key: ordered by its number, then by its session, then by its size.
#[derive(Clone, Copy, PartialEq, Eq, PartialOrd, Ord, Drop)]
pub(crate) struct Key {
    number: u64,
    session: Session,
    size: u64,
}

pub(crate) fn key_of(name: &SharedName) -> Key
    ensures { result ≡ key_of name.now }
{
    Key {
        number: name.number,
        session: name.session,
        size: name.size,
    }
}
