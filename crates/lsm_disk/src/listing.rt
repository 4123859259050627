//! What stands in a folder.
ghost use Rattle.std.specs.Prelude.{◌≡◌};

use crate::Kind;
use lsm_names::Path;
use std::marker::Model;

/// A name in a folder: its one component, and what stands there.
#[derive(Clone, Copy, Debug, PartialEq, Eq)]
pub struct Entry {
    pub name: Path,
    pub kind: Kind,
}

/// The entries of a folder, in the order of their bytes. A contract sees it as their list.
#[derive(Drop)]
pub struct Listing {
    entries: Vec<Entry>,
}

impl Model for Listing {
    ghost use Rattle.std.specs.Prelude.{List};
    ghost use Rattle.lsm_disk.specs.declared.listing.Entry.{Entry};

    ghost Value = { List Entry };

    ghost view = { λ l. l.entries.items };
}

impl Listing {
    /// The listing of these entries.
    pub fn of(entries: Vec<Entry>) -> Listing
        ensures { result ≡ entries.items }
    {
        Listing { entries }
    }

    /// The entries, lent.
    pub fn as_slice(&self) -> &[Entry]
        ensures { result.now ≡ self.now }
    {
        self.entries.as_slice()
    }

    /// The entries, handed over.
    pub fn into_entries(self) -> Vec<Entry>
        ensures { result.items ≡ self }
    {
        self.entries
    }
}
