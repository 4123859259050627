//! Why a table could not be read.
ghost use Rattle.std.specs.Prelude.{◌≡◌};

use lsm_bytes::NoMemory;
use lsm_disk::ViewFault;

/// Why a table could not be read. Places are counted in bytes from the table's start; each is that of the first byte of
/// the block, index, properties or footer concerned.
#[derive(Clone, Copy, Debug, PartialEq, Eq)]
pub enum TableFault {
    /// The view could not be read.
    ReadFault,
    /// The checksum differs: the one that the table keeps, and the one that its bytes have, both masked.
    Damaged { place: u64, kept: u32, found: u32 },
    /// What stands here isn't in a table's grammar.
    Malformed { place: u64 },
    /// Memory was wanted and not there.
    NoMemory,
}

/// A table that could not be opened.
#[derive(Drop)]
pub struct TableError<V> {
    pub why: TableFault,
    /// The view, handed back.
    pub view: V,
}

impl From<NoMemory> for TableFault {
    ghost use Rattle.lsm_table.specs.declared.faults.TableFault.TheVariants.{NoMemory};

    ghost from_gives = { λ _ r. r ≡ NoMemory };

    fn from(_: NoMemory) -> Self {
        TableFault::NoMemory
    }
}

impl From<ViewFault> for TableFault {
    ghost use Rattle.lsm_table.specs.declared.faults.TableFault.TheVariants.{ReadFault};

    ghost from_gives = { λ _ r. r ≡ ReadFault };

    fn from(_: ViewFault) -> Self {
        TableFault::ReadFault
    }
}
