//! Why a folder can't be read as a store's.
use lsm_names::FileName;

/// Why a folder can't be read as a store's: the first trouble, where `CURRENT` is read first, then the manifest, then the
/// version's tables by their numbers, and then the logs by theirs, each from its start on. Places and lengths are counted
/// in bytes.
#[derive(Clone, Copy, Debug, PartialEq, Eq)]
pub enum Refusal {
    /// No folder stands there.
    NoFolder,
    /// The folder has no `CURRENT`.
    NoCurrent,
    /// A file that is needed isn't there.
    Missing {
        name: FileName,
    },
    /// A table has `found` bytes, and the version says that it has `kept`.
    Short {
        name: FileName,
        kept: u64,
        found: u64,
    },
    /// What begins here isn't what the file may hold here.
    Malformed {
        name: FileName,
        place: u64,
    },
    /// What begins here is whole, and its checksum differs: the one that it keeps, and the one that its bytes have, both
    /// masked.
    Damaged {
        name: FileName,
        place: u64,
        kept: u32,
        found: u32,
    },
    /// A log ends inside the record that begins here, and it isn't the last log.
    TornLog {
        name: FileName,
        place: u64,
    },
    /// A batch's first sequence isn't the expected one, `kept`, but `found`.
    Gap {
        name: FileName,
        kept: u64,
        found: u64,
    },
    /// An edit would leave two tables of a level from 1 on that overlap, `left` with the smaller number.
    BadLevels {
        level: u8,
        left: u64,
        right: u64,
    },
}
