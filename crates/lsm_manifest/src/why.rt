//! Why a manifest could not be read.

/// Why a manifest could not be read. Places are counted in bytes from its start.
#[derive(Clone, Copy, Debug, PartialEq, Eq)]
pub enum ManifestWhy {
    /// The view could not be read.
    ReadFault,
    /// The piece here is whole and in its block, and its checksum differs: the one that it keeps,
    /// and the one that its bytes have, both masked.
    Damaged { place: u64, kept: u32, found: u32 },
    /// Something here is neither a piece in its block nor zeros that end one, or is a piece of a
    /// kind that may not come here.
    Malformed { place: u64 },
    /// Memory was wanted and not there.
    NoMemory,
    /// The record that begins here is no edit.
    BadEdit { place: u64 },
}
