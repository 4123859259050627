//! How a text ends.

/// How a text ends. Places are counted in bytes from the text's start.
#[derive(Clone, Copy, Debug, PartialEq, Eq)]
pub enum Ending {
    /// Behind a whole record, or inside the zeros that end a block.
    End,
    /// Inside a record, which begins here.
    Torn { place: u64 },
    /// The piece here is whole and in its block, and its checksum differs: the one that it keeps, and the one that
    /// its bytes have, both masked.
    Damaged { place: u64, kept: u32, found: u32 },
    /// Something here is neither a piece in its block nor zeros that end one, or is a piece of a kind that may not
    /// come here.
    Malformed { place: u64 },
}
