//! How large a batch and its operations may be. The tests of a batch and of a text's reading are by these.

/// The most bytes of a key.
pub const MAX_KEY: usize = 65_535;

/// The most bytes of a value.
pub const MAX_VALUE: usize = 1_048_576;

/// The most operations of a batch.
pub const MAX_COUNT: usize = 1_024;

/// The most bytes of a batch's text.
pub const MAX_BYTES: usize = 4_194_304;

/// Where the operations begin in a batch's text: behind 8 bytes of first sequence and 4 bytes of count.
pub(crate) const HEADER: usize = 12;

/// Every sequence is below this.
pub const SEQUENCES: u64 = 1 << 56;
