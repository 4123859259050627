//! Bytes, numbers and checksums as the store's files hold them.
//!
//! [`Bytes`] is the list of bytes that the crates above pass on and keep. Numbers of a fixed size and
//! varints are read out of a slice at a place, and varints are written at the end of a list. [`Crc`] is
//! CRC32C, taken piece by piece.
#![tactic(auto)]

mod byte_list;
mod checksum;
mod laws;
mod malformed;
mod no_memory;
mod numbers;
mod tables;
mod varint;

pub use byte_list::Bytes;
pub use checksum::{Crc, mask, unmask};
pub use laws::{
    crc_has_32_bits, crc_of_pieces, mask_of_unmasked, no_spelling_begins_another,
    one_varint_stands_at_a_place, spelling_has_ten_bytes, unmask_of_masked,
    varint_is_the_only_spelling, varint_spells, written_number_stands, written_varint_stands,
};
pub use malformed::Malformed;
pub use no_memory::NoMemory;
pub use numbers::{read_u16, read_u32, read_u64};
pub use varint::{push_varint, read_varint};
