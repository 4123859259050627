//! Sorted blocks: the entries of a table in pieces of about 4,096 bytes, each of which is searched by itself.
#![tactic(auto)]

mod blocks;
mod building;
mod entries;
mod errors;
mod laws;
mod reading;
mod writing;

pub use blocks::Block;
pub use building::BlockBuilder;
pub use entries::Entry;
pub use errors::BlockError;
pub use laws::{
    a_refusal_has_one_place, a_table_has_one_text, a_text_is_of_one_block,
    an_entry_takes_thirty_bytes_more_at_most, written_block_is_read,
};
