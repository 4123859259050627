//! Batches of operations with their text, rows with their internal keys, and what both stand for.
//!
//! [`Pairs`] is what a store holds after its batches: keys with their values, in the order of keys.
#![tactic(auto)]

mod batches;
mod decoding;
mod encoding;
mod header;
mod internal_keys;
mod laws;
mod lengths;
mod limits;
mod operations;
mod pairs;
mod refusals;
mod rows;

pub use batches::Batch;
pub use decoding::{BatchError, decode_batch};
pub use encoding::encode_batch;
pub use internal_keys::{
    InternalKey, InternalParts, Kind, compare_internal_keys, parse_internal_key,
};
pub use laws::{
    a_text_is_of_one_batch, compaction_keeps_contents, contents_depend_on_the_newest,
    contents_have_the_newest, greater_sequences_come_first, rows_stand_for_the_replay,
    the_newest_has_the_greatest_sequence, written_batches_are_texts,
};
pub use limits::{MAX_BYTES, MAX_COUNT, MAX_KEY, MAX_VALUE, SEQUENCES};
pub use operations::Op;
pub use pairs::Pairs;
pub use refusals::{BatchRefusal, What};
pub use rows::{Row, Rows};
