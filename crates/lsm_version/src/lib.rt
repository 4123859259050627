//! Edits of a version, and the version that they make: which tables are live, and at which levels.
#![tactic(auto)]

mod choices;
mod decoding;
mod edits;
mod encoding;
mod field_reading;
mod fields;
mod laws;
mod numbers;
mod orders;
mod refusals;
mod table_reading;
mod tables;
mod version;

pub use choices::{Choice, Inputs};
pub use decoding::decode_edit;
pub use edits::{Adds, Drops, Edit};
pub use encoding::encode_edit;
pub use laws::{
    a_text_is_of_one_edit, places_are_all, places_ascend, the_search_finds_all,
    written_edits_are_texts,
};
pub use refusals::{ApplyError, EditError};
pub use tables::{Add, Place, Placed, TableInfo};
pub use version::Version;
