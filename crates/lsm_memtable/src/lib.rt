//! Rows in memory, in the order of their internal keys, and their flush into a table.
#![tactic(auto)]

mod flush;
mod laws;
mod memtable;
mod places;
mod progress;
mod row_map;
mod sizes;
mod versions;

pub use flush::{Flush, FlushPiece};
pub use laws::{
    newest_rows_make_a_table, no_bytes_before_the_first_row, the_newest_of_each_key_stay_newest,
};
pub use memtable::MemTable;
