//! What a search for a key meets.
use lsm_rows::Row;

/// A row of the key that is looked for, and the level of its table.
#[derive(Drop)]
pub(crate) struct Met {
    pub(crate) row: Row,
    pub(crate) level: u8,
}
