//! The fields of an edit's text, and their order.
use crate::tables::{Add, Place};

// The tags.
pub(crate) const LOG_NUMBER: u8 = 1;

pub(crate) const NEXT_NUMBER: u8 = 2;

pub(crate) const LAST_SEQUENCE: u8 = 3;

pub(crate) const ADDED: u8 = 4;

pub(crate) const DROPPED: u8 = 5;

/// One field of an edit's text.
#[derive(Drop)]
pub enum Field {
    LogNumber(u64),
    NextNumber(u64),
    LastSequence(u64),
    Added(Add),
    Dropped(Place),
}

/// Where a field stands in the order of fields: by tag, then by level and number. A field of tag 1 to 3 has level
/// and number 0.
#[derive(Clone, Copy, Drop)]
pub struct Rank {
    pub tag: u8,
    pub level: u8,
    pub number: u64,
}
