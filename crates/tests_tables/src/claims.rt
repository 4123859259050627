//! What a test claims, and a case that stops before it can tell.
use lsm_block::BlockError;
use lsm_bytes::NoMemory;
use lsm_table::TableFault;
use std::process::Abort;

/// A call refused that was to go well.
#[derive(Clone, Copy)]
pub struct Stopped;

/// Whether a claim holds; a case that stops makes none.
pub fn holds(claim: Result<bool, Stopped>) -> bool {
    matches!(claim, Ok(true))
}

/// A claim of a test. What it claims is no fact for the proof of the test.
pub fn sure(rt: &impl Abort, claim: Result<bool, Stopped>) {
    assert!(rt; holds(claim));
}

impl From<NoMemory> for Stopped {
    fn from(_: NoMemory) -> Self {
        Stopped
    }
}

impl From<BlockError> for Stopped {
    fn from(_: BlockError) -> Self {
        Stopped
    }
}

impl From<TableFault> for Stopped {
    fn from(_: TableFault) -> Self {
        Stopped
    }
}
