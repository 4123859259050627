//! What a test claims, and a case that stops before it can tell.
use lsm_bytes::NoMemory;
use lsm_rows::{BatchError, BatchRefusal};
use std::process::Abort;

/// A call refused that was to go well.
#[derive(Clone, Copy)]
pub struct Stopped;

/// A claim of a test. What it claims is no fact for the proof of the test.
pub fn sure(rt: &impl Abort, holds: Result<bool, Stopped>) {
    assert!(rt; matches!(holds, Ok(true)));
}

impl From<NoMemory> for Stopped {
    fn from(_: NoMemory) -> Self {
        Stopped
    }
}

impl From<BatchRefusal> for Stopped {
    fn from(_: BatchRefusal) -> Self {
        Stopped
    }
}

impl From<BatchError> for Stopped {
    fn from(_: BatchError) -> Self {
        Stopped
    }
}
