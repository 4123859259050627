//! The claims of tests.

use lsm_bytes::NoMemory;
use std::process::Abort;

/// A test's claim. What it claims is no fact for the proof of the test.
pub fn sure(rt: &impl Abort, holds: Result<bool, NoMemory>) {
    assert!(rt; matches!(holds, Ok(true)));
}
