//! The claim of a test.

use lsm_bytes::NoMemory;
use std::process::Abort;

/// Ends the test where its case doesn't hold, also where memory was wanting. It is no fact for the
/// test's proof.
pub fn sure(rt: &impl Abort, holds: Result<bool, NoMemory>) {
    assert!(rt; matches!(holds, Ok(true)));
}
