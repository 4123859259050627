//! The claim of a test.

use lsm_disk::DiskError;
use std::process::Abort;

/// Ends the test where its case doesn't hold, also where its disk can't be made. It is no fact for
/// the test's proof.
pub fn sure(rt: &impl Abort, holds: Result<bool, DiskError>) {
    assert!(rt; matches!(holds, Ok(true)));
}
