//! The one answer of a call that the outside refused.

use thiserror::Error;

/// The outside refused a call. It comes only where the count of faults of the object that was called rose.
#[derive(Clone, Copy, Debug, PartialEq, Eq, Error)]
#[error("a call to the outside failed")]
pub struct Failed;
