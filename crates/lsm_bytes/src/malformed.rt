//! The answer of a reader that found no number.
use thiserror::Error;

/// The bytes hold no number at the place that was asked.
#[derive(Clone, Copy, Debug, PartialEq, Eq, Error)]
#[error("malformed at {place}")]
pub struct Malformed {
    /// The first place at which nothing that might follow could still make a number: that of the wrong
    /// byte, or the end of bytes that end early.
    pub place: usize,
}
