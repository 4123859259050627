// Why a text is no name, and two paths no path.
use thiserror::Error;

/// The text isn't the one spelling of a name of its kind.
#[derive(Clone, Copy, Debug, Error, PartialEq, Eq)]
#[error("not a name")]
pub struct NotAName;

/// The joined path would have more than 160 bytes.
#[derive(Clone, Copy, Debug, Error, PartialEq, Eq)]
#[error("the path is longer than 160 bytes")]
pub struct TooLong;
